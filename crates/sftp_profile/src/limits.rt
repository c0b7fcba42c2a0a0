//! Requests at which servers with a real file system meet limits of their own.
ghost use Rattle.std.specs.Prelude.{◌≡◌, ◌+◌, ◌^◌, nat_le, option_copied};
ghost use Rattle.sftp_profile.specs.BytesRead as spec;

use sftp_tree::{new_path_of, path_of};
use sftp_wire::Ask;

/// The fewest bytes of a path that a file system may find too long.
const LONG: usize = 1024;

/// The first offset in a file that a file system may refuse.
const FAR: u64 = 0x8000_0000;

/// Whether a path or a link's target of the request is long, or it reads or writes far bytes.
pub(crate) fn is_beyond(ask: &Ask) -> bool
    ensures { result ≡ spec.is_beyond ask.now }
{
    path_of(ask).is_some_and(is_long)
        || new_path_of(ask).is_some_and(is_long)
        || target_of(ask).is_some_and(is_long)
        || reaches_far(ask)
}

/// Whether a file system may find a path too long.
fn is_long(path: &[u8]) -> bool
    ensures { result ≡ spec.is_long path.now }
{
    path.len() >= LONG
}

/// The target of a new link.
fn target_of(ask: &Ask) -> Option<&[u8]>
    ensures { option_copied result ≡ spec.target_of ask.now }
{
    match ask {
        Ask::Symlink { targetpath, .. } => Some(targetpath.as_slice()),
        _ => None,
    }
}

/// Whether the request reads or writes far bytes.
fn reaches_far(ask: &Ask) -> bool
    ensures { result ≡ spec.reaches_far ask.now }
{
    match ask {
        Ask::Read { offset, len, .. } => ends_far(*offset, *len as u64),
        Ask::Write { offset, bytes, .. } => ends_far(*offset, bytes.as_slice().len() as u64),
        _ => false,
    }
}

/// Whether as many bytes from the offset on end at byte 2^31 or further.
fn ends_far(offset: u64, count: u64) -> bool
    ensures { result ≡ nat_le (2 ^ 31) (offset + count) }
{
    offset >= FAR || count >= FAR - offset
}
