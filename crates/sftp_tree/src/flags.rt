//! The flags of OPEN (draft, section 6.3).
ghost use Rattle.std.specs.Prelude.{◌≡◌};
ghost use Rattle.sftp_packets.specs.Reading.{has_flag};
ghost use Rattle.sftp_tree.specs.Attributes as spec;

use bitflags::Flags;
use sftp_packets::OpenFlags;

/// Whether a file that does not exist is made.
pub(crate) fn creates(flags: u32) -> bool
    ensures { result ≡ spec.creates flags }
{
    has(flags, OpenFlags::CREAT)
}

/// Whether a file that exists becomes empty.
pub(crate) fn truncates(flags: u32) -> bool
    ensures { result ≡ spec.truncates flags }
{
    has(flags, OpenFlags::TRUNC)
}

/// Whether the file must not exist.
pub(crate) fn excludes(flags: u32) -> bool
    ensures { result ≡ spec.excludes flags }
{
    has(flags, OpenFlags::EXCL)
}

/// Whether a file can be opened with the flags: to be read or written, truncated or excluded only if it may be made,
/// truncated or appended to only if it is opened to be written, and with no unknown bit.
#[tactic(auto, unfolding(bitflags::proofs::OnLiterals::bitflags_on_literals))]
pub(crate) fn are_good(flags: u32) -> bool
    ensures { result ≡ spec.are_good flags }
{
    let reads = has(flags, OpenFlags::READ);
    let writes = has(flags, OpenFlags::WRITE);
    let appends = has(flags, OpenFlags::APPEND);
    (reads || writes)
        && (!(truncates(flags) || excludes(flags)) || creates(flags))
        && (!(truncates(flags) || appends) || writes)
        && OpenFlags::from_bits(flags).is_some()
}

/// Whether a flag is set.
fn has(flags: u32, flag: OpenFlags) -> bool
    ensures { result ≡ has_flag flags flag.0 }
{
    OpenFlags::from_bits_retain(flags).contains(flag)
}
