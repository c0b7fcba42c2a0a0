//! Whether a path that a request walks ends loosely (draft, section 6.2).
ghost use Rattle.std.specs.Prelude.{◌≡◌};
ghost use Rattle.sftp_profile.specs.BytesRead as spec;

use sftp_path::{Parts, is_dot, is_dot_dot};
use sftp_tree::{new_path_of, path_of};
use sftp_wire::Ask;

/// Whether a path that the request walks ends loosely.
pub(crate) fn walks_loosely(ask: &Ask) -> bool
    ensures { result ≡ spec.walks_loosely ask.now }
{
    path_of(ask).is_some_and(is_loose) || new_path_of(ask).is_some_and(is_loose)
}

/// Whether a path is empty, ends in `/` after a name, or ends in `.` or `..`.
pub(crate) fn is_loose(path: &[u8]) -> bool
    ensures { result ≡ spec.is_loose path.now }
{
    path.is_empty() || ends_in_slash(path) || ends_in_dots(path)
}

/// Whether a path ends in `/` after a component.
fn ends_in_slash(path: &[u8]) -> bool
    ensures { result ≡ spec.ends_in_slash path.now }
{
    path.ends_with(b"/") && !Parts::new(path).is_empty()
}

/// Whether the last component of a path that ends in no `/` is `.` or `..`.
fn ends_in_dots(path: &[u8]) -> bool
    ensures { result ≡ spec.ends_in_dots path.now }
{
    is_dot(path) || is_dot_dot(path) || path.ends_with(b"/.") || path.ends_with(b"/..")
}
