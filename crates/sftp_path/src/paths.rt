//! Paths.
ghost use Rattle.std.specs.Prelude.{◌≡◌, IfOk, OnErr, IsTrue, false};
ghost use Rattle.sftp_path.specs.Place as spec;

use crate::names::{NAME_LIMIT, NUL};
use crate::parts::Parts;
use thiserror::Error;

/// The most bytes of a path. The limit is this profile's own.
const PATH_LIMIT: usize = 4096;

/// The path is bad: longer than 4,096 bytes, with a component longer than 255, or with a byte 0.
#[derive(Clone, Copy, Debug, PartialEq, Eq, Error)]
#[error("bad path")]
pub struct BadPath;

/// The components of a path, in order, and whether the path is absolute. Empty components are skipped.
///
/// # Errors
///
/// `BadPath` if the path is bad.
pub fn components(path: &[u8]) -> Result<Parts<'_>, BadPath>
    ensures good { IfOk result (λ p. IsTrue (spec.is_good_path path.now)) }
    ensures parts { IfOk result
        (λ p. p ≡ record { absolute = spec.is_absolute path.now; left = spec.components path.now }) }
    ensures bad { OnErr result (spec.is_good_path path.now ≡ false) }
{
    if !good_path(path) {
        return Err(BadPath);
    }
    Ok(Parts::new(path))
}

/// Whether the path has no byte 0, at most 4,096 bytes, and no component of more than 255.
pub fn good_path(path: &[u8]) -> bool
    ensures { result ≡ spec.is_good_path path.now }
{
    if path.len() > PATH_LIMIT {
        return false;
    }
    let mut component_len = 0;
    for byte in path {
        if *byte == NUL {
            return false;
        }
        component_len = if *byte == b'/' { 0 } else { component_len + 1 };
        if component_len > NAME_LIMIT {
            return false;
        }
    }
    true
}
