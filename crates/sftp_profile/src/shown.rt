//! What is shown of the entries of a session (draft, sections 6.7 and 6.8).
ghost use Rattle.std.specs.Prelude.{◌≡◌, IfOk, option_copied};
ghost use Rattle.sftp_tree.specs.Told.{stat_ask};
ghost use Rattle.sftp_profile.specs.Shown as spec;

use sftp_handles::{GivenTable, Listing, Session};
use sftp_path::Name;
use sftp_tree::{NoMemory, Refused, Tree};
use sftp_wire::{Ask, Attrs};
use std::alloc::Global;

/// The attributes that a request asks for; `None` if it asks for none, or a cause refuses it.
///
/// # Errors
///
/// `NoMemory` if memory runs out.
pub(crate) fn shown_in(session: &Session<GivenTable>, ask: &Ask) -> Result<Option<Attrs>, NoMemory>
    ensures { IfOk result (λ shown. shown ≡ spec.shown_in session.now ask.now) }
{
    match ask {
        Ask::Stat { path } => shown_at(session.tree(), path.as_slice(), true),
        Ask::Lstat { path } => shown_at(session.tree(), path.as_slice(), false),
        Ask::Fstat { handle } => Ok(shown_open(session, handle.as_slice())),
        _ => Ok(None),
    }
}

/// The attributes that a STAT shows, or an LSTAT if no last link is followed.
///
/// # Errors
///
/// `NoMemory` if memory runs out.
pub(crate) fn shown_at(tree: &Tree, path: &[u8], follow: bool) -> Result<Option<Attrs>, NoMemory>
    ensures { IfOk result (λ shown. shown ≡ spec.shown_at tree.now (stat_ask follow path.now)) }
{
    match tree.stat(path, follow) {
        Ok(attrs) => Ok(Some(attrs)),
        Err(Refused::Cause(_)) => Ok(None),
        Err(Refused::NoMemory) => Err(NoMemory),
    }
}

/// The attributes that an FSTAT shows.
pub(crate) fn shown_open(session: &Session<GivenTable>, handle: &[u8]) -> Option<Attrs>
    ensures { result ≡ spec.shown_open session.now handle.now }
{
    match session.stat_open(handle) {
        Ok(attrs) => Some(attrs),
        Err(_) => None,
    }
}

/// What the listing that a READDIR asks for still has to give.
pub(crate) fn left_of<'a>(session: &'a Session<GivenTable>, ask: &Ask) -> Option<&'a Listing>
    ensures { option_copied result ≡ spec.left_of session.now ask.now }
{
    match ask {
        Ask::Readdir { handle } => session.listing(handle.as_slice()),
        _ => None,
    }
}

/// The attributes of a name that is left.
///
/// # Errors
///
/// `NoMemory` if memory runs out.
pub(crate) fn shown_left<'a>(
    alloc: Global,
    left: Option<&'a Listing>,
    name: &[u8],
) -> Result<Option<&'a Attrs>, NoMemory>
    ensures { IfOk result
        (λ shown. option_copied shown ≡ spec.shown_left (option_copied left.entry) name.now) }
{
    let Some(left) = left else {
        return Ok(None);
    };
    let Some(name) = Name::from_slice(alloc, name)? else {
        return Ok(None);
    };
    let shown = left.find(&name);
    drop(name);
    Ok(shown)
}
