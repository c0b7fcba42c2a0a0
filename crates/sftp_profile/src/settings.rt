//! lsetstat@openssh.com: a SETSTAT that does not follow a last link (OpenSSH's PROTOCOL, section 4).
ghost use Rattle.std.specs.Prelude.{◌≡◌, ◌&&◌, ◌||◌, IfOk, option_copied};
ghost use Rattle.sftp_packets.specs.declared.requests.Ask.TheVariants as asks;
ghost use Rattle.sftp_handles.specs.Replies as words;
ghost use Rattle.sftp_profile.specs.Replaced as spec;

use crate::data::setstat_in;
use crate::paths::is_loose;
use crate::profiles::Profile;
use crate::refusals::has_code;
use crate::replaced::put;
use sftp_handles::{GivenTable, Session};
use sftp_tree::{NoMemory, Refused, Tree};
use sftp_wire::status::{BAD_MESSAGE, FAILURE, OK};
use sftp_wire::{Answer, Ask, Attrs, ByteString};
use std::alloc::Global;

/// The SETSTAT that has the path and the attributes of an lsetstat; `None` if the request is no lsetstat, or is
/// malformed.
///
/// # Errors
///
/// `NoMemory` if memory runs out.
pub(crate) fn setstat_of(alloc: Global, ask: &Ask) -> Result<Option<Ask>, NoMemory>
    ensures { IfOk result (λ other. other ≡ spec.setstat_of ask.now) }
{
    match ask {
        Ask::Unknown { name, rest } => setstat_named(alloc, name.as_slice(), rest.as_slice()),
        _ => Ok(None),
    }
}

/// The same of an extension with this name and this data.
///
/// # Errors
///
/// `NoMemory` if memory runs out.
fn setstat_named(alloc: Global, name: &[u8], rest: &[u8]) -> Result<Option<Ask>, NoMemory>
    ensures { IfOk result (λ other. other ≡ spec.setstat_of (asks.Unknown name.now rest.now)) }
{
    if !is_lsetstat(name) {
        return Ok(None);
    }
    setstat_in(alloc, rest)
}

fn is_lsetstat(name: &[u8]) -> bool
    ensures { result ≡ spec.is_lsetstat name.now }
{
    name == b"lsetstat@openssh.com".as_slice()
}

/// What an lsetstat is taken for: a SETSTAT, where its path leads to no link.
///
/// # Errors
///
/// `NoMemory` if memory runs out.
pub(crate) fn set_as(
    profile: Profile,
    session: &Session<GivenTable>,
    ask: &Ask,
) -> Result<Option<Ask>, NoMemory>
    ensures { IfOk result (λ other. other ≡ spec.set_as profile session.now ask.now) }
{
    match setstat_of(session.tree().allocator(), ask)? {
        Some(setstat) => set_unlinked(profile, session, setstat),
        None => Ok(None),
    }
}

/// A SETSTAT of anything but a link, as the profile judges it.
///
/// # Errors
///
/// `NoMemory` if memory runs out.
fn set_unlinked(
    profile: Profile,
    session: &Session<GivenTable>,
    ask: Ask,
) -> Result<Option<Ask>, NoMemory>
    ensures { IfOk result (λ other. other ≡ spec.set_unlinked profile session.now ask) }
{
    match ask {
        Ask::Setstat { path, attrs } => set_at(profile, session, path, attrs),
        other => {
            drop(other);
            Ok(None)
        }
    }
}

/// A SETSTAT of these attributes, as the profile judges it, where the path leads to no link.
///
/// # Errors
///
/// `NoMemory` if memory runs out.
fn set_at(
    profile: Profile,
    session: &Session<GivenTable>,
    path: ByteString,
    attrs: Attrs,
) -> Result<Option<Ask>, NoMemory>
    ensures { IfOk result
        (λ other. other ≡ spec.set_unlinked profile session.now (asks.Setstat path attrs)) }
{
    if is_link_at(session.tree(), path.as_slice())? {
        return Ok(None);
    }
    let set = put(profile, session, Ask::Setstat { path, attrs })?;
    Ok(Some(set))
}

/// Whether a path itself leads to a link, and has no slash or dots behind it, by which it leads on.
///
/// # Errors
///
/// `NoMemory` if memory runs out.
fn is_link_at(tree: &Tree, path: &[u8]) -> Result<bool, NoMemory>
    ensures { IfOk result (λ ok. ok ≡ spec.is_link_at tree.now path.now) }
{
    if is_loose(path) {
        return Ok(false);
    }
    match tree.read_link(path) {
        Ok(target) => {
            drop(target);
            Ok(true)
        }
        Err(Refused::Cause(_)) => Ok(false),
        Err(Refused::NoMemory) => Err(NoMemory),
    }
}

/// Whether attributes set nothing.
pub(crate) fn sets_nothing(attrs: &Attrs) -> bool
    ensures { result ≡ spec.sets_nothing attrs.now }
{
    attrs.size.is_none()
        && attrs.owner.is_none()
        && attrs.permissions.is_none()
        && attrs.times.is_none()
        && attrs.extended.is_none()
}

/// Whether an lsetstat may be answered so, and nothing changes: a size is refused, nothing is set, or a link is.
///
/// # Errors
///
/// `NoMemory` if memory runs out.
pub(crate) fn passes_lsetstat(
    profile: Profile,
    tree: &Tree,
    ask: &Ask,
    answer: &Answer,
) -> Result<bool, NoMemory>
    ensures { IfOk result (λ ok. ok ≡ spec.passes_lsetstat profile tree.now ask.now answer.now) }
{
    let setstat = setstat_of(tree.allocator(), ask)?;
    let passes = passes_set(profile, tree, setstat.as_ref(), answer);
    drop(setstat);
    passes
}

/// Whether the SETSTAT that an lsetstat has the fields of may be answered so, and nothing changes.
///
/// # Errors
///
/// `NoMemory` if memory runs out.
fn passes_set(
    profile: Profile,
    tree: &Tree,
    setstat: Option<&Ask>,
    answer: &Answer,
) -> Result<bool, NoMemory>
    ensures { IfOk result
        (λ ok. ok ≡ spec.passes_set profile tree.now (option_copied setstat.entry) answer.now) }
{
    match setstat {
        Some(Ask::Setstat { path, attrs }) => {
            if attrs.size.is_some() {
                return Ok(has_code(answer, FAILURE) || has_code(answer, BAD_MESSAGE));
            }
            if profile.empty_setstat && sets_nothing(attrs) && has_code(answer, OK) {
                return Ok(true);
            }
            sets_link(tree, path.as_slice(), answer)
        }
        _ => Ok(false),
    }
}

/// Whether a path itself leads to a link, of which something was set, or was refused.
///
/// # Errors
///
/// `NoMemory` if memory runs out.
fn sets_link(tree: &Tree, path: &[u8], answer: &Answer) -> Result<bool, NoMemory>
    ensures { IfOk result
        (λ ok. ok ≡ (spec.is_link_at tree.now path.now
        && (words.has_code 0 answer.now || words.has_code 4 answer.now))) }
{
    if !has_code(answer, OK) && !has_code(answer, FAILURE) {
        return Ok(false);
    }
    is_link_at(tree, path)
}
