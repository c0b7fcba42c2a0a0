//! What a profile lets pass by the request and its answer alone, or by what the session has.
ghost use Rattle.std.specs.Prelude.{◌≡◌, IfOk, is_some};
ghost use Rattle.sftp_profile.specs.Departures.{copying_of as copying_asked};
ghost use Rattle.sftp_profile.specs.Replaced.{setstat_of as setstat_asked};
ghost use Rattle.sftp_profile.specs.Departures as spec;

use crate::bytes_read::passes_read;
use crate::copies::{copying_of, passes_copy_data};
use crate::extensions::{is_looked_at, is_unknown, only_looks};
use crate::flags::{CREAT, has};
use crate::limits::is_beyond;
use crate::paths::walks_loosely;
use crate::profiles::Profile;
use crate::realpaths::passes_realpath;
use crate::refusals::{has_code, has_code_or, is_refusal};
use crate::settings::{passes_lsetstat, sets_nothing, setstat_of};
use sftp_handles::{GivenTable, Session};
use sftp_tree::NoMemory;
use sftp_wire::status::{EOF, FAILURE, NO_SUCH_FILE, OK, PERMISSION_DENIED};
use sftp_wire::{Answer, Ask};
use std::alloc::Global;

/// Whether the profile lets the answer pass, whatever the session.
pub(crate) fn passes_alone(profile: Profile, ask: &Ask, answer: &Answer) -> bool
    ensures { result ≡ spec.passes_alone profile ask.now answer.now }
{
    (profile.slash && passes_slash(profile, ask, answer))
        || (profile.empty_setstat && passes_empty_setstat(ask, answer))
        || (profile.limits && passes_limits(profile, ask, answer))
        || (profile.extensions && passes_extensions(ask, answer))
        || passes_user(profile, ask, answer)
}

/// Whether a path ends loosely, and the answer refuses it.
fn passes_slash(profile: Profile, ask: &Ask, answer: &Answer) -> bool
    ensures { result ≡ spec.passes_slash profile ask.now answer.now }
{
    walks_loosely(ask)
        && (has_code(answer, NO_SUCH_FILE) || has_code_or(answer, FAILURE, profile.codes))
}

/// Whether the request meets a limit of the server's own, and the answer refuses it.
fn passes_limits(profile: Profile, ask: &Ask, answer: &Answer) -> bool
    ensures { result ≡ spec.passes_limits profile ask.now answer.now }
{
    is_beyond(ask) && has_code_or(answer, FAILURE, profile.codes)
}

/// Whether an extension that is not known is refused, or only looks.
fn passes_extensions(ask: &Ask, answer: &Answer) -> bool
    ensures { result ≡ spec.passes_extensions ask.now answer.now }
{
    (is_unknown(ask) && is_refusal(answer)) || is_looked_at(ask, answer)
}

/// Whether the user may not do this, or the disk has no room for it, and the answer refuses it.
fn passes_user(profile: Profile, ask: &Ask, answer: &Answer) -> bool
    ensures { result ≡ spec.passes_user profile ask.now answer.now }
{
    (profile.denied && has_code(answer, PERMISSION_DENIED))
        || (profile.full && passes_full(ask, answer))
}

/// Whether the request may need room on a disk, and the answer refuses it.
fn passes_full(ask: &Ask, answer: &Answer) -> bool
    ensures { result ≡ spec.passes_full ask.now answer.now }
{
    needs_room(ask) && has_code(answer, FAILURE)
}

/// Whether the request may need room on a disk: for an entry, or for bytes.
fn needs_room(ask: &Ask) -> bool
    ensures { result ≡ spec.needs_room ask.now }
{
    match ask {
        Ask::Open { pflags, .. } => has(*pflags, CREAT),
        Ask::Write { bytes, .. } => !bytes.as_slice().is_empty(),
        Ask::Setstat { attrs, .. } | Ask::Fsetstat { attrs, .. } => is_some_size(attrs.size),
        Ask::Mkdir { .. }
        | Ask::Symlink { .. }
        | Ask::Hardlink { .. }
        | Ask::Rename { .. }
        | Ask::PosixRename { .. } => true,
        _ => false,
    }
}

/// Whether a file may get longer by this size.
fn is_some_size(size: Option<u64>) -> bool
    ensures { result ≡ spec.is_some_size size }
{
    match size {
        Some(size) => size > 0,
        None => false,
    }
}

/// Whether the profile follows a request with this answer: it does not follow an extension whose fields it does not
/// know and that was neither refused nor at an end.
///
/// # Errors
///
/// `NoMemory` if memory runs out.
pub(crate) fn is_modelled(
    alloc: Global,
    profile: Profile,
    ask: &Ask,
    answer: &Answer,
) -> Result<bool, NoMemory>
    ensures { IfOk result (λ ok. ok ≡ spec.is_modelled profile ask.now answer.now) }
{
    if !profile.extensions || !is_unmodelled(ask, answer) {
        return Ok(true);
    }
    has_fields(alloc, profile, ask)
}

/// Whether the profile knows the fields of an extension.
///
/// # Errors
///
/// `NoMemory` if memory runs out.
fn has_fields(alloc: Global, profile: Profile, ask: &Ask) -> Result<bool, NoMemory>
    ensures { IfOk result (λ ok. ok ≡ spec.has_fields profile ask.now) }
{
    if profile.lsetstat && has_setstat(alloc, ask)? {
        return Ok(true);
    }
    if profile.copy_data {
        return has_copying(alloc, ask);
    }
    Ok(false)
}

/// Whether the request is an lsetstat of a path and attributes.
///
/// # Errors
///
/// `NoMemory` if memory runs out.
fn has_setstat(alloc: Global, ask: &Ask) -> Result<bool, NoMemory>
    ensures { IfOk result (λ ok. ok ≡ is_some (setstat_asked ask.now)) }
{
    let setstat = setstat_of(alloc, ask)?;
    let is_one = setstat.is_some();
    drop(setstat);
    Ok(is_one)
}

/// Whether the request is a copy-data of two handles, two offsets and a length.
///
/// # Errors
///
/// `NoMemory` if memory runs out.
fn has_copying(alloc: Global, ask: &Ask) -> Result<bool, NoMemory>
    ensures { IfOk result (λ ok. ok ≡ is_some (copying_asked ask.now)) }
{
    let copying = copying_of(alloc, ask)?;
    let is_one = copying.is_some();
    drop(copying);
    Ok(is_one)
}

/// Whether an extension that is not known is neither refused nor at an end.
fn is_unmodelled(ask: &Ask, answer: &Answer) -> bool
    ensures { result ≡ spec.is_unmodelled ask.now answer.now }
{
    is_unknown(ask) && !(only_looks(ask) || is_refusal(answer) || has_code(answer, EOF))
}

/// Whether nothing is to be set, and the answer says OK.
fn passes_empty_setstat(ask: &Ask, answer: &Answer) -> bool
    ensures { result ≡ spec.passes_empty_setstat ask.now answer.now }
{
    is_empty_setstat(ask) && has_code(answer, OK)
}

/// Whether the request is a SETSTAT that sets nothing.
fn is_empty_setstat(ask: &Ask) -> bool
    ensures { result ≡ spec.is_empty_setstat ask.now }
{
    match ask {
        Ask::Setstat { attrs, .. } => sets_nothing(attrs),
        _ => false,
    }
}

/// Whether the profile lets a READ or a REALPATH be answered so.
///
/// # Errors
///
/// `NoMemory` if memory runs out.
pub(crate) fn passes_looking(
    session: &Session<GivenTable>,
    profile: Profile,
    ask: &Ask,
    answer: &Answer,
) -> Result<bool, NoMemory>
    ensures { IfOk result (λ ok. ok ≡ spec.passes_looking profile session.now ask.now answer.now) }
{
    if profile.read && passes_read(session, ask, answer)? {
        return Ok(true);
    }
    if !profile.realpath {
        return Ok(false);
    }
    passes_realpath(session.tree(), profile.codes, ask, answer)
}

/// Whether the profile lets an extension whose fields it knows be answered so.
///
/// # Errors
///
/// `NoMemory` if memory runs out.
pub(crate) fn passes_fields(
    session: &Session<GivenTable>,
    profile: Profile,
    ask: &Ask,
    answer: &Answer,
) -> Result<bool, NoMemory>
    ensures { IfOk result (λ ok. ok ≡ spec.passes_fields profile session.now ask.now answer.now) }
{
    if profile.lsetstat && passes_lsetstat(profile, session.tree(), ask, answer)? {
        return Ok(true);
    }
    if !profile.copy_data {
        return Ok(false);
    }
    passes_copy_data(session, ask, answer)
}
