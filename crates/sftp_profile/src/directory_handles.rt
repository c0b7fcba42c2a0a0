//! Requests on directories that are open: through the handle of OPEN, and through that of OPENDIR (POSIX, open and
//! readdir).
ghost use Rattle.std.specs.Prelude.{◌≡◌, ◌&&◌, if◌then◌else◌, Some, None, IfOk, option_copied};
ghost use Rattle.sftp_handles.specs.Replies.{has_code};
ghost use Rattle.std.specs.Option.{option_map};
ghost use Rattle.sftp_packets.specs.declared.requests.Ask.TheVariants as asks;
ghost use Rattle.sftp_profile.specs.BytesRead.{is_handle};
ghost use Rattle.sftp_profile.specs.DirectoryHandles as spec;

use crate::directories::{Directory, directory_at};
use crate::flags::{READ, TRUNC, has, mended_flags};
use crate::profiles::Profile;
use crate::refusals::{has_code, is_handle, is_refusal};
use crate::strict_answers::{DIRECTORY, is_type};
use sftp_path::absolute;
use sftp_tree::NoMemory;
use sftp_wire::status::{EOF, FAILURE, NO_SUCH_FILE, OK};
use sftp_wire::{Answer, Ask, Attrs, ByteString, asked_handle};
use std::alloc::Global;

/// The directory that is open under the handle of a request.
pub(crate) fn directory_of<'a>(directories: &'a [Directory], ask: &Ask) -> Option<&'a Directory>
    ensures { option_copied result ≡ spec.directory_of directories.now ask.now }
{
    match asked_handle(ask) {
        Some(handle) => directory_at(directories, handle),
        None => None,
    }
}

/// Whether the directory has been removed.
fn is_removed(found: Option<&Directory>) -> bool
    ensures { result ≡ spec.is_removed (option_copied found.entry) }
{
    match found {
        Some(directory) => directory.place.is_none(),
        None => false,
    }
}

/// Whether OPENDIR gave the handle.
fn is_listing(found: Option<&Directory>) -> bool
    ensures { result ≡ spec.is_listing (option_copied found.entry) }
{
    match found {
        Some(directory) => directory.is_listed,
        None => false,
    }
}

/// Whether the request is READDIR through the handle of OPEN.
pub(crate) fn is_barred(found: Option<&Directory>, ask: &Ask) -> bool
    ensures { result ≡ spec.is_barred (option_copied found.entry) ask.now }
{
    match ask {
        Ask::Readdir { .. } => found.is_some() && !is_listing(found),
        _ => false,
    }
}

/// Whether an answer refuses READDIR through the handle of OPEN.
pub(crate) fn refuses_kind(profile: Profile, answer: &Answer) -> bool
    ensures { result ≡ spec.refuses_kind profile answer.now }
{
    has_code(answer, FAILURE) || (profile.codes && is_refusal(answer))
}

/// Whether flags of OPEN ask to read and nothing else, as the profile takes them.
fn only_reads(profile: Profile, pflags: u32) -> bool
    ensures { result ≡ spec.only_reads profile pflags }
{
    let flags = if profile.flags {
        mended_flags(pflags)
    } else {
        pflags
    };
    !has(pflags, TRUNC) && flags == READ
}

/// Whether the answer gives attributes.
fn are_attributes(answer: &Answer) -> bool
    ensures { result ≡ spec.are_attributes answer.now }
{
    match answer {
        Answer::Attrs(_) => true,
        _ => false,
    }
}

/// Whether the answer gives the attributes of a directory.
fn are_directory(answer: &Answer) -> bool
    ensures { result ≡ spec.are_directory answer.now }
{
    match answer {
        Answer::Attrs(attrs) => is_type(DIRECTORY, attrs.permissions),
        _ => false,
    }
}

/// The request that is judged in place of one on a directory, if the answer does not refuse it.
///
/// # Errors
///
/// `NoMemory` if memory runs out.
pub(crate) fn stands_for(
    alloc: Global,
    profile: Profile,
    found: Option<&Directory>,
    ask: &Ask,
    answer: &Answer,
) -> Result<Option<Ask>, NoMemory>
    ensures { IfOk result (λ other. other ≡ spec.stands_for profile (option_copied found.entry) ask.now answer.now) }
{
    match ask {
        Ask::Open { path, pflags, .. } => opened(profile, path, *pflags, answer),
        Ask::Fstat { .. } => shown(alloc, found, answer),
        Ask::Fsetstat { attrs, .. } => set(alloc, found, attrs, answer),
        _ => Ok(None),
    }
}

/// OPENDIR in place of OPEN.
///
/// # Errors
///
/// `NoMemory` if memory runs out.
fn opened(
    profile: Profile,
    path: &ByteString,
    pflags: u32,
    answer: &Answer,
) -> Result<Option<Ask>, NoMemory>
    ensures { IfOk result (λ other. other ≡ (if is_handle answer.now && spec.only_reads profile pflags
        then Some (asks.Opendir path.now) else None)) }
{
    if !is_handle(answer) || !only_reads(profile, pflags) {
        return Ok(None);
    }
    let path = path.clone()?;
    Ok(Some(Ask::Opendir { path }))
}

/// STAT in place of FSTAT.
///
/// # Errors
///
/// `NoMemory` if memory runs out.
fn shown(alloc: Global, found: Option<&Directory>, answer: &Answer) -> Result<Option<Ask>, NoMemory>
    ensures { IfOk result (λ other. other ≡ (if spec.are_attributes answer.now
        then option_map asks.Stat (spec.text_of (option_copied found.entry)) else None)) }
{
    if !are_attributes(answer) {
        return Ok(None);
    }
    let Some(path) = text_of(alloc, found)? else {
        return Ok(None);
    };
    Ok(Some(Ask::Stat { path }))
}

/// SETSTAT in place of FSETSTAT.
///
/// # Errors
///
/// `NoMemory` if memory runs out.
fn set(
    alloc: Global,
    found: Option<&Directory>,
    attrs: &Attrs,
    answer: &Answer,
) -> Result<Option<Ask>, NoMemory>
    ensures { IfOk result (λ other. other ≡ (if has_code 0 answer.now
        then option_map (λ text. asks.Setstat text attrs.now) (spec.text_of (option_copied found.entry)) else None)) }
{
    if !has_code(answer, OK) {
        return Ok(None);
    }
    let Some(path) = text_of(alloc, found)? else {
        return Ok(None);
    };
    let attrs = attrs.clone()?;
    Ok(Some(Ask::Setstat { path, attrs }))
}

/// The text of a directory's place.
///
/// # Errors
///
/// `NoMemory` if memory runs out.
fn text_of(alloc: Global, found: Option<&Directory>) -> Result<Option<ByteString>, NoMemory>
    ensures { IfOk result (λ text. text ≡ spec.text_of (option_copied found.entry)) }
{
    let Some(directory) = found else {
        return Ok(None);
    };
    let Some(place) = &directory.place else {
        return Ok(None);
    };
    Ok(Some(ByteString::new(absolute(alloc, place.names())?)))
}

/// Whether an answer passes that leaves the session unchanged.
pub(crate) fn passes_directory(
    profile: Profile,
    found: Option<&Directory>,
    ask: &Ask,
    answer: &Answer,
) -> bool
    ensures { result ≡ spec.passes_directory profile (option_copied found.entry) ask.now answer.now }
{
    (profile.open_dir && passes_open_dir(found, ask, answer))
        || (profile.listing && passes_listing(found, ask, answer))
}

/// Whether an fsync of a directory is done, or an FSTAT or an FSETSTAT of one that was removed.
fn passes_open_dir(found: Option<&Directory>, ask: &Ask, answer: &Answer) -> bool
    ensures { result ≡ spec.passes_open_dir (option_copied found.entry) ask.now answer.now }
{
    match ask {
        Ask::Fsync { .. } => found.is_some() && has_code(answer, OK),
        Ask::Fstat { .. } => is_removed(found) && are_directory(answer),
        Ask::Fsetstat { attrs, .. } => {
            is_removed(found) && has_code(answer, OK) && attrs.size.is_none()
        }
        _ => false,
    }
}

/// Whether the request is READDIR through the handle of OPENDIR, and the answer ends the listing.
fn passes_listing(found: Option<&Directory>, ask: &Ask, answer: &Answer) -> bool
    ensures { result ≡ spec.passes_listing (option_copied found.entry) ask.now answer.now }
{
    match ask {
        Ask::Readdir { .. } => is_listing(found) && ends(found, answer),
        _ => false,
    }
}

/// Whether an answer says that the end was reached, where no name is left that was there all the time, or refuses a
/// directory that was removed.
fn ends(found: Option<&Directory>, answer: &Answer) -> bool
    ensures { result ≡ spec.ends (option_copied found.entry) answer.now }
{
    (has_no_must(found) && has_code(answer, EOF))
        || (is_removed(found) && (has_code(answer, NO_SUCH_FILE) || has_code(answer, FAILURE)))
}

/// Whether no name is left that was there all the time.
fn has_no_must(found: Option<&Directory>) -> bool
    ensures { result ≡ spec.has_no_must (option_copied found.entry) }
{
    match found {
        Some(directory) => directory.must.len() == 0,
        None => false,
    }
}
