//! Answers as they would be strictly, where a profile leaves a part of them free (draft, sections 5 and 7).
ghost use Rattle.std.specs.Prelude.{◌≡◌, ◌++◌, IfOk, OnOk, option_copied};
ghost use Rattle.sftp_packets.specs.declared.replies.Answer.TheVariants as replies;
ghost use Rattle.sftp_profile.specs.StrictAnswers as spec;

use crate::profiles::Profile;
use crate::shown::{left_of, shown_in, shown_left};
use sftp_handles::{GivenTable, Listing, Session};
use sftp_path::{is_dot, is_dot_dot};
use sftp_tree::NoMemory;
use sftp_wire::{Answer, Ask, Attrs, ByteString, NameItem, Names};
use std::alloc::Global;

/// The type of a directory, in permissions.
pub(crate) const DIRECTORY: u32 = 4;

/// The type of a link, in permissions.
const LINK: u32 = 10;

/// The type of a file, in permissions.
const FILE: u32 = 8;

/// The same in its place.
const FILE_BITS: u32 = 0o100_000;

/// All bits of permissions but those of the type.
const MODE_BITS: u32 = 0o7777;

/// The types of what a tree cannot hold, in permissions (POSIX, sys/stat.h).
const FIFO: u32 = 1;

const CHARACTER_DEVICE: u32 = 2;

const BLOCK_DEVICE: u32 = 6;

const SOCKET: u32 = 12;

/// The bits that give a program its file's user or group.
const ID_BITS: u32 = 0o6000;

/// The other bits.
const OTHER_BITS: u32 = 0xffff_f3ff;

/// The answer as it would be strictly; `None` if the profile leaves nothing of it free.
///
/// # Errors
///
/// `NoMemory` if memory runs out.
pub(crate) fn told(
    session: &Session<GivenTable>,
    profile: Profile,
    ask: &Ask,
    answer: &Answer,
) -> Result<Option<Answer>, NoMemory>
    ensures { IfOk result (λ other. other ≡ spec.told profile session.now ask.now answer.now) }
{
    match answer {
        Answer::Attrs(attrs) => told_attributes(session, profile, ask, attrs),
        Answer::Name(names) => told_names(session, profile, ask, names),
        _ => Ok(None),
    }
}

/// Attributes as they would be strictly.
///
/// # Errors
///
/// `NoMemory` if memory runs out.
fn told_attributes(
    session: &Session<GivenTable>,
    profile: Profile,
    ask: &Ask,
    attrs: &Attrs,
) -> Result<Option<Answer>, NoMemory>
    ensures { IfOk result
        (λ other. other ≡ spec.told profile session.now ask.now (replies.Attrs attrs.now)) }
{
    if !frees_attributes(profile) {
        return Ok(None);
    }
    let shown = shown_in(session, ask)?;
    let mended = mended(profile, shown.as_ref(), attrs);
    drop(shown);
    Ok(Some(Answer::Attrs(mended?)))
}

/// Names as they would be strictly.
///
/// # Errors
///
/// `NoMemory` if memory runs out.
fn told_names(
    session: &Session<GivenTable>,
    profile: Profile,
    ask: &Ask,
    names: &Names,
) -> Result<Option<Answer>, NoMemory>
    ensures { IfOk result (λ other. other ≡ spec.told profile session.now ask.now (replies.Name names.now)) }
{
    if !is_readdir(ask) || !(profile.dots || frees_attributes(profile)) {
        return Ok(None);
    }
    let alloc = session.tree().allocator();
    let left = left_of(session, ask);
    let items = mended_items(alloc, profile, left, names.as_slice())?;
    Ok(Some(Answer::Name(Names::new(items))))
}

/// The items of a listing as they would be strictly.
///
/// # Errors
///
/// `NoMemory` if memory runs out.
fn mended_items(
    alloc: Global,
    profile: Profile,
    left: Option<&Listing>,
    items: &[NameItem],
) -> Result<Vec<NameItem>, NoMemory>
    ensures { IfOk result (λ mended. mended.items ≡ spec.mended_items profile (option_copied left.entry) items.now) }
{
    let mut mended = Vec::new(alloc);
    for item in items {
        put_mended(&mut mended, alloc, profile, left, item)?;
    }
    Ok(mended)
}

/// Adds an item as it would be strictly, if the profile does not pass over it.
///
/// # Errors
///
/// `NoMemory` if memory runs out.
fn put_mended(
    items: &mut Vec<NameItem>,
    alloc: Global,
    profile: Profile,
    left: Option<&Listing>,
    item: &NameItem,
) -> Result<(), NoMemory>
    ensures { OnOk result
        (items.new.items ≡ items.old.items ++ spec.mended_item profile (option_copied left.entry) item.now) }
{
    if profile.dots && is_dots(item.filename.as_slice()) {
        return Ok(());
    }
    let filename = item.filename.clone()?;
    let shown = shown_left(alloc, left, item.filename.as_slice())?;
    let attrs = mended(profile, shown, &item.attrs)?;
    let longname = ByteString::new(Vec::new(alloc));
    items.push(NameItem {
        filename,
        longname,
        attrs,
    })?;
    Ok(())
}

/// The attributes, with what is shown where the profile leaves a field free.
///
/// # Errors
///
/// `NoMemory` if memory runs out.
pub(crate) fn mended(
    profile: Profile,
    shown: Option<&Attrs>,
    attrs: &Attrs,
) -> Result<Attrs, NoMemory>
    ensures { IfOk result (λ attributes. attributes ≡ spec.mended profile (option_copied shown.entry) attrs.now) }
{
    let mut copy = attrs.clone()?;
    if profile.dir_size && is_type(DIRECTORY, copy.permissions) {
        copy.size = Some(0);
    }
    let Some(shown) = shown else {
        return Ok(copy);
    };
    take_id(profile, shown, &mut copy);
    take_link(profile, shown, &mut copy);
    take_special(profile, shown, &mut copy);
    Ok(copy)
}

/// Takes the bits 0o6000 of what is shown, if the profile leaves them free.
fn take_id(profile: Profile, shown: &Attrs, attrs: &mut Attrs)
    ensures { attrs.new ≡ spec.with_id profile shown.now attrs.old }
{
    if profile.set_id {
        attrs.permissions = with_bits(shown.permissions, attrs.permissions);
    }
}

/// Takes the owner and the permissions that are shown of a link, if the profile leaves them free.
fn take_link(profile: Profile, shown: &Attrs, attrs: &mut Attrs)
    ensures { attrs.new ≡ spec.with_link profile shown.now attrs.old }
{
    if profile.link_attrs && is_type(LINK, shown.permissions) && is_type(LINK, attrs.permissions) {
        attrs.owner = shown.owner;
        attrs.permissions = shown.permissions;
    }
}

/// Takes the type of a file that is shown with no bytes and has none, if the profile leaves it free.
fn take_special(profile: Profile, shown: &Attrs, attrs: &mut Attrs)
    ensures { attrs.new ≡ spec.with_special profile shown.now attrs.old }
{
    if profile.special
        && is_empty_file(shown)
        && is_no_size(attrs.size)
        && is_special(attrs.permissions)
    {
        attrs.permissions = as_file(attrs.permissions);
    }
}

/// Whether it is a file of no bytes, which may be in the tree for what the tree cannot hold.
fn is_empty_file(shown: &Attrs) -> bool
    ensures { result ≡ spec.is_empty_file shown.now }
{
    is_type(FILE, shown.permissions) && is_no_size(shown.size)
}

/// Whether it is no bytes.
fn is_no_size(size: Option<u64>) -> bool
    ensures { result ≡ spec.is_no_size size }
{
    match size {
        Some(size) => size == 0,
        None => false,
    }
}

/// Whether permissions have the type of a FIFO, a device or a socket.
fn is_special(permissions: Option<u32>) -> bool
    ensures { result ≡ spec.is_special permissions }
{
    is_type(FIFO, permissions)
        || is_type(CHARACTER_DEVICE, permissions)
        || is_type(BLOCK_DEVICE, permissions)
        || is_type(SOCKET, permissions)
}

/// Permissions with the type of a file.
fn as_file(permissions: Option<u32>) -> Option<u32>
    ensures { result ≡ spec.as_file permissions }
{
    match permissions {
        Some(permissions) => Some((permissions & MODE_BITS) | FILE_BITS),
        None => None,
    }
}

/// Permissions with the bits 0o6000 of those shown.
fn with_bits(shown: Option<u32>, given: Option<u32>) -> Option<u32>
    ensures { result ≡ spec.with_bits shown given }
{
    match (shown, given) {
        (Some(shown), Some(given)) => Some((given & OTHER_BITS) | (shown & ID_BITS)),
        _ => given,
    }
}

/// Whether permissions have this type.
pub(crate) fn is_type(wanted: u32, permissions: Option<u32>) -> bool
    ensures { result ≡ spec.is_type wanted permissions }
{
    match permissions {
        Some(permissions) => permissions / 4096 == wanted,
        None => false,
    }
}

/// Whether the profile leaves a field of attributes free.
fn frees_attributes(profile: Profile) -> bool
    ensures { result ≡ spec.frees_attributes profile }
{
    profile.dir_size || profile.set_id || profile.link_attrs || profile.special
}

/// Whether the name is `.` or `..`.
pub(crate) fn is_dots(name: &[u8]) -> bool
    ensures { result ≡ spec.is_dots name.now }
{
    is_dot(name) || is_dot_dot(name)
}

/// Whether the request is READDIR.
pub(crate) fn is_readdir(ask: &Ask) -> bool
    ensures { result ≡ spec.is_readdir ask.now }
{
    match ask {
        Ask::Readdir { .. } => true,
        _ => false,
    }
}
