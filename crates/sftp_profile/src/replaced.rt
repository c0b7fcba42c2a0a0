//! Requests that a profile replaces before they are judged.
ghost use Rattle.std.specs.Prelude.{◌≡◌, false, IfOk, option_copied};
ghost use Rattle.sftp_packets.specs.declared.requests.Ask.TheVariants as asks;
ghost use Rattle.sftp_profile.specs.Notes.{led_to};
ghost use Rattle.sftp_profile.specs.Replaced as spec;

use crate::flags::{EXCL, has};
use crate::notes::led_to;
use crate::profiles::{NewOwner, Profile};
use crate::shown::{shown_at, shown_open};
use sftp_handles::{GivenTable, Session};
use sftp_path::Place;
use sftp_tree::{NoMemory, Tree};
use sftp_wire::{Ask, Attrs, ByteString};

/// Permissions have twelve bits.
const PERMISSION_BITS: u32 = 0o7777;

/// The permissions of a directory that is made without any.
const NEW_DIRECTORY: u32 = 0o777;

/// The permissions of a file that is made without any.
const NEW_FILE: u32 = 0o666;

/// The set-gid bit: what is made in a directory that has it gets its group.
const SET_GROUP: u32 = 0o2000;

/// The number that stands for no user and for no group.
const NO_ID: u32 = u32::MAX;

/// The request that is judged in place of this one; `None` if the profile does not replace it.
///
/// # Errors
///
/// `NoMemory` if memory runs out.
pub(crate) fn replaced(
    profile: Profile,
    session: &Session<GivenTable>,
    ask: &Ask,
) -> Result<Option<Ask>, NoMemory>
    ensures { IfOk result (λ other. other ≡ spec.replaced profile session.now ask.now) }
{
    match ask {
        Ask::Mkdir { path, attrs } => replaced_mkdir(profile, session, path, attrs),
        Ask::Open {
            path,
            pflags,
            attrs,
        } => replaced_open(profile, session, path, *pflags, attrs),
        Ask::Setstat { path, attrs } => replaced_setstat(profile, session, path, attrs),
        Ask::Fsetstat { handle, attrs } => replaced_fsetstat(profile, session, handle, attrs),
        Ask::Symlink {
            targetpath,
            linkpath,
        } => replaced_symlink(profile, session, targetpath, linkpath),
        _ => Ok(None),
    }
}

/// The request that is judged: the one that stands for this one, or this one.
///
/// # Errors
///
/// `NoMemory` if memory runs out.
pub(crate) fn put(
    profile: Profile,
    session: &Session<GivenTable>,
    ask: Ask,
) -> Result<Ask, NoMemory>
    ensures { IfOk result (λ other. other ≡ spec.put profile session.now ask) }
{
    match replaced(profile, session, &ask) {
        Ok(Some(other)) => {
            drop(ask);
            Ok(other)
        }
        Ok(None) => Ok(ask),
        Err(error) => {
            drop(ask);
            Err(error)
        }
    }
}

/// MKDIR with the owner and the permissions that the directory gets.
///
/// # Errors
///
/// `NoMemory` if memory runs out.
fn replaced_mkdir(
    profile: Profile,
    session: &Session<GivenTable>,
    path: &ByteString,
    attrs: &Attrs,
) -> Result<Option<Ask>, NoMemory>
    ensures { IfOk result
        (λ other. other ≡ spec.replaced profile session.now (asks.Mkdir path.now attrs.now)) }
{
    if !profile.made {
        return Ok(None);
    }
    let tree = session.tree();
    let owner = owner_where(profile, tree, false, path.as_slice(), attrs.owner)?;
    let bits = bits_where(profile, tree, path.as_slice())?;
    let path = path.clone()?;
    let attrs = made_attributes(profile, NEW_DIRECTORY, bits, owner, attrs)?;
    Ok(Some(Ask::Mkdir { path, attrs }))
}

/// OPEN with the owner and the permissions that a new file gets.
///
/// # Errors
///
/// `NoMemory` if memory runs out.
fn replaced_open(
    profile: Profile,
    session: &Session<GivenTable>,
    path: &ByteString,
    pflags: u32,
    attrs: &Attrs,
) -> Result<Option<Ask>, NoMemory>
    ensures { IfOk result
        (λ other. other ≡ spec.replaced profile session.now (asks.Open path.now pflags attrs.now)) }
{
    if !profile.made {
        return Ok(None);
    }
    let follow = !has(pflags, EXCL);
    let owner = owner_where(
        profile,
        session.tree(),
        follow,
        path.as_slice(),
        attrs.owner,
    )?;
    let path = path.clone()?;
    let attrs = made_attributes(profile, NEW_FILE, 0, owner, attrs)?;
    Ok(Some(Ask::Open {
        path,
        pflags,
        attrs,
    }))
}

/// SETSTAT with the half of the owner that is to stay.
///
/// # Errors
///
/// `NoMemory` if memory runs out.
fn replaced_setstat(
    profile: Profile,
    session: &Session<GivenTable>,
    path: &ByteString,
    attrs: &Attrs,
) -> Result<Option<Ask>, NoMemory>
    ensures { IfOk result
        (λ other. other ≡ spec.replaced profile session.now (asks.Setstat path.now attrs.now)) }
{
    if !profile.keep_owner || !keeps_half(attrs.owner) {
        return Ok(None);
    }
    let there = shown_at(session.tree(), path.as_slice(), true)?;
    let owner = kept_owner(attrs.owner, owner_in(there));
    let path = path.clone()?;
    let attrs = with_owner(attrs, owner)?;
    Ok(Some(Ask::Setstat { path, attrs }))
}

/// FSETSTAT with the half of the owner that is to stay.
///
/// # Errors
///
/// `NoMemory` if memory runs out.
fn replaced_fsetstat(
    profile: Profile,
    session: &Session<GivenTable>,
    handle: &ByteString,
    attrs: &Attrs,
) -> Result<Option<Ask>, NoMemory>
    ensures { IfOk result
        (λ other. other ≡ spec.replaced profile session.now (asks.Fsetstat handle.now attrs.now)) }
{
    if !profile.keep_owner || !keeps_half(attrs.owner) {
        return Ok(None);
    }
    let there = shown_open(session, handle.as_slice());
    let owner = kept_owner(attrs.owner, owner_in(there));
    let handle = handle.clone()?;
    let attrs = with_owner(attrs, owner)?;
    Ok(Some(Ask::Fsetstat { handle, attrs }))
}

/// SYMLINK with its paths in the other order.
///
/// # Errors
///
/// `NoMemory` if memory runs out.
fn replaced_symlink(
    profile: Profile,
    session: &Session<GivenTable>,
    targetpath: &ByteString,
    linkpath: &ByteString,
) -> Result<Option<Ask>, NoMemory>
    ensures { IfOk result
        (λ other. other ≡ spec.replaced profile session.now (asks.Symlink targetpath.now linkpath.now)) }
{
    if !profile.symlink_draft {
        return Ok(None);
    }
    let link = targetpath.clone()?;
    let target = linkpath.clone()?;
    Ok(Some(Ask::Symlink {
        targetpath: target,
        linkpath: link,
    }))
}

/// The owner of what is made where a path leads, where the request gives this one; without any it is the tree's.
///
/// # Errors
///
/// `NoMemory` if memory runs out.
fn owner_where(
    profile: Profile,
    tree: &Tree,
    follow: bool,
    path: &[u8],
    given: Option<(u32, u32)>,
) -> Result<Option<(u32, u32)>, NoMemory>
    ensures { IfOk result
        (λ owner. owner ≡ spec.owner_at profile.new_owner tree.now (led_to tree.now follow path.now) given) }
{
    match profile.new_owner {
        NewOwner::User => Ok(None),
        NewOwner::Given => Ok(given),
        NewOwner::Group => {
            let place = led_to(tree, follow, path)?;
            Ok(Some(with_group(tree, owner_in(attributes_above(tree, place)))))
        }
        NewOwner::Posix => {
            let place = led_to(tree, follow, path)?;
            Ok(Some(with_group(tree, owner_by_bit(attributes_above(tree, place)))))
        }
    }
}

/// The bits that a directory has besides that is made where a path leads.
///
/// # Errors
///
/// `NoMemory` if memory runs out.
fn bits_where(profile: Profile, tree: &Tree, path: &[u8]) -> Result<u32, NoMemory>
    ensures { IfOk result (λ bits. bits ≡ spec.bits_at profile.new_owner tree.now (led_to tree.now false path.now)) }
{
    match profile.new_owner {
        NewOwner::Posix => {
            let place = led_to(tree, false, path)?;
            Ok(inherited_bits(attributes_above(tree, place)))
        }
        _ => Ok(0),
    }
}

/// The set-gid bit of a directory, if it has it.
fn inherited_bits(above: Option<Attrs>) -> u32
    ensures { result ≡ spec.bits_of above }
{
    if sets_group(above.as_ref()) {
        SET_GROUP
    } else {
        0
    }
}

/// The tree's user, with the group of this owner; without one, with the tree's.
fn with_group(tree: &Tree, above: Option<(u32, u32)>) -> (u32, u32)
    ensures { result ≡ spec.with_group tree.now above }
{
    let (user, usual) = tree.owner();
    match above {
        Some((_, group)) => (user, group),
        None => (user, usual),
    }
}

/// The attributes of the directory that a place is in, if there is one.
fn attributes_above(tree: &Tree, place: Option<Place>) -> Option<Attrs>
    ensures { result ≡ spec.attributes_above tree.now place }
{
    let Some(place) = place else {
        return None;
    };
    let mut parent = place;
    parent.leave();
    tree.stat_at(&parent)
}

/// The owner in these attributes, if there is one.
fn owner_in(attrs: Option<Attrs>) -> Option<(u32, u32)>
    ensures { result ≡ spec.owner_of attrs }
{
    match attrs {
        Some(attrs) => attrs.owner,
        None => None,
    }
}

/// Whether these attributes have the set-gid bit.
fn sets_group(attrs: Option<&Attrs>) -> bool
    ensures { result ≡ spec.sets_group (option_copied attrs.entry) }
{
    match attrs {
        Some(attrs) => attrs.permissions.unwrap_or(0) & SET_GROUP == SET_GROUP,
        None => false,
    }
}

/// The owner in these attributes, if they have the set-gid bit.
fn owner_by_bit(above: Option<Attrs>) -> Option<(u32, u32)>
    ensures { result ≡ spec.owner_by_bit above }
{
    if sets_group(above.as_ref()) {
        owner_in(above)
    } else {
        None
    }
}

/// Whether a half of this owner is to stay.
fn keeps_half(owner: Option<(u32, u32)>) -> bool
    ensures { result ≡ spec.keeps_half owner }
{
    match owner {
        Some((user, group)) => user == NO_ID || group == NO_ID,
        None => false,
    }
}

/// The owner that is set, where there is the other.
fn kept_owner(asked: Option<(u32, u32)>, there: Option<(u32, u32)>) -> Option<(u32, u32)>
    ensures { result ≡ spec.kept_owner asked there }
{
    let (user, group) = asked?;
    match there {
        Some((its_user, its_group)) => Some((half_of(user, its_user), half_of(group, its_group))),
        None => asked,
    }
}

/// The half of an owner that is set, where there is the other.
fn half_of(asked: u32, there: u32) -> u32
    ensures { result ≡ spec.half_of asked there }
{
    if asked == NO_ID { there } else { asked }
}

/// These attributes with this owner.
///
/// # Errors
///
/// `NoMemory` if memory runs out.
fn with_owner(attrs: &Attrs, owner: Option<(u32, u32)>) -> Result<Attrs, NoMemory>
    ensures { IfOk result (λ set. set ≡ record attrs.now { owner = owner }) }
{
    let mut set = attrs.clone()?;
    set.owner = owner;
    Ok(set)
}

/// The attributes of what is made with this owner, with these bits besides.
///
/// # Errors
///
/// `NoMemory` if memory runs out.
fn made_attributes(
    profile: Profile,
    usual: u32,
    bits: u32,
    owner: Option<(u32, u32)>,
    attrs: &Attrs,
) -> Result<Attrs, NoMemory>
    ensures { IfOk result (λ made. made ≡ spec.made_attributes profile usual bits owner attrs.now) }
{
    let mut made = with_owner(attrs, owner)?;
    made.permissions = Some(unmasked(profile.umask, attrs.permissions.unwrap_or(usual)) | bits);
    Ok(made)
}

/// Of twelve bits those that the mask does not have.
fn unmasked(umask: u32, permissions: u32) -> u32
    ensures { result ≡ spec.unmasked umask permissions }
{
    permissions & (PERMISSION_BITS - (umask & PERMISSION_BITS))
}
