//! Names that a listing of a directory gives while names come and go (POSIX, readdir).
ghost use Rattle.std.specs.Prelude.{◌≡◌, ◌++◌, ◌∷◌, [], Some, OnOk, IfOk, option_copied};
ghost use Rattle.std.specs.List.{list_all};
ghost use Rattle.std.specs.Option.{option_map};
ghost use Rattle.sftp_path.specs.Place.{absolute as text_of, same_bytes};
ghost use Rattle.sftp_handles.specs.Replies.{are_distinct, has_attributes, is_among, names_in};
ghost use Rattle.sftp_packets.specs.declared.requests.Ask.TheVariants.{Lstat};
ghost use Rattle.sftp_profile.specs.Shown.{shown_at};
ghost use Rattle.sftp_profile.specs.DirectoryHandles as spec;

use crate::directories::Directory;
use crate::profiles::Profile;
use crate::strict_answers::mended;
use sftp_handles::{GivenTable, Listing, Session, same_attributes};
use sftp_path::{Name, Place, absolute};
use sftp_tree::{NoMemory, Refused, Tree};
use sftp_wire::{Answer, Ask, Attrs, ByteString, NameItem};
use std::alloc::Global;

/// The names that were left, of those that an answer to READDIR gives, if all of them may be given.
///
/// # Errors
///
/// `NoMemory` if memory runs out.
#[tactic(auto, unfolding(crate::specs::DirectoryHandles::due_items))]
pub(crate) fn due_items(
    alloc: Global,
    profile: Profile,
    session: &Session<GivenTable>,
    found: Option<&Directory>,
    ask: &Ask,
    answer: &Answer,
) -> Result<Option<Vec<NameItem>>, NoMemory>
    ensures { IfOk result (λ due. option_map (λ v. v.items) due
        ≡ spec.due_items profile session.now (option_copied found.entry) ask.now answer.now) }
{
    let Ask::Readdir { handle } = ask else {
        return Ok(None);
    };
    let Some(directory) = found else {
        return Ok(None);
    };
    let Answer::Name(names) = answer else {
        return Ok(None);
    };
    let Some(left) = session.listing(handle.as_slice()) else {
        return Ok(None);
    };
    due_left(
        alloc,
        profile,
        session.tree(),
        directory,
        names.as_slice(),
        left,
    )
}

/// The same by what is left.
///
/// # Errors
///
/// `NoMemory` if memory runs out.
fn due_left(
    alloc: Global,
    profile: Profile,
    tree: &Tree,
    directory: &Directory,
    items: &[NameItem],
    left: &Listing,
) -> Result<Option<Vec<NameItem>>, NoMemory>
    ensures { IfOk result (λ due. option_map (λ v. v.items) due
        ≡ spec.due_left profile tree.now directory.now items.now (Some left.now)) }
{
    if !may_be_listed(alloc, profile, tree, directory, left, items)? {
        return Ok(None);
    }
    Ok(Some(left_items(alloc, left, items)?))
}

/// Whether there are names, each once, that may be given.
///
/// # Errors
///
/// `NoMemory` if memory runs out.
fn may_be_listed(
    alloc: Global,
    profile: Profile,
    tree: &Tree,
    directory: &Directory,
    left: &Listing,
    items: &[NameItem],
) -> Result<bool, NoMemory>
    ensures { IfOk result (λ may. may ≡ spec.may_be_listed profile tree.now directory.now left.now items.now) }
{
    if items.is_empty() || !are_distinct(items) {
        return Ok(false);
    }
    may_all_be_given(alloc, profile, tree, directory, left, items)
}

/// Whether each name may be given.
///
/// # Errors
///
/// `NoMemory` if memory runs out.
fn may_all_be_given(
    alloc: Global,
    profile: Profile,
    tree: &Tree,
    directory: &Directory,
    left: &Listing,
    items: &[NameItem],
) -> Result<bool, NoMemory>
    ensures { IfOk result
        (λ may. may ≡ list_all (spec.may_be_given profile tree.now directory.now left.now) items.now) }
{
    for item in items {
        if !may_be_given(alloc, profile, tree, directory, left, item)? {
            return Ok(false);
        }
    }
    Ok(true)
}

/// Whether a name may be given: it is one of the time of OPENDIR, with its attributes of then, or one of now that is
/// due, with those of now.
///
/// # Errors
///
/// `NoMemory` if memory runs out.
fn may_be_given(
    alloc: Global,
    profile: Profile,
    tree: &Tree,
    directory: &Directory,
    left: &Listing,
    item: &NameItem,
) -> Result<bool, NoMemory>
    ensures { IfOk result
        (λ may. may ≡ spec.may_be_given profile tree.now directory.now left.now item.now) }
{
    let Some(name) = Name::from_slice(alloc, item.filename.as_slice())? else {
        return Ok(false);
    };
    let may = may_name_be_given(alloc, profile, tree, directory, left, &name, &item.attrs);
    drop(name);
    may
}

/// The same of what is a name.
///
/// # Errors
///
/// `NoMemory` if memory runs out.
fn may_name_be_given(
    alloc: Global,
    profile: Profile,
    tree: &Tree,
    directory: &Directory,
    left: &Listing,
    name: &Name,
    attrs: &Attrs,
) -> Result<bool, NoMemory>
    ensures { IfOk result
        (λ may. may ≡ spec.may_name_be_given profile tree.now directory.now left.now name.now attrs.now) }
{
    if has_attributes(left.find(name), attrs) {
        return Ok(true);
    }
    if !is_due(directory, left, name) {
        return Ok(false);
    }
    is_shown_now(alloc, profile, tree, directory.place.as_ref(), name, attrs)
}

/// Whether these attributes are shown.
fn has_attributes(shown: Option<&Attrs>, attrs: &Attrs) -> bool
    ensures { result ≡ has_attributes (option_copied shown.entry) attrs.now }
{
    match shown {
        Some(shown) => same_attributes(shown, attrs),
        None => false,
    }
}

/// Whether a name was not given since it was last there anew.
fn is_due(directory: &Directory, left: &Listing, name: &Name) -> bool
    ensures { result ≡ spec.is_due directory.now left.now name.now }
{
    left.find(name).is_some() || directory.fresh.find(name).is_some()
}

/// Whether LSTAT shows these attributes now of a name in a directory, but for what the profile leaves free.
///
/// # Errors
///
/// `NoMemory` if memory runs out.
fn is_shown_now(
    alloc: Global,
    profile: Profile,
    tree: &Tree,
    place: Option<&Place>,
    name: &Name,
    attrs: &Attrs,
) -> Result<bool, NoMemory>
    ensures { IfOk result (λ is. is
        ≡ spec.are_shown profile (spec.shown_now tree.now (option_copied place.entry) name.now) attrs.now) }
{
    let Some(place) = place else {
        return Ok(false);
    };
    let path = text_below(alloc, place, name)?;
    let is = is_shown_at(profile, tree, path.as_slice(), attrs);
    drop(path);
    is
}

/// The text of the place of a name in a directory.
///
/// # Errors
///
/// `NoMemory` if memory runs out.
fn text_below(alloc: Global, place: &Place, name: &Name) -> Result<Vec<u8>, NoMemory>
    ensures { IfOk result (λ text. text.items ≡ text_of (place.now ++ name.now ∷ [])) }
{
    let mut below = place.try_clone(alloc)?;
    below.enter(name.try_clone(alloc)?)?;
    let text = absolute(alloc, below.names());
    drop(below);
    text
}

/// Whether LSTAT shows these attributes of a path, but for what the profile leaves free.
///
/// # Errors
///
/// `NoMemory` if memory runs out.
fn is_shown_at(profile: Profile, tree: &Tree, path: &[u8], attrs: &Attrs) -> Result<bool, NoMemory>
    ensures { IfOk result (λ is. is ≡ spec.are_shown profile (shown_at tree.now (Lstat path.now)) attrs.now) }
{
    match tree.stat(path, false) {
        Ok(shown) => {
            let told = mended(profile, Some(&shown), attrs)?;
            Ok(same_attributes(&shown, &told))
        }
        Err(Refused::Cause(_)) => Ok(false),
        Err(Refused::NoMemory) => Err(NoMemory),
    }
}

/// Whether no name comes twice.
fn are_distinct(items: &[NameItem]) -> bool
    ensures { result ≡ are_distinct (names_in items.now) }
{
    match items.split_first() {
        Some((item, rest)) => !is_among(item.filename.as_slice(), rest) && are_distinct(rest),
        None => true,
    }
}

/// Whether a name is among those of the items.
fn is_among(name: &[u8], items: &[NameItem]) -> bool
    ensures { result ≡ is_among name.now (names_in items.now) }
{
    for item in items {
        if is_named(item, name) {
            return true;
        }
    }
    false
}

/// Whether the item has this name.
fn is_named(item: &NameItem, name: &[u8]) -> bool
    ensures { result ≡ same_bytes name.now item.now.filename }
{
    name == item.filename.as_slice()
}

/// The names that were left, of those that a listing gives, with their attributes of then.
///
/// # Errors
///
/// `NoMemory` if memory runs out.
fn left_items(alloc: Global, left: &Listing, items: &[NameItem]) -> Result<Vec<NameItem>, NoMemory>
    ensures { IfOk result (λ given. given.items ≡ spec.left_items left.now items.now) }
{
    let mut given = Vec::new(alloc);
    for item in items {
        put_left(&mut given, alloc, left, &item.filename)?;
    }
    Ok(given)
}

/// Adds a name, if it was left, with its attributes of then.
///
/// # Errors
///
/// `NoMemory` if memory runs out.
fn put_left(
    given: &mut Vec<NameItem>,
    alloc: Global,
    left: &Listing,
    filename: &ByteString,
) -> Result<(), NoMemory>
    ensures { OnOk result (given.new.items ≡ given.old.items ++ spec.left_item left.now filename.now) }
{
    let Some(name) = Name::from_slice(alloc, filename.as_slice())? else {
        return Ok(());
    };
    let put = put_shown(given, alloc, left.find(&name), filename);
    drop(name);
    put
}

/// Adds a name with the attributes that are shown of it, if any are.
///
/// # Errors
///
/// `NoMemory` if memory runs out.
fn put_shown(
    given: &mut Vec<NameItem>,
    alloc: Global,
    shown: Option<&Attrs>,
    filename: &ByteString,
) -> Result<(), NoMemory>
    ensures { OnOk result
        (given.new.items ≡ given.old.items ++ spec.shown_item filename.now (option_copied shown.entry)) }
{
    let Some(shown) = shown else {
        return Ok(());
    };
    let filename = filename.clone()?;
    let attrs = shown.clone()?;
    given.push(NameItem {
        filename,
        longname: ByteString::new(Vec::new(alloc)),
        attrs,
    })?;
    Ok(())
}
