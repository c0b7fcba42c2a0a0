//! What a judge notes of the directories that are open, request by request.
ghost use Rattle.std.specs.Prelude.{◌≡◌, [], Some, None, true, false, not, if◌then◌else◌};
ghost use Rattle.std.specs.Prelude.{map, OnOk, IfOk, option_copied};
ghost use Rattle.sftp_tree.specs.Attributes.{excludes};
ghost use Rattle.sftp_path.specs.Place.{name_cmp};
ghost use Rattle.sftp_path.specs.Table.{put};
ghost use Rattle.sftp_tree.specs.Items.{entry_of};
ghost use Rattle.sftp_handles.specs.Replies.{names_in, names_given};
ghost use Rattle.sftp_profile.specs.declared.notes.Note.TheVariants as notes;
ghost use Rattle.sftp_profile.specs.Profiles.{given_by};
ghost use Rattle.sftp_profile.specs.Notes as spec;

use crate::directories::{Directory, Shift, close, enter, shift_all};
use crate::flags::{EXCL, has};
use crate::refusals::has_code;
use sftp_handles::Listing;
use sftp_path::{Name, Place};
use sftp_tree::{Item, NoMemory, Refused, Ticks, Tree};
use sftp_wire::status::OK;
use sftp_wire::{Answer, Ask, ByteString, NameItem};
use std::alloc::Global;

/// What there is to note of a request and its answer.
#[derive(Drop)]
pub enum Note {
    /// Nothing.
    Nothing,
    /// A directory was opened.
    Opens(Directory),
    /// A handle was closed.
    Closes(ByteString),
    /// The listing under a handle gave names.
    Gives(ByteString),
    /// Names went and came.
    Shifts(Shift),
}

/// What there is to note of a request that got this answer, on this tree.
///
/// # Errors
///
/// `NoMemory` if memory runs out.
pub(crate) fn note_of(tree: &Tree, ask: &Ask, answer: &Answer) -> Result<Note, NoMemory>
    ensures { IfOk result (λ note. note ≡ spec.note_of tree.now ask.now answer.now) }
{
    match ask {
        Ask::Opendir { path } => opened_listing(tree, path, answer),
        Ask::Open { path, .. } => opened_plainly(tree, ask, path, answer),
        Ask::Readdir { handle } => gives(handle),
        Ask::Close { handle } => closed(handle, answer),
        _ => shifts(tree, ask, answer),
    }
}

/// What there is to note of an OPENDIR.
///
/// # Errors
///
/// `NoMemory` if memory runs out.
fn opened_listing(tree: &Tree, path: &ByteString, answer: &Answer) -> Result<Note, NoMemory>
    ensures { IfOk result (λ note. note ≡ spec.opened tree.now path.now true answer.now notes.Nothing) }
{
    let Answer::Handle(handle) = answer else {
        return Ok(Note::Nothing);
    };
    match directory_by(tree, path, true, handle)? {
        Some(directory) => Ok(Note::Opens(directory)),
        None => Ok(Note::Nothing),
    }
}

/// What there is to note of an OPEN.
///
/// # Errors
///
/// `NoMemory` if memory runs out.
fn opened_plainly(
    tree: &Tree,
    ask: &Ask,
    path: &ByteString,
    answer: &Answer,
) -> Result<Note, NoMemory>
    ensures { IfOk result (λ note. note
        ≡ spec.opened tree.now path.now false answer.now (spec.shift_note (spec.shift_of tree.now ask.now))) }
{
    let Answer::Handle(handle) = answer else {
        return Ok(Note::Nothing);
    };
    match directory_by(tree, path, false, handle)? {
        Some(directory) => Ok(Note::Opens(directory)),
        None => Ok(shift_note(shift_of(tree, ask)?)),
    }
}

/// What there is to note of a READDIR.
///
/// # Errors
///
/// `NoMemory` if memory runs out.
fn gives(handle: &ByteString) -> Result<Note, NoMemory>
    ensures { IfOk result (λ note. note ≡ notes.Gives handle.now) }
{
    Ok(Note::Gives(handle.clone()?))
}

/// What there is to note of a CLOSE.
///
/// # Errors
///
/// `NoMemory` if memory runs out.
fn closed(handle: &ByteString, answer: &Answer) -> Result<Note, NoMemory>
    ensures { IfOk result (λ note. note ≡ spec.when_done answer.now (notes.Closes handle.now)) }
{
    if has_code(answer, OK) {
        Ok(Note::Closes(handle.clone()?))
    } else {
        Ok(Note::Nothing)
    }
}

/// What there is to note of a request on paths.
///
/// # Errors
///
/// `NoMemory` if memory runs out.
fn shifts(tree: &Tree, ask: &Ask, answer: &Answer) -> Result<Note, NoMemory>
    ensures { IfOk result (λ note. note
        ≡ spec.when_done answer.now (spec.shift_note (spec.shift_of tree.now ask.now))) }
{
    if has_code(answer, OK) {
        Ok(shift_note(shift_of(tree, ask)?))
    } else {
        Ok(Note::Nothing)
    }
}

/// The directory that a path leads to, newly open under a handle, if it leads to one.
///
/// # Errors
///
/// `NoMemory` if memory runs out.
fn directory_by(
    tree: &Tree,
    path: &ByteString,
    is_listed: bool,
    handle: &ByteString,
) -> Result<Option<Directory>, NoMemory>
    ensures { IfOk result (λ found. found ≡ (if spec.leads_to_directory tree.now path.now
        then Some (spec.directory_by tree.now path.now is_listed handle.now) else None)) }
{
    match tree.list(path.as_slice()) {
        Ok(items) => {
            let directory = directory_of(tree, path, is_listed, handle, items.as_slice());
            drop(items);
            Ok(Some(directory?))
        }
        Err(Refused::Cause(_)) => Ok(None),
        Err(Refused::NoMemory) => Err(NoMemory),
    }
}

/// The directory that a path leads to, with these names in it.
///
/// # Errors
///
/// `NoMemory` if memory runs out.
fn directory_of(
    tree: &Tree,
    path: &ByteString,
    is_listed: bool,
    handle: &ByteString,
    items: &[Item],
) -> Result<Directory, NoMemory>
    ensures { IfOk result (λ directory. directory ≡ record {
      handle = handle.now;
      place = spec.led_to tree.now true path.now;
      is_listed = is_listed;
      must = spec.all_put [] (map entry_of items.now);
      fresh = [];
    }) }
{
    let alloc = tree.allocator();
    let handle = handle.clone()?;
    let place = led_to(tree, true, path.as_slice())?;
    let must = listing_of(alloc, items)?;
    Ok(Directory {
        handle,
        place,
        is_listed,
        must,
        fresh: Listing::empty(alloc),
    })
}

/// A listing of these names.
///
/// # Errors
///
/// `NoMemory` if memory runs out.
fn listing_of(alloc: Global, items: &[Item]) -> Result<Listing, NoMemory>
    ensures { IfOk result (λ listing. listing ≡ spec.all_put [] (map entry_of items.now)) }
{
    let mut listing = Listing::empty(alloc);
    for item in items {
        put_item(&mut listing, alloc, item)?;
    }
    Ok(listing)
}

/// Lets a listing give an item.
///
/// # Errors
///
/// `NoMemory` if memory runs out.
fn put_item(listing: &mut Listing, alloc: Global, item: &Item) -> Result<(), NoMemory>
    ensures { OnOk result (listing.new ≡ put name_cmp listing.old item.now.name item.now.attrs) }
{
    let name = item.name.try_clone(alloc)?;
    let attrs = item.attrs.clone()?;
    listing.add(name, attrs)?;
    Ok(())
}

/// What there is to note of what is gone and what is new.
fn shift_note(shift: Shift) -> Note
    ensures { result ≡ spec.shift_note shift }
{
    if shift.gone.is_none() && shift.come.is_none() {
        Note::Nothing
    } else {
        Note::Shifts(shift)
    }
}

/// What is gone, and what is new, after a request that is done.
///
/// # Errors
///
/// `NoMemory` if memory runs out.
#[tactic(auto, unfolding(crate::specs::Notes::shift_of))]
fn shift_of(tree: &Tree, ask: &Ask) -> Result<Shift, NoMemory>
    ensures { IfOk result (λ shift. shift ≡ spec.shift_of tree.now ask.now) }
{
    match ask {
        Ask::Mkdir { path, .. } => come(tree, path),
        Ask::Symlink { linkpath, .. } => come(tree, linkpath),
        Ask::Hardlink { newpath, .. } => come(tree, newpath),
        Ask::Rmdir { path } => gone(tree, path),
        Ask::Remove { path } => gone(tree, path),
        Ask::Rename { oldpath, newpath } => moved(tree, oldpath, newpath),
        Ask::PosixRename { oldpath, newpath } => moved(tree, oldpath, newpath),
        Ask::Open { path, pflags, .. } => made(tree, path, *pflags),
        _ => Ok(Shift {
            gone: None,
            come: None,
        }),
    }
}

/// The shift by a request that makes an entry where a path leads.
///
/// # Errors
///
/// `NoMemory` if memory runs out.
fn come(tree: &Tree, path: &ByteString) -> Result<Shift, NoMemory>
    ensures { IfOk result (λ shift. shift ≡ record { gone = None; come = spec.led_to tree.now false path.now }) }
{
    let come = led_to(tree, false, path.as_slice())?;
    Ok(Shift { gone: None, come })
}

/// The shift by a request that removes the entry where a path leads.
///
/// # Errors
///
/// `NoMemory` if memory runs out.
fn gone(tree: &Tree, path: &ByteString) -> Result<Shift, NoMemory>
    ensures { IfOk result (λ shift. shift ≡ record { gone = spec.led_to tree.now false path.now; come = None }) }
{
    let gone = led_to(tree, false, path.as_slice())?;
    Ok(Shift { gone, come: None })
}

/// The shift by a request that moves an entry from where one path leads to where another does.
///
/// # Errors
///
/// `NoMemory` if memory runs out.
fn moved(tree: &Tree, old: &ByteString, new: &ByteString) -> Result<Shift, NoMemory>
    ensures { IfOk result (λ shift. shift
        ≡ spec.moved (spec.led_to tree.now false old.now) (spec.led_to tree.now false new.now)) }
{
    let gone = led_to(tree, false, old.as_slice())?;
    let come = led_to(tree, false, new.as_slice())?;
    if is_same(gone.as_ref(), come.as_ref()) {
        return Ok(Shift {
            gone: None,
            come: None,
        });
    }
    Ok(Shift { gone, come })
}

/// Whether two places are the same.
fn is_same(a: Option<&Place>, b: Option<&Place>) -> bool
    ensures { result ≡ spec.is_same (option_copied a.entry) (option_copied b.entry) }
{
    match (a, b) {
        (Some(a), Some(b)) => b.starts_with(a) && a.starts_with(b),
        (Some(_), None) => false,
        (None, _) => false,
    }
}

/// The shift by an OPEN, which makes a file if nothing is where its path leads.
///
/// # Errors
///
/// `NoMemory` if memory runs out.
fn made(tree: &Tree, path: &ByteString, pflags: u32) -> Result<Shift, NoMemory>
    ensures { IfOk result (λ shift. shift
        ≡ record { gone = None; come = spec.made_at tree.now (not (excludes pflags)) path.now }) }
{
    let come = made_at(tree, !has(pflags, EXCL), path)?;
    Ok(Shift { gone: None, come })
}

/// The place that a path of OPEN leads to, if there is nothing.
///
/// # Errors
///
/// `NoMemory` if memory runs out.
fn made_at(tree: &Tree, follow: bool, path: &ByteString) -> Result<Option<Place>, NoMemory>
    ensures { IfOk result (λ place. place ≡ spec.made_at tree.now follow path.now) }
{
    match tree.stat(path.as_slice(), follow) {
        Ok(shown) => {
            drop(shown);
            Ok(None)
        }
        Err(Refused::Cause(_)) => led_to(tree, follow, path.as_slice()),
        Err(Refused::NoMemory) => Err(NoMemory),
    }
}

/// Where a path leads, if it leads anywhere; a last link is followed or not.
///
/// # Errors
///
/// `NoMemory` if memory runs out.
pub(crate) fn led_to(tree: &Tree, follow: bool, path: &[u8]) -> Result<Option<Place>, NoMemory>
    ensures { IfOk result (λ place. place ≡ spec.led_to tree.now follow path.now) }
{
    let mut ticks = Ticks::new();
    match tree.walk(path, follow, &mut ticks) {
        Ok(names) => {
            let place = place_of(tree.allocator(), names.as_slice());
            drop(names);
            Ok(Some(place?))
        }
        Err(Refused::Cause(_)) => Ok(None),
        Err(Refused::NoMemory) => Err(NoMemory),
    }
}

/// The place of these names.
///
/// # Errors
///
/// `NoMemory` if memory runs out.
fn place_of(alloc: Global, names: &[Name]) -> Result<Place, NoMemory>
    ensures { IfOk result (λ place. place ≡ names.now) }
{
    let mut place = Place::root(alloc);
    for name in names {
        enter(&mut place, alloc, name)?;
    }
    Ok(place)
}

/// Takes a note of what happened to directories.
///
/// # Errors
///
/// `NoMemory` if memory runs out.
#[tactic(auto, unfolding(crate::specs::Notes::noted))]
pub(crate) fn put_note(
    directories: &mut Vec<Directory>,
    alloc: Global,
    note: Note,
    answer: &Answer,
) -> Result<(), NoMemory>
    ensures { OnOk result (directories.new.items ≡ spec.noted directories.old.items note answer.now) }
{
    match note {
        Note::Nothing => Ok(()),
        Note::Opens(directory) => {
            directories.push(directory)?;
            Ok(())
        }
        Note::Closes(handle) => {
            close(directories, handle.as_slice());
            drop(handle);
            Ok(())
        }
        Note::Gives(handle) => {
            let given = give(directories, alloc, handle.as_slice(), answer);
            drop(handle);
            given
        }
        Note::Shifts(shift) => {
            let shifted = shift_all(directories, alloc, &shift);
            drop(shift);
            shifted
        }
    }
}

/// Notes the names that the listing under a handle gave.
///
/// # Errors
///
/// `NoMemory` if memory runs out.
fn give(
    directories: &mut Vec<Directory>,
    alloc: Global,
    handle: &[u8],
    answer: &Answer,
) -> Result<(), NoMemory>
    ensures { OnOk result (directories.new.items
        ≡ map (given_by handle.now (names_given answer.now)) directories.old.items) }
{
    give_all(directories, alloc, handle, items_of(answer))
}

/// The items that an answer gives, or none.
fn items_of(answer: &Answer) -> &[NameItem]
    ensures { names_in result.now ≡ names_given answer.now }
{
    match answer {
        Answer::Name(names) => names.as_slice(),
        _ => &[],
    }
}

/// Notes the names of these items, which the listing under a handle gave.
///
/// # Errors
///
/// `NoMemory` if memory runs out.
fn give_all(
    directories: &mut Vec<Directory>,
    alloc: Global,
    handle: &[u8],
    items: &[NameItem],
) -> Result<(), NoMemory>
    ensures { OnOk result (directories.new.items
        ≡ map (given_by handle.now (names_in items.now)) directories.old.items) }
{
    for directory in directories.iter_mut() {
        directory.give(alloc, handle, items)?;
    }
    Ok(())
}
