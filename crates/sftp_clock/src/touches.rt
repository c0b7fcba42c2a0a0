//! What requests do to times (POSIX, the descriptions of `write`, `ftruncate`, `open`, `mkdir` and others), as far as
//! it has to be found before they are done: paths may lead elsewhere behind them.

use crate::ends::end_of;
use crate::places::Spot;
use crate::tables::TimeTable;
use crate::times::Times;
use bitflags::Flags;
use sftp_handles::{HandleTable, Session};
use sftp_tree::{FileNo, NoMemory, Tree};
use sftp_wire::{Ask, Attrs, ByteString, OpenFlags};

/// Times of access and modification as a request gives them.
pub(crate) type Given = Option<(u32, u32)>;

/// How the times of a file change.
#[derive(Clone, Copy)]
pub(crate) enum Change {
    /// They are set.
    Set(Times),
    /// It is modified now.
    Modify,
}

/// What a request does to times if it is done.
#[derive(Drop)]
pub(crate) enum Touch {
    /// Nothing, or what is found when it is done.
    Nothing,
    /// A file changes.
    File(FileNo, Change),
    /// It makes or removes what stands at a name, or gives a file this name.
    At(Spot),
    /// It moves what stands at the first name to the second, and so removes what the second named.
    Move(Spot, Spot),
    /// It may make a file: if the tree has more entries than these.
    Open(u32),
}

impl Touch {
    /// The file whose times change, and how.
    pub(crate) fn of_file(&self) -> Option<(FileNo, Change)> {
        match self {
            Touch::File(number, change) => Some((*number, *change)),
            _ => None,
        }
    }

    /// How many entries the tree had before an OPEN.
    pub(crate) fn entries_before(&self) -> Option<u32> {
        match self {
            Touch::Open(count) => Some(*count),
            _ => None,
        }
    }
}

/// What a request does to times if it is done.
///
/// # Errors
///
/// `NoMemory` if memory runs out.
pub(crate) fn touch_of<T: HandleTable>(
    table: &mut TimeTable,
    session: &Session<T>,
    ask: &Ask,
) -> Result<Touch, NoMemory> {
    match ask {
        Ask::Open { pflags, .. } => Ok(opened(session.tree(), *pflags)),
        Ask::Fsetstat { attrs, .. } => Ok(set_open(session, ask, attrs)),
        Ask::Setstat { path, attrs } => set_at(table, session.tree(), path, attrs),
        _ => touch_at(table, session.tree(), ask),
    }
}

/// Whether a request changes names.
pub(crate) fn changes_names(ask: &Ask) -> bool {
    match ask {
        Ask::Mkdir { .. } => true,
        Ask::Symlink { .. } => true,
        Ask::Remove { .. } => true,
        Ask::Rmdir { .. } => true,
        Ask::Hardlink { .. } => true,
        Ask::Rename { .. } => true,
        Ask::PosixRename { .. } => true,
        _ => false,
    }
}

/// What a request that changes names does to times.
fn touch_at(table: &mut TimeTable, tree: &Tree, ask: &Ask) -> Result<Touch, NoMemory> {
    match ask {
        Ask::Mkdir { path, .. } => at(table, tree, path),
        Ask::Symlink { linkpath, .. } => at(table, tree, linkpath),
        Ask::Remove { path } => at(table, tree, path),
        Ask::Rmdir { path } => at(table, tree, path),
        Ask::Hardlink { newpath, .. } => at(table, tree, newpath),
        Ask::Rename { oldpath, newpath } => moved(table, tree, oldpath, newpath),
        Ask::PosixRename { oldpath, newpath } => moved(table, tree, oldpath, newpath),
        _ => Ok(Touch::Nothing),
    }
}

/// An OPEN makes a file where there is none, or modifies a file that it truncates.
fn opened(tree: &Tree, pflags: u32) -> Touch {
    if has(pflags, OpenFlags::CREAT) || has(pflags, OpenFlags::TRUNC) {
        Touch::Open(tree.entry_count())
    } else {
        Touch::Nothing
    }
}

/// Whether a flag of OPEN is set.
pub(crate) fn has(pflags: u32, flag: OpenFlags) -> bool {
    OpenFlags::from_bits_retain(pflags).contains(flag)
}

fn set_open<T: HandleTable>(session: &Session<T>, ask: &Ask, attrs: &Attrs) -> Touch {
    match session.touch(ask).file() {
        Some(number) => set_file(session.tree(), number, attrs),
        None => Touch::Nothing,
    }
}

/// The attributes of a file are set: its times to those that are given, or else it is modified if its length changes.
fn set_file(tree: &Tree, number: FileNo, attrs: &Attrs) -> Touch {
    match (attrs.times, attrs.size) {
        (Some(given), _) => Touch::File(number, Change::Set(Times::given(given))),
        (None, Some(size)) if changes_length(tree, number, size) => {
            Touch::File(number, Change::Modify)
        }
        (None, _) => Touch::Nothing,
    }
}

fn changes_length(tree: &Tree, number: FileNo, size: u64) -> bool {
    tree.has_file(number) && tree.byte_count(number) != size
}

/// Times that are given are set when it is done.
fn set_at(
    table: &mut TimeTable,
    tree: &Tree,
    path: &ByteString,
    attrs: &Attrs,
) -> Result<Touch, NoMemory> {
    if attrs.times.is_some() || attrs.size.is_none() {
        return Ok(Touch::Nothing);
    }
    Ok(match table.file_of(tree, path.as_slice())? {
        Some(number) => set_file(tree, number, attrs),
        None => Touch::Nothing,
    })
}

fn at(table: &mut TimeTable, tree: &Tree, path: &ByteString) -> Result<Touch, NoMemory> {
    Ok(match table.spot(tree, path.as_slice())? {
        Some(spot) => Touch::At(spot),
        None => Touch::Nothing,
    })
}

/// A RENAME of something to itself, or of one name of a file to another, does nothing.
fn moved(
    table: &mut TimeTable,
    tree: &Tree,
    old: &ByteString,
    new: &ByteString,
) -> Result<Touch, NoMemory> {
    if table.may_have_two_names() && are_one(tree, old, new)? {
        return Ok(Touch::Nothing);
    }
    match (
        table.spot(tree, old.as_slice())?,
        table.spot(tree, new.as_slice())?,
    ) {
        (Some(old), Some(new)) => Ok(move_between(old, new)),
        _ => Ok(Touch::Nothing),
    }
}

fn move_between(old: Spot, new: Spot) -> Touch {
    if old.is(&new) {
        Touch::Nothing
    } else {
        Touch::Move(old, new)
    }
}

/// Whether two paths lead to one place, or to names of one file.
fn are_one(tree: &Tree, old: &ByteString, new: &ByteString) -> Result<bool, NoMemory> {
    let Some(old) = end_of(tree, old.as_slice(), false)? else {
        return Ok(false);
    };
    match end_of(tree, new.as_slice(), false) {
        Ok(Some(new)) => Ok(old.is(&new)),
        Ok(None) => Ok(false),
        Err(error) => Err(error),
    }
}
