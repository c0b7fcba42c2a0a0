//! The times of the names that open directories have still to give.

use crate::ends::end_of;
use crate::places::{Child, PlaceNo};
use crate::replies::MOST_NAMES;
use crate::tables::TimeTable;
use crate::times::Times;
use crate::ways::Led;
use sftp_handles::Listing;
use sftp_path::Name;
use sftp_tree::{NoMemory, Tree};
use sftp_wire::ByteString;
use std::alloc::Global;
use std::collections::HashMap;

/// The times of the names in a directory as it was when it was opened, in the order in which they are given.
#[derive(Drop)]
pub(crate) enum Listed {
    /// Those of each, and how many were given.
    Each(Vec<Times>, usize),
    /// The same for all.
    Alike,
}

/// The directories that are open, by their handles: 8 bytes for each name, if something was given times.
#[derive(Drop)]
pub(crate) struct OpenListings {
    alloc: Global,
    by_handle: HashMap<Vec<u8>, Listed>,
    /// As many times of the start as a reply has names, once a directory was opened whose names are alike.
    alike: Vec<Times>,
}

impl OpenListings {
    /// No directory is open. Does not allocate.
    pub(crate) fn new(alloc: Global) -> OpenListings {
        OpenListings {
            alloc,
            by_handle: HashMap::new(alloc),
            alike: Vec::new(alloc),
        }
    }

    /// A directory was opened under a handle, whose names have these times.
    ///
    /// # Errors
    ///
    /// `NoMemory` if memory runs out; then its names have no times.
    pub(crate) fn open(&mut self, handle: &[u8], times: Vec<Times>) -> Result<(), NoMemory> {
        self.keep(handle, Listed::Each(times, 0))
    }

    /// A directory was opened under a handle, whose names have the times of the start.
    ///
    /// # Errors
    ///
    /// `NoMemory` if memory runs out; then its names have no times.
    pub(crate) fn open_alike(&mut self, handle: &[u8], start: Times) -> Result<(), NoMemory> {
        if self.alike.is_empty() {
            self.alike.resize(MOST_NAMES, start)?;
        }
        self.keep(handle, Listed::Alike)
    }

    fn keep(&mut self, handle: &[u8], listed: Listed) -> Result<(), NoMemory> {
        match Vec::from_slice(self.alloc, handle) {
            Ok(handle) => {
                self.by_handle.insert(handle, listed)?;
                Ok(())
            }
            Err(_) => {
                drop(listed);
                Err(NoMemory)
            }
        }
    }

    /// A handle was closed.
    pub(crate) fn close(&mut self, handle: &[u8]) {
        if !self.by_handle.is_empty() {
            self.by_handle.remove(handle);
        }
    }

    /// The times of the names that were not given yet under a handle.
    pub(crate) fn left(&self, handle: &[u8]) -> &[Times] {
        match self.by_handle.get(handle) {
            Some(Listed::Each(times, given)) => times.get(*given..).unwrap_or(&[]),
            Some(Listed::Alike) => self.alike.as_slice(),
            None => &[],
        }
    }

    /// So many names were given under a handle.
    pub(crate) fn give(&mut self, handle: &[u8], count: usize) {
        if let Some(Listed::Each(_, given)) = self.by_handle.get_mut(handle) {
            *given = given.saturating_add(count);
        }
    }
}

/// The times of the names of a directory that a path leads to, in rising order of the names.
///
/// # Errors
///
/// `NoMemory` if memory runs out.
pub(crate) fn times_in(
    tree: &Tree,
    table: &mut TimeTable,
    path: &[u8],
    listing: &Listing,
) -> Result<Vec<Times>, NoMemory> {
    let alloc = tree.allocator();
    match &table.led_to(tree, path)? {
        Some(Led::Place(directory)) => {
            look_up(tree, table, path, *directory, listing)?;
            look_at(alloc, table, *directory)?;
            Ok(Vec::from_slice(alloc, table.shown(*directory))?)
        }
        _ => Ok(Vec::new(alloc)),
    }
}

/// Keeps the times of what stands at the names of a directory, unless they are kept as they are.
fn look_at(alloc: Global, table: &mut TimeTable, directory: PlaceNo) -> Result<(), NoMemory> {
    if table.shown(directory).len() != table.children(directory).len() {
        let times = times_of(alloc, table, directory)?;
        table.keep_shown(directory, times);
    }
    Ok(())
}

/// The times of what stands at the names of a directory.
fn times_of(alloc: Global, table: &TimeTable, directory: PlaceNo) -> Result<Vec<Times>, NoMemory> {
    let children = table.children(directory);
    let mut all = Vec::with_capacity(alloc, children.len())?;
    for child in children {
        all.push(table.of_child(child))?;
    }
    Ok(all)
}

/// Looks up what stands at the names of a directory, unless that is known.
fn look_up(
    tree: &Tree,
    table: &mut TimeTable,
    path: &[u8],
    directory: PlaceNo,
    listing: &Listing,
) -> Result<(), NoMemory> {
    if table.children(directory).len() == listing.len() {
        return Ok(());
    }
    let names = listing.first_names(tree.allocator(), listing.len())?;
    let children = match end_of(tree, path, true)? {
        Some(end) => children_of(tree, table, end.names, directory, names.as_slice())?,
        None => return Ok(()),
    };
    table.keep_children(directory, children);
    Ok(())
}

/// What stands at these names of a directory.
fn children_of(
    tree: &Tree,
    table: &TimeTable,
    place: Vec<Name>,
    directory: PlaceNo,
    names: &[ByteString],
) -> Result<Vec<Child>, NoMemory> {
    let mut place = place;
    let mut all = Vec::with_capacity(tree.allocator(), names.len())?;
    for name in names {
        all.push(child_at(tree, table, &mut place, directory, name.as_slice())?)?;
    }
    Ok(all)
}

fn child_at(
    tree: &Tree,
    table: &TimeTable,
    place: &mut Vec<Name>,
    directory: PlaceNo,
    name: &[u8],
) -> Result<Child, NoMemory> {
    let Some(last) = Name::from_slice(tree.allocator(), name)? else {
        return Ok(Child::Other);
    };
    place.push(last)?;
    let file = tree.file_at(place.as_slice());
    place.pop();
    Ok(table.child(directory, name, file))
}
