//! What is open.

use sftp_path::NoMemory;
use std::alloc::Global;
use std::collections::{BTreeMap, btree_map};

/// How many handles are compared one after the other.
const FEW: usize = 8;

/// What a handle leads to.
#[derive(Clone, Copy)]
pub(crate) struct Opened {
    /// The number of the entry.
    pub(crate) entry: usize,
    /// The record of the reply that gave the handle.
    pub(crate) told: u64,
    /// The record of the request.
    pub(crate) asked: u64,
    /// Whether it is for a listing.
    pub(crate) is_listing: bool,
    /// The flags of OPEN.
    pub(crate) flags: u32,
}

/// A handle, and what it leads to.
#[derive(Drop)]
struct Handle {
    name: Vec<u8>,
    opened: Opened,
}

/// The handles that are open: some in a list, and those for which it had no room.
#[derive(Drop)]
pub(crate) struct Handles {
    few: Vec<Handle>,
    others: BTreeMap<Vec<u8>, Opened>,
}

impl Handles {
    pub(crate) fn new(alloc: Global) -> Handles {
        Handles {
            few: Vec::new(alloc),
            others: BTreeMap::new(alloc),
        }
    }

    /// How many handles are open.
    pub(crate) fn len(&self) -> usize {
        self.few.len().saturating_add(self.others.len())
    }

    /// Where in the list a handle is.
    fn place(&self, name: &[u8]) -> Option<usize> {
        for (place, handle) in self.few.iter().enumerate() {
            if handle.name.as_slice() == name {
                return Some(place);
            }
        }
        None
    }

    /// What a handle leads to.
    pub(crate) fn get(&self, name: &[u8]) -> Option<Opened> {
        match self.place(name) {
            Some(place) => match self.few.get(place) {
                Some(handle) => Some(handle.opened),
                None => None,
            },
            None if self.others.is_empty() => None,
            None => self.others.get(name).copied(),
        }
    }

    /// Opens a handle, or has one that is open lead elsewhere.
    pub(crate) fn insert(
        &mut self,
        alloc: Global,
        name: &[u8],
        opened: Opened,
    ) -> Result<(), NoMemory> {
        if let Some(place) = self.place(name) {
            if let Some(handle) = self.few.get_mut(place) {
                handle.opened = opened;
            }
            return Ok(());
        }
        let has_room = self.few.len() < FEW && !self.is_other(name);
        let name = Vec::from_slice(alloc, name)?;
        if has_room {
            self.few.push(Handle { name, opened })?;
        } else {
            self.others.insert(name, opened)?;
        }
        Ok(())
    }

    /// Whether a handle is open that is not in the list.
    fn is_other(&self, name: &[u8]) -> bool {
        !self.others.is_empty() && self.others.contains_key(name)
    }

    /// Closes a handle.
    pub(crate) fn remove(&mut self, name: &[u8]) {
        match self.place(name) {
            Some(place) => {
                if place < self.few.len() {
                    drop(self.few.swap_remove(place));
                }
            }
            None if self.others.is_empty() => {}
            None => {
                self.others.remove(name);
            }
        }
    }

    /// What the handle at this place of the list leads to.
    pub(crate) fn opened(&self, place: usize) -> Option<Opened> {
        match self.few.get(place) {
            Some(handle) => Some(handle.opened),
            None => None,
        }
    }

    /// What the handles lead to that are not in the list.
    pub(crate) fn others(&self) -> btree_map::Values<'_, Vec<u8>, Opened> {
        self.others.values()
    }
}
