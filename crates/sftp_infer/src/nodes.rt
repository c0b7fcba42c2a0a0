//! What replies told of an entry.

use crate::files::File;
use crate::names::{DirectoryNames, Seat};
use std::alloc::Global;

/// What an entry is.
#[derive(Clone, Copy, PartialEq, Eq)]
pub enum Sort {
    /// Something, of no known kind.
    Unknown,
    Directory,
    File,
    Link,
}

/// What a name leads to.
#[derive(Clone, Copy)]
pub(crate) enum Held {
    Nothing,
    /// The entry with this number.
    Entry(usize),
}

/// What is known of a name in a directory.
#[derive(Clone, Copy)]
pub(crate) struct Slot {
    /// What it led to at the start, if that is known.
    pub(crate) start: Option<Held>,
    /// What it leads to now, if the session changed that.
    pub(crate) now: Option<Held>,
    /// The record that told of the start.
    pub(crate) told: u64,
    /// The request that changed it last; 0 if none did.
    pub(crate) changed: u64,
    /// Whether what it led to at the start is assumed, and no reply says so alone.
    pub(crate) is_assumed: bool,
    /// The listing that gave it last.
    pub(crate) listed: u64,
}

impl Slot {
    /// A name of which nothing is known.
    pub(crate) fn unknown() -> Slot {
        Slot {
            start: None,
            now: None,
            told: 0,
            changed: 0,
            is_assumed: false,
            listed: 0,
        }
    }

    /// What it leads to now, and the record that told it, if that is known.
    pub(crate) fn held(&self) -> Option<(Held, u64)> {
        match (self.now, self.start) {
            (Some(held), _) => Some((held, self.changed)),
            (None, Some(held)) => Some((held, self.told)),
            (None, None) => None,
        }
    }
}

/// The owner and the permissions of an entry.
#[derive(Clone, Copy)]
pub(crate) struct Rights {
    /// As they were at the start, if that was told.
    pub(crate) start_owner: Option<(u32, u32)>,
    pub(crate) start_permissions: Option<u32>,
    /// As the session set them.
    pub(crate) owner: Option<(u32, u32)>,
    pub(crate) permissions: Option<u32>,
    /// The record that told or set them last.
    pub(crate) told: u64,
    /// The first request that set them, and the last one; 0 if none did.
    pub(crate) first: u64,
    pub(crate) last: u64,
}

impl Rights {
    pub(crate) fn unknown() -> Rights {
        Rights {
            start_owner: None,
            start_permissions: None,
            owner: None,
            permissions: None,
            told: 0,
            first: 0,
            last: 0,
        }
    }
}

/// An entry: a directory, a file or a link.
#[derive(Drop)]
pub(crate) struct Node {
    pub(crate) sort: Sort,
    /// The record that told the kind.
    pub(crate) told: u64,
    /// Whether a reply showed the kind; if not, it follows from what a request did.
    pub(crate) is_shown: bool,
    /// Whether a reply showed the kind of what is at its name, and not of what a link there leads to.
    pub(crate) is_itself: bool,
    /// Whether the start has it.
    pub(crate) is_old: bool,
    /// Whether it is taken for new where it may as well be old.
    pub(crate) is_chosen: bool,
    /// The directory that it is in now, and its name there. Of a file, one of its names.
    pub(crate) seat: Seat,
    /// The same at the start.
    pub(crate) old_seat: Seat,
    pub(crate) rights: Rights,
    /// Of a directory: its names.
    pub(crate) names: DirectoryNames,
    /// Of a directory: the record that told that no other names were there.
    pub(crate) complete: Option<u64>,
    /// Of a link: its target, if it is known, and its length.
    pub(crate) target: Option<Vec<u8>>,
    pub(crate) length: Option<u64>,
    /// Whether its target is made up.
    pub(crate) is_invented: bool,
    /// Of a file: its size and its bytes.
    pub(crate) file: File,
}

impl Node {
    /// An entry of the start of which nothing else is known.
    pub(crate) fn old(alloc: Global, sort: Sort, told: u64, seat: Seat) -> Node {
        Node {
            sort,
            told,
            is_shown: false,
            is_itself: false,
            is_old: true,
            is_chosen: false,
            seat,
            old_seat: seat,
            rights: Rights::unknown(),
            names: DirectoryNames::new(alloc),
            complete: None,
            target: None,
            length: None,
            is_invented: false,
            file: File::old(alloc),
        }
    }

    /// The last request that changed its attributes.
    pub(crate) fn changed(&self) -> u64 {
        self.file.last.max(self.rights.last)
    }

    /// Whether it is a file of the start that requests changed only after this one.
    pub(crate) fn is_old_file(&self, asked: u64) -> bool {
        self.is_old && self.file.first > asked && self.sort == Sort::File
    }

    /// Makes it an entry that the session made.
    pub(crate) fn be_new(&mut self, told: u64) {
        self.is_old = false;
        self.is_shown = true;
        self.is_itself = true;
        self.complete = Some(told);
        self.file.empty(told);
    }
}
