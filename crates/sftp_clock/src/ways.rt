//! Where paths lead, as far as it was looked up, so that further requests on them need no walk.

use crate::files::FileAt;
use crate::places::PlaceNo;
use std::alloc::Global;
use std::mem;

/// How many slots a path has, one after the other.
const TRIES: usize = 8;

/// How many slots there are at least, and at most.
const FEWEST: usize = 64;

const MOST: usize = 16_384;

/// How many bytes a path has at most that is kept.
const LONGEST: usize = 512;

/// What a path leads to: a file or a directory.
#[derive(Clone, Copy)]
pub(crate) enum Led {
    File(FileAt),
    Place(PlaceNo),
}

/// A path and what it leads to.
#[derive(Drop)]
struct Way {
    hash: u64,
    path: Vec<u8>,
    led: Led,
    /// How often the ways of its kind had been forgotten when it was kept.
    age: u64,
}

/// The ways that are kept, in slots that the hashes of paths lead to. A path that finds its slots taken is put in place
/// of another one, so whoever makes many of one hash makes his own requests slower, by a walk each.
#[derive(Drop)]
pub(crate) struct Ways {
    alloc: Global,
    /// As many as a power of two, or none.
    slots: Vec<Option<Way>>,
    /// In how many of them something was put.
    taken: usize,
    /// How often the ways to files were forgotten, and to directories.
    files: u64,
    directories: u64,
}

impl Ways {
    /// No way is kept. Does not allocate.
    pub(crate) fn new(alloc: Global) -> Ways {
        Ways {
            alloc,
            slots: Vec::new(alloc),
            taken: 0,
            files: 0,
            directories: 0,
        }
    }

    /// What a path leads to, if that is kept.
    #[inline(always)]
    pub(crate) fn find(&self, path: &[u8]) -> Option<&Led> {
        let hash = hash_of(path);
        for step in 0..TRIES {
            // Behind a free slot is none: no slot becomes free again.
            let way = self.way(hash, step)?;
            if way.hash == hash && self.counts(way) && are_alike(way.path.as_slice(), path) {
                return Some(&way.led);
            }
        }
        None
    }

    /// Keeps that a path leads to a file, if there is memory for it.
    pub(crate) fn keep_file(&mut self, path: &[u8], file: &FileAt) {
        let age = self.files;
        self.keep(path, Led::File(*file), age);
    }

    /// Keeps that a path leads to a directory, if there is memory for it.
    pub(crate) fn keep_directory(&mut self, path: &[u8], directory: PlaceNo) {
        let age = self.directories;
        self.keep(path, Led::Place(directory), age);
    }

    fn keep(&mut self, path: &[u8], led: Led, age: u64) {
        if path.len() > LONGEST {
            return;
        }
        self.make_room();
        let hash = hash_of(path);
        if let Ok(path) = Vec::from_slice(self.alloc, path) {
            self.put(Way {
                hash,
                path,
                led,
                age,
            });
        }
    }

    /// Forgets the ways to files.
    pub(crate) fn forget_files(&mut self) {
        self.files = self.files.wrapping_add(1);
    }

    /// Forgets all ways.
    pub(crate) fn forget_all(&mut self) {
        self.forget_files();
        self.directories = self.directories.wrapping_add(1);
    }

    fn put(&mut self, way: Way) {
        let number = self.room(way.hash, way.path.as_slice());
        match self.slots.get_mut(number) {
            Some(slot) => {
                if slot.is_none() {
                    self.taken = self.taken.saturating_add(1);
                }
                *slot = Some(way);
            }
            None => drop(way),
        }
    }

    /// Whether a way was not forgotten.
    fn counts(&self, way: &Way) -> bool {
        match &way.led {
            Led::File(_) => way.age == self.files,
            Led::Place(_) => way.age == self.directories,
        }
    }

    fn way(&self, hash: u64, step: usize) -> Option<&Way> {
        self.slots.get(self.slot(hash, step))?.as_ref()
    }

    fn slot(&self, hash: u64, step: usize) -> usize {
        (hash as usize).wrapping_add(step) & self.slots.len().wrapping_sub(1)
    }

    /// The slot for the way of a path: one that is free, or has the path, or else the first.
    fn room(&self, hash: u64, path: &[u8]) -> usize {
        for step in 0..TRIES {
            if self.is_free(hash, step, path) {
                return self.slot(hash, step);
            }
        }
        self.slot(hash, 0)
    }

    fn is_free(&self, hash: u64, step: usize, path: &[u8]) -> bool {
        match self.way(hash, step) {
            Some(way) => !self.counts(way) || way.path.as_slice() == path,
            None => true,
        }
    }

    /// Takes twice as many slots if a third of them are taken.
    fn make_room(&mut self) {
        let count = self.slots.len();
        if self.taken >= count / 3 && count < MOST {
            let more = free_slots(self.alloc, count.saturating_mul(2).max(FEWEST));
            let before = mem::replace(&mut self.slots, more);
            self.taken = 0;
            self.put_all(before);
        }
    }

    /// Puts the ways of these slots that were not forgotten.
    fn put_all(&mut self, slots: Vec<Option<Way>>) {
        for slot in slots {
            if let Some(way) = slot {
                self.put_back(way);
            }
        }
    }

    fn put_back(&mut self, way: Way) {
        if self.counts(&way) {
            self.put(way);
        } else {
            drop(way);
        }
    }
}

/// So many slots, or none if memory runs out.
fn free_slots(alloc: Global, count: usize) -> Vec<Option<Way>> {
    match Vec::with_capacity(alloc, count) {
        Ok(slots) => filled(slots, count),
        Err(_) => Vec::new(alloc),
    }
}

/// The slots with so many free ones more.
fn filled(slots: Vec<Option<Way>>, count: usize) -> Vec<Option<Way>> {
    let mut slots = slots;
    for _ in 0..count {
        if slots.push(None).is_err() {
            return slots;
        }
    }
    slots
}

/// A hash of a path. Its length comes last: the last byte of a word reaches the low bits only when another number is
/// mixed in.
fn hash_of(path: &[u8]) -> u64 {
    mixed(hash_of_text(path), path.len() as u64)
}

/// A hash of a path's words of eight bytes, and of its last eight bytes, or of its bytes if it has fewer.
fn hash_of_text(path: &[u8]) -> u64 {
    match path.last_chunk::<8>() {
        Some(last) => {
            let (words, _) = path.as_chunks::<8>();
            mixed(hash_of_words(words), u64::from_le_bytes(*last))
        }
        None => hash_of_bytes(path),
    }
}

fn hash_of_bytes(bytes: &[u8]) -> u64 {
    let mut hash: u64 = 0;
    for byte in bytes {
        hash = mixed(hash, u64::from(*byte));
    }
    hash
}

fn hash_of_words(words: &[[u8; 8]]) -> u64 {
    let mut hash: u64 = 0;
    for word in words {
        hash = mixed(hash, u64::from_le_bytes(*word));
    }
    hash
}

fn mixed(hash: u64, more: u64) -> u64 {
    let product = (hash ^ more).wrapping_mul(0x9e37_79b9_7f4a_7c15);
    // The highest bits depend on all bytes of a word, and a slot on the lowest.
    product ^ (product >> 48)
}

/// Whether two paths are the same. Compared by words, since that takes a fifth of what `==` does.
fn are_alike(one: &[u8], other: &[u8]) -> bool {
    if one.len() != other.len() {
        return false;
    }
    match (one.last_chunk::<8>(), other.last_chunk::<8>()) {
        (Some(last), Some(other_last)) => {
            let (words, _) = one.as_chunks::<8>();
            let (others, _) = other.as_chunks::<8>();
            u64::from_le_bytes(*last) == u64::from_le_bytes(*other_last)
                && words_are_alike(words, others)
        }
        _ => bytes_are_alike(one, other),
    }
}

fn words_are_alike(words: &[[u8; 8]], others: &[[u8; 8]]) -> bool {
    for (word, other) in words.iter().zip(others) {
        if u64::from_le_bytes(*word) != u64::from_le_bytes(*other) {
            return false;
        }
    }
    true
}

fn bytes_are_alike(bytes: &[u8], others: &[u8]) -> bool {
    for (byte, other) in bytes.iter().zip(others) {
        if *byte != *other {
            return false;
        }
    }
    true
}
