//! The times of files, by their numbers.

use crate::times::Times;
use sftp_tree::{FileNo, NoMemory, Tree};
use slab::Slab;
use std::alloc::Global;
use std::collections::BTreeMap;

/// Up to so many files, nobody looks which of them are gone.
const FEW: usize = 1024;

/// A file that has times of its own.
#[derive(Clone, Copy)]
struct Entry {
    number: FileNo,
    times: Times,
}

/// A file, and where its entry is, if that is known.
#[derive(Clone, Copy)]
pub(crate) struct FileAt {
    number: FileNo,
    at: Option<usize>,
}

/// The times of the files that have some of their own, and of some that are gone: of no more than there are others, but
/// for a few.
#[derive(Drop)]
pub(crate) struct FileTimes {
    alloc: Global,
    entries: Slab<Entry>,
    by_number: BTreeMap<FileNo, usize>,
    /// Where an entry was that was looked up.
    last: usize,
    /// With so many, those that are gone are forgotten.
    most: usize,
}

impl FileAt {
    /// The number of the file.
    pub(crate) fn number(&self) -> FileNo {
        self.number
    }
}

impl FileTimes {
    /// No file has times of its own. Does not allocate.
    pub(crate) fn new(alloc: Global) -> FileTimes {
        FileTimes {
            alloc,
            entries: Slab::new(alloc),
            by_number: BTreeMap::new(alloc),
            last: 0,
            most: FEW,
        }
    }

    /// Where the entry of a file is, if it has one.
    pub(crate) fn find(&self, number: FileNo) -> FileAt {
        let at = match self.by_number.get(&number) {
            Some(at) => Some(*at),
            None => None,
        };
        FileAt { number, at }
    }

    /// The times of a file, if its entry is where it was.
    pub(crate) fn get_at(&self, file: &FileAt) -> Option<Times> {
        match self.entries.get(file.at?) {
            Some(entry) if entry.number == file.number => Some(entry.times),
            _ => None,
        }
    }

    /// The times of a file, if it has some of its own.
    pub(crate) fn get(&self, number: FileNo) -> Option<Times> {
        let at = *self.by_number.get(&number)?;
        Some(self.entries.get(at)?.times)
    }

    /// The times of a file, if it has some of its own. The next look-up of the same file is short.
    pub(crate) fn get_again(&mut self, number: FileNo) -> Option<Times> {
        let at = self.find_again(number)?;
        Some(self.entries.get(at)?.times)
    }

    /// Where the entry of a file is, if it has one.
    fn find_again(&mut self, number: FileNo) -> Option<usize> {
        if !self.is_at(self.last, number) {
            self.last = *self.by_number.get(&number)?;
        }
        Some(self.last)
    }

    fn is_at(&self, at: usize, number: FileNo) -> bool {
        match self.entries.get(at) {
            Some(entry) => entry.number == number,
            None => false,
        }
    }

    /// Gives a file times of its own.
    ///
    /// # Errors
    ///
    /// `NoMemory` if memory runs out.
    pub(crate) fn put(&mut self, number: FileNo, times: Times) -> Result<(), NoMemory> {
        match self.find(number).at {
            Some(at) => self.change(at, times),
            None => self.add(number, times),
        }
    }

    fn change(&mut self, at: usize, times: Times) -> Result<(), NoMemory> {
        if let Some(entry) = self.entries.get_mut(at) {
            entry.times = times;
        }
        Ok(())
    }

    fn add(&mut self, number: FileNo, times: Times) -> Result<(), NoMemory> {
        let at = self.entries.insert(Entry { number, times })?;
        if self.by_number.insert(number, at).is_err() {
            self.entries.try_remove(at);
            return Err(NoMemory);
        }
        Ok(())
    }

    /// Gives a file of a tree times of its own.
    ///
    /// # Errors
    ///
    /// `NoMemory` if memory runs out.
    pub(crate) fn set(
        &mut self,
        tree: &Tree,
        number: FileNo,
        times: Times,
    ) -> Result<(), NoMemory> {
        self.forget_gone(tree);
        self.put(number, times)
    }

    /// A file of a tree is modified at this moment. If it has no times of its own, it had those of the start.
    ///
    /// # Errors
    ///
    /// `NoMemory` if memory runs out.
    pub(crate) fn modify(
        &mut self,
        tree: &Tree,
        number: FileNo,
        start: Times,
        now: u32,
    ) -> Result<(), NoMemory> {
        match self.find_again(number) {
            Some(at) => self.modify_at(at, now),
            None => self.set(tree, number, start.modified_at(now)),
        }
    }

    fn modify_at(&mut self, at: usize, now: u32) -> Result<(), NoMemory> {
        if let Some(entry) = self.entries.get_mut(at) {
            entry.times = entry.times.modified_at(now);
        }
        Ok(())
    }

    /// Forgets the files that the tree has no more, once there are many.
    fn forget_gone(&mut self, tree: &Tree) {
        if self.by_number.len() < self.most {
            return;
        }
        if let Ok(gone) = self.gone(tree) {
            self.forget(gone.as_slice());
        }
        self.most = self.by_number.len().saturating_mul(2).max(FEW);
    }

    fn gone(&self, tree: &Tree) -> Result<Vec<FileNo>, NoMemory> {
        let mut gone = Vec::new(self.alloc);
        for number in self.by_number.keys() {
            if !tree.has_file(*number) {
                gone.push(*number)?;
            }
        }
        Ok(gone)
    }

    fn forget(&mut self, gone: &[FileNo]) {
        for number in gone {
            if let Some(at) = self.by_number.remove(number) {
                self.entries.try_remove(at);
            }
        }
    }
}
