//! The times of directories and links, by their places.
//!
//! Each has a number and an entry, and is found by its name in the entry of the directory that it is in. So what is
//! below a directory moves with it, however much that is.

use crate::files::FileAt;
use crate::times::Times;
use sftp_path::{Name, Parts};
use sftp_tree::NoMemory;
use slab::Slab;
use std::alloc::Global;
use std::collections::BTreeMap;

/// The number of the root.
const ROOT: u64 = 0;

/// A directory or link that has an entry. No number is given twice, so one whose entry is gone leads nowhere.
#[derive(Clone, Copy)]
pub(crate) struct PlaceNo {
    /// Where its entry is.
    at: usize,
    number: u64,
}

/// A name in a directory.
#[derive(Drop)]
pub(crate) struct Spot {
    pub(crate) directory: PlaceNo,
    name: Vec<u8>,
}

/// What stands at a name of a directory.
#[derive(Clone, Copy)]
pub(crate) enum Child {
    File(FileAt),
    /// A directory or link whose entry is there.
    Place(usize),
    /// A directory or link that has no entry.
    Other,
}

/// What is known of a directory or link.
#[derive(Drop)]
struct Entry {
    number: u64,
    /// Its times, if it has some of its own.
    times: Option<Times>,
    is_link: bool,
    /// Whether a path that is kept led to it, or past it.
    is_passed: bool,
    /// Where the entries are of the directories and links in the directory, by their names.
    places: BTreeMap<Vec<u8>, usize>,
    /// What stands at each name of the directory, in the order of the names, if that was looked up.
    children: Vec<Child>,
    /// When that was.
    epoch: u64,
    /// The times of these, as they were after so many changes of times, if they were listed.
    shown: Vec<Times>,
    changes: u64,
}

impl PlaceNo {
    fn root() -> PlaceNo {
        PlaceNo {
            at: 0,
            number: ROOT,
        }
    }
}

impl Spot {
    /// A name in a directory.
    ///
    /// # Errors
    ///
    /// `NoMemory` if memory runs out.
    pub(crate) fn new(alloc: Global, directory: PlaceNo, name: &[u8]) -> Result<Spot, NoMemory> {
        let name = Vec::from_slice(alloc, name)?;
        Ok(Spot { directory, name })
    }

    /// Whether both are one name in one directory.
    pub(crate) fn is(&self, other: &Spot) -> bool {
        self.directory.number == other.directory.number
            && self.name.as_slice() == other.name.as_slice()
    }
}

impl Entry {
    fn new(alloc: Global, number: u64) -> Entry {
        Entry {
            number,
            times: None,
            is_link: false,
            is_passed: false,
            places: BTreeMap::new(alloc),
            children: Vec::new(alloc),
            epoch: 0,
            shown: Vec::new(alloc),
            changes: 0,
        }
    }

    /// Whether a path that is kept may lead over it.
    fn leads_on(&self) -> bool {
        self.is_link || self.is_passed
    }

    fn forget_children(&mut self, alloc: Global) {
        if !self.children.is_empty() {
            self.children = Vec::new(alloc);
            self.shown = Vec::new(alloc);
        }
    }
}

/// The times of the directories and links that have some of their own.
#[derive(Drop)]
pub(crate) struct PlaceTimes {
    alloc: Global,
    root: Entry,
    /// Those below it.
    entries: Slab<Entry>,
    /// The number that the next entry gets.
    next: u64,
    /// What was looked up before this one counts no more.
    epoch: u64,
}

impl PlaceTimes {
    /// Nothing has times of its own. Does not allocate.
    pub(crate) fn new(alloc: Global) -> PlaceTimes {
        PlaceTimes {
            alloc,
            root: Entry::new(alloc, ROOT),
            entries: Slab::new(alloc),
            next: ROOT + 1,
            epoch: 0,
        }
    }

    fn entry(&self, place: PlaceNo) -> Option<&Entry> {
        if place.number == ROOT {
            return Some(&self.root);
        }
        match self.entries.get(place.at) {
            Some(entry) if entry.number == place.number => Some(entry),
            _ => None,
        }
    }

    fn entry_mut(&mut self, place: PlaceNo) -> Option<&mut Entry> {
        if place.number == ROOT {
            return Some(&mut self.root);
        }
        match self.entries.get_mut(place.at) {
            Some(entry) if entry.number == place.number => Some(entry),
            _ => None,
        }
    }

    /// Whether it has an entry still.
    pub(crate) fn has(&self, place: PlaceNo) -> bool {
        self.entry(place).is_some()
    }

    /// The times of a directory or link, if it has some of its own.
    pub(crate) fn get(&self, place: PlaceNo) -> Option<Times> {
        self.entry(place)?.times
    }

    /// The times of a directory or link that has an entry still: its own, or else these.
    pub(crate) fn get_or(&self, place: PlaceNo, start: Times) -> Option<Times> {
        Some(self.entry(place)?.times.unwrap_or(start))
    }

    /// The times of that whose entry is there, if it has some of its own.
    pub(crate) fn get_there(&self, at: usize) -> Option<Times> {
        self.entries.get(at)?.times
    }

    /// Gives a directory or link times of its own.
    pub(crate) fn set(&mut self, place: PlaceNo, times: Times) {
        if let Some(entry) = self.entry_mut(place) {
            entry.times = Some(times);
        }
    }

    /// It is a link.
    pub(crate) fn mark_link(&mut self, place: PlaceNo) {
        if let Some(entry) = self.entry_mut(place) {
            entry.is_link = true;
        }
    }

    fn mark_passed(&mut self, place: PlaceNo) {
        if let Some(entry) = self.entry_mut(place) {
            entry.is_passed = true;
        }
    }

    /// Where the entry is of what stands at a name of a directory, if it has one.
    fn seek(&self, directory: PlaceNo, name: &[u8]) -> Option<usize> {
        match self.entry(directory)?.places.get(name) {
            Some(at) => Some(*at),
            None => None,
        }
    }

    /// What stands at a name of a directory, if it has an entry.
    fn find(&self, directory: PlaceNo, name: &[u8]) -> Option<PlaceNo> {
        let at = self.seek(directory, name)?;
        let number = self.entries.get(at)?.number;
        Some(PlaceNo { at, number })
    }

    /// What stands at a name of a directory.
    pub(crate) fn child(&self, directory: PlaceNo, name: &[u8]) -> Child {
        match self.seek(directory, name) {
            Some(at) => Child::Place(at),
            None => Child::Other,
        }
    }

    /// What stands at a name, which gets an entry if it has none.
    ///
    /// # Errors
    ///
    /// `NoMemory` if memory runs out, or ran out for the entry of the directory.
    pub(crate) fn make(&mut self, spot: Spot) -> Result<PlaceNo, NoMemory> {
        match self.find(spot.directory, spot.name.as_slice()) {
            Some(place) => Ok(place),
            None => self.add(spot),
        }
    }

    /// What stands at a name of a directory, which gets an entry if it has none.
    fn make_in(&mut self, directory: PlaceNo, name: &[u8]) -> Result<PlaceNo, NoMemory> {
        match self.find(directory, name) {
            Some(place) => Ok(place),
            None => self.add(Spot::new(self.alloc, directory, name)?),
        }
    }

    fn add(&mut self, spot: Spot) -> Result<PlaceNo, NoMemory> {
        let number = self.next;
        let directory = spot.directory;
        let at = self.entries.insert(Entry::new(self.alloc, number))?;
        if !self.name_entry(spot, at) {
            self.entries.try_remove(at);
            return Err(NoMemory);
        }
        self.next = number.wrapping_add(1);
        self.forget_children(directory);
        Ok(PlaceNo { at, number })
    }

    /// Gives the entry there a name. Returns whether there was memory for it.
    fn name_entry(&mut self, spot: Spot, at: usize) -> bool {
        let Spot { directory, name } = spot;
        match self.entry_mut(directory) {
            Some(entry) => entry.places.insert(name, at).is_ok(),
            None => {
                drop(name);
                false
            }
        }
    }

    /// Takes a name from its entry. Returns where that is.
    fn unname(&mut self, spot: &Spot) -> Option<usize> {
        self.entry_mut(spot.directory)?
            .places
            .remove(spot.name.as_slice())
    }

    /// The directory to which these names lead. It and those above it get entries if they have none, and paths to them
    /// may be kept.
    ///
    /// # Errors
    ///
    /// `NoMemory` if memory runs out.
    pub(crate) fn reach(&mut self, names: &[Name]) -> Result<PlaceNo, NoMemory> {
        let mut place = PlaceNo::root();
        for name in names {
            place = self.make_in(place, name.as_slice())?;
            self.mark_passed(place);
        }
        Ok(place)
    }

    /// The times of the directory or link to which these names lead, if it has some of its own.
    pub(crate) fn get_by(&self, names: &[Name]) -> Option<Times> {
        let mut place = PlaceNo::root();
        for name in names {
            place = self.find(place, name.as_slice())?;
        }
        self.get(place)
    }

    /// The times of that to which an absolute text leads, if it has some of its own.
    pub(crate) fn get_at(&self, path: &[u8]) -> Option<Times> {
        let mut place = PlaceNo::root();
        for name in Parts::new(path) {
            place = self.find(place, name)?;
        }
        self.get(place)
    }

    /// That to which an absolute text leads. It and the directories above it get entries if they have none.
    ///
    /// # Errors
    ///
    /// `NoMemory` if memory runs out.
    pub(crate) fn make_at(&mut self, path: &[u8]) -> Result<PlaceNo, NoMemory> {
        let mut place = PlaceNo::root();
        for name in Parts::new(path) {
            place = self.make_in(place, name)?;
        }
        Ok(place)
    }

    /// Forgets what stood at a name. Returns whether a path that is kept may lead over it.
    pub(crate) fn forget(&mut self, spot: &Spot) -> bool {
        match self.unname(spot) {
            Some(at) => self.drop_entry(at),
            None => false,
        }
    }

    fn drop_entry(&mut self, at: usize) -> bool {
        match self.entries.try_remove(at) {
            Some(entry) => entry.is_link,
            None => false,
        }
    }

    /// What was at the old name, with all below it, is at the new one; what was there is forgotten, and both are if
    /// memory runs out. Returns whether a path that is kept may lead over one of them.
    pub(crate) fn rename(&mut self, old: &Spot, new: Spot) -> bool {
        let is_over = self.forget(&new);
        match self.unname(old) {
            Some(at) => self.put(new, at) || is_over,
            None => is_over,
        }
    }

    /// Puts the entry there at a name that has none.
    fn put(&mut self, spot: Spot, at: usize) -> bool {
        if !self.name_entry(spot, at) {
            self.entries.try_remove(at);
            return true;
        }
        match self.entries.get(at) {
            Some(entry) => entry.leads_on(),
            None => false,
        }
    }

    /// What stands at the names of a directory, if that is known.
    pub(crate) fn children(&self, directory: PlaceNo) -> &[Child] {
        match self.entry(directory) {
            Some(entry) if entry.epoch == self.epoch => entry.children.as_slice(),
            _ => &[],
        }
    }

    /// This stands at the names of a directory.
    pub(crate) fn keep_children(&mut self, directory: PlaceNo, children: Vec<Child>) {
        let epoch = self.epoch;
        let alloc = self.alloc;
        match self.entry_mut(directory) {
            Some(entry) => {
                entry.children = children;
                entry.epoch = epoch;
                entry.shown = Vec::new(alloc);
            }
            None => drop(children),
        }
    }

    /// The times of what stands at the names of a directory, if they were kept after so many changes of times.
    pub(crate) fn shown(&self, directory: PlaceNo, changes: u64) -> &[Times] {
        match self.entry(directory) {
            Some(entry) if entry.changes == changes => entry.shown.as_slice(),
            _ => &[],
        }
    }

    /// What stands at the names of a directory has these times after so many changes of times.
    pub(crate) fn keep_shown(&mut self, directory: PlaceNo, changes: u64, times: Vec<Times>) {
        match self.entry_mut(directory) {
            Some(entry) => {
                entry.shown = times;
                entry.changes = changes;
            }
            None => drop(times),
        }
    }

    /// The names of a directory change at this moment. If it has no times of its own, it had those of the start.
    pub(crate) fn modify_names(&mut self, directory: PlaceNo, start: Times, now: u32) {
        let alloc = self.alloc;
        if let Some(entry) = self.entry_mut(directory) {
            let times = entry.times.unwrap_or(start);
            entry.times = Some(times.modified_at(now));
            entry.forget_children(alloc);
        }
    }

    fn forget_children(&mut self, directory: PlaceNo) {
        let alloc = self.alloc;
        if let Some(entry) = self.entry_mut(directory) {
            entry.forget_children(alloc);
        }
    }

    /// Forgets what stands at the names of every directory. It is for a change of the names of a directory that has no
    /// entry, since memory ran out.
    pub(crate) fn forget_all_children(&mut self) {
        self.epoch = self.epoch.wrapping_add(1);
    }
}
