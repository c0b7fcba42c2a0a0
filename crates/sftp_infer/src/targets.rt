//! Links whose targets no reply told, and names that nothing mentions.

use crate::errors::{Stop, What};
use crate::facts::Says;
use crate::files::File;
use crate::nodes::{Held, Sort};
use crate::pieces::Known;
use crate::world::World;

/// How many names of a directory are looked at for whether it has entries.
const LOOKED_AT: usize = 256;

/// How many files are proposed as the one that another name leads to.
const SAME: u32 = 4;

/// How many fresh names are tried.
const TRIES: u32 = 64;

/// The letters of fresh names.
const LETTERS: &[u8] = b"abcdefghijklmnopqrstuvwxyz0123456789";

/// The longest name that is made up.
pub(crate) const NAME_LIMIT: u64 = 255;

/// A byte that the session may have written at an offset, and the session.
#[derive(Clone, Copy)]
pub(crate) struct Wrote<'s> {
    pub(crate) session: &'s [u8],
    pub(crate) offset: u64,
    pub(crate) byte: u8,
}

/// Whether the session wrote this byte to a file, if one is given.
fn is_written(file: &File, wrote: Option<Wrote<'_>>) -> bool {
    let Some(wrote) = wrote else {
        return true;
    };
    match file.written.known(wrote.offset) {
        Known::Bytes(piece) => wrote.session.get(piece.from) == Some(&wrote.byte),
        Known::Gap(_) => wrote.byte == 0 && wrote.offset >= file.zeros,
    }
}

impl World {
    /// Proposes a fact about an entry of the start, if it is one.
    pub(crate) fn propose_of(&mut self, at: usize, says: Says) {
        match self.old_text(at) {
            Some(place) => self.propose_at(place, says),
            None => drop(says),
        }
    }

    /// Proposes that an entry is a link with this target.
    pub(crate) fn propose_link_to(&mut self, at: usize, target: &[u8]) {
        if let Some(target) = self.copy(target) {
            self.propose_of(at, Says::Link(target));
        }
    }

    /// Proposes that an entry is a link of this length to nothing.
    pub(crate) fn propose_link_astray(&mut self, at: usize, length: Option<u64>) {
        match self.invented(at, length) {
            Ok(target) => self.propose_of(at, Says::Link(target)),
            Err(_) => self.lacks_memory = true,
        }
    }

    /// Where an entry was at the start, if it was there; `None` too if memory runs out, which is noted.
    pub(crate) fn old_text(&mut self, at: usize) -> Option<Vec<u8>> {
        let entry = self.entry(at);
        if at == 0 || !(entry.is_old || entry.is_chosen) {
            return None;
        }
        let seat = entry.old_seat;
        match self.old_place(seat.parent, self.name_at(seat)) {
            Ok(text) => Some(text),
            Err(_) => {
                self.lacks_memory = true;
                None
            }
        }
    }

    /// Proposes that a file of the start is one that the session changed under another name: those first that were
    /// changed last. If a byte is given, the session wrote that.
    pub(crate) fn propose_same(&mut self, at: usize, wrote: Option<Wrote<'_>>) {
        let mut before = u64::MAX;
        for _ in 0..SAME {
            self.work = self.work.saturating_add(self.nodes.len() as u64);
            match self.changed_before(at, before, wrote) {
                Some((other, changed)) => {
                    before = changed;
                    self.propose_way(at, other);
                    if let Some(place) = self.old_text(other) {
                        self.propose_of(at, Says::SameFile(place));
                    }
                }
                None => return,
            }
        }
    }

    /// The file of the start that the session changed last before a request, but for this one.
    fn changed_before(
        &self,
        at: usize,
        before: u64,
        wrote: Option<Wrote<'_>>,
    ) -> Option<(usize, u64)> {
        let mut last: Option<(usize, u64)> = None;
        let mut latest: u64 = 0;
        for (other, entry) in self.nodes.iter().enumerate() {
            let changed = entry.changed();
            let is_start = entry.is_old || entry.is_chosen;
            let is_file = is_start && entry.sort == Sort::File && other != at;
            if is_file && changed > latest && changed < before && is_written(&entry.file, wrote) {
                last = Some((other, changed));
                latest = changed;
            }
        }
        last
    }

    /// The target to assume for a link of the start whose target no reply told: a name beside it that nothing mentions,
    /// of the told length.
    pub(crate) fn invented(&self, at: usize, length: Option<u64>) -> Result<Vec<u8>, Stop> {
        self.fresh_name(self.entry(at).seat.parent, length.unwrap_or(8))
    }

    /// A name of this length that nothing mentions in a directory.
    pub(crate) fn fresh_name(&self, parent: usize, length: u64) -> Result<Vec<u8>, Stop> {
        let mut name = Vec::new(self.alloc);
        for number in 0..TRIES {
            name.clear();
            spell(&mut name, number, length.min(NAME_LIMIT).max(1))?;
            if !self.entry(parent).names.contains(name.as_slice()) {
                return Ok(name);
            }
        }
        Ok(name)
    }

    /// Gives a link whose target is not known one that leads to a name that nothing mentions.
    pub(crate) fn invent_target(&mut self, at: usize) -> Result<(), Stop> {
        let target = self.invented(at, self.entry(at).length)?;
        self.lead_invented(at, target)
    }

    /// Gives a link a target that is made up.
    fn lead_invented(&mut self, at: usize, target: Vec<u8>) -> Result<(), Stop> {
        let noted = self.note_invented(at, target.as_slice());
        self.lead(at, target);
        self.entry_mut(at).is_invented = true;
        noted
    }

    /// Keeps that a target of a link is made up.
    fn note_invented(&mut self, at: usize, target: &[u8]) -> Result<(), Stop> {
        let place = self.place_now(at)?;
        match Vec::from_slice(self.alloc, target) {
            Ok(target) => self.invent(place, Says::Link(target)),
            Err(_) => {
                drop(place);
                Err(Stop::NoMemory)
            }
        }
    }

    /// Gives a link a target.
    pub(crate) fn lead(&mut self, at: usize, target: Vec<u8>) {
        let link = self.entry_mut(at);
        drop(std::mem::replace(&mut link.target, Some(target)));
    }

    /// Has a link lead to where no directory is, or just to where nothing is if it is too short for that.
    pub(crate) fn lead_astray(&mut self, at: usize) -> Result<(), Stop> {
        let length = self.entry(at).length.unwrap_or(10);
        if length < 3 {
            return self.invent_target(at);
        }
        let mut target = self.invented(at, Some(length.saturating_sub(2)))?;
        target.extend_from_slice(b"/x")?;
        self.lead_invented(at, target)
    }

    /// Has a link lead to itself, or to where no directory is if it is too short for that.
    pub(crate) fn lead_looped(&mut self, at: usize) -> Result<(), Stop> {
        let name = Vec::from_slice(self.alloc, self.name_at(self.entry(at).seat))?;
        let least = name.len() as u64;
        let length = self.entry(at).length.unwrap_or(least);
        if length < least {
            drop(name);
            return self.lead_astray(at);
        }
        let target = lengthen(name, length)?;
        self.lead_invented(at, target)
    }

    /// Takes the length that a reply shows of a link.
    pub(crate) fn tell_length(&mut self, at: usize, length: u64) -> Result<(), Stop> {
        let known = match self.target(at) {
            Some(target) => target.len() as u64,
            None => length,
        };
        if known != length {
            self.propose_beside(at, length);
            self.propose_link_astray(at, Some(length));
            return Err(self.clash_of(at, What::Size(known, length)));
        }
        self.entry_mut(at).length = Some(length);
        Ok(())
    }

    /// Puts an entry of a fresh name into a directory at the start, so that it is not empty.
    pub(crate) fn invent_entry(&mut self, parent: usize) -> Result<(), Stop> {
        let name = self.fresh_name(parent, 12)?;
        let invented = self.invent_file(parent, name.as_slice());
        drop(name);
        invented
    }

    /// Puts a file of this name into a directory at the start.
    fn invent_file(&mut self, parent: usize, name: &[u8]) -> Result<(), Stop> {
        let spot = self.spot(parent, name);
        self.tell(spot, Sort::File)?;
        let place = self.place(parent, name, false)?;
        self.invent(place, Says::File)
    }

    /// Whether a directory has an entry now, and whether that is known: `None` if it is not.
    pub(crate) fn has_entries(&self, at: usize) -> Option<bool> {
        if self.entry_told(at).is_some() {
            return Some(true);
        }
        let directory = self.entry(at);
        if directory.complete.is_some() && directory.names.each().len() <= LOOKED_AT {
            Some(false)
        } else {
            None
        }
    }

    /// The record that told of an entry that a directory has now, if it is known to have one.
    pub(crate) fn entry_told(&self, at: usize) -> Option<u64> {
        for named in self.entry(at).names.each().iter().take(LOOKED_AT) {
            if let Some((Held::Entry(_), told)) = named.slot.held() {
                return Some(told);
            }
        }
        None
    }
}

/// A path with slashes at its end, so that it has this length.
pub(crate) fn lengthen(path: Vec<u8>, length: u64) -> Result<Vec<u8>, Stop> {
    let mut path = path;
    for _ in path.len() as u64..length {
        path.push(b'/')?;
    }
    Ok(path)
}

/// Appends a name of this length that has a number in it.
fn spell(name: &mut Vec<u8>, number: u32, length: u64) -> Result<(), Stop> {
    let mut left = number;
    for place in 0..length {
        let digit = left % 36;
        left /= 36;
        let letter = LETTERS.get(digit as usize).copied().unwrap_or(b'a');
        if place == 0 && digit == 0 {
            name.push(b'x')?;
        } else {
            name.push(letter)?;
        }
    }
    Ok(())
}
