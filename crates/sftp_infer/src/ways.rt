//! What links may lead to that hide behind what a session saw.

use crate::errors::Stop;
use crate::facts::Says;
use crate::look::cut_last;
use crate::names::Seat;
use crate::nodes::Sort;
use crate::places::put_part;
use crate::targets::NAME_LIMIT;
use crate::world::World;
use sftp_path::DEPTH_LIMIT;

/// For how many links another target is proposed at once.
const LINKS: usize = 3;

/// How many entries are proposed as what a link leads to.
const ENDS: u32 = 4;

/// How many directories are looked at for a name that a link may lead to.
const OPEN: u32 = 16;

/// How many names of a directory are proposed as targets of a link beside them.
const BESIDE: usize = 3;

/// Two places without the names that both end in; `None` if they end in different ones, or one is above the other.
fn without_tail<'t>(one: &'t [u8], other: &'t [u8]) -> Option<(&'t [u8], &'t [u8])> {
    let (mut one, mut other) = (one, other);
    let mut is_cut = false;
    for _ in 0..DEPTH_LIMIT {
        match (cut_last(one), cut_last(other)) {
            (Some((left, name)), Some((right, like))) if name == like => {
                one = left;
                other = right;
                is_cut = true;
            }
            _ => break,
        }
    }
    if is_cut { Some((one, other)) } else { None }
}

impl World {
    /// Proposes for each name in which two places end that what is above it in the first one is a link to what is above
    /// it in the other one.
    pub(crate) fn propose_links(&mut self, one: &[u8], other: &[u8]) {
        let (mut one, mut other) = (one, other);
        for _ in 0..DEPTH_LIMIT {
            match (cut_last(one), cut_last(other)) {
                (Some((left, name)), Some((right, like))) if name == like => {
                    one = left;
                    other = right;
                    self.propose_to(one, other);
                }
                _ => return,
            }
        }
    }

    /// Proposes that a directory above one of two files is a link to the one above the other, if both paths end in the
    /// same names.
    pub(crate) fn propose_way(&mut self, at: usize, other: usize) {
        let Some(one) = self.old_text(at) else {
            return;
        };
        let Some(like) = self.old_text(other) else {
            drop(one);
            return;
        };
        if let Some((left, right)) = without_tail(one.as_slice(), like.as_slice()) {
            self.propose_to(right, left);
            self.propose_to(left, right);
        }
        drop(one);
        drop(like);
    }

    /// Proposes that a link to one place is at another one.
    fn propose_to(&mut self, place: &[u8], target: &[u8]) {
        if place.is_empty() {
            return;
        }
        let target = if target.is_empty() { b"/" } else { target };
        if let Some(target) = self.copy(target) {
            match self.copy(place) {
                Some(place) => self.propose_at(place, Says::Link(target)),
                None => drop(target),
            }
        }
    }

    /// Proposes that an entry is a link of this length to something of its kind, by its path or by what that has behind
    /// the directory of the link.
    pub(crate) fn propose_ends(&mut self, at: usize, length: Option<u64>) {
        let Some(length) = length else {
            return;
        };
        let mut left = ENDS;
        self.work = self.work.saturating_add(self.nodes.len() as u64);
        for other in 0..self.nodes.len() {
            if left > 0 && other != at && self.is_end(other, self.sort(at)) {
                if self.propose_end(at, other, length) {
                    left = left.saturating_sub(1);
                }
            }
        }
    }

    /// Whether an entry of the start may be what one of this kind is a link to: it is of this kind, or no link if that
    /// is known to be one.
    fn is_end(&self, at: usize, sort: Sort) -> bool {
        let entry = self.entry(at);
        let is_link = sort == Sort::Link;
        entry.is_old && (entry.sort == sort) != is_link
    }

    /// Proposes that an entry is a link to another one, if a target of that one has this length. Says whether one has.
    fn propose_end(&mut self, at: usize, other: usize, length: u64) -> bool {
        match self.target_to(at, other, Some(length)) {
            Some(target) => {
                self.propose_of(at, Says::Link(target));
                true
            }
            None => false,
        }
    }

    /// A copy of the name at a seat; `None` if memory runs out, which is noted.
    fn copy_of_name(&mut self, seat: Seat) -> Option<Vec<u8>> {
        match Vec::from_slice(self.alloc, self.name_at(seat)) {
            Ok(name) => Some(name),
            Err(_) => {
                self.lacks_memory = true;
                None
            }
        }
    }

    /// Proposes other targets for the links whose targets are made up: what this text is the place of, or a name beside
    /// the link.
    pub(crate) fn propose_targets(&mut self, text: &[u8]) {
        let mut left = LINKS;
        self.work = self.work.saturating_add(self.nodes.len() as u64);
        for at in 0..self.nodes.len() {
            if left > 0 && self.is_invented(at) {
                left = left.saturating_sub(1);
                self.propose_target(at, text);
            }
        }
    }

    /// Whether an entry is a link of the start whose target is made up.
    fn is_invented(&self, at: usize) -> bool {
        let link = self.entry(at);
        link.is_old && link.is_invented && link.sort == Sort::Link
    }

    fn propose_target(&mut self, at: usize, text: &[u8]) {
        let link = self.entry(at);
        let (length, parent) = (link.length, link.old_seat.parent);
        self.propose_fitting(at, length, text);
        match self.place(parent, &[], true) {
            Ok(above) => {
                let beside = beside(text, above.as_slice());
                drop(above);
                if let Some(name) = beside {
                    self.propose_fitting(at, length, name);
                }
                self.propose_names(at, parent, length);
                self.propose_behind(at, parent, length);
            }
            Err(_) => self.lacks_memory = true,
        }
    }

    /// Proposes what a link may lead to out of its directory, if all names of that are known.
    fn propose_behind(&mut self, at: usize, parent: usize, length: Option<u64>) {
        if self.entry(parent).complete.is_some() && !self.propose_afar(at, length) {
            self.propose_ends(at, length);
        }
    }

    /// Proposes that a link of this length leads to a name that nothing mentions, in the first directory of the start
    /// of which not all names are known. Says whether there is one.
    fn propose_afar(&mut self, at: usize, length: Option<u64>) -> bool {
        let length = length.unwrap_or(8);
        let mut left = OPEN;
        self.work = self.work.saturating_add(self.nodes.len() as u64);
        for other in 0..self.nodes.len() {
            if left > 0 && self.is_open(other) {
                left = left.saturating_sub(1);
                if let Some(target) = self.name_afar(other, length) {
                    self.propose_of(at, Says::Link(target));
                    return true;
                }
            }
        }
        false
    }

    /// Whether an entry is a directory of the start of which not all names are known.
    fn is_open(&self, at: usize) -> bool {
        let entry = self.entry(at);
        (at == 0 || entry.is_old) && entry.sort == Sort::Directory && entry.complete.is_none()
    }

    /// A path of this length to a name in a directory that nothing mentions there; `None` if there is none, and if
    /// memory runs out, which is noted.
    fn name_afar(&mut self, parent: usize, length: u64) -> Option<Vec<u8>> {
        let mut path = match parent {
            0 => Vec::new(self.alloc),
            _ => self.old_text(parent)?,
        };
        let left = length.saturating_sub(path.len() as u64).saturating_sub(1);
        if left == 0 || left > NAME_LIMIT {
            drop(path);
            return None;
        }
        match self.add_fresh(parent, left, &mut path) {
            Ok(()) => Some(path),
            Err(_) => {
                self.lacks_memory = true;
                drop(path);
                None
            }
        }
    }

    /// Appends a slash and a name of this length that nothing mentions in a directory.
    fn add_fresh(&self, parent: usize, length: u64, path: &mut Vec<u8>) -> Result<(), Stop> {
        let name = self.fresh_name(parent, length)?;
        let put = put_part(name.as_slice(), path);
        drop(name);
        put
    }

    /// Proposes for a link whose target has another length than this that it leads to the same place by its name alone,
    /// which is beside it.
    pub(crate) fn propose_beside(&mut self, at: usize, length: u64) {
        let Some(target) = self.copy_of_target(at) else {
            return;
        };
        match self.place(self.entry(at).old_seat.parent, &[], true) {
            Ok(above) => {
                if let Some(name) = beside(target.as_slice(), above.as_slice()) {
                    self.propose_fitting(at, Some(length), name);
                }
                drop(above);
            }
            Err(_) => self.lacks_memory = true,
        }
        drop(target);
    }

    /// A copy of the target of a link; `None` if it has none, and if memory runs out, which is noted.
    fn copy_of_target(&mut self, at: usize) -> Option<Vec<u8>> {
        match Vec::from_slice(self.alloc, self.target(at)?) {
            Ok(target) => Some(target),
            Err(_) => {
                self.lacks_memory = true;
                None
            }
        }
    }

    /// Proposes another target for a link, if that has the link's length.
    fn propose_fitting(&mut self, at: usize, length: Option<u64>, target: &[u8]) {
        let count = target.len() as u64;
        if length.unwrap_or(count) == count && self.target(at) != Some(target) {
            self.propose_link_to(at, target);
        }
    }

    /// Proposes names of a directory as the target of a link in it, if they have its length.
    fn propose_names(&mut self, at: usize, parent: usize, length: Option<u64>) {
        let Some(length) = length else {
            return;
        };
        let mut last: Option<usize> = None;
        for _ in 0..BESIDE {
            let Some(place) = self.next_of_length(parent, length, last) else {
                return;
            };
            if let Some(target) = self.copy_of_name(Seat { parent, place }) {
                self.propose_of(at, Says::Link(target));
            }
            last = Some(place);
        }
    }

    /// The place of the first name of this length in a directory that comes after the name at another place.
    fn next_of_length(&self, parent: usize, length: u64, last: Option<usize>) -> Option<usize> {
        let names = &self.entry(parent).names;
        let before = match last {
            Some(place) => names.name(place),
            None => &[],
        };
        let mut next: Option<usize> = None;
        let mut first: &[u8] = &[];
        for (place, named) in names.each().iter().enumerate() {
            let name = named.name.as_slice();
            let is_first = next.is_none() || name < first;
            if name.len() as u64 == length && name > before && is_first {
                next = Some(place);
                first = name;
            }
        }
        next
    }
}

/// The rest of a place behind a directory, if it is in it.
fn beside<'t>(text: &'t [u8], above: &[u8]) -> Option<&'t [u8]> {
    if above == b"/".as_slice() {
        return text.get(1..);
    }
    if text.get(..above.len()) != Some(above) || text.get(above.len()) != Some(&b'/') {
        return None;
    }
    text.get(above.len().saturating_add(1)..)
}
