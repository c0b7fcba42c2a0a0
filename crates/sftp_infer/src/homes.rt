//! Where relative paths begin, and what REALPATH tells.

use crate::errors::{Stop, What};
use crate::facts::Says;
use crate::look::{Found, Look, next_part};
use crate::nodes::Sort;
use crate::world::World;
use sftp_path::{NoMemory, is_dot, is_dot_dot};

/// The home that a REALPATH of a relative path tells: the text before that path.
pub(crate) fn home_of<'t>(path: &[u8], text: &'t [u8]) -> Option<&'t [u8]> {
    if path.first() == Some(&b'/') {
        return None;
    }
    let names = without_end(without_dots(path));
    if names.is_empty() {
        return Some(text);
    }
    before(names, text)
}

/// What a relative path has behind the names `.` at its front.
fn without_dots(path: &[u8]) -> &[u8] {
    let mut left = path;
    for _ in 0..path.len() {
        match behind_dot(left) {
            Some(behind) => left = behind,
            None => return left,
        }
    }
    left
}

/// What a path has behind a slash or a name `.` at its front.
fn behind_dot(path: &[u8]) -> Option<&[u8]> {
    let (first, behind) = path.split_first()?;
    let is_last = behind.first().unwrap_or(&b'/') == &b'/';
    if *first == b'/' || *first == b'.' && is_last {
        Some(behind)
    } else {
        None
    }
}

/// What a path has before the slashes and the names `.` at its end.
fn without_end(path: &[u8]) -> &[u8] {
    let mut left = path;
    for _ in 0..path.len() {
        match before_dot(left) {
            Some(before) => left = before,
            None => return left,
        }
    }
    left
}

/// What a path has before a slash or a name `.` at its end.
fn before_dot(path: &[u8]) -> Option<&[u8]> {
    let (last, before) = path.split_last()?;
    let is_first = before.last().unwrap_or(&b'/') == &b'/';
    if *last == b'/' || *last == b'.' && is_first {
        Some(before)
    } else {
        None
    }
}

/// The text before a path and its slash, if it ends in them. That of the root is a slash.
fn before<'t>(path: &[u8], text: &'t [u8]) -> Option<&'t [u8]> {
    let length = text.len().checked_sub(path.len())?;
    let home = length.checked_sub(1)?;
    if text.get(length..) != Some(path) {
        return None;
    }
    text.get(..home.max(1))
}

/// Appends the names of a path to the text of a place, of which `..` takes the last one away.
fn add_names(text: &mut Vec<u8>, path: &[u8]) -> Result<(), NoMemory> {
    let mut left = path;
    for _ in 0..path.len() {
        match next_part(left) {
            Some((name, behind)) => {
                left = behind;
                add_name(text, name)?;
            }
            None => break,
        }
    }
    Ok(())
}

fn add_name(text: &mut Vec<u8>, name: &[u8]) -> Result<(), NoMemory> {
    if is_dot(name) {
        return Ok(());
    }
    if is_dot_dot(name) {
        let above = text.iter().rposition(|byte| *byte == b'/');
        text.truncate(above.unwrap_or(0));
        return Ok(());
    }
    text.push(b'/')?;
    text.extend_from_slice(name)?;
    Ok(())
}

impl World {
    /// REALPATH told where a path leads.
    pub(crate) fn take_real(&mut self, path: &[u8], text: &[u8]) -> Result<(), Stop> {
        if self.tells_nothing(path, text)? {
            return Ok(());
        }
        let found = self.reach(path, true)?;
        let told = self.take_place(path, text, &found);
        drop(found);
        told
    }

    /// Whether this text tells nothing: a server of the profile need not look at the tree, and tells any text of a path
    /// that goes on from what is no directory.
    fn tells_nothing(&self, path: &[u8], text: &[u8]) -> Result<bool, NoMemory> {
        if self.settings.is_strict {
            return Ok(false);
        }
        if self.is_absolute(path, text)? {
            return Ok(true);
        }
        let found = self.look(path, true)?;
        let is_blocked = matches!(found.look, Look::NotDir(_));
        drop(found);
        Ok(is_blocked)
    }

    fn take_place(&mut self, path: &[u8], text: &[u8], found: &Found<'_>) -> Result<(), Stop> {
        if self.may_be_told(found.look) {
            return Ok(());
        }
        let place = self.place(found.parent, found.name(), false)?;
        if place.as_slice() == text {
            drop(place);
            return Ok(());
        }
        self.propose_places(path, text, found);
        let told = match found.look {
            Look::Entry(at) => self.told(at),
            _ => 0,
        };
        self.clash_at_place(place, told, text)
    }

    /// Whether a server of the profile may tell any text of a path that leads there: to no place.
    fn may_be_told(&self, look: Look) -> bool {
        let is_place = matches!(look, Look::Entry(_) | Look::Unknown | Look::Nothing(_));
        !self.settings.is_strict && !is_place
    }

    /// Whether a text is that of a path, made absolute without a look at the tree.
    fn is_absolute(&self, path: &[u8], text: &[u8]) -> Result<bool, NoMemory> {
        let mut absolute = Vec::new(self.alloc);
        let put = self.put_absolute(path, &mut absolute);
        let is_same = absolute.as_slice() == text;
        drop(absolute);
        match put {
            Ok(()) => Ok(is_same),
            Err(error) => Err(error),
        }
    }

    /// Appends the text of a path, made absolute without a look at the tree.
    fn put_absolute(&self, path: &[u8], text: &mut Vec<u8>) -> Result<(), NoMemory> {
        if path.first() != Some(&b'/') {
            add_names(text, self.home.as_slice())?;
        }
        add_names(text, path)?;
        if text.is_empty() {
            text.push(b'/')?;
        }
        Ok(())
    }

    /// Proposes why a path leads to another place than it seems.
    fn propose_places(&mut self, path: &[u8], text: &[u8], found: &Found<'_>) {
        match found.look {
            Look::Entry(at) => self.propose_link(at, text),
            Look::Unknown => {
                if let Some(target) = self.copy(text) {
                    self.propose(found.parent, found.name(), Says::Link(target));
                }
            }
            _ => {}
        }
        self.propose_ways(path, text);
        self.propose_targets(text);
        if path.first() != Some(&b'/') {
            self.propose_home(path, text);
        }
    }

    /// Proposes that a link is on the way of a path that ends in the same names as the text of the place to which it
    /// leads.
    fn propose_ways(&mut self, path: &[u8], text: &[u8]) {
        let mut absolute = Vec::new(self.alloc);
        if self.put_absolute(path, &mut absolute).is_err() {
            self.lacks_memory = true;
        }
        self.propose_links(absolute.as_slice(), text);
        drop(absolute);
    }

    /// The contradiction of two places to which a path leads.
    fn clash_at_place(&mut self, place: Vec<u8>, told: u64, text: &[u8]) -> Result<(), Stop> {
        match Vec::from_slice(self.alloc, place.as_slice()) {
            Ok(known) => {
                let stop = self.clash(place, told, What::Place);
                self.note_texts(known, text)?;
                Err(stop)
            }
            Err(_) => {
                drop(place);
                Err(Stop::NoMemory)
            }
        }
    }

    /// Proposes that an entry is a link to what this text is the place of, unless a reply showed of what kind it is by
    /// itself.
    fn propose_link(&mut self, at: usize, text: &[u8]) {
        if !self.entry(at).is_itself || !self.is_shown(at) || self.sort(at) == Sort::Unknown {
            self.propose_link_to(at, text);
        }
    }

    fn propose_home(&mut self, path: &[u8], text: &[u8]) {
        if let Some(home) = home_of(path, text) {
            if let Some(place) = self.copy(home) {
                self.propose_at(place, Says::Home);
            }
        }
    }
}
