//! Where relative paths may begin, if no reply tells it: the places that the session names, and one that it does not.

use crate::exchanges::Exchange;
use crate::facts::{Fact, Says};
use crate::look::next_part;
use crate::reasons::case_of;
use crate::search::Search;
use sftp_path::{NoMemory, is_dot, is_dot_dot};
use sftp_wire::Answer;

/// How many places are tried.
const PLACES: usize = 40;

/// How many names of a path are looked at.
const NAMES: usize = 64;

/// Places that no session names.
const ELSEWHERE: [&[u8]; 2] = [b"/~~home", b"/~~home/~~home/~~home/~~home/~~home/~~home"];

impl<'a> Search<'a> {
    /// Keeps the places that an exchange names, and whether it has a relative path.
    pub(crate) fn look_for_homes(&mut self, exchange: Exchange<'_>) -> Result<(), NoMemory> {
        if let Some(case) = case_of(exchange.ask, self.settings.link_first) {
            self.look_at_path(case.old)?;
            if let Some(new) = case.new {
                self.look_at_path(new)?;
            }
        }
        match exchange.answer {
            Answer::Name(names) if names.as_slice().len() == 1 => match names.as_slice().first() {
                Some(item) if item.filename.as_slice().first() == Some(&b'/') => {
                    self.look_at_path(item.filename.as_slice())
                }
                _ => Ok(()),
            },
            _ => Ok(()),
        }
    }

    /// Keeps the places above the end of a path, and that one.
    fn look_at_path(&mut self, path: &[u8]) -> Result<(), NoMemory> {
        if path.first() != Some(&b'/') {
            self.is_relative = true;
            return Ok(());
        }
        if self.homes.len() >= PLACES {
            return Ok(());
        }
        let mut text = Vec::new(self.alloc);
        let kept = self.keep_places(path, &mut text);
        drop(text);
        kept
    }

    /// Keeps the places of a path, of which each has the text of the one before and a name.
    fn keep_places(&mut self, path: &[u8], text: &mut Vec<u8>) -> Result<(), NoMemory> {
        let mut left = path;
        for _ in 0..NAMES {
            match next_part(left) {
                Some((name, behind)) if !is_dot(name) && !is_dot_dot(name) => {
                    left = behind;
                    add_name(name, text)?;
                    self.keep_place(text.as_slice())?;
                }
                _ => return Ok(()),
            }
        }
        Ok(())
    }

    fn keep_place(&mut self, text: &[u8]) -> Result<(), NoMemory> {
        if self.homes.len() < PLACES && !is_among(text, self.homes.as_slice()) {
            let text = Vec::from_slice(self.alloc, text)?;
            self.homes.push(text)?;
        }
        Ok(())
    }

    /// Adds a choice for each place where relative paths may begin.
    pub(crate) fn choose_homes(&mut self) -> Result<(), NoMemory> {
        if !self.is_relative {
            return Ok(());
        }
        let homes = std::mem::replace(&mut self.homes, Vec::new(self.alloc));
        let chosen = self.choose_each(homes.as_slice());
        drop(homes);
        chosen
    }

    fn choose_each(&mut self, homes: &[Vec<u8>]) -> Result<(), NoMemory> {
        if self.home.as_slice() != b"/".as_slice() {
            self.choose_home(b"/")?;
        }
        for home in ELSEWHERE {
            self.choose_home(home)?;
        }
        for home in homes {
            if home.as_slice() != self.home.as_slice() {
                self.choose_home(home.as_slice())?;
            }
        }
        Ok(())
    }

    fn choose_home(&mut self, home: &[u8]) -> Result<(), NoMemory> {
        let place = Vec::from_slice(self.alloc, home)?;
        let (says, told) = (Says::Home, 0);
        self.choices.add_home(Fact { place, says, told })
    }
}

fn add_name(name: &[u8], text: &mut Vec<u8>) -> Result<(), NoMemory> {
    text.push(b'/')?;
    text.extend_from_slice(name)?;
    Ok(())
}

/// Whether a text is one of these.
fn is_among(text: &[u8], texts: &[Vec<u8>]) -> bool {
    texts.iter().any(|other| other.as_slice() == text)
}
