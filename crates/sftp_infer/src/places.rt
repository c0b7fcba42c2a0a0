//! The texts of places, and what is said of them: facts and contradictions.

use crate::errors::{Clash, Stop, What};
use crate::facts::{Fact, Says};
use crate::names::{Seat, Spot};
use crate::world::World;
use sftp_path::DEPTH_LIMIT;

/// Appends a slash and a name.
pub(crate) fn put_part(name: &[u8], text: &mut Vec<u8>) -> Result<(), Stop> {
    text.push(b'/')?;
    text.extend_from_slice(name)?;
    Ok(())
}

/// Whether one of these facts says the same.
fn is_among(fact: &Fact, facts: &[Fact]) -> bool {
    for other in facts {
        if fact.is_like(other) {
            return true;
        }
    }
    false
}

impl World {
    /// Learns a fact about a place of the start.
    pub(crate) fn learn(&mut self, parent: usize, name: &[u8], says: Says) -> Result<(), Stop> {
        match self.old_place(parent, name) {
            Ok(place) => {
                let told = self.replied;
                let fact = Fact { place, says, told };
                self.taken = self.taken.saturating_add(fact.bytes());
                self.learned.push(fact)?;
                Ok(())
            }
            Err(error) => {
                drop(says);
                Err(error)
            }
        }
    }

    /// Keeps what is made up.
    pub(crate) fn invent(&mut self, place: Vec<u8>, says: Says) -> Result<(), Stop> {
        let told = self.replied;
        let fact = Fact { place, says, told };
        self.taken = self.taken.saturating_add(fact.bytes());
        self.invented.push(fact)?;
        Ok(())
    }

    /// Proposes a fact about a place of the start.
    pub(crate) fn propose(&mut self, parent: usize, name: &[u8], says: Says) {
        match self.old_place(parent, name) {
            Ok(place) => self.propose_at(place, says),
            Err(_) => {
                self.lacks_memory = true;
                drop(says);
            }
        }
    }

    /// Proposes a fact about the place with this text, unless it is proposed already.
    pub(crate) fn propose_at(&mut self, place: Vec<u8>, says: Says) {
        let told = self.replied;
        let fact = Fact { place, says, told };
        if is_among(&fact, self.proposals.as_slice()) {
            drop(fact);
            return;
        }
        match self.proposals.push(fact) {
            Ok(()) => {}
            Err(failed) => {
                self.lacks_memory = true;
                drop(failed);
            }
        }
    }

    /// The text of a place at the start.
    pub(crate) fn old_place(&self, parent: usize, name: &[u8]) -> Result<Vec<u8>, Stop> {
        self.place(parent, name, true)
    }

    /// The text of a place, at the start or now.
    pub(crate) fn place(&self, parent: usize, name: &[u8], is_old: bool) -> Result<Vec<u8>, Stop> {
        let above = self.directories_to(parent, is_old)?;
        let mut text = Vec::new(self.alloc);
        let put = self.put_place(above.as_slice(), name, is_old, &mut text);
        drop(above);
        match put {
            Ok(()) => Ok(text),
            Err(stop) => {
                drop(text);
                Err(stop)
            }
        }
    }

    /// A directory, and those above it but for the root.
    fn directories_to(&self, parent: usize, is_old: bool) -> Result<Vec<usize>, Stop> {
        let mut above: Vec<usize> = Vec::new(self.alloc);
        let mut at = parent;
        for _ in 0..DEPTH_LIMIT.saturating_mul(2) {
            if at == 0 {
                return Ok(above);
            }
            above.push(at)?;
            at = self.seat_of(at, is_old).parent;
        }
        Ok(above)
    }

    /// Appends the text of the place of a name below directories, the last of which is the highest.
    fn put_place(
        &self,
        above: &[usize],
        name: &[u8],
        is_old: bool,
        text: &mut Vec<u8>,
    ) -> Result<(), Stop> {
        for at in above.iter().rev() {
            put_part(self.name_at(self.seat_of(*at, is_old)), text)?;
        }
        if name.is_empty() && !text.is_empty() {
            return Ok(());
        }
        put_part(name, text)
    }

    /// Where the name of an entry is, at the start or now.
    fn seat_of(&self, at: usize, is_old: bool) -> Seat {
        let entry = self.entry(at);
        if is_old { entry.old_seat } else { entry.seat }
    }

    /// The name at a seat.
    pub(crate) fn name_at(&self, seat: Seat) -> &[u8] {
        self.entry(seat.parent).names.name(seat.place)
    }

    /// The text of the place where an entry is now.
    pub(crate) fn place_now(&self, at: usize) -> Result<Vec<u8>, Stop> {
        if at == 0 {
            return self.place(0, &[], false);
        }
        let seat = self.entry(at).seat;
        self.place(seat.parent, self.name_at(seat), false)
    }

    /// The contradiction of the reply at hand with the record that told of an entry.
    pub(crate) fn clash_of(&mut self, at: usize, what: What) -> Stop {
        let told = self.told(at);
        self.clash_at(at, told, what)
    }

    /// The contradiction of the reply at hand with what this record told.
    pub(crate) fn clash_at(&mut self, at: usize, told: u64, what: What) -> Stop {
        match self.place_now(at) {
            Ok(place) => self.clash(place, told, what),
            Err(stop) => stop,
        }
    }

    pub(crate) fn clash(&mut self, place: Vec<u8>, told: u64, what: What) -> Stop {
        if self.clash.is_none() {
            self.clash = Some(Clash {
                told,
                found: self.replied,
                place,
                what,
                texts: None,
            });
        } else {
            drop(place);
        }
        Stop::Clash
    }

    /// Notes what the two records of the contradiction at hand say.
    pub(crate) fn note_texts(&mut self, told: Vec<u8>, found: &[u8]) -> Result<(), Stop> {
        match Vec::from_slice(self.alloc, found) {
            Ok(found) => {
                self.set_texts(told, found);
                Ok(())
            }
            Err(_) => {
                drop(told);
                Err(Stop::NoMemory)
            }
        }
    }

    fn set_texts(&mut self, told: Vec<u8>, found: Vec<u8>) {
        match &mut self.clash {
            Some(clash) => drop(std::mem::replace(&mut clash.texts, Some((told, found)))),
            None => {
                drop(told);
                drop(found);
            }
        }
    }

    /// The contradiction at a name.
    pub(crate) fn clash_name(&mut self, spot: Spot<'_>, told: u64, what: What) -> Stop {
        match self.place(spot.parent, spot.name, false) {
            Ok(place) => {
                self.propose_targets(place.as_slice());
                self.clash(place, told, what)
            }
            Err(stop) => stop,
        }
    }
}
