//! What requests and replies tell of a file's size; sizes at the start of files to which something was appended, by
//! where a READ shows what was appended.

use crate::errors::{Stop, What};
use crate::facts::Says;
use crate::files::File;
use crate::nodes::{Held, Sort};
use crate::pieces::{Known, Piece};
use crate::reads::{Shown, bytes_at};
use crate::world::World;

impl World {
    /// Takes the size that a reply shows of a file.
    pub(crate) fn tell_size(&mut self, at: usize, size: u64) -> Result<(), Stop> {
        self.most_bytes = self.most_bytes.max(size);
        let (least, most) = self.size_now(at);
        if size < least || size > most {
            if !self.revive(at)? {
                return self.refuse_size(at, least, most, size);
            }
        }
        if least == most {
            self.cross(self.entry(at).file.size_told());
        }
        self.tell_size_of_old(at, size);
        Ok(())
    }

    /// Refuses a size that the file cannot have.
    fn refuse_size(&mut self, at: usize, least: u64, most: u64, size: u64) -> Result<(), Stop> {
        self.propose_size(at, size);
        self.propose_same(at, None);
        Err(self.clash_size(at, least, most, size))
    }

    /// The fewest and the most bytes that a file may have now.
    pub(crate) fn size_now(&self, at: usize) -> (u64, u64) {
        let file = &self.entry(at).file;
        if file.is_blurred {
            return (0, u64::MAX);
        }
        (file.least_now(), file.most_now())
    }

    fn clash_size(&mut self, at: usize, least: u64, most: u64, size: u64) -> Stop {
        let known = if size < least { least } else { most };
        let told = self.entry(at).file.size_told();
        self.clash_at(at, told, What::Size(known, size))
    }

    /// Proposes another size at the start where it was only assumed.
    fn propose_size(&mut self, at: usize, size: u64) {
        let file = &self.entry(at).file;
        if file.is_guessed {
            let more = size.saturating_sub(file.furthest);
            let start = file.least.saturating_add(more);
            self.propose_of(at, Says::Size(start));
        }
    }

    /// Takes a size, which the file may have, for what it says of the start.
    fn tell_size_of_old(&mut self, at: usize, size: u64) {
        let told = self.teller;
        let file = &mut self.entry_mut(at).file;
        if file.size.is_some() || file.is_blurred {
            return;
        }
        if size > file.furthest {
            file.be_at_least(size, told);
        }
        file.be_at_most(size, told);
    }

    /// Tells that a file has at least so many bytes now.
    pub(crate) fn tell_least(&mut self, at: usize, size: u64) -> Result<(), Stop> {
        let (_, most) = self.size_now(at);
        if size > most {
            if !self.revive(at)? {
                return self.refuse_size(at, 0, most, size);
            }
        }
        let told = self.teller;
        let file = &mut self.entry_mut(at).file;
        if file.size.is_none() && size > file.furthest {
            file.be_at_least(size, told);
        }
        Ok(())
    }

    /// Tells that a file has at most so many bytes now.
    pub(crate) fn tell_most(&mut self, at: usize, size: u64) -> Result<(), Stop> {
        let (least, _) = self.size_now(at);
        if least > size {
            self.propose_same(at, None);
            return Err(self.clash_size(at, least, least, size));
        }
        let told = self.teller;
        let file = &mut self.entry_mut(at).file;
        if file.size.is_none() {
            file.be_at_most(size, told);
        }
        Ok(())
    }

    /// Sets the size of a file.
    pub(crate) fn cut(&mut self, at: usize, size: u64) -> Result<(), Stop> {
        self.most_bytes = self.most_bytes.max(size);
        let (told, asked) = (self.teller, self.asked);
        let file = &mut self.entry_mut(at).file;
        file.change(asked);
        file.cut(size, told);
        file.written.clear(size, u64::MAX)?;
        Ok(())
    }

    /// Takes bytes that a request wrote at an offset, or at the end of the file.
    pub(crate) fn write(
        &mut self,
        at: usize,
        offset: u64,
        appends: bool,
        piece: Piece,
    ) -> Result<(), Stop> {
        if piece.len == 0 {
            return Ok(());
        }
        let offset = if appends { self.end_now(at) } else { offset };
        let end = offset.saturating_add(piece.len);
        self.most_bytes = self.most_bytes.max(end);
        let (told, asked) = (self.teller, self.asked);
        let file = &mut self.entry_mut(at).file;
        file.change(asked);
        file.is_appended = file.is_appended || appends;
        let before = file.written.len();
        file.written.put(offset, piece)?;
        let more = file.written.len().saturating_sub(before);
        file.reach(end, told);
        self.take_pieces(more as u64);
        Ok(())
    }

    /// The size of a file now. If it is not known, it is taken for the least that it may be.
    fn end_now(&mut self, at: usize) -> u64 {
        let told = self.teller;
        let file = &mut self.entry_mut(at).file;
        let least = file.least_now();
        if file.size.is_none() && file.most_now() > least {
            file.is_guessed = true;
            file.unguessed = (file.least, file.most);
            file.least = file.least.max(least);
            file.most = file.least;
            file.most_told = told;
        }
        least
    }

    /// Takes an entry that was taken for new, where it may as well be old, for old. The pass goes on with what is known
    /// now, and a further one begins with it. Says whether that could be.
    pub(crate) fn revive(&mut self, at: usize) -> Result<bool, Stop> {
        let Some((parent, name)) = self.chosen(at)? else {
            return Ok(false);
        };
        let done = self.start_with(parent, name.as_slice(), at);
        drop(name);
        done?;
        self.age(at);
        if self.owner_by == at && self.owner.is_some() {
            self.owner = None;
            return Err(Stop::Again);
        }
        if self.entry(at).file.is_appended {
            return Err(Stop::Again);
        }
        Ok(true)
    }

    /// Learns that a name led to this entry, a file, at the start, which no reply says alone.
    fn start_with(&mut self, parent: usize, name: &[u8], at: usize) -> Result<(), Stop> {
        let spot = self.spot(parent, name);
        let slot = self.slot_mut(spot)?;
        slot.start = Some(Held::Entry(at));
        slot.is_assumed = false;
        self.learn(parent, name, Says::File)
    }

    /// Tells that a file had this size at the start.
    pub(crate) fn tell_start_size(&mut self, at: usize, size: u64) -> Result<(), Stop> {
        let told = self.teller;
        let file = &mut self.entry_mut(at).file;
        let (least, most, is_guessed) = (file.least, file.most, file.is_guessed);
        if size >= least && size <= most {
            file.least = size;
            file.most = size;
            file.least_told = told;
            file.most_told = told;
            return Ok(());
        }
        let told = file.least_told.max(file.most_told);
        if is_guessed {
            self.propose_of(at, Says::Size(size));
        }
        let known = if size < least { least } else { most };
        Err(self.clash_at(at, told, What::Size(known, size)))
    }

    /// Where an entry is that was taken for new, where it may as well be old.
    fn chosen(&self, at: usize) -> Result<Option<(usize, Vec<u8>)>, Stop> {
        let entry = self.entry(at);
        if !entry.is_chosen {
            return Ok(None);
        }
        let seat = entry.old_seat;
        let name = Vec::from_slice(self.alloc, self.name_at(seat))?;
        Ok(Some((seat.parent, name)))
    }

    /// Makes an entry one of the start.
    fn age(&mut self, at: usize) {
        let entry = self.entry_mut(at);
        entry.is_chosen = false;
        entry.is_old = true;
        entry.sort = Sort::File;
        entry.rights.owner = None;
        entry.rights.permissions = None;
        if entry.file.zeros == 0 && entry.file.sized == entry.told {
            entry.file.size = None;
            entry.file.zeros = u64::MAX;
        }
    }
}

/// How many bytes of a READ are looked at, and how many of those that were appended.
const SHOWN: u64 = 256;

const APPENDED: usize = 16_384;

/// How many bytes have to be the same.
const SURE: usize = 3;

/// How many pieces in a row are put together.
const PIECES: u32 = 256;

/// Where the end of the shown bytes is the beginning of the appended ones: the first such place.
fn end_of(shown: &[u8], appended: &[u8]) -> Option<usize> {
    for place in 0..shown.len() {
        let rest = shown.get(place..).unwrap_or(&[]);
        let len = rest.len().min(appended.len());
        if len >= SURE && rest.get(..len) == appended.get(..len) {
            return Some(place);
        }
    }
    None
}

/// Where the shown bytes are among the appended ones, behind the first of these.
fn inside_of(shown: &[u8], appended: &[u8]) -> Option<usize> {
    for place in 1..appended.len() {
        let rest = appended.get(place..).unwrap_or(&[]);
        let len = rest.len().min(shown.len());
        if len >= SURE && rest.get(..len) == shown.get(..len) {
            return Some(place);
        }
    }
    None
}

impl World {
    /// Proposes sizes at the start of a file to which something was appended: those with which it lies where a READ at
    /// this offset shows it.
    pub(crate) fn propose_sizes(&mut self, at: usize, shown: Shown<'_>) {
        let mut appended = Vec::new(self.alloc);
        let put = put_appended(&self.entry(at).file, shown.session, &mut appended);
        let bytes = shown.first(shown.piece.len.min(SHOWN));
        let (at_end, inside) = sizes(bytes, appended.as_slice(), shown.offset);
        drop(appended);
        if put.is_err() {
            self.lacks_memory = true;
        }
        self.propose_if_some(at, at_end);
        self.propose_if_some(at, inside);
    }

    /// Proposes a size at the start, if there is one.
    fn propose_if_some(&mut self, at: usize, size: Option<u64>) {
        if let Some(size) = size {
            self.propose_of(at, Says::Size(size));
        }
    }
}

/// Appends what was appended to a file whose size at the start is assumed, the first bytes of it.
fn put_appended(file: &File, session: &[u8], bytes: &mut Vec<u8>) -> Result<(), Stop> {
    let mut offset = file.least;
    for _ in 0..PIECES {
        match file.written.known(offset) {
            Known::Bytes(piece) if bytes.len() < APPENDED => {
                let len = piece.len.min(APPENDED as u64);
                bytes.extend_from_slice(bytes_at(session, piece.from, len))?;
                offset = offset.saturating_add(piece.len);
            }
            _ => return Ok(()),
        }
    }
    Ok(())
}

/// The sizes at which what was appended lies where it is shown from an offset on.
fn sizes(shown: &[u8], appended: &[u8], offset: u64) -> (Option<u64>, Option<u64>) {
    let at_end = match end_of(shown, appended) {
        Some(place) => Some(offset.saturating_add(place as u64)),
        None => None,
    };
    let inside = match inside_of(shown, appended) {
        Some(place) => offset.checked_sub(place as u64),
        None => None,
    };
    (at_end, inside)
}
