//! What READ tells of a file's bytes.

use crate::errors::{Stop, What};
use crate::facts::Says;
use crate::pieces::{Known, Piece};
use crate::targets::Wrote;
use crate::world::World;

/// The fewest bytes that the limit of one READ may be.
const READ_LIMIT: u64 = 32_768;

/// What is known of some bytes of a file, and of how many.
#[derive(Clone, Copy)]
enum Segment {
    /// They are these.
    Bytes(Piece, u64),
    /// They are zeros.
    Zeros(u64),
    /// Nothing.
    Fresh(u64),
}

/// A byte that a READ shows where another one is known.
#[derive(Clone, Copy)]
struct Byte {
    offset: u64,
    known: u8,
    /// The record that told the one that is known.
    told: u64,
    shown: u8,
}

/// The bytes that a READ shows at an offset, and the session, which has them.
#[derive(Clone, Copy)]
pub(crate) struct Shown<'s> {
    pub(crate) session: &'s [u8],
    pub(crate) offset: u64,
    pub(crate) piece: Piece,
}

impl Shown<'_> {
    /// So many bytes of it, the first ones.
    pub(crate) fn first(&self, len: u64) -> &[u8] {
        bytes_at(self.session, self.piece.from, len)
    }

    /// What is behind so many bytes of it.
    fn behind(self, len: u64) -> Self {
        Shown {
            session: self.session,
            offset: self.offset.saturating_add(len),
            piece: self.piece.without(len),
        }
    }
}

/// The place of the first byte in which these differ, and both bytes there.
fn first_difference(one: &[u8], other: &[u8]) -> Option<(usize, u8, u8)> {
    if one == other {
        return None;
    }
    let mut place: usize = 0;
    for (left, right) in one.iter().zip(other) {
        if left != right {
            return Some((place, *left, *right));
        }
        place = place.saturating_add(1);
    }
    None
}

/// The place of the first byte that is not zero, and the byte.
fn first_set(bytes: &[u8]) -> Option<(usize, u8)> {
    let mut place: usize = 0;
    for byte in bytes {
        if *byte != 0 {
            return Some((place, *byte));
        }
        place = place.saturating_add(1);
    }
    None
}

/// How many bytes there are without the zeros at the end.
fn without_zeros(bytes: &[u8]) -> u64 {
    match bytes.iter().rposition(|byte| *byte != 0) {
        Some(place) => (place as u64).saturating_add(1),
        None => 0,
    }
}

/// So many bytes from a place on.
pub(crate) fn bytes_at(bytes: &[u8], from: usize, len: u64) -> &[u8] {
    let end = from.saturating_add(len as usize);
    match bytes.get(from..end) {
        Some(some) => some,
        None => &[],
    }
}

impl World {
    /// Takes the bytes that a READ gave, of which so many were asked for.
    pub(crate) fn read(&mut self, at: usize, asked: u64, shown: Shown<'_>) -> Result<(), Stop> {
        let len = shown.piece.len;
        self.most_read = self.most_read.max(len);
        if self.entry(at).file.is_blurred {
            return Ok(());
        }
        let end = shown.offset.saturating_add(len);
        if asked == 0 && self.settings.is_strict {
            return self.tell_least(at, end.saturating_add(1));
        }
        if len < asked && len < READ_LIMIT {
            self.tell_size(at, end)?;
        }
        self.read_bytes(at, shown)
    }

    /// Tells that a READ at an offset found the end.
    pub(crate) fn read_end(&mut self, at: usize, offset: u64) -> Result<(), Stop> {
        if self.entry(at).file.is_blurred {
            return Ok(());
        }
        self.tell_most(at, offset)
    }

    fn read_bytes(&mut self, at: usize, shown: Shown<'_>) -> Result<(), Stop> {
        let mut left = shown;
        for segment in 0..u64::MAX {
            if left.piece.len == 0 {
                self.count_steps(segment);
                return Ok(());
            }
            let taken = self.read_segment(at, left)?;
            left = left.behind(taken);
        }
        Ok(())
    }

    /// Takes the first bytes of those that are shown, and says how many; none if they are to be looked at again.
    fn read_segment(&mut self, at: usize, shown: Shown<'_>) -> Result<u64, Stop> {
        match self.segment(at, shown.offset, shown.piece.len) {
            Segment::Bytes(known, len) => self.compare(at, shown, known, len),
            Segment::Zeros(len) => self.compare_zeros(at, shown, len),
            Segment::Fresh(len) => self.show(at, shown, len),
        }
    }

    /// What is known of so many bytes from an offset on, or of the first ones of them.
    fn segment(&self, at: usize, offset: u64, most: u64) -> Segment {
        let file = &self.entry(at).file;
        match file.written.known(offset) {
            Known::Bytes(piece) => Segment::Bytes(piece, piece.len.min(most)),
            Known::Gap(gap) if offset >= file.hole() => Segment::Zeros(gap.min(most)),
            Known::Gap(gap) => {
                let most = gap.min(most).min(file.hole().saturating_sub(offset));
                match file.shown.known(offset) {
                    Known::Bytes(piece) => Segment::Bytes(piece, piece.len.min(most)),
                    Known::Gap(gap) => Segment::Fresh(gap.min(most)),
                }
            }
        }
    }

    /// Compares so many bytes with those that are known.
    fn compare(
        &mut self,
        at: usize,
        shown: Shown<'_>,
        known: Piece,
        len: u64,
    ) -> Result<u64, Stop> {
        let one = bytes_at(shown.session, known.from, len);
        match first_difference(one, shown.first(len)) {
            None => {
                self.cross(known.told);
                Ok(len)
            }
            Some((place, left, right)) => {
                let byte = Byte {
                    offset: shown.offset.saturating_add(place as u64),
                    known: left,
                    told: known.told,
                    shown: right,
                };
                self.revive(at)?;
                self.refuse_byte(at, shown, byte)
            }
        }
    }

    /// Refuses a byte that a READ shows, since another one is known there.
    fn refuse_byte(&mut self, at: usize, shown: Shown<'_>, byte: Byte) -> Result<u64, Stop> {
        self.propose_other_sizes(at, shown);
        let wrote = Wrote {
            session: shown.session,
            offset: byte.offset,
            byte: byte.shown,
        };
        self.propose_same(at, Some(wrote));
        let what = What::Byte(byte.offset, byte.known, byte.shown);
        Err(self.clash_at(at, byte.told, what))
    }

    /// Proposes other sizes at the start for a file whose size there is assumed, by what a READ shows.
    fn propose_other_sizes(&mut self, at: usize, shown: Shown<'_>) {
        if self.entry(at).file.is_guessed {
            self.propose_sizes(at, shown);
            let end = shown.offset.saturating_add(shown.piece.len);
            self.propose_of(at, Says::Size(end));
        }
    }

    /// Compares so many bytes with the zeros that are there.
    fn compare_zeros(&mut self, at: usize, shown: Shown<'_>, len: u64) -> Result<u64, Stop> {
        match first_set(shown.first(len)) {
            None => {
                self.tell_least(at, shown.offset.saturating_add(len))?;
                Ok(len)
            }
            Some((place, byte)) => {
                if self.revive(at)? && shown.offset < self.entry(at).file.hole() {
                    return Ok(0);
                }
                let byte = Byte {
                    offset: shown.offset.saturating_add(place as u64),
                    known: 0,
                    told: self.entry(at).file.end_told(),
                    shown: byte,
                };
                self.refuse_byte(at, shown, byte)
            }
        }
    }

    /// Takes so many bytes of the start of which nothing was known, and returns how many.
    fn show(&mut self, at: usize, shown: Shown<'_>, len: u64) -> Result<u64, Stop> {
        let some = self.some_of_start(at, shown, len);
        if some == 0 {
            return Ok(len);
        }
        self.tell_least(at, shown.offset.saturating_add(some))?;
        self.take_pieces(1);
        self.keep_shown(at, shown, some)?;
        self.require_least(at)?;
        Ok(len)
    }

    /// How many of these bytes the start has for sure: zeros at the end may be behind the start's end, and then they
    /// are no bytes of it.
    fn some_of_start(&self, at: usize, shown: Shown<'_>, len: u64) -> u64 {
        let (least, _) = self.size_now(at);
        if shown.offset.saturating_add(len) > least {
            return len;
        }
        let known = self.entry(at).file.least.saturating_sub(shown.offset);
        len.min(known.max(without_zeros(shown.first(len))))
    }

    /// Keeps that a file had so many of these bytes at the start.
    fn keep_shown(&mut self, at: usize, shown: Shown<'_>, len: u64) -> Result<(), Stop> {
        let told = self.teller;
        let fresh = Piece { len, ..shown.piece };
        let file = &mut self.entry_mut(at).file;
        file.shown.put(shown.offset, fresh)?;
        file.be_at_least(shown.offset.saturating_add(len), told);
        Ok(())
    }

    /// Fails if the start would have more bytes than it may have.
    fn require_least(&mut self, at: usize) -> Result<(), Stop> {
        let file = &self.entry(at).file;
        let (least, most, told) = (file.least, file.most, file.most_told);
        if least > most {
            return Err(self.clash_at(at, told, What::Size(most, least)));
        }
        Ok(())
    }
}
