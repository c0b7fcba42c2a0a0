//! Fields and their places; bytes that are read field by field, up to one that is not whole.

use sftp_wire::{take_number, take_string};
use std::fmt;

/// A field of a file, and the place of its first byte, from 0, capped at 2^64 - 1.
#[derive(Clone, Copy, Debug)]
pub struct Spot {
    pub field: &'static str,
    pub place: u64,
}

impl Spot {
    /// The same field of bytes that begin at this place of a file.
    pub fn behind(self, start: u64) -> Spot {
        Spot {
            field: self.field,
            place: self.place.saturating_add(start),
        }
    }
}

impl fmt::Display for Spot {
    fn fmt<W: fmt::Write>(&self, f: &mut fmt::Formatter<W>) -> fmt::Result {
        let field = self.field;
        let place = self.place;
        write!(f, "{field} at byte {place}")
    }
}

/// The bytes of a file that are not read yet, and the place of the first one.
#[derive(Clone, Copy)]
pub(crate) struct Fields<'a> {
    rest: &'a [u8],
    place: u64,
}

impl<'a> Fields<'a> {
    pub(crate) fn new(bytes: &'a [u8]) -> Fields<'a> {
        Fields::at(bytes, 0)
    }

    /// The bytes of a file from this place on.
    pub(crate) fn at(bytes: &'a [u8], place: u64) -> Fields<'a> {
        Fields { rest: bytes, place }
    }

    /// The bytes that are not read yet.
    pub(crate) fn rest(&self) -> &'a [u8] {
        self.rest
    }

    /// The next field under this name.
    pub(crate) fn spot(&self, field: &'static str) -> Spot {
        Spot {
            field,
            place: self.place,
        }
    }

    /// Continues where these bytes are left.
    fn go_on(&mut self, rest: &'a [u8]) {
        let passed = self.rest.len().saturating_sub(rest.len());
        self.place = self.place.saturating_add(passed as u64);
        self.rest = rest;
    }

    /// Keeps only so many bytes of those that are not read yet.
    pub(crate) fn cut(&mut self, count: usize) {
        self.rest = self.rest.get(..count).unwrap_or(self.rest);
    }

    /// Passes so many bytes.
    pub(crate) fn pass(&mut self, count: usize, field: &'static str) -> Result<(), Spot> {
        match self.rest.get(count..) {
            Some(rest) => {
                self.go_on(rest);
                Ok(())
            }
            None => Err(self.spot(field)),
        }
    }

    /// Reads a byte.
    pub(crate) fn byte(&mut self, field: &'static str) -> Result<u8, Spot> {
        match self.rest.split_first() {
            Some((byte, rest)) => {
                self.go_on(rest);
                Ok(*byte)
            }
            None => Err(self.spot(field)),
        }
    }

    /// Reads a uint32.
    pub(crate) fn number(&mut self, field: &'static str) -> Result<u32, Spot> {
        match take_number(self.rest) {
            Some((number, rest)) => {
                self.go_on(rest);
                Ok(number)
            }
            None => Err(self.spot(field)),
        }
    }

    /// Passes a uint32 under each of these names.
    pub(crate) fn numbers(&mut self, names: &[&'static str]) -> Result<(), Spot> {
        for name in names {
            self.number(name)?;
        }
        Ok(())
    }

    /// Reads a uint64.
    pub(crate) fn long_number(&mut self, field: &'static str) -> Result<u64, Spot> {
        match long_in(self.rest) {
            Some((number, rest)) => {
                self.go_on(rest);
                Ok(number)
            }
            None => Err(self.spot(field)),
        }
    }

    /// Passes a uint64.
    pub(crate) fn long(&mut self, field: &'static str) -> Result<(), Spot> {
        self.pass(8, field)
    }

    /// Reads a string.
    pub(crate) fn text(&mut self, field: &'static str) -> Result<&'a [u8], Spot> {
        match take_string(self.rest) {
            Some((text, rest)) => {
                self.go_on(rest);
                Ok(text)
            }
            None => Err(self.spot(field)),
        }
    }
}

/// The uint64 in front of bytes, and the bytes behind it.
fn long_in(bytes: &[u8]) -> Option<(u64, &[u8])> {
    let (high, rest) = take_number(bytes)?;
    let (low, rest) = take_number(rest)?;
    Some(((u64::from(high) << 32) | u64::from(low), rest))
}
