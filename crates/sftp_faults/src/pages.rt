//! Files of which a window is held.
ghost use Rattle.std.specs.Prelude.{◌≤◌, IfOk};

use crate::fields::{Fields, Spot};
use sftp_streams::{Buffer, Failed, Source};
use std::alloc::{AllocError, AllocFailed, Global};

/// How many bytes are held at most.
const CAPACITY: usize = 131_072;

/// How many bytes are held at least after `fill`, unless no more are left. A head has at most as many, and an entry up
/// to the bytes of its file.
const WINDOW: usize = 24_576;

/// Why no more of a file is passed.
#[derive(Clone, Copy)]
pub(crate) enum Stop {
    /// Here is its fault.
    At(Spot),
    /// It cannot be read, or memory runs out.
    Unread,
}

impl From<Spot> for Stop {
    fn from(spot: Spot) -> Stop {
        Stop::At(spot)
    }
}

impl From<Failed> for Stop {
    fn from(_error: Failed) -> Stop {
        Stop::Unread
    }
}

impl From<AllocError> for Stop {
    fn from(_error: AllocError) -> Stop {
        Stop::Unread
    }
}

impl From<AllocFailed<bool>> for Stop {
    fn from(_error: AllocFailed<bool>) -> Stop {
        Stop::Unread
    }
}

/// What is not passed yet of a file. The first bytes of it are held.
#[derive(Drop)]
pub(crate) struct Pages<R: Source> {
    source: R,
    buffer: Buffer<CAPACITY>,
    /// The place of the first byte that is not passed, capped at 2^64 - 1.
    place: u64,
}

impl<R: Source> Pages<R> {
    /// A file of which nothing is passed.
    pub(crate) fn new(alloc: Global, source: R) -> Result<Pages<R>, Stop>
    where
        R: Drop,
    {
        Ok(Pages {
            buffer: Buffer::new(alloc)?,
            source,
            place: 0,
        })
    }

    /// Holds a window, or all that is left.
    pub(crate) fn fill(&mut self) -> Result<(), Stop> {
        fill_window(&mut self.buffer, &mut self.source)?;
        Ok(())
    }

    /// The fields of the bytes held.
    pub(crate) fn fields(&self) -> Fields<'_> {
        Fields::at(self.buffer.held(), self.place)
    }

    /// Passes all bytes held but so many.
    pub(crate) fn leave(&mut self, left: usize) {
        let held = self.buffer.held().len();
        self.take(held.saturating_sub(left));
    }

    /// Passes at most so many of the bytes held.
    fn take(&mut self, most: usize) {
        let count = self.buffer.held().len().min(most);
        self.buffer.take(count);
        self.place = self.place.saturating_add(count as u64);
    }

    /// Passes so many bytes. Returns whether there were as many.
    pub(crate) fn pass(&mut self, count: u64) -> Result<bool, Stop> {
        let mut missing = count;
        'pass: while missing > 0 {
            let passed = self.pass_some(missing)?;
            if passed == 0 {
                return Ok(false);
            }
            missing -= passed;
        }
        Ok(true)
    }

    /// Passes at most so many bytes, and returns how many: 0 only if there are no more.
    fn pass_some(&mut self, most: u64) -> Result<u64, Stop>
        ensures { IfOk result (λ count. count ≤ most) }
    {
        if self.buffer.held().is_empty() {
            self.buffer.refill(&mut self.source)?;
        }
        let count = most.min(self.buffer.held().len() as u64);
        self.take(count as usize);
        Ok(count)
    }
}

/// Reads until a window is held, or no bytes are left.
fn fill_window<R: Source>(buffer: &mut Buffer<CAPACITY>, source: &mut R) -> Result<(), Failed> {
    'fill: while buffer.held().len() < WINDOW {
        let count = buffer.refill(source)?;
        if count == 0 {
            return Ok(());
        }
    }
    Ok(())
}
