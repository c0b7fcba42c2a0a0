//! The times of records, read entry by entry.

use crate::errors::ViewError;
use sftp_times::{ENTRY, OPENING_LENGTH, beginning_length, read_beginning, read_entry};
use std::alloc::Global;
use std::io::Read;

/// The times of a transcript's records, from a file of times if there is one.
#[derive(Drop)]
pub struct Clock<C> {
    file: Option<C>,
    /// The bytes of what was read last.
    bytes: Vec<u8>,
    /// The time of the entry before the next.
    last: u64,
}

impl<C: Read + Drop> Clock<C> {
    /// The times of this file, of which nothing is read yet; without a file no record has a time.
    pub fn new(alloc: Global, file: Option<C>) -> Clock<C> {
        Clock {
            file,
            bytes: Vec::new(alloc),
            last: 0,
        }
    }

    /// Whether there is a file of times.
    pub(crate) fn has_file(&self) -> bool {
        self.file.is_some()
    }

    /// Reads what comes before the entries.
    pub(crate) fn begin(&mut self) -> Result<(), ViewError> {
        if !self.has_file() {
            return Ok(());
        }
        self.read(OPENING_LENGTH)?;
        let length = beginning_length(self.bytes.as_slice());
        self.read_on(length.saturating_sub(OPENING_LENGTH))?;
        read_beginning(self.bytes.as_slice())?;
        Ok(())
    }

    /// The time of the next record, which has this number: nanoseconds from the start on. There is none without a file,
    /// or where the file ends before.
    pub(crate) fn next(&mut self, number: u64) -> Result<Option<u64>, ViewError> {
        self.read(ENTRY)?;
        if self.bytes.is_empty() {
            return Ok(None);
        }
        self.last = read_entry(number, self.last, self.bytes.as_slice())?;
        Ok(Some(self.last))
    }

    /// Judges the end of the file, where the transcript has no record with this number.
    pub(crate) fn end(&mut self, number: u64) -> Result<(), ViewError> {
        match self.next(number)? {
            Some(_) => Err(ViewError::Spare { entry: number }),
            None => Ok(()),
        }
    }

    /// Reads the next bytes, as many as this or all that are left.
    fn read(&mut self, count: usize) -> Result<(), ViewError> {
        self.bytes.clear();
        self.read_on(count)
    }

    /// Reads further bytes behind those that were read last, as many as this or all that are left.
    fn read_on(&mut self, count: usize) -> Result<(), ViewError> {
        let Some(file) = &mut self.file else {
            return Ok(());
        };
        match file
            .by_ref()
            .take(count as u64)
            .read_to_end(&mut self.bytes)
        {
            Ok(_) => Ok(()),
            Err(error) => Err(ViewError::Clock(error)),
        }
    }
}
