//! What replies told of a file's size and bytes.

use crate::pieces::Pieces;
use sftp_treefile::most_limits;
use std::alloc::Global;

/// The size and the bytes of a file, at the start and now.
#[derive(Drop)]
pub(crate) struct File {
    /// Its size at the start is at least and at most so many bytes; and the records that told that.
    pub(crate) least: u64,
    pub(crate) most: u64,
    pub(crate) least_told: u64,
    pub(crate) most_told: u64,
    /// Whether its size at the start is assumed, and the fewest and the most bytes that it may have without that.
    pub(crate) is_guessed: bool,
    pub(crate) unguessed: (u64, u64),
    /// The first request that changed its size or its bytes, and the last one; 0 if none did.
    pub(crate) first: u64,
    pub(crate) last: u64,
    /// Whether something was written at its end, wherever that was.
    pub(crate) is_appended: bool,
    /// Its size now, once the session cut it or made it.
    pub(crate) size: Option<u64>,
    /// The request that set this size.
    pub(crate) sized: u64,
    /// The end of what the session wrote furthest, and the request that wrote it.
    pub(crate) furthest: u64,
    pub(crate) written_by: u64,
    /// The most bytes that the session gave it, of those that a tree may hold.
    pub(crate) peak: u64,
    /// From here on bytes that the session did not write are zeros.
    pub(crate) zeros: u64,
    /// What the session wrote.
    pub(crate) written: Pieces,
    /// What replies showed of the start.
    pub(crate) shown: Pieces,
    /// Whether an extension may have changed any byte.
    pub(crate) is_blurred: bool,
}

impl File {
    /// A file of the start of which nothing else is known.
    pub(crate) fn old(alloc: Global) -> File {
        File {
            least: 0,
            most: u64::MAX,
            least_told: 0,
            most_told: 0,
            is_guessed: false,
            unguessed: (0, u64::MAX),
            first: 0,
            last: 0,
            is_appended: false,
            size: None,
            sized: 0,
            furthest: 0,
            written_by: 0,
            peak: 0,
            zeros: u64::MAX,
            written: Pieces::new(alloc),
            shown: Pieces::new(alloc),
            is_blurred: false,
        }
    }

    /// Makes it a file that the session made.
    pub(crate) fn empty(&mut self, told: u64) {
        self.size = Some(0);
        self.sized = told;
        self.zeros = 0;
    }

    /// From here on bytes that the session did not write are zeros, since the start has no byte there.
    pub(crate) fn hole(&self) -> u64 {
        self.zeros.min(self.most)
    }

    /// Notes that a request changes it.
    pub(crate) fn change(&mut self, asked: u64) {
        if self.first == 0 {
            self.first = asked;
        }
        self.last = asked;
    }

    /// Notes that it had at least so many bytes at the start, as this record told.
    pub(crate) fn be_at_least(&mut self, size: u64, told: u64) {
        if size > self.least {
            self.least = size;
            self.least_told = told;
        }
    }

    /// Notes that it had at most so many bytes at the start, as this record told.
    pub(crate) fn be_at_most(&mut self, size: u64, told: u64) {
        if size < self.most {
            self.most = size;
            self.most_told = told;
        }
    }

    /// Notes that a request sets its size.
    pub(crate) fn cut(&mut self, size: u64, told: u64) {
        self.size = Some(size);
        self.sized = told;
        self.grow(size);
        self.zeros = self.zeros.min(size);
    }

    /// Notes that a request writes up to this end.
    pub(crate) fn reach(&mut self, end: u64, told: u64) {
        self.grow(end);
        if let Some(size) = self.size {
            self.size = Some(size.max(end));
        }
        if end > self.furthest {
            self.furthest = end;
            self.written_by = told;
        }
    }

    /// The record that told where the bytes end that may be any.
    pub(crate) fn end_told(&self) -> u64 {
        if self.sized == 0 {
            self.most_told
        } else {
            self.sized
        }
    }

    /// Notes that the session gives it so many bytes. More than any tree holds are in no audit.
    pub(crate) fn grow(&mut self, size: u64) {
        if size <= most_limits().file_bytes {
            self.peak = self.peak.max(size);
        }
    }

    /// The fewest bytes that it may have now.
    pub(crate) fn least_now(&self) -> u64 {
        match self.size {
            Some(size) => size,
            None => self.least.max(self.furthest),
        }
    }

    /// The most bytes that it may have now.
    pub(crate) fn most_now(&self) -> u64 {
        match self.size {
            Some(size) => size,
            None => self.most.max(self.furthest),
        }
    }

    /// The record that told the size now.
    pub(crate) fn size_told(&self) -> u64 {
        match self.size {
            Some(size) if self.furthest >= size => self.sized.max(self.written_by),
            Some(_) => self.sized,
            None if self.furthest > self.least => self.written_by,
            None => self.least_told.max(self.most_told),
        }
    }
}
