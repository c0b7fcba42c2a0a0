//! Ranges of a file's bytes, lent.
ghost use Rattle.std.specs.Prelude.{◌≡◌, ◌+◌, ◌≤◌, ℕ, ◌++◌, length, take, drop, OnOk, IfOk};
ghost use Rattle.sftp_path.specs.Place.{same_bytes};

use crate::contents::FileBytes;
use sftp_path::NoMemory;
use std::alloc::Global;
use std::marker::Model;

/// Some of the bytes of a file, one after the other. They may be in several pieces.
#[derive(Drop)]
pub struct ByteRange<'a> {
    content: &'a FileBytes,
    start: u64,
    count: u64,
}

impl<'a> Model for ByteRange<'a> {
    ghost use Rattle.std.specs.Prelude.{◌+◌, ◌≤◌, List, ℕ, length, take, drop};

    ghost Value = { List ℕ };

    ghost view = { λ r. take r.count (drop r.start r.content.now) };

    ghost invariant = { λ r. r.start + r.count ≤ length r.content.now };
}

impl<'a> ByteRange<'a> {
    /// The bytes from an offset on, at most so many.
    pub(crate) fn new(content: &'a FileBytes, offset: u64, most: u64) -> ByteRange<'a>
        ensures { result ≡ take most (drop offset content.now) }
    {
        let len = content.len();
        let start = offset.min(len);
        ByteRange {
            content,
            start,
            count: most.min(len - start),
        }
    }

    /// How many bytes there are.
    pub fn len(&self) -> u64
        ensures { result ≡ length self.now }
    {
        self.count
    }

    /// The first bytes, at most so many.
    pub fn front(&self, most: u64) -> ByteRange<'a>
        ensures { result ≡ take most self.now }
    {
        ByteRange {
            content: self.content,
            start: self.start,
            count: most.min(self.count),
        }
    }

    /// Appends the bytes to others.
    ///
    /// # Errors
    ///
    /// `NoMemory` if memory runs out; some of the bytes may be appended.
    pub fn append_to(&self, into: &mut Vec<u8>) -> Result<(), NoMemory>
        ensures { OnOk result (into.new.items ≡ into.old.items ++ self.now) }
    {
        self.content.append_to(self.start, self.count, into)
    }

    /// A copy of the bytes.
    ///
    /// # Errors
    ///
    /// `NoMemory` if memory runs out.
    pub fn to_vec(&self, alloc: Global) -> Result<Vec<u8>, NoMemory>
        ensures { IfOk result (λ bytes. bytes.items ≡ self.now) }
    {
        let mut bytes = Vec::new(alloc);
        self.append_to(&mut bytes)?;
        Ok(bytes)
    }

    /// Whether the bytes are these.
    pub fn is(&self, given: &[u8]) -> bool
        ensures { result ≡ same_bytes self.now given.now }
    {
        self.content.is_at(self.start, self.count, given)
    }
}
