//! The bytes of a file, in pages.
ghost use Rattle.std.specs.Prelude.{◌≡◌, ◌+◌, ◌<◌, ◌≤◌, ◌^◌, ℕ, [], length, OnOk, OnErr, IfOk, IsTrue};
ghost use Rattle.std.specs.Prelude.{◌++◌, take, drop};
ghost use Rattle.sftp_contents.specs.Bytes.{resized, written, IsWritable};
ghost use Rattle.sftp_contents.specs.Parts.{bytes_in, count_in};

use crate::cutting::resize;
use crate::locating::PAGE;
use crate::parts::Part;
use crate::reading::{is_same, part_at, read};
use crate::store::Store;
use crate::writing::put;
use sftp_path::NoMemory;
use std::alloc::Global;
use std::collections::BTreeMap;
use std::marker::Model;

/// The bytes of a file. Zeros that were never written take no memory.
#[derive(Drop)]
pub struct PagedBytes {
    store: Store,
    len: u64,
}

impl Model for PagedBytes {
    ghost use Rattle.std.specs.Prelude.{List, ℕ, ◌<◌, ◌^◌};
    ghost use Rattle.sftp_contents.specs.Pieces.{bytes_of, IsZeroBehind};

    ghost Value = { List ℕ };

    ghost view = { λ s. bytes_of s.store s.len };

    ghost invariant = { λ s. IsZeroBehind s.store s.len × (s.len < 2 ^ 63) };
}

impl PagedBytes {
    /// No bytes. Does not allocate.
    pub fn new(alloc: Global) -> PagedBytes
        ensures { result ≡ [] }
    {
        PagedBytes {
            store: Store {
                front: Vec::new(alloc),
                room: PAGE,
                pages: BTreeMap::new(alloc),
            },
            len: 0,
        }
    }

    /// These bytes, which are not copied.
    pub fn of_bytes(bytes: Vec<u8>) -> PagedBytes
        ensures { result ≡ bytes.items }
    {
        let alloc = *bytes.allocator();
        let len = bytes.len() as u64;
        PagedBytes {
            store: Store {
                front: bytes,
                room: len.max(PAGE),
                pages: BTreeMap::new(alloc),
            },
            len,
        }
    }

    /// How many bytes there are.
    pub fn len(&self) -> u64
        ensures { result ≡ length self.now }
    {
        self.len
    }

    /// Cuts the bytes to a size, or appends zeros up to it. Appending costs nothing, cutting what it frees.
    pub fn set_len(&mut self, size: u64)
        requires { size < 2 ^ 63 }
        ensures { self.new ≡ resized size self.old }
    {
        resize(&mut self.store, self.len, size);
        self.len = size;
    }

    /// Writes bytes over those from the offset on; what goes past the end is appended. If the bytes end before the
    /// offset, zeros fill them up to it. To write no bytes changes nothing, at any offset.
    ///
    /// # Errors
    ///
    /// `NoMemory` if memory runs out; the bytes are unchanged.
    pub fn write_at(&mut self, offset: u64, new: &[u8]) -> Result<(), NoMemory>
        requires { IsWritable offset new.now }
        ensures ok { OnOk result (self.new ≡ written offset new.now self.old) }
        ensures err { OnErr result (self.new ≡ self.old) }
    {
        if new.is_empty() {
            return Ok(());
        }
        let count = new.len() as u64;
        let alloc = *self.store.front.allocator();
        put(&mut self.store, alloc, offset, new)?;
        self.len = self.len.max(offset + count);
        Ok(())
    }

    /// The part of the bytes that begins at an offset, of at most so many bytes.
    pub fn part_at(&self, at: u64, most: u64) -> Part<'_>
        requires within { at < length self.now }
        requires some { 0 < most }
        ensures bytes { bytes_in result ≡ take (count_in result) (drop at self.now) }
        ensures some { 0 < count_in result }
        ensures few { count_in result ≤ most }
    {
        part_at(&self.store, at, most.min(self.len - at))
    }

    /// Appends the bytes from an offset on to others, at most so many.
    ///
    /// # Errors
    ///
    /// `NoMemory` if memory runs out; some of the bytes may be appended.
    pub fn append_to(&self, offset: u64, most: u64, into: &mut Vec<u8>) -> Result<(), NoMemory>
        ensures { OnOk result (into.new.items ≡ into.old.items ++ take most (drop offset self.now)) }
    {
        let start = offset.min(self.len);
        let count = most.min(self.len - start);
        into.reserve(count as usize)?;
        read(&self.store, start, count, into)?;
        Ok(())
    }

    /// Whether these are the bytes from an offset on, at most so many.
    pub fn is_at(&self, offset: u64, most: u64, given: &[u8]) -> bool
        ensures same { IsTrue result → take most (drop offset self.now) ≡ given.now }
        ensures apart { take most (drop offset self.now) ≡ given.now → IsTrue result }
    {
        let start = offset.min(self.len);
        let count = most.min(self.len - start);
        count == given.len() as u64 && is_same(&self.store, start, given)
    }
}
