//! The bytes of a file, as a tree keeps them.
ghost use Rattle.std.specs.Prelude.{◌≡◌, ◌+◌, ◌<◌, ◌≤◌, ◌^◌, ℕ, ◌++◌, length, take, drop, IsTrue, OnOk, OnErr};
ghost use Rattle.std.specs.Io.KnownBytes.{Appends};
ghost use Rattle.sftp_streams.specs.Streams.{AppendsPart, Counts};
ghost use Rattle.sftp_contents.specs.Bytes.{resized, written, IsWritable};
ghost use Rattle.sftp_contents.specs.Parts.{bytes_in, count_in};

use crate::kept::{Kept, append_to, count, is_at, part_at, resize, write_at};
use crate::parts::Part;
use crate::ranges::ByteRange;
use crate::sending::send;
use sftp_path::NoMemory;
use sftp_streams::{Failed, Sink};
use std::marker::Model;

/// The largest size of a content.
const MOST: u64 = 0x7fff_ffff_ffff_ffff;

/// The bytes of a file. Zeros that were never written take no memory, but up to a page where bytes are written behind
/// them.
#[derive(Drop)]
pub struct FileBytes {
    kept: Kept,
}

impl Model for FileBytes {
    ghost use Rattle.std.specs.Prelude.{List, ℕ};
    ghost use Rattle.sftp_contents.specs.Kept.{bytes_kept};

    ghost Value = { List ℕ };

    ghost view = { λ b. bytes_kept b.kept };
}

impl FileBytes {
    /// These bytes, which are not copied.
    pub fn new(bytes: Vec<u8>) -> FileBytes
        ensures { result ≡ bytes.items }
    {
        FileBytes {
            kept: Kept::Whole(bytes),
        }
    }

    /// How many bytes there are.
    pub fn len(&self) -> u64
        ensures { result ≡ length self.now }
    {
        count(&self.kept)
    }

    /// Cuts the bytes to a size, or appends zeros up to it, which take no memory. Cutting gives back what was taken for
    /// the bytes that go; the last piece that stays gives some back where less than half of it would be used.
    ///
    /// # Errors
    ///
    /// `NoMemory` if memory runs out, and for sizes from 2^63 on; the bytes are unchanged.
    pub fn resize(&mut self, size: u64) -> Result<(), NoMemory>
        ensures ok { OnOk result (self.new ≡ resized size self.old) }
        ensures err { OnErr result (self.new ≡ self.old) }
    {
        if size > MOST {
            return Err(NoMemory);
        }
        resize(&mut self.kept, size)
    }

    /// Writes bytes over those from the offset on; what goes past the end is appended. If the bytes end before the
    /// offset, zeros fill them up to it. To write no bytes changes nothing, at any offset.
    ///
    /// # Errors
    ///
    /// `NoMemory` if memory runs out; the bytes are unchanged.
    pub fn write_at(&mut self, offset: u64, new: &[u8]) -> Result<(), NoMemory>
        requires { IsWritable offset new.now }
        ensures ok { OnOk result (self.new ≡ written offset new.now self.old) }
        ensures err { OnErr result (self.new ≡ self.old) }
    {
        write_at(&mut self.kept, offset, new)
    }

    /// The bytes from an offset on, at most so many, lent. At the end and past it there are none. Does not allocate.
    pub fn range(&self, offset: u64, most: u64) -> ByteRange<'_>
        ensures { result ≡ take most (drop offset self.now) }
    {
        ByteRange::new(self, offset, most)
    }

    /// The part of the bytes that begins at an offset, of at most so many: bytes that are kept, or zeros. Does not
    /// allocate.
    pub fn part_at(&self, at: u64, most: u64) -> Part<'_>
        requires within { at < length self.now }
        requires some { 0 < most }
        ensures bytes { bytes_in result ≡ take (count_in result) (drop at self.now) }
        ensures some { 0 < count_in result }
        ensures few { count_in result ≤ most }
    {
        part_at(&self.kept, at, most)
    }

    /// Writes the bytes to a sink. Those that are kept are not copied.
    ///
    /// # Errors
    ///
    /// `Failed` if a write fails. A beginning of the bytes is written then.
    pub fn send<L: Sink>(&self, sink: &mut L) -> Result<(), Failed>
        ensures ok { OnOk result (Appends (L.written sink.old) (L.written sink.new) self.now) }
        ensures err { OnErr result (AppendsPart (L.written sink.old) (L.written sink.new) self.now) }
        ensures counts { Counts result (L.failures sink.old) (L.failures sink.new) }
    {
        send(sink, self)
    }

    /// Appends the bytes from an offset on to others, at most so many.
    ///
    /// # Errors
    ///
    /// `NoMemory` if memory runs out; some of the bytes may be appended.
    pub(crate) fn append_to(
        &self,
        offset: u64,
        most: u64,
        into: &mut Vec<u8>,
    ) -> Result<(), NoMemory>
        ensures { OnOk result (into.new.items ≡ into.old.items ++ take most (drop offset self.now)) }
    {
        append_to(&self.kept, offset, most, into)
    }

    /// Whether these are the bytes from an offset on, at most so many.
    pub(crate) fn is_at(&self, offset: u64, most: u64, given: &[u8]) -> bool
        ensures same { IsTrue result → take most (drop offset self.now) ≡ given.now }
        ensures apart { take most (drop offset self.now) ≡ given.now → IsTrue result }
    {
        is_at(&self.kept, offset, most, given)
    }
}
