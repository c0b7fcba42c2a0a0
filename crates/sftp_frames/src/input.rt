//! The bytes of frames that a server has read and not taken yet.
ghost use Rattle.std.specs.Prelude.{◌≡◌, ◌↔◌, ◌<◌, ◌≤◌, ℕ, List, [], ◌++◌, length, IfOk, OnErr, IsTrue};
ghost use Rattle.std.specs.Io.KnownBytes.{Consumes, IsAtEnd, Keeps};
ghost use Rattle.sftp_streams.specs.Streams.{Counts};
ghost use Rattle.sftp_frames.specs.declared.fronts.Front.TheVariants as fronts;
ghost use Rattle.sftp_frames.specs.Fronts.{IsFront, held_limit, held_without};

use crate::fronts::{FRAME_LIMIT, Front, front_frame};
use sftp_streams::{Buffer, Failed, Source};
use std::alloc::{AllocError, Global};
use std::marker::Model;

/// How many bytes are held at most: as many as the longest frame has.
const HELD_LIMIT: usize = FRAME_LIMIT + 8;

/// What was read of frames and not taken: at most as many bytes as the longest frame has; and the place in the input of
/// the first of them, capped at 2^64 - 1.
#[derive(Drop)]
pub struct FrameInput {
    buffer: Buffer<HELD_LIMIT>,
    place: u64,
}

impl Model for FrameInput {
    ghost use Rattle.std.specs.Prelude.{◌≤◌, length};
    ghost use Rattle.sftp_frames.specs.Fronts.{Held, held_limit};

    ghost Value = { Held };

    ghost view = { λ i. record { bytes = i.buffer; place = i.place } };

    ghost invariant = { λ i. length i.buffer ≤ held_limit };
}

impl FrameInput {
    /// Nothing was read yet. It takes all the memory that it will ever use.
    ///
    /// # Errors
    ///
    /// `AllocError` if memory runs out.
    pub fn new(alloc: Global) -> Result<FrameInput, AllocError>
        ensures empty { IfOk result (λ input. input ≡ record { bytes = []; place = 0 }) }
    {
        Ok(FrameInput {
            buffer: Buffer::new(alloc)?,
            place: 0,
        })
    }

    /// What is in front of the bytes.
    pub fn front(&self) -> Front<'_>
        ensures front { IsFront self.now.bytes result }
        ensures room { result ≡ fronts.Part → length self.now.bytes < held_limit }
    {
        front_frame(self.buffer.held())
    }

    /// The place of the first byte.
    pub fn place(&self) -> u64
        ensures { result ≡ self.now.place }
    {
        self.place
    }

    /// Whether no bytes are held.
    pub fn is_empty(&self) -> bool
        ensures { IsTrue result ↔ (self.now.bytes ≡ []) }
    {
        self.buffer.held().is_empty()
    }

    /// Takes bytes from the front.
    pub fn take(&mut self, count: usize)
        requires { count ≤ length self.old.bytes }
        ensures { self.new ≡ held_without count self.old }
    {
        self.buffer.take(count);
        self.place = self.place.saturating_add(count as u64);
    }

    /// Reads once, appends what it read, at most as many bytes as there is room for, and returns how many these are: 0
    /// only at the end, where the bytes left are known.
    ///
    /// # Errors
    ///
    /// `Failed` if the reader fails. Nothing changes then, and the reader has the same bytes left.
    pub fn read<R: Source>(&mut self, reader: &mut R) -> Result<usize, Failed>
        requires { length self.old.bytes < held_limit }
        ensures ok { IfOk result (λ count. (more : List ℕ) × (length more ≡ count)
            × (self.new ≡ record { bytes = self.old.bytes ++ more; place = self.old.place })
            × Consumes (R.left reader.old) (R.left reader.new) more) }
        ensures end { IfOk result (λ count. count ≡ 0 → IsAtEnd (R.left reader.new)) }
        ensures unchanged { OnErr result (self.new ≡ self.old) }
        ensures kept { OnErr result (Keeps (R.left reader.old) (R.left reader.new)) }
        ensures counts { Counts result (R.failures reader.old) (R.failures reader.new) }
        ensures never_rises { R.reads_left reader.new ≤ R.reads_left reader.old }
        ensures falls { IfOk result (λ count. 0 < count → R.reads_left reader.new < R.reads_left reader.old) }
    {
        self.buffer.refill(reader)
    }
}
