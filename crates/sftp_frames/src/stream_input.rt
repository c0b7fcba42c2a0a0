//! The bytes of one client's stream that a server has read and not taken yet.
ghost use Rattle.std.specs.Prelude.{◌≡◌, ◌-◌, ◌≤◌, ◌++◌, [], length, drop, OnOk, OnErr};
ghost use Rattle.std.specs.Vec.{vec_len};
ghost use Rattle.sftp_frames.specs.Fronts.{held_without};

use std::alloc::{AllocError, Global};
use std::marker::Model;

/// What was read of a client's stream and not taken, and the place in the stream of the first of these bytes, capped at
/// 2^64 - 1. It takes memory as bytes come: as much as the most bytes that were held at once.
#[derive(Drop)]
pub struct StreamInput {
    bytes: Vec<u8>,
    start: usize,
    place: u64,
}

impl Model for StreamInput {
    ghost use Rattle.std.specs.Prelude.{◌≤◌, drop};
    ghost use Rattle.std.specs.Vec.{vec_len};
    ghost use Rattle.sftp_frames.specs.Fronts.{Held};

    ghost Value = { Held };

    ghost view = { λ i. record { bytes = drop i.start i.bytes.items; place = i.place } };

    ghost invariant = { λ i. i.start ≤ vec_len i.bytes };
}

/// Removes the first `count` bytes, and moves the others to the front.
fn remove_front(bytes: &mut Vec<u8>, count: usize)
    requires { count ≤ vec_len bytes.old }
    ensures items { bytes.new.items ≡ drop count bytes.old.items }
    ensures len { vec_len bytes.new ≡ vec_len bytes.old - count }
{
    let len = bytes.len();
    bytes.as_mut_slice().copy_within(count..len, 0);
    bytes.truncate(len - count);
}

impl StreamInput {
    /// Nothing was read yet. Does not allocate.
    pub fn new(alloc: Global) -> StreamInput
        ensures { result ≡ record { bytes = []; place = 0 } }
    {
        StreamInput {
            bytes: Vec::new(alloc),
            start: 0,
            place: 0,
        }
    }

    /// The bytes.
    pub fn held(&self) -> &[u8]
        ensures { result.now ≡ self.now.bytes }
    {
        &self.bytes[self.start..]
    }

    /// The place of the first byte.
    pub fn place(&self) -> u64
        ensures { result ≡ self.now.place }
    {
        self.place
    }

    /// Appends what was read. Bytes move to the front only if others were taken since the last call.
    ///
    /// # Errors
    ///
    /// `AllocError` if memory runs out; nothing changes.
    pub fn append(&mut self, more: &[u8]) -> Result<(), AllocError>
        ensures ok { OnOk result
            (self.new ≡ record { bytes = self.old.bytes ++ more.now; place = self.old.place }) }
        ensures err { OnErr result (self.new ≡ self.old) }
    {
        if self.start > 0 {
            remove_front(&mut self.bytes, self.start);
            self.start = 0;
        }
        self.bytes.extend_from_slice(more)
    }

    /// Takes bytes from the front.
    pub fn take(&mut self, count: usize)
        requires { count ≤ length self.old.bytes }
        ensures { self.new ≡ held_without count self.old }
    {
        self.start += count;
        self.place = self.place.saturating_add(count as u64);
    }
}
