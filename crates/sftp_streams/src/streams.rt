//! Streams of bytes that may fail: where a session's packets come from and go to, and where a transcript is written.
ghost use Rattle.std.specs.Prelude.{◌≡◌, ℕ, List, Option, Bool, ◌<◌, ◌≤◌, length, IfOk, OnErr, IsTrue};
ghost use Rattle.std.specs.Io.KnownBytes.{ReadConsumes, WriteAppends, Keeps};
ghost use Rattle.sftp_streams.specs.Streams.{Counts};

use thiserror::Error;

/// A read, a write or a flush failed.
#[derive(Clone, Copy, Debug, PartialEq, Eq, Error)]
#[error("the stream failed")]
pub struct Failed;

/// A stream of finitely many bytes, and then its end or a failure.
pub trait Source {
    /// The bytes left, where they are known.
    ghost left: { Self → Option (List ℕ) };

    /// How many calls failed.
    ghost failures: { Self → ℕ };

    /// Whether a read may fail.
    ghost may_fail: { Bool };

    /// A measure that each read of one byte or more decreases, so that a loop over the stream ends.
    ghost reads_left: { Self → ℕ };

    /// Reads once, to the front of the buffer, and returns how many bytes it read. It reads 0 bytes into a buffer that
    /// is not empty only at the end, where the bytes left are known.
    ///
    /// # Errors
    ///
    /// `Failed` if nothing could be read. The stream has the same bytes left.
    fn read(&mut self, buffer: &mut [u8]) -> Result<usize, Failed>
        ensures within { IfOk result (λ count. count ≤ length buffer.new) }
        // What it reads is the front of what is left, and the rest is left then.
        ensures bytes { ReadConsumes (left self.old) (left self.new) result buffer.new }
        ensures counts { Counts result (failures self.old) (failures self.new) }
        ensures can_fail { OnErr result (IsTrue may_fail) }
        ensures never_rises { reads_left self.new ≤ reads_left self.old }
        ensures falls { IfOk result (λ count. 0 < count → reads_left self.new < reads_left self.old) };

    /// How many calls failed, at most 2^64 - 1.
    fn failures(&self) -> u64
        ensures { result ≡ failures self.now };
}

/// A stream that bytes are written to.
pub trait Sink {
    /// The bytes written, where they are known.
    ghost written: { Self → Option (List ℕ) };

    /// How many calls failed.
    ghost failures: { Self → ℕ };

    /// Writes once, bytes from the front, and returns how many it wrote: 0 only if there are none.
    ///
    /// # Errors
    ///
    /// `Failed` if nothing could be written. Nothing is written then.
    fn write(&mut self, bytes: &[u8]) -> Result<usize, Failed>
        ensures within { IfOk result (λ count. count ≤ length bytes.now) }
        ensures some { IfOk result (λ count. 0 < length bytes.now → 0 < count) }
        // The bytes that it writes are appended.
        ensures bytes { WriteAppends (written self.old) (written self.new) result bytes.now }
        ensures counts { Counts result (failures self.old) (failures self.new) };

    /// Passes on what is buffered.
    ///
    /// # Errors
    ///
    /// `Failed` if that could not be done.
    fn flush(&mut self) -> Result<(), Failed>
        ensures bytes { Keeps (written self.old) (written self.new) }
        ensures counts { Counts result (failures self.old) (failures self.new) };

    /// How many calls failed, at most 2^64 - 1.
    fn failures(&self) -> u64
        ensures { result ≡ failures self.now };
}
