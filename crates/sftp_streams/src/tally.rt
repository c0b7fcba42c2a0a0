//! The readers and writers of the standard library as streams whose failures are counted.
ghost use Rattle.std.specs.Prelude.{◌≡◌, ◌-◌, ◌^◌, true};
ghost use Rattle.sftp_streams.specs.Streams.{inner_of, failures_of, reads_left_of};
ghost use Rattle.sftp_streams.specs.Streams.{one_more};

use crate::streams::{Failed, Sink, Source};
use std::io::{Read, Write};

/// A reader or a writer of the standard library, and how many of its calls failed. Any error is a failure, also
/// `Interrupted`, and so is a write that takes none of the bytes given.
///
/// It reads at most 2^64 - 1 times, and each later read fails.
#[derive(Debug, Drop)]
pub struct Tally<T> {
    inner: T,
    failures: u64,
    reads_left: u64,
}

impl<T> Tally<T> {
    /// No call failed yet.
    pub fn new(inner: T) -> Tally<T>
        ensures inner { inner_of result ≡ inner }
        ensures failures { failures_of result ≡ 0 }
        ensures reads { reads_left_of result ≡ 2 ^ 64 - 1 }
    {
        Tally {
            inner,
            failures: 0,
            reads_left: u64::MAX,
        }
    }

    /// The reader or writer.
    pub fn into_inner(self) -> T
        ensures { result ≡ inner_of self }
    {
        let Tally {
            inner,
            failures: _,
            reads_left: _,
        } = self;
        inner
    }

    /// Counts a failure.
    fn fail(&mut self) -> Failed
        ensures kept { (inner_of self.new ≡ inner_of self.old) × (reads_left_of self.new ≡ reads_left_of self.old) }
        ensures counted { failures_of self.new ≡ one_more (failures_of self.old) }
    {
        self.failures = self.failures.saturating_add(1);
        Failed
    }
}

impl<R: Read> Source for Tally<R> {
    ghost left = { λ tally. R.remaining (inner_of tally) };

    ghost failures = { failures_of };

    ghost may_fail = { true };

    ghost reads_left = { reads_left_of };

    fn read(&mut self, buffer: &mut [u8]) -> Result<usize, Failed> {
        if self.reads_left == 0 {
            return Err(self.fail());
        }
        self.reads_left -= 1;
        match self.inner.read(buffer) {
            Ok(count) => Ok(count),
            Err(_error) => Err(self.fail()),
        }
    }

    fn failures(&self) -> u64 {
        self.failures
    }
}

impl<W: Write> Sink for Tally<W> {
    ghost written = { λ tally. W.contents (inner_of tally) };

    ghost failures = { failures_of };

    fn write(&mut self, bytes: &[u8]) -> Result<usize, Failed> {
        match self.inner.write(bytes) {
            Ok(count) if count == 0 && !bytes.is_empty() => Err(self.fail()),
            Ok(count) => Ok(count),
            Err(_error) => Err(self.fail()),
        }
    }

    fn flush(&mut self) -> Result<(), Failed> {
        match self.inner.flush() {
            Ok(()) => Ok(()),
            Err(_error) => Err(self.fail()),
        }
    }

    fn failures(&self) -> u64 {
        self.failures
    }
}
