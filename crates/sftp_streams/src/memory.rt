//! A stream of the bytes of a slice.
ghost use Rattle.std.specs.Prelude.{◌≡◌, Some, false, length};
ghost use Rattle.sftp_streams.specs.Streams.{bytes_of};

use crate::streams::{Failed, Source};

/// A stream of the bytes of a slice. It never fails.
#[derive(Debug, Drop)]
pub struct Memory<'a> {
    rest: &'a [u8],
}

impl<'a> Memory<'a> {
    /// A stream of these bytes.
    pub fn new(bytes: &'a [u8]) -> Memory<'a>
        ensures { bytes_of result ≡ bytes.now }
    {
        Memory { rest: bytes }
    }
}

impl Source for Memory<'_> {
    ghost left = { λ memory. Some (bytes_of memory) };

    ghost failures = { λ memory. 0 };

    ghost may_fail = { false };

    ghost reads_left = { λ memory. length (bytes_of memory) };

    fn read(&mut self, buffer: &mut [u8]) -> Result<usize, Failed> {
        let count = self.rest.len().min(buffer.len());
        buffer[..count].copy_from_slice(&self.rest[..count]);
        self.rest = &self.rest[count..];
        Ok(count)
    }

    fn failures(&self) -> u64 {
        0
    }
}
