//! Streams that fail.
use std::alloc::Global;
use std::io;
use std::io::{ErrorKind, Read, Write};

/// A reader that gives at most so many bytes a call. At the end it fails, if it does.
#[derive(Drop)]
pub(crate) struct Input<'a> {
    rest: &'a [u8],
    size: usize,
    fails: bool,
}

impl<'a> Input<'a> {
    /// All bytes, as much as fits a call, and then the end, or a failure.
    pub(crate) fn whole(rest: &'a [u8], fails: bool) -> Input<'a> {
        let size = usize::MAX;
        Input { rest, size, fails }
    }

    /// One byte a call, and then a failure.
    pub(crate) fn torn(rest: &'a [u8]) -> Input<'a> {
        let size = 1;
        let fails = true;
        Input { rest, size, fails }
    }

    /// One byte a call, and then the end.
    pub(crate) fn bytes(rest: &'a [u8]) -> Input<'a> {
        let size = 1;
        let fails = false;
        Input { rest, size, fails }
    }
}

impl Read for Input<'_> {
    fn read(&mut self, buffer: &mut [u8]) -> io::Result<usize> {
        if self.rest.is_empty() && self.fails {
            return Err(io::Error::from(ErrorKind::BrokenPipe));
        }
        let count = self.size.min(self.rest.len()).min(buffer.len());
        buffer[..count].copy_from_slice(&self.rest[..count]);
        self.rest = &self.rest[count..];
        Ok(count)
    }
}

/// A writer that takes at most so many bytes a call and has room for so many. Then it fails, or takes no more. It can
/// be flushed, or cannot.
#[derive(Drop)]
pub(crate) struct Room {
    pub(crate) bytes: Vec<u8>,
    size: usize,
    room: usize,
    fails: bool,
    flushes: bool,
}

impl Room {
    /// Room enough.
    pub(crate) fn ample(alloc: Global) -> Room {
        Room::of(alloc, usize::MAX, usize::MAX, true)
    }

    /// Room for so many bytes, of which so many are taken a call. Then it fails, if it does.
    pub(crate) fn of(alloc: Global, room: usize, size: usize, fails: bool) -> Room {
        Room {
            bytes: Vec::new(alloc),
            size,
            room,
            fails,
            flushes: true,
        }
    }

    /// Room enough that cannot be flushed.
    pub(crate) fn stuck(alloc: Global) -> Room {
        let mut stuck = Room::ample(alloc);
        stuck.flushes = false;
        stuck
    }
}

impl Write for Room {
    fn write(&mut self, bytes: &[u8]) -> io::Result<usize> {
        let left = self.room.saturating_sub(self.bytes.len());
        let count = self.size.min(left).min(bytes.len());
        if count == 0 && self.fails && !bytes.is_empty() {
            return Err(io::Error::from(ErrorKind::BrokenPipe));
        }
        self.bytes.extend_from_slice(&bytes[..count])?;
        Ok(count)
    }

    fn flush(&mut self) -> io::Result<()> {
        if self.flushes {
            Ok(())
        } else {
            Err(io::Error::from(ErrorKind::BrokenPipe))
        }
    }
}
