//! Streams that count the bytes that go through them, and keep the system's number for their last error.
use crate::messages::write_flushed;
use std::io;
use std::io::{Read, Write};

/// A reader or a writer, how many bytes it read or wrote, capped at 2^64 - 1, and the system's number for the last
/// error if it gave one.
#[derive(Drop)]
pub struct Watched<T> {
    inner: T,
    bytes: u64,
    code: Option<i32>,
}

impl<T> Watched<T> {
    /// Nothing is read or written yet.
    pub fn new(inner: T) -> Watched<T> {
        Watched {
            inner,
            bytes: 0,
            code: None,
        }
    }

    /// What went through.
    pub fn flow(&self) -> Flow {
        Flow {
            bytes: self.bytes,
            code: self.code,
        }
    }

    /// Keeps how a call that reads or writes bytes ended.
    fn keep(&mut self, done: &io::Result<usize>) {
        match done {
            Ok(count) => self.bytes = self.bytes.saturating_add(*count as u64),
            Err(error) => self.code = error.raw_os_error(),
        }
    }
}

impl<R: Read> Read for Watched<R> {
    fn read(&mut self, buffer: &mut [u8]) -> io::Result<usize> {
        let done = self.inner.read(buffer);
        self.keep(&done);
        done
    }
}

impl<W: Write> Write for Watched<W> {
    fn write(&mut self, bytes: &[u8]) -> io::Result<usize> {
        let done = self.inner.write(bytes);
        self.keep(&done);
        done
    }

    fn flush(&mut self) -> io::Result<()> {
        match self.inner.flush() {
            Ok(()) => Ok(()),
            Err(error) => {
                self.code = error.raw_os_error();
                Err(error)
            }
        }
    }
}

/// What went through a stream: how many bytes, and the system's number for the last error if it gave one.
#[derive(Clone, Copy)]
pub struct Flow {
    pub bytes: u64,
    pub code: Option<i32>,
}

/// A writer that reports to another one that the session opens, if asked to. The first bytes that a session writes are
/// its VERSION.
#[derive(Drop)]
pub struct Announcing<'a, W, E> {
    output: &'a mut W,
    errors: &'a mut E,
    is_due: bool,
}

impl<'a, W, E> Announcing<'a, W, E> {
    pub fn new(output: &'a mut W, errors: &'a mut E, is_due: bool) -> Announcing<'a, W, E> {
        Announcing {
            output,
            errors,
            is_due,
        }
    }
}

impl<W: Write, E: Write> Write for Announcing<'_, W, E> {
    fn write(&mut self, bytes: &[u8]) -> io::Result<usize> {
        let done = self.output.write(bytes);
        if self.is_due && done.is_ok() {
            self.is_due = false;
            let _ = write_flushed(self.errors, "sftpv3: session opened\n");
        }
        done
    }

    fn flush(&mut self) -> io::Result<()> {
        self.output.flush()
    }
}
