//! What a file is given whole, and the sink through which a tree file goes to it.
ghost use Rattle.std.specs.Prelude.{◌≡◌, None};
ghost use Rattle.sftp_streams.specs.Streams.{one_more};

use sftp_streams::{Failed, Sink};
use sftp_treefile::WriteError;
use std::alloc::Global;
use std::fs::File;
use std::io;
use std::io::{ErrorKind, Write};

/// What a file can be given whole.
pub trait Content {
    /// Writes all of it to a file.
    ///
    /// # Errors
    ///
    /// That of the first write that failed, after which nothing more is written; `OutOfMemory` if memory runs out.
    fn put(&self, alloc: Global, file: &mut File) -> io::Result<()>;
}

impl Content for &[u8] {
    fn put(&self, _alloc: Global, file: &mut File) -> io::Result<()> {
        file.write_all(self)
    }
}

/// How many bytes a sink holds at most before it writes them to its file.
const HELD: usize = 65_536;

/// A file as a sink, through a buffer. It keeps the error of the last write that failed. What it holds is written by
/// `finish` alone.
#[derive(Drop)]
pub struct FileSink<'f> {
    file: &'f mut File,
    held: Vec<u8>,
    failures: u64,
    error: Option<io::Error>,
}

impl<'f> FileSink<'f> {
    /// Nothing is written yet. It takes all the memory that it will ever use.
    ///
    /// # Errors
    ///
    /// `OutOfMemory` if memory runs out.
    pub fn new(alloc: Global, file: &'f mut File) -> io::Result<FileSink<'f>> {
        let held = Vec::with_capacity(alloc, HELD)?;
        Ok(FileSink {
            file,
            held,
            failures: 0,
            error: None,
        })
    }

    /// Writes what is held, if all was sent.
    ///
    /// # Errors
    ///
    /// That of the write that failed, or `OutOfMemory` if memory ran out.
    pub fn finish(mut self, sent: Result<(), WriteError>) -> io::Result<()> {
        match sent {
            Ok(()) => self.write_held(),
            Err(WriteError::NoMemory) => Err(io::Error::from(ErrorKind::OutOfMemory)),
            Err(WriteError::Failed) => Err(self.take_error()),
        }
    }

    /// The error of the last write that failed.
    fn take_error(&mut self) -> io::Error {
        match self.error.take() {
            Some(error) => error,
            None => io::Error::from(ErrorKind::Other),
        }
    }

    /// Writes what is held.
    fn write_held(&mut self) -> io::Result<()>
        ensures { self.new.failures ≡ self.old.failures }
    {
        self.file.write_all(self.held.as_slice())?;
        self.held.clear();
        Ok(())
    }

    /// Holds bytes, after it has written those for which there is no room.
    fn take(&mut self, bytes: &[u8]) -> io::Result<()>
        ensures { self.new.failures ≡ self.old.failures }
    {
        if self.held.len().saturating_add(bytes.len()) > HELD {
            self.write_held()?;
        }
        if bytes.len() > HELD {
            return self.file.write_all(bytes);
        }
        self.held.extend_from_slice(bytes)?;
        Ok(())
    }

    /// Counts a failure, and keeps its error.
    fn fail(&mut self, error: io::Error) -> Failed
        ensures { self.new.failures ≡ one_more self.old.failures }
    {
        self.failures = self.failures.saturating_add(1);
        self.error = Some(error);
        Failed
    }
}

// What it writes is a file's, of which nothing is known.
impl Sink for FileSink<'_> {
    ghost written = { λ sink. None };

    ghost failures = { λ sink. sink.failures };

    fn write(&mut self, bytes: &[u8]) -> Result<usize, Failed> {
        match self.take(bytes) {
            Ok(()) => Ok(bytes.len()),
            Err(error) => Err(self.fail(error)),
        }
    }

    fn flush(&mut self) -> Result<(), Failed> {
        match self.write_held() {
            Ok(()) => Ok(()),
            Err(error) => Err(self.fail(error)),
        }
    }

    fn failures(&self) -> u64 {
        self.failures
    }
}
