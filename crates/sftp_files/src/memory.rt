//! A limit on the memory of the process, and streams that end with it.
ghost use Rattle.std.specs.Prelude.{◌≡◌, ◌≤◌, IfOk, IfErr};
ghost use Rattle.std.specs.Io.{ReadsAtMost};
ghost use Rattle.std.specs.Io.Buffered.{reader_remaining};
ghost use Rattle.std.specs.Io.KnownBytes.{ReadConsumes};
ghost use Rattle.sftp_files.specs.Failures.{IsUnread};

use crate::System;
use crate::growth::Growth;
use crate::messages::Failure;
use sftp_tar::Gauge;
use std::alloc::{AllocError, Global};
use std::fs::File;
use std::io::{BufRead, BufReader, ErrorKind, Read, Seek, SeekFrom, Write};
use std::{fs, io, str};

/// Where Linux has the sizes of the process, in pages.
const SIZES: &str = "/proc/self/statm";

/// Which of these numbers is the size of what the process has for its own data.
const DATA: usize = 5;

/// The bytes of a page on this machine.
const PAGE: u64 = 4096;

/// How many bytes of a transcript are looked at together, and how many of a packet go by at once at least.
const TOGETHER: usize = 4_096;

/// A limit on the memory of the process, if there is one.
#[derive(Drop)]
pub struct Meter {
    sizes: Option<File>,
    limit: u64,
    is_over: bool,
}

impl Meter {
    /// With this limit in bytes, or none.
    pub fn new<'a, R: System>(rt: &R, limit: Option<u64>) -> Result<Meter, Failure<'a>>
        ensures { IfErr result IsUnread }
    {
        match limit {
            Some(limit) => match fs::open(rt, SIZES) {
                Ok(sizes) => Ok(Meter {
                    sizes: Some(sizes),
                    limit,
                    is_over: false,
                }),
                Err(error) => Err(Failure::reading(SIZES, &error)),
            },
            None => Ok(Meter {
                sizes: None,
                limit: u64::MAX,
                is_over: false,
            }),
        }
    }

    /// Whether the process has had more memory than the limit.
    pub fn is_over(&self) -> bool {
        self.is_over
    }

    /// How many bytes more the process may have. It is an error if it has too many already, or if that is not known.
    pub fn room(&mut self) -> io::Result<u64> {
        match &mut self.sizes {
            None => Ok(u64::MAX),
            Some(sizes) => {
                let room = data_bytes(sizes).and_then(|bytes| self.limit.checked_sub(bytes));
                self.is_over = room.is_none();
                match room {
                    Some(room) => Ok(room),
                    None => Err(io::Error::from(ErrorKind::OutOfMemory)),
                }
            }
        }
    }
}

impl Gauge for Meter {
    fn is_full(&mut self) -> bool {
        self.room().is_err()
    }
}

/// How many bytes of data the process has, by the file that Linux makes of its sizes.
fn data_bytes(sizes: &mut File) -> Option<u64> {
    let mut line = [0; 128];
    sizes.seek(SeekFrom::Start(0)).ok()?;
    let count = sizes.read(&mut line).ok()?;
    let text = str::from_utf8(line.get(..count)?).ok()?;
    let pages: u64 = text.split(' ').nth(DATA)?.parse().ok()?;
    Some(pages.saturating_mul(PAGE))
}

/// The records of a transcript, which fail to be read once the process has more memory than it may. The memory is
/// looked at each time that those since then may have taken the room that there was; the last one of them may take
/// more.
#[derive(Drop)]
pub struct BoundedRecords<'m, R> {
    inner: BufReader<R>,
    meter: &'m mut Meter,
    growth: Growth,
}

impl<'m, R: Read + Drop> BoundedRecords<'m, R> {
    /// Nothing is read yet.
    ///
    /// # Errors
    ///
    /// `AllocError` if memory runs out.
    pub fn new(
        alloc: Global,
        inner: R,
        meter: &'m mut Meter,
    ) -> Result<BoundedRecords<'m, R>, AllocError>
        ensures { IfOk result (λ records. reader_remaining R.remaining records.inner ≡ R.remaining inner) }
    {
        match BufReader::with_capacity(alloc, TOGETHER, inner) {
            Ok(inner) => Ok(BoundedRecords {
                inner,
                meter,
                growth: Growth::none(),
            }),
            Err(_no_memory) => Err(AllocError),
        }
    }
}

impl<R: Read> BoundedRecords<'_, R> {
    /// Looks at the memory if that is due.
    fn look(&mut self) -> io::Result<()>
        ensures { self.new.inner ≡ self.old.inner }
    {
        if self.growth.is_due() {
            let room = self.meter.room()?;
            self.growth
                .allow(self.meter.limit.saturating_sub(room), room);
        }
        Ok(())
    }

    /// Reads bytes of the packet that goes by, or what comes if nothing is held.
    fn read_on(&mut self, buffer: &mut [u8]) -> io::Result<usize>
        ensures bound { ReadsAtMost result buffer.new }
        ensures bytes { ReadConsumes (reader_remaining R.remaining self.old.inner)
            (reader_remaining R.remaining self.new.inner) result buffer.new }
    {
        let ahead = (self.growth.ahead() as usize).max(1);
        let most = buffer.len().min(ahead);
        let count = self.inner.read(&mut buffer[..most])?;
        self.growth.pass(&buffer[..count]);
        Ok(count)
    }

    /// Reads the records that are held and for which there is room.
    fn read_held(&mut self, buffer: &mut [u8]) -> io::Result<usize>
        ensures bound { ReadsAtMost result buffer.new }
        ensures bytes { ReadConsumes (reader_remaining R.remaining self.old.inner)
            (reader_remaining R.remaining self.new.inner) result buffer.new }
    {
        let held = self.inner.buffer();
        let most = self.growth.pass(&held[..held.len().min(buffer.len())]);
        let count = most.max(1).min(buffer.len());
        self.inner.read(&mut buffer[..count])
    }
}

impl<R: Read> Read for BoundedRecords<'_, R> {
    ghost remaining = { λ records. reader_remaining R.remaining records.inner };

    fn read(&mut self, buffer: &mut [u8]) -> io::Result<usize> {
        self.look()?;
        if self.growth.ahead() < TOGETHER as u64 && !self.inner.fill_buf()?.is_empty() {
            return self.read_held(buffer);
        }
        self.read_on(buffer)
    }
}

/// A stream that fails to be written once the process has more memory than it may.
#[derive(Drop)]
pub struct Bounded<'m, W> {
    inner: W,
    meter: &'m mut Meter,
}

impl<'m, W> Bounded<'m, W> {
    pub fn new(inner: W, meter: &'m mut Meter) -> Bounded<'m, W> {
        Bounded { inner, meter }
    }
}

impl<W: Write> Write for Bounded<'_, W> {
    fn write(&mut self, bytes: &[u8]) -> io::Result<usize> {
        self.meter.room()?;
        self.inner.write(bytes)
    }

    fn flush(&mut self) -> io::Result<()> {
        self.inner.flush()
    }
}
