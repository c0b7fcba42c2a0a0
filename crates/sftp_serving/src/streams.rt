//! The streams of a session, each of which counts what goes through it.
ghost use Rattle.std.specs.Prelude.{◌≡◌, ◌≤◌, IfOk};
ghost use Rattle.std.specs.Io.KnownBytes.{Keeps};
ghost use Rattle.sftp_serving.specs.Streams.{inner_of, place_of};

use sftp_files::{Flow, Meter, write_flushed};
use sftp_vary::Cuts;
use std::io;
use std::io::{Read, Write};

/// What precedes a packet of the client in a transcript. The record of a session is written in pieces, and this is one
/// of them.
const CLIENT: &[u8] = b"C";

/// A reader or a writer, how many bytes it read or wrote, capped at 2^64 - 1, and the system's number for its last
/// error if it gave one.
#[derive(Drop)]
pub(crate) struct Counted<T> {
    inner: T,
    flow: Flow,
}

impl<T> Counted<T> {
    /// Nothing is read or written yet.
    pub(crate) fn new(inner: T) -> Counted<T>
        ensures { inner_of result ≡ inner }
    {
        let flow = Flow {
            bytes: 0,
            code: None,
        };
        Counted { inner, flow }
    }

    /// What went through.
    pub(crate) fn flow(&self) -> Flow {
        self.flow
    }

    /// The reader or writer, and what went through.
    pub(crate) fn into_parts(self) -> (T, Flow)
        ensures { result.0 ≡ inner_of self }
    {
        let Counted { inner, flow } = self;
        (inner, flow)
    }

    /// Keeps how a call that reads or writes bytes ended.
    fn keep(&mut self, done: &io::Result<usize>)
        ensures { inner_of self.new ≡ inner_of self.old }
    {
        match done {
            Ok(count) => self.flow.bytes = self.flow.bytes.saturating_add(*count as u64),
            Err(error) => self.flow.code = error.raw_os_error(),
        }
    }
}

impl<R: Read> Read for Counted<R> {
    ghost remaining = { λ counted. R.remaining (inner_of counted) };

    fn read(&mut self, buffer: &mut [u8]) -> io::Result<usize> {
        let done = self.inner.read(buffer);
        self.keep(&done);
        done
    }
}

impl<W: Write> Write for Counted<W> {
    ghost contents = { λ counted. W.contents (inner_of counted) };

    fn write(&mut self, bytes: &[u8]) -> io::Result<usize> {
        let done = self.inner.write(bytes);
        self.keep(&done);
        done
    }

    fn flush(&mut self) -> io::Result<()> {
        match self.inner.flush() {
            Ok(()) => Ok(()),
            Err(error) => {
                self.flow.code = error.raw_os_error();
                Err(error)
            }
        }
    }
}

/// The record of a session, and how many packets of the client are in it.
#[derive(Drop)]
pub(crate) struct Noted<W> {
    place: Counted<W>,
    sent: u64,
}

impl<W> Noted<W> {
    /// Nothing is recorded yet.
    pub(crate) fn new(place: W) -> Noted<W>
        ensures { place_of result ≡ place }
    {
        Noted {
            place: Counted::new(place),
            sent: 0,
        }
    }

    /// How many requests are recorded. The client's first packet is its INIT.
    pub(crate) fn request_count(&self) -> u64 {
        self.sent.saturating_sub(1)
    }

    /// Where the record went, and what was written.
    pub(crate) fn into_parts(self) -> (W, Flow)
        ensures { result.0 ≡ place_of self }
    {
        let Noted { place, sent: _ } = self;
        place.into_parts()
    }
}

impl<W: Write> Write for Noted<W> {
    ghost contents = { λ noted. W.contents (place_of noted) };

    fn write(&mut self, bytes: &[u8]) -> io::Result<usize> {
        if bytes == CLIENT {
            self.sent = self.sent.saturating_add(1);
        }
        self.place.write(bytes)
    }

    fn flush(&mut self) -> io::Result<()> {
        self.place.flush()
    }
}

/// Standard output as a session writes to it. A write fails once the process has more memory than it may. If the output
/// is cut, each piece is passed on before the next one: so where a reader does not read more than one at a time,
/// packets end within what it reads. If that is asked for, standard error says that the session opens: the first bytes
/// that a session writes are its VERSION.
#[derive(Drop)]
pub(crate) struct Output<'s, O, E> {
    pub(crate) output: &'s mut O,
    pub(crate) errors: &'s mut E,
    pub(crate) meter: &'s mut Meter,
    /// Where to cut; `None` if nothing is cut.
    pub(crate) cuts: Option<Cuts>,
    /// Whether standard error is still to say that the session opens.
    pub(crate) is_due: bool,
}

impl<O: Write, E: Write> Output<'_, O, E> {
    /// How many of so many bytes go into the next piece. The pieces before it are passed on.
    fn next_length(&mut self, count: usize) -> io::Result<usize>
        ensures within { IfOk result (λ most. most ≤ count) }
        ensures kept { Keeps (O.contents self.old.output.now) (O.contents self.new.output.now) }
    {
        match &mut self.cuts {
            Some(cuts) => {
                let most = cuts.next_length(count);
                self.output.flush()?;
                Ok(most)
            }
            None => Ok(count),
        }
    }

    /// Says that the session opens, if that is still to be said.
    fn announce(&mut self)
        ensures { self.new.output.now ≡ self.old.output.now }
    {
        if self.is_due {
            self.is_due = false;
            let _ = write_flushed(self.errors, "sftpv3: session opened\n");
        }
    }
}

impl<O: Write, E: Write> Write for Output<'_, O, E> {
    ghost contents = { λ output. O.contents output.output.now };

    fn write(&mut self, bytes: &[u8]) -> io::Result<usize> {
        self.meter.room()?;
        let most = self.next_length(bytes.len())?;
        let count = self.output.write(&bytes[..most])?;
        self.announce();
        Ok(count)
    }

    fn flush(&mut self) -> io::Result<()> {
        self.output.flush()
    }
}
