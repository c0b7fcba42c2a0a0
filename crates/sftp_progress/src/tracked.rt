//! Readers and writers of which it is said how far they are.
ghost use Rattle.std.specs.Prelude.{◌≡◌};

use crate::progress::Progress;
use std::fs::Files;
use std::io;
use std::io::{Read, Write};
use std::time::Clock;

/// A reader or a writer, with what is said of how far it is.
#[derive(Drop)]
pub struct Tracked<'t, 'p, T, R, E> {
    inner: T,
    progress: &'t mut Progress<'p, R, E>,
}

impl<'t, 'p, T, R, E> Tracked<'t, 'p, T, R, E> {
    pub fn new(inner: T, progress: &'t mut Progress<'p, R, E>) -> Tracked<'t, 'p, T, R, E>
        ensures { result.inner ≡ inner }
    {
        Tracked { inner, progress }
    }
}

impl<T: Read, R: Files + AllocGlobal + Clock, E: Write> Read for Tracked<'_, '_, T, R, E> {
    ghost remaining = { λ tracked. T.remaining tracked.inner };

    fn read(&mut self, buffer: &mut [u8]) -> io::Result<usize> {
        let count = self.inner.read(buffer)?;
        self.progress.pass(&buffer[..count]);
        Ok(count)
    }
}

impl<T: Write, R: Files + AllocGlobal + Clock, E: Write> Write for Tracked<'_, '_, T, R, E> {
    fn write(&mut self, bytes: &[u8]) -> io::Result<usize> {
        let count = self.inner.write(bytes)?;
        self.progress.pass(bytes.get(..count).unwrap_or(bytes));
        Ok(count)
    }

    fn flush(&mut self) -> io::Result<()> {
        self.inner.flush()
    }
}
