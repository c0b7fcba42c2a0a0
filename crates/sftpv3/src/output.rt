//! Standard output behind a buffer.
use std::alloc::Global;
use std::io::{self, BufWriter, IsTerminal, Stdout, Write};

/// The size of the buffer in bytes. It holds the replies to some 20 READDIRs; a DATA of 32 KiB is written without a
/// further copy.
const CAPACITY: usize = 32 * 1024;

/// Standard output behind a buffer, which still tells whether it is a terminal.
#[derive(Drop)]
pub(crate) struct Output {
    buffer: BufWriter<Stdout>,
}

impl Output {
    /// Nothing is in the buffer yet.
    ///
    /// # Errors
    ///
    /// `OutOfMemory` if there is no memory for the buffer.
    pub(crate) fn new(alloc: Global, stream: Stdout) -> io::Result<Output> {
        Ok(Output {
            buffer: BufWriter::with_capacity(alloc, CAPACITY, stream)?,
        })
    }
}

impl Write for Output {
    fn write(&mut self, bytes: &[u8]) -> io::Result<usize> {
        self.buffer.write(bytes)
    }

    fn write_all(&mut self, bytes: &[u8]) -> io::Result<()> {
        self.buffer.write_all(bytes)
    }

    fn flush(&mut self) -> io::Result<()> {
        self.buffer.flush()
    }
}

impl IsTerminal for Output {
    fn is_terminal(&self) -> bool {
        self.buffer.get_ref().is_terminal()
    }
}
