//! The subcommands `import` and `export`: an archive as a tree file, and a tree file as an archive.
ghost use Rattle.std.specs.Prelude.{◌≡◌, IfOk, OnOk};
ghost use Rattle.std.specs.Io.KnownBytes.{Appends};
ghost use Rattle.sftp_treefile.specs.TreeFile.{IsTreeFile};
ghost use Rattle.sftp_tar.specs.Archive.{archive};
ghost use Rattle.sftp_files.specs.declared.messages.Ending.TheVariants as endings;

use crate::faulty::{Found, START};
use crate::terminals::refuse_terminal;
use crate::trees::rows_in_view;
use crate::twice::spare_input;
use sftp_files::{
    Content, Ending, Failure, FileSink, ImportOptions, Keeping, Meter, STANDARD_INPUT,
    STANDARD_OUTPUT, System, Watched, require_fit, write_content, write_flushed,
};
use sftp_progress::{Console, Progress, Task, Tracked};
use sftp_show::Quoted;
use sftp_streams::{Sink, Tally};
use sftp_tar::{
    ExportError, ImportError, Imported, Refusal, Special, SpecialChoice, Taking, export_to,
    import_from,
};
use sftp_treefile::{TreeFile, write_rows_to};
use std::alloc::{AllocError, Global};
use std::fs::File;
use std::io::{ErrorKind, IsTerminal, Read, Write};
use std::marker::Model;
use std::time::Clock;
use std::{fmt, io};

/// The message where no archive can come.
const NO_ARCHIVE: &str =
    "standard input is a terminal; give it an archive: tar -C FOLDER -c . | sftpv3 import TREE";

/// The message where nobody could read the archive.
const NO_READER: &str =
    "standard output is a terminal; give the archive to a file or a program: sftpv3 export FILE | tar -t";

/// Writes the tree file of the archive on standard input, which is read an entry at a time. Nothing is read if the file
/// cannot be written. The archive is judged before the file is written. Standard error names the devices and FIFOs that
/// are passed over, or in whose place are empty files.
pub fn import<'a, R: System + Clock, I: Read + IsTerminal, E: Write + IsTerminal>(
    rt: &R,
    options: &ImportOptions<'a>,
    input: &mut I,
    console: &mut Console<'_, E>,
) -> Result<Ending, Failure<'a>>
    ensures { IfOk result (λ ending. ending ≡ endings.Done) }
{
    spare_input(rt, options.file)?;
    refuse_terminal(rt, &*input, NO_ARCHIVE)?;
    require_fit(rt, options.file)?;
    let mut meter = Meter::new(rt, options.memory)?;
    let imported = taken_in_view(rt, options.taking, &mut meter, input, console);
    drop(meter);
    match imported {
        Ok(imported) => write_imported(rt, options, imported, console),
        Err(failure) => Err(failure),
    }
}

/// Writes the tree file that an archive gave. Standard error names what became of its devices and FIFOs.
fn write_imported<'a, R: System, E: Write + IsTerminal>(
    rt: &R,
    options: &ImportOptions<'a>,
    imported: Imported,
    console: &mut Console<'_, E>,
) -> Result<Ending, Failure<'a>>
    requires { IsTreeFile imported.file }
    ensures { IfOk result (λ ending. ending ≡ endings.Done) }
{
    let Imported { file, specials } = imported;
    name_specials(options.taking.special, specials.as_slice(), console.errors);
    drop(specials);
    write_rows_last(rt, options.file, options.keeping, Made::new(file))
}

/// A tree file that is to be written.
#[derive(Drop)]
pub(crate) struct Made {
    file: TreeFile,
}

impl Model for Made {
    ghost use Rattle.sftp_treefile.specs.declared.files.TreeFile.{TreeFile};
    ghost use Rattle.sftp_treefile.specs.TreeFile.{IsTreeFile};

    ghost Value = { TreeFile };

    ghost view = { λ made. made.file };

    ghost invariant = { λ made. IsTreeFile made.file };
}

impl Made {
    pub(crate) fn new(file: TreeFile) -> Made
        requires { IsTreeFile file }
        ensures { result ≡ file }
    {
        Made { file }
    }
}

impl Content for Made {
    fn put(&self, alloc: Global, file: &mut File) -> io::Result<()> {
        let mut sink = FileSink::new(alloc, file)?;
        let sent = write_rows_to(alloc, &self.file, &mut sink);
        sink.finish(sent)
    }
}

/// Writes a tree file to the file `name`, as the last step of a run.
pub(crate) fn write_rows_last<'a, R: System>(
    rt: &R,
    name: &'a str,
    keeping: Keeping,
    made: Made,
) -> Result<Ending, Failure<'a>>
    ensures { IfOk result (λ ending. ending ≡ endings.Done) }
{
    let written = write_content(rt, name, keeping, &made);
    drop(made);
    match written {
        Ok(()) => Ok(Ending::Done),
        Err(failure) => Err(failure),
    }
}

/// What the archive in a stream gives, while standard error says how much of it is read.
fn taken_in_view<'a, R: System + Clock, I: Read, E: Write + IsTerminal>(
    rt: &R,
    taking: Taking,
    meter: &mut Meter,
    input: &mut I,
    console: &mut Console<'_, E>,
) -> Result<Imported, Failure<'a>>
    ensures { IfOk result (λ imported. IsTreeFile imported.file) }
{
    let is_asked = console.says_progress;
    let mut progress = Progress::new(rt, console.errors, is_asked, Task::ReadArchive, None);
    let mut archive = Tracked::new(input, &mut progress);
    let imported = taken(rt.alloc(), taking, meter, &mut archive);
    drop(archive);
    progress.end();
    imported
}

/// What the archive in a stream gives.
fn taken<'a, I: Read>(
    alloc: Global,
    taking: Taking,
    meter: &mut Meter,
    input: &mut I,
) -> Result<Imported, Failure<'a>>
    ensures { IfOk result (λ imported. IsTreeFile imported.file) }
{
    let mut begun = Begun::new(alloc, input);
    let mut bytes = Watched::new(&mut begun);
    let imported = import_from(alloc, taking, meter, Tally::new(&mut bytes));
    let code = bytes.flow().code;
    drop(bytes);
    let taken = match imported {
        Ok(imported) => Ok(imported),
        Err(ImportError::Io) => Err(Failure::CannotRead(STANDARD_INPUT, code)),
        Err(error) => {
            let failure = unimported(alloc, meter, &error, begun.start.as_slice());
            drop(error);
            Err(failure)
        }
    };
    drop(begun);
    taken
}

/// A reader, and the first bytes that it read, as many as say what a file is.
#[derive(Drop)]
struct Begun<R> {
    inner: R,
    start: Vec<u8>,
}

impl<R> Begun<R> {
    fn new(alloc: Global, inner: R) -> Begun<R> {
        Begun {
            inner,
            start: Vec::new(alloc),
        }
    }

    /// Keeps what was read, as far as it belongs to the first bytes. Without memory for them nobody says what they are.
    fn keep(&mut self, bytes: &[u8]) {
        let room = (START as usize).saturating_sub(self.start.len());
        let kept = bytes.len().min(room);
        if let Some(first) = bytes.get(..kept) {
            let _ = self.start.extend_from_slice(first);
        }
    }
}

impl<R: Read> Read for Begun<R> {
    fn read(&mut self, buffer: &mut [u8]) -> io::Result<usize> {
        let done = self.inner.read(buffer);
        if let Ok(count) = &done {
            self.keep(buffer.get(..*count).unwrap_or(&[]));
        }
        done
    }
}

/// What is said of a device or a FIFO that is left out.
const LEFT_OUT: &str = "left out (--special file keeps its name)";

/// What is said of one that is a file in the tree.
const IN_ITS_PLACE: &str = "an empty file in its place (for audit --allow special)";

/// Names the devices and FIFOs of an archive, and what became of them. If the stream cannot be written, there is
/// nothing left to do.
fn name_specials<E: Write>(choice: SpecialChoice, specials: &[Special], errors: &mut E) {
    let became = match choice {
        // an archive with one is refused
        SpecialChoice::Refuse => return,
        SpecialChoice::Skip => LEFT_OUT,
        SpecialChoice::File => IN_ITS_PLACE,
    };
    for special in specials {
        let number = special.number;
        let path = Shown(special.path.as_slice());
        let refusal = Refusal::Device;
        let _ = write_flushed(
            errors,
            format_args!("sftpv3: archive: entry {number}, {path}: {refusal}: {became}\n"),
        );
    }
}

/// The failure of a run whose import ended in this error: the process had more memory than it may, or the error's own.
fn unimported<'a>(alloc: Global, meter: &Meter, error: &ImportError, start: &[u8]) -> Failure<'a> {
    if meter.is_over() {
        Failure::OverLimit(STANDARD_INPUT)
    } else {
        archive_failure(alloc, error, start)
    }
}

/// The failure of a run whose import ended in this error, behind these first bytes.
fn archive_failure<'a>(alloc: Global, error: &ImportError, start: &[u8]) -> Failure<'a> {
    match error {
        ImportError::NoMemory => Failure::OutOfMemory,
        ImportError::Io => Failure::CannotRead(STANDARD_INPUT, None),
        ImportError::Compressed(compression) => {
            Failure::of_text(format!(in alloc;
                "archive: compressed by {compression}: decompress it first"
            ))
        }
        ImportError::Refused {
            entry,
            path,
            refusal,
        } => {
            let found = found_instead(*entry, *refusal, start);
            Failure::of_text(refused(alloc, *entry, path.as_slice(), *refusal, found))
        }
    }
}

/// What the first bytes are beside a refusal, if the first entry has nothing that can be taken.
fn found_instead(entry: u32, refusal: Refusal, start: &[u8]) -> Found {
    if entry != 1 {
        return Found::Nothing;
    }
    match refusal {
        Refusal::Truncated | Refusal::Checksum | Refusal::Number => Found::of_start(start),
        // The checksum is right, so the bytes are a header of tar.
        Refusal::UnknownType => Found::of_header(start),
        _ => Found::Nothing,
    }
}

/// How many bytes of a path a message has at most.
const MOST_OF_PATH: usize = 1_000;

/// A path of an archive as a message has it: its first bytes in quotes, and how many more there are.
#[derive(Clone, Copy)]
struct Shown<'a>(&'a [u8]);

impl fmt::Display for Shown<'_> {
    fn fmt<W: fmt::Write>(&self, f: &mut fmt::Formatter<W>) -> fmt::Result {
        match self.0.split_at_checked(MOST_OF_PATH) {
            Some((start, rest)) if !rest.is_empty() => {
                let start = Quoted(start);
                let more = rest.len();
                write!(f, "{start} and {more} bytes more")
            }
            _ => {
                let whole = Quoted(self.0);
                write!(f, "{whole}")
            }
        }
    }
}

/// The message for an entry that is refused. An entry that cannot be read has no path.
fn refused(
    alloc: Global,
    entry: u32,
    path: &[u8],
    refusal: Refusal,
    found: Found,
) -> Result<String, AllocError> {
    if path.is_empty() {
        format!(in alloc; "archive: entry {entry}: {refusal}{found}")
    } else {
        let path = Shown(path);
        format!(in alloc; "archive: entry {entry}, {path}: {refusal}{found}")
    }
}

/// Writes the archive of the tree file `name` to standard output, a member at a time, unless that is a terminal. No
/// more of the file is held than the tree and a buffer. The file is judged before the archive is written.
pub fn export<'a, R: System + Clock, O: Write + IsTerminal, E: Write + IsTerminal>(
    rt: &R,
    name: &'a str,
    output: &mut O,
    console: &mut Console<'_, E>,
) -> Result<Ending, Failure<'a>>
    ensures { IfOk result (λ ending. ending ≡ endings.Done) }
{
    refuse_terminal(rt, &*output, NO_READER)?;
    match rows_in_view(rt, name, u64::MAX, Task::ReadTree, console)? {
        Ok(file) => {
            let written = write_archive(rt, &file, output, console);
            drop(file);
            written
        }
        Err(fault) => Err(Failure::from(fault)),
    }
}

/// Writes the archive of a tree file to standard output, while standard error says how much of it is written.
fn write_archive<'a, R: System + Clock, O: Write, E: Write + IsTerminal>(
    rt: &R,
    file: &TreeFile,
    output: &mut O,
    console: &mut Console<'_, E>,
) -> Result<Ending, Failure<'a>>
    requires { IsTreeFile file.now }
    ensures { IfOk result (λ ending. ending ≡ endings.Done) }
{
    let is_asked = console.says_progress;
    let mut progress = Progress::new(rt, console.errors, is_asked, Task::WriteArchive, None);
    let mut archive = Output::new(Tracked::new(output, &mut progress));
    let written = archived(rt.alloc(), file, &mut Tally::new(&mut archive));
    let ended = archive.ended(written);
    drop(archive);
    progress.end();
    ended
}

/// Standard output, and whether memory ran out when it last failed.
#[derive(Drop)]
struct Output<W> {
    inner: Watched<W>,
    lacks_memory: bool,
}

impl<W: Write> Output<W> {
    fn new(inner: W) -> Output<W> {
        Output {
            inner: Watched::new(inner),
            lacks_memory: false,
        }
    }

    /// The outcome of a run that wrote an archive to it.
    fn ended<'a>(&self, written: Result<(), ExportError>) -> Result<Ending, Failure<'a>>
        ensures { IfOk result (λ ending. ending ≡ endings.Done) }
    {
        match written {
            Ok(()) => Ok(Ending::Done),
            Err(ExportError::NoMemory) => Err(Failure::OutOfMemory),
            Err(ExportError::Failed) => Err(self.failure()),
        }
    }

    /// Why it could not be written. When memory runs out, the stream is not to blame.
    fn failure<'a>(&self) -> Failure<'a> {
        if self.lacks_memory {
            Failure::OutOfMemory
        } else {
            Failure::CannotWrite(STANDARD_OUTPUT, self.inner.flow().code)
        }
    }
}

/// Whether a call failed since memory ran out.
fn lacks_memory<T>(done: &io::Result<T>) -> bool {
    match done {
        Ok(_) => false,
        Err(error) => error.kind() == ErrorKind::OutOfMemory,
    }
}

impl<W: Write> Write for Output<W> {
    fn write(&mut self, bytes: &[u8]) -> io::Result<usize> {
        let done = self.inner.write(bytes);
        self.lacks_memory = lacks_memory(&done);
        done
    }

    fn flush(&mut self) -> io::Result<()> {
        let done = self.inner.flush();
        self.lacks_memory = lacks_memory(&done);
        done
    }
}

/// Writes the archive of a tree file to a sink, and flushes the sink.
fn archived<L: Sink>(alloc: Global, file: &TreeFile, sink: &mut L) -> Result<(), ExportError>
    requires { IsTreeFile file.now }
    ensures { OnOk result (Appends (L.written sink.old) (L.written sink.new) (archive file.now)) }
{
    export_to(alloc, file, sink)?;
    match sink.flush() {
        Ok(()) => Ok(()),
        Err(_failed) => Err(ExportError::Failed),
    }
}
