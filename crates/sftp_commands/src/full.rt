//! The subcommand `show --full`: a transcript or a tree file as text, a record or an entry at a time.
ghost use Rattle.std.specs.Prelude.{◌≡◌, IfOk};
ghost use Rattle.sftp_files.specs.declared.messages.Ending.TheVariants as endings;

use crate::cuts::{limit_of, print_lines};
use crate::showing::outcome;
use crate::trees::rows_of;
use bstr::ByteSlice;
use sftp_files::{Ending, Failure, Repeatable, ShowOptions, System, open_at};
use sftp_text::{ShowFault, put_entry, put_head, put_record, put_root};
use sftp_transcript::{OPENING, TranscriptError};
use sftp_treefile::{TreeError, TreeFile};
use sftp_wire::Side;
use std::alloc::{AllocError, Global};
use std::fs::Files;
use std::io::{Read, Write};

/// How many bytes are read and printed at once, unless a record or an entry has more.
const CHUNK: usize = 65_536;

/// How many times the bytes of a record or an entry the memory has at most that it and its text take.
const SHARE: u64 = 32;

/// How often the bytes in front are doubled at most, so that they are all that there can be.
const DOUBLINGS: usize = 64;

/// More parts than a file can have bytes.
const PARTS: u64 = u64::MAX;

/// How many bytes precede those of a record's packet: the side and the length.
const RECORD_FRONT: usize = 5;

/// Shows every field of a file, and as many bytes of each text as the options say. The first bytes say which kind of
/// file it is. Where a file is malformed, what precedes the fault is shown.
pub(crate) fn show_full<'a, R: System, O: Write>(
    rt: &R,
    options: &ShowOptions<'a>,
    output: &mut O,
) -> Result<Ending, Failure<'a>>
    ensures { IfOk result (λ ending. ending ≡ endings.Done) }
{
    let limit = limit_of(rt.alloc(), options.data)?;
    let most = match options.memory {
        Some(bytes) => Some(bytes / SHARE),
        None => None,
    };
    let mut lines = Lines {
        output,
        limit,
        text: Vec::new(rt.alloc()),
    };
    let shown = show_named(rt, options.file, most, &mut lines);
    let printed = lines.print();
    drop(lines);
    outcome(shown, printed)
}

/// Shows the file `name`, which is read again where it has a fault: so it is found which one it is.
fn show_named<'a, R: System, O: Write>(
    rt: &R,
    name: &'a str,
    most: Option<u64>,
    lines: &mut Lines<'_, O>,
) -> Result<(), Failure<'a>> {
    let file = Repeatable::of(rt, name, most)?;
    let shown = show_file(rt, name, file.path(), most, lines);
    drop(file);
    shown
}

/// Shows the file `name`, which is read at this path.
fn show_file<'a, R: Files + AllocGlobal, O: Write>(
    rt: &R,
    name: &'a str,
    path: &str,
    most: Option<u64>,
    lines: &mut Lines<'_, O>,
) -> Result<(), Failure<'a>> {
    match open_at(rt, path, name) {
        Ok(file) => match show_stream(rt.alloc(), name, file, most, lines) {
            Ok(()) => Ok(()),
            Err(Stop::Failed(failure)) => Err(failure),
            Err(Stop::Unfit) => Err(fault_in(rt, name, path)),
        },
        Err(failure) => Err(failure),
    }
}

/// Why a file is no tree file, as another look at it shows.
fn fault_in<'a, R: Files + AllocGlobal>(rt: &R, name: &'a str, path: &str) -> Failure<'a> {
    match open_at(rt, path, name) {
        Ok(file) => match rows_of(rt.alloc(), name, u64::MAX, file) {
            Ok(read) => fault_of(read),
            Err(failure) => failure,
        },
        Err(failure) => failure,
    }
}

/// Why a file is no tree file, whose form it does not have.
fn fault_of<'a>(read: Result<TreeFile, TreeError>) -> Failure<'a> {
    match read {
        Ok(file) => {
            drop(file);
            Failure::UnknownFile
        }
        Err(TreeError::Magic { .. }) => Failure::UnknownFile,
        Err(error) => Failure::from(error),
    }
}

/// Why a file is not shown to its end.
enum Stop<'a> {
    /// It does not have the form of a tree file.
    Unfit,
    /// Another failure.
    Failed(Failure<'a>),
}

impl From<AllocError> for Stop<'_> {
    fn from(error: AllocError) -> Self {
        Stop::Failed(Failure::from(error))
    }
}

/// Shows what is read of a file, whose records or entries may have so many bytes each.
fn show_stream<'a, F: Read + Drop, O: Write>(
    alloc: Global,
    name: &'a str,
    file: F,
    most: Option<u64>,
    lines: &mut Lines<'_, O>,
) -> Result<(), Stop<'a>> {
    let mut window = Window {
        file,
        name,
        bytes: Vec::new(alloc),
        shown: 0,
        most,
        is_at_end: false,
    };
    let shown = window.show(lines);
    drop(window);
    shown
}

/// Lines that are collected before they are printed.
#[derive(Drop)]
struct Lines<'o, O> {
    output: &'o mut O,
    /// How many bytes of each text are printed.
    limit: usize,
    text: Vec<u8>,
}

impl<O: Write> Lines<'_, O> {
    /// Prints the lines, so that there are none. One that did not come to its end is left out, since memory ran out.
    fn print<'a>(&mut self) -> Result<(), Failure<'a>> {
        let lines = whole_lines(self.text.as_slice());
        let printed = print_lines(self.output, self.limit, lines);
        self.text.clear();
        printed
    }

    /// Ends a line, and prints all once they are long.
    fn end_line<'a>(&mut self) -> Result<(), Stop<'a>> {
        if self.text.push(b'\n').is_err() {
            return Err(Stop::Failed(Failure::OutOfMemory));
        }
        if self.text.len() < CHUNK {
            return Ok(());
        }
        match self.print() {
            Ok(()) => Ok(()),
            Err(failure) => Err(Stop::Failed(failure)),
        }
    }
}

/// The lines that come to their end.
fn whole_lines(text: &[u8]) -> &[u8] {
    match text.rfind_byte(b'\n') {
        Some(last) => &text[..last + 1],
        None => &[],
    }
}

/// What a tree file begins with whose entries may have times, and files any length.
const WIDE_OPENING: &[u8] = b"SFTREE03";

/// A part of a tree file that has a line. The root and entries have other forms after the third opening.
#[derive(Clone, Copy)]
enum Part {
    Head,
    Root(bool),
    Entry(bool),
}

impl Part {
    /// Takes this part from the front of bytes, and appends its line without a line feed.
    fn put(self, bytes: &mut &[u8], text: &mut Vec<u8>) -> Result<(), ShowFault> {
        match self {
            Part::Head => put_head(bytes, text),
            Part::Root(is_wide) => put_root(is_wide, bytes, text),
            Part::Entry(is_wide) => put_entry(is_wide, bytes, text),
        }
    }
}

/// The bytes of a file from the first that is not shown on, as far as they are read.
#[derive(Drop)]
struct Window<'a, F> {
    file: F,
    name: &'a str,
    bytes: Vec<u8>,
    /// How many of the bytes are shown.
    shown: usize,
    /// How many bytes a record or an entry may have, if there is a limit.
    most: Option<u64>,
    /// Whether the file has no more bytes.
    is_at_end: bool,
}

impl<'a, F: Read> Window<'a, F> {
    /// The bytes in front.
    fn front(&self) -> &[u8] {
        self.bytes.as_slice().get(self.shown..).unwrap_or(&[])
    }

    /// Passes over bytes in front that are shown.
    fn pass(&mut self, count: usize) {
        self.shown = self.shown.saturating_add(count);
    }

    /// Forgets the bytes that are shown.
    fn forget(&mut self) {
        let length = self.bytes.len();
        let shown = self.shown.min(length);
        self.bytes.as_mut_slice().copy_within(shown..length, 0);
        self.bytes.truncate(length - shown);
        self.shown = 0;
    }

    /// Reads until there are so many bytes in front, or the file ends.
    fn hold(&mut self, count: usize) -> Result<(), Stop<'a>> {
        let held = self.front().len();
        if self.is_at_end || count <= held {
            return Ok(());
        }
        self.forget();
        self.read_on((count - held).max(CHUNK))
    }

    /// A number of bytes, or one more than are allowed if it is larger.
    fn limited(&self, count: usize) -> usize {
        match self.most {
            Some(most) => count.min((most as usize).saturating_add(1)),
            None => count,
        }
    }

    /// Refuses a record or an entry of so many bytes if these are too many.
    fn admit(&self, count: usize) -> Result<(), Stop<'a>> {
        match self.most {
            Some(most) if count as u64 > most => Err(Stop::Failed(Failure::OverLimit(self.name))),
            _ => Ok(()),
        }
    }

    /// Reads so many bytes, or all that follow if these are fewer.
    fn read_on(&mut self, count: usize) -> Result<(), Stop<'a>> {
        let mut part = self.file.by_ref().take(count as u64);
        match part.read_to_end(&mut self.bytes) {
            Ok(read) => {
                self.is_at_end = read < count;
                Ok(())
            }
            Err(error) => Err(Stop::Failed(Failure::reading(self.name, &error))),
        }
    }

    /// Appends the lines of the file, by what it begins with.
    fn show<O: Write>(&mut self, lines: &mut Lines<'_, O>) -> Result<(), Stop<'a>> {
        self.hold(OPENING.len())?;
        if self.front().starts_with(OPENING.as_slice()) {
            self.pass(OPENING.len());
            self.show_records(lines)
        } else {
            self.show_parts(lines)
        }
    }

    /// Appends the lines of records. What follows the last whole record is a line too.
    fn show_records<O: Write>(&mut self, lines: &mut Lines<'_, O>) -> Result<(), Stop<'a>> {
        let mut line = Vec::new(*self.bytes.allocator());
        let shown = self.show_each(&mut line, lines);
        drop(line);
        shown
    }

    /// Appends the lines of all records. `line` is room for one.
    fn show_each<O: Write>(
        &mut self,
        line: &mut Vec<u8>,
        lines: &mut Lines<'_, O>,
    ) -> Result<(), Stop<'a>> {
        'records: for number in 1..PARTS {
            if !self.show_record(number, line, lines)? {
                return Ok(());
            }
        }
        Ok(())
    }

    /// Appends the line of the record in front, which has this number. Returns whether there is one. `line` is room for
    /// it.
    fn show_record<O: Write>(
        &mut self,
        number: u64,
        line: &mut Vec<u8>,
        lines: &mut Lines<'_, O>,
    ) -> Result<bool, Stop<'a>> {
        self.hold(RECORD_FRONT)?;
        let Some(first) = self.front().first() else {
            return Ok(false);
        };
        let Some(side) = side_of(*first) else {
            return Err(without_side(number));
        };
        let wanted = self.limited(record_length(self.front()));
        self.hold(wanted)?;
        match self.show_packet(side, line, lines) {
            Ok(()) => Ok(true),
            Err(stop) => Err(stop),
        }
    }

    /// Appends the line of the record in front, which is of this side and held as far as it is shown. `line` is room
    /// for it.
    fn show_packet<O: Write>(
        &mut self,
        side: Side,
        line: &mut Vec<u8>,
        lines: &mut Lines<'_, O>,
    ) -> Result<(), Stop<'a>> {
        let length = record_length(self.front()).min(self.front().len());
        self.admit(length)?;
        put_record(side, self.front().get(1..length).unwrap_or(&[]), line)?;
        lines.text.extend_from_slice(line.as_slice())?;
        self.pass(length);
        lines.end_line()
    }

    /// Appends the lines of a tree file: of its head, its root, and its entries.
    fn show_parts<O: Write>(&mut self, lines: &mut Lines<'_, O>) -> Result<(), Stop<'a>> {
        let is_wide = self.front().starts_with(WIDE_OPENING);
        self.show_part(Part::Head, lines)?;
        self.show_part(Part::Root(is_wide), lines)?;
        'entries: for _ in 0..PARTS {
            self.hold(1)?;
            if self.front().is_empty() {
                return Ok(());
            }
            self.show_part(Part::Entry(is_wide), lines)?;
        }
        Ok(())
    }

    /// Appends the line of the part in front. As many bytes are read as it has.
    fn show_part<O: Write>(
        &mut self,
        part: Part,
        lines: &mut Lines<'_, O>,
    ) -> Result<(), Stop<'a>> {
        let before = lines.text.len();
        'lengths: for _ in 0..DOUBLINGS {
            let mut rest = self.front();
            let held = rest.len();
            match part.put(&mut rest, &mut lines.text) {
                Ok(()) => {
                    let taken = held.saturating_sub(rest.len());
                    return self.end_part(taken, before, lines);
                }
                Err(ShowFault::NoMemory) => return Err(Stop::Failed(Failure::OutOfMemory)),
                Err(ShowFault::Unfit) => {
                    lines.text.truncate(before);
                    if self.is_at_end {
                        return Err(Stop::Unfit);
                    }
                    self.admit(held)?;
                    self.hold(held.saturating_mul(2).max(CHUNK))?;
                }
            }
        }
        Err(Stop::Unfit)
    }

    /// Ends the line of a part that has so many bytes, or takes the line back if these are too many. Before it the text
    /// had so many bytes.
    fn end_part<O: Write>(
        &mut self,
        taken: usize,
        before: usize,
        lines: &mut Lines<'_, O>,
    ) -> Result<(), Stop<'a>> {
        if let Err(stop) = self.admit(taken) {
            lines.text.truncate(before);
            return Err(stop);
        }
        self.pass(taken);
        lines.end_line()
    }
}

/// The side that a record's first byte names.
fn side_of(letter: u8) -> Option<Side> {
    match letter {
        b'C' => Some(Side::Client),
        b'S' => Some(Side::Server),
        _ => None,
    }
}

/// How many bytes the record in front has by its length field, or those before its packet if that is cut off.
fn record_length(front: &[u8]) -> usize {
    let length = match front {
        [_, a, b, c, d, ..] => u32::from_be_bytes([*a, *b, *c, *d]) as usize,
        _ => 0,
    };
    RECORD_FRONT + length
}

/// The failure for a transcript whose record with this number begins with neither `C` nor `S`.
fn without_side<'a>(record: u64) -> Stop<'a> {
    Stop::Failed(Failure::Transcript(TranscriptError::Direction { record }))
}
