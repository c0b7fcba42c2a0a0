//! The subcommand `make`: the file of a text, of a transcript or a tree file.
ghost use Rattle.std.specs.Prelude.{◌≡◌, IfOk};
ghost use Rattle.sftp_files.specs.declared.messages.Ending.TheVariants as endings;

use crate::cuts::is_mark;
use crate::twice::spare_input;
use crate::words::word_at;
use sftp_files::{Ending, Failure, Keeping, STANDARD_INPUT, System, write_last};
use sftp_show::Quoted;
use sftp_text::{Expected, TextFault, is_blank, read_transcript, read_tree, take_line};
use std::alloc::{AllocError, Global};
use std::io::Read;

/// What the text of a tree file begins with, after blank lines and comments.
const TREE_LABEL: &[u8] = b"home ";

/// Writes the file `name`, whose text is on standard input. It is a tree file if the first line has `home`, and else a
/// transcript.
pub fn make<'a, R: System, I: Read>(
    rt: &R,
    name: &'a str,
    keeping: Keeping,
    input: &mut I,
) -> Result<Ending, Failure<'a>>
    ensures { IfOk result (λ ending. ending ≡ endings.Done) }
{
    spare_input(rt, name)?;
    let mut text = Vec::new(rt.alloc());
    let made = match input.read_to_end(&mut text) {
        Ok(_) => make_from(rt, name, keeping, text.as_slice()),
        Err(error) => Err(Failure::reading(STANDARD_INPUT, &error)),
    };
    drop(text);
    made
}

fn make_from<'a, R: System>(
    rt: &R,
    name: &'a str,
    keeping: Keeping,
    text: &[u8],
) -> Result<Ending, Failure<'a>>
    ensures { IfOk result (λ ending. ending ≡ endings.Done) }
{
    let Some(first) = first_line(text) else {
        return Err(no_lines(rt.alloc(), text));
    };
    let mut bytes = Vec::new(rt.alloc());
    match read_text(first, text, &mut bytes) {
        Ok(()) => write_last(rt, name, keeping, bytes),
        Err(fault) => {
            drop(bytes);
            Err(text_failure(rt.alloc(), fault, text))
        }
    }
}

/// The first line of a text that is neither blank nor a comment.
fn first_line(text: &[u8]) -> Option<&[u8]> {
    let mut rest = text;
    'lines: while let Some(line) = take_line(&mut rest) {
        if !is_blank(line) {
            return Some(line);
        }
    }
    None
}

/// The failure for a text that has no such line.
fn no_lines<'a>(alloc: Global, text: &[u8]) -> Failure<'a> {
    let lack = if text.is_empty() {
        "is empty"
    } else {
        "has only comments and blank lines"
    };
    Failure::of_text(format!(in alloc;
        "{STANDARD_INPUT} {lack}; the text of a transcript begins with C INIT, that of a tree file with home"
    ))
}

/// Appends the bytes of a text: those of a tree file if this first line is that of one, and else of a transcript.
fn read_text(first: &[u8], text: &[u8], bytes: &mut Vec<u8>) -> Result<(), TextFault> {
    if first.starts_with(TREE_LABEL) {
        read_tree(text, bytes)
    } else {
        read_transcript(text, bytes)
    }
}

/// The failure for a text that has no file: the line, the column, the word there, and what was expected in its place.
fn text_failure<'a>(alloc: Global, fault: TextFault, text: &[u8]) -> Failure<'a> {
    match fault {
        TextFault::NoMemory => Failure::OutOfMemory,
        TextFault::Unread {
            line,
            column,
            expected,
        } => {
            let place = column.saturating_sub(1) as usize;
            let (place, word) = word_at(line_at(text, line), place, expected);
            let column = (place as u64).saturating_add(1);
            Failure::of_text(message_at(alloc, line, column, word, expected))
        }
    }
}

/// The message for the word at a place: data is cut off there, or something else was expected.
fn message_at(
    alloc: Global,
    line: u64,
    column: u64,
    word: &[u8],
    expected: Expected,
) -> Result<String, AllocError> {
    if is_mark(word) {
        format!(in alloc;
            "line {line}, column {column}: data is cut off here; `show --full --data all` prints all of it"
        )
    } else {
        let word = Quoted(word);
        format!(in alloc; "line {line}, column {column}: {word} is not {expected}")
    }
}

/// The line with this number, or no bytes if there are fewer. Lines count from 1.
fn line_at(text: &[u8], number: u64) -> &[u8] {
    let mut rest = text;
    let mut place: u64 = 1;
    'lines: while let Some(line) = take_line(&mut rest) {
        if place == number {
            return line;
        }
        place = place.saturating_add(1);
    }
    &[]
}
