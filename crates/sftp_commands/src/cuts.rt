//! What `show --full` prints of long data: its first bytes, and how many more there are.
ghost use Rattle.std.specs.Prelude.{◌≡◌, ◌∷◌, ◌++◌, ◌≤◌, ◌<◌, ℕ, List, length, take, drop, IfSome, MatchOption};
ghost use Rattle.std.specs.List.{flat_map};
ghost use Rattle.sftp_text.specs.Digits.{byte_text, hex_text};
ghost use Rattle.sftp_commands.specs.Going.{escapes_in};

use bstr::ByteSlice;
use sftp_files::{Failure, MORE, Named, STANDARD_OUTPUT};
use std::alloc::{AllocError, Global};
use std::io;
use std::io::Write;

/// How many bytes of a text are printed without the option.
const USUAL: usize = 256;

/// What precedes the number of the bytes that are cut off.
const MARK: &[u8] = b"...";

/// What follows the side in the line of a raw record, which is no packet.
const RAW: &[u8] = b" raw ";

/// How many bytes of each text are printed, as the option `--data` says.
///
/// # Errors
///
/// `Usage` if the option's value is neither a number nor `all`, and `OutOfMemory`.
pub(crate) fn limit_of<'a>(alloc: Global, data: Option<&str>) -> Result<usize, Failure<'a>> {
    match data {
        None => Ok(USUAL),
        Some(text) => match number_of(text) {
            Some(limit) => Ok(limit),
            None => Err(Failure::of_usage(bad_limit(alloc, text))),
        },
    }
}

/// The limit that an option's value names; `all` is as many bytes as there can be.
fn number_of(text: &str) -> Option<usize> {
    if text == "all" {
        Some(usize::MAX)
    } else {
        text.parse().ok()
    }
}

/// The message for an option `--data` with this value.
fn bad_limit(alloc: Global, text: &str) -> Result<String, AllocError> {
    let text = Named(text);
    format!(in alloc;
        "error: invalid value '{text}' for '--data <N|all>': neither a number below 2^64 nor 'all'\n{MORE}"
    )
}

/// Prints lines, with each text in quotes and the digits of each raw record cut after `limit` bytes.
pub(crate) fn print_lines<'a, O: Write>(
    output: &mut O,
    limit: usize,
    lines: &[u8],
) -> Result<(), Failure<'a>> {
    let mut printer = Printer {
        output,
        limit,
        error: None,
    };
    printer.put_all(lines);
    printer.flush();
    let error = printer.error;
    drop(printer);
    match error {
        None => Ok(()),
        Some(error) => Err(Failure::writing(STANDARD_OUTPUT, &error)),
    }
}

/// A writer of lines that are cut. Once a write fails it writes no more.
#[derive(Drop)]
struct Printer<'a, O> {
    output: &'a mut O,
    /// How many bytes of a text are printed.
    limit: usize,
    /// Why a write failed, if one did.
    error: Option<io::Error>,
}

impl<O: Write> Printer<'_, O> {
    /// Writes bytes as they are.
    fn put(&mut self, bytes: &[u8]) {
        if self.error.is_none() {
            self.error = self.output.write_all(bytes).err();
        }
    }

    fn flush(&mut self) {
        if self.error.is_none() {
            self.error = self.output.flush().err();
        }
    }

    /// Writes lines. If all of them together are no longer than the limit, none is cut.
    fn put_all(&mut self, lines: &[u8]) {
        if lines.len() <= self.limit {
            self.put(lines);
        } else {
            self.put_lines(lines);
        }
    }

    fn put_lines(&mut self, lines: &[u8]) {
        let mut rest = lines;
        'lines: while let Some((line, behind)) = split_around(b'\n', rest) {
            self.put_line(line);
            self.put(b"\n");
            rest = behind;
        }
        self.put(rest);
    }

    /// Writes a line. One that is no longer than the limit is not cut.
    fn put_line(&mut self, line: &[u8]) {
        if line.len() <= self.limit {
            self.put(line);
        } else {
            self.put_parts(line);
        }
    }

    fn put_parts(&mut self, line: &[u8]) {
        match split_raw(line) {
            Some((front, digits)) => {
                self.put(front);
                self.put_digits(digits);
            }
            None => self.put_texts(line),
        }
    }

    /// Writes bytes in hexadecimal, up to the limit.
    fn put_digits(&mut self, digits: &[u8]) {
        let (shown, hidden) = cut_digits(self.limit, digits);
        self.put(shown);
        self.put_mark(hidden.len() / 2);
    }

    /// Writes a line with each text in quotes up to the limit.
    fn put_texts(&mut self, line: &[u8]) {
        let mut rest = line;
        'texts: while let Some((front, text, behind)) = split_text(rest) {
            self.put(front);
            self.put_text(text);
            rest = behind;
        }
        self.put(rest);
    }

    /// Writes the characters of a text in quotes, up to the limit.
    fn put_text(&mut self, text: &[u8]) {
        let (shown, hidden) = cut_text(self.limit, text);
        self.put(b"\"");
        self.put(shown);
        self.put(b"\"");
        self.put_mark(count_bytes(hidden));
    }

    /// Writes how many more bytes are cut off, if any are.
    fn put_mark(&mut self, more: usize) {
        if more > 0 {
            self.put(MARK);
            self.put_count(more);
        }
    }

    fn put_count(&mut self, more: usize) {
        if self.error.is_none() {
            self.error = write!(self.output, "{more} more").err();
        }
    }
}

/// The line of a raw record in two parts: up to its digits, and the digits.
fn split_raw(line: &[u8]) -> Option<(&[u8], &[u8])>
    ensures { IfSome result (λ parts. parts.0.now ++ parts.1.now ≡ line.now) }
{
    let (front, digits) = line.split_at_checked(1 + RAW.len())?;
    if front.ends_with(RAW) {
        Some((front, digits))
    } else {
        None
    }
}

/// Whether a word is the mark of what was cut off.
pub(crate) fn is_mark(word: &[u8]) -> bool {
    match word.strip_prefix(MARK) {
        Some(number) => number.first().is_some_and(|digit| digit.is_ascii_digit()),
        None => false,
    }
}

/// The bytes before the first `byte`, and those after it.
fn split_around(byte: u8, bytes: &[u8]) -> Option<(&[u8], &[u8])>
    ensures whole { IfSome result (λ parts. parts.0.now ++ byte ∷ parts.1.now ≡ bytes.now) }
    ensures shorter { IfSome result (λ parts. length parts.1.now < length bytes.now) }
{
    let place = bytes.find_byte(byte)?;
    let (front, rest) = bytes.split_at(place);
    let (_, behind) = rest.split_first()?;
    Some((front, behind))
}

/// A line up to its first text in quotes, the characters of that, and what follows.
fn split_text(line: &[u8]) -> Option<(&[u8], &[u8], &[u8])>
    ensures whole { IfSome result (λ parts.
        parts.0.now ++ 34 ∷ (parts.1.now ++ 34 ∷ parts.2.now) ≡ line.now) }
    ensures shorter { IfSome result (λ parts. length parts.2.now < length line.now) }
{
    let (front, rest) = split_around(b'"', line)?;
    let (text, behind) = split_around(b'"', rest)?;
    Some((front, text, behind))
}

/// The digits of the first `limit` bytes, and those of the others.
#[tactic(auto, using(crate::proofs::CutLaws::digits_shown, crate::proofs::CutLaws::digits_hidden, crate::proofs::CutLaws::digits_shown_whole, crate::proofs::CutLaws::digits_hidden_whole))]
fn cut_digits(limit: usize, digits: &[u8]) -> (&[u8], &[u8])
    ensures shown { (bytes : List ℕ) → digits.now ≡ hex_text bytes → result.0.now ≡ hex_text (take limit bytes) }
    ensures hidden { (bytes : List ℕ) → digits.now ≡ hex_text bytes → result.1.now ≡ hex_text (drop limit bytes) }
{
    if digits.len() / 2 <= limit {
        return (digits, &[]);
    }
    digits.split_at(2 * limit)
}

/// The characters of the first `limit` bytes of a text in quotes, and those of the others.
#[tactic(auto, using(crate::proofs::CutLaws::cut_start, crate::proofs::CutLaws::cut_next, crate::proofs::CutLaws::shown_at, crate::proofs::CutLaws::hidden_at, crate::proofs::CutLaws::shown_whole, crate::proofs::CutLaws::hidden_whole))]
fn cut_text(limit: usize, text: &[u8]) -> (&[u8], &[u8])
    ensures shown { (bytes : List ℕ) → text.now ≡ flat_map byte_text bytes
        → result.0.now ≡ flat_map byte_text (take limit bytes) }
    ensures hidden { (bytes : List ℕ) → text.now ≡ flat_map byte_text bytes
        → result.1.now ≡ flat_map byte_text (drop limit bytes) }
{
    let mut left = text;
    let mut count: usize = 0;
    'bytes: while count < limit {
        let Some(rest) = behind_byte(left) else {
            return (text, &[]);
        };
        left = rest;
        count += 1;
    }
    (&text[..text.len() - left.len()], left)
}

/// What follows the first byte of a text in quotes, which has four characters if it is escaped.
fn behind_byte(text: &[u8]) -> Option<&[u8]>
    ensures next { (byte : ℕ) (rest : List ℕ) → text.now ≡ byte_text byte ++ rest
        → MatchOption result ⊥ (λ left. left.now ≡ rest) }
    ensures shorter { IfSome result (λ rest. length rest.now < length text.now) }
{
    let (first, rest) = text.split_first()?;
    if *first == b'\\' {
        rest.get(3..)
    } else {
        Some(rest)
    }
}

/// How many bytes a text in quotes stands for.
#[tactic(auto, using(crate::proofs::CutLaws::text_size))]
fn count_bytes(text: &[u8]) -> usize
    ensures { (bytes : List ℕ) → text.now ≡ flat_map byte_text bytes → result ≡ length bytes }
{
    text.len()
        .saturating_sub(count_escapes(text).saturating_mul(3))
}

/// How many escapes a text in quotes has.
fn count_escapes(text: &[u8]) -> usize
    ensures { result ≡ escapes_in text.now }
{
    let mut left = text;
    let mut count: usize = 0;
    'characters: while let Some((first, rest)) = left.split_first() {
        if *first == b'\\' {
            count += 1;
        }
        left = rest;
    }
    count
}
