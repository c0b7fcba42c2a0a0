//! Texts in quotes: bytes 0x20 to 0x7e but `"` and `\` stand for themselves, `\x` and two hexadecimal digits for any
//! byte.
ghost use Rattle.std.specs.Prelude.{◌≡◌, ◌++◌, None, Some, OnOk, MatchOption, ℕ, List};
ghost use Rattle.std.specs.Int.{w32, to_be_bytes};
ghost use Rattle.std.specs.List.{flat_map};
ghost use Rattle.sftp_text.specs.Digits as text;
ghost use Rattle.sftp_text.specs.Digits.{byte_text, quoted, rest_text, unquoted, Plain, text_in, string_text};
ghost use Rattle.sftp_text.specs.Digits.{counted_text, long_string_text};
ghost use Rattle.sftp_text.specs.Formats.{numbered};
ghost use Rattle.sftp_text.specs.Trees.{Moves, character_in, escape_in};

use crate::errors::{Expected, Stop};
use crate::octets::{put_octet, take_octet};
use bytes::{Buf, BufMut};
use std::alloc::AllocError;

/// Whether a byte stands for itself.
fn is_plain(byte: u8) -> bool
    ensures { result ≡ text.is_plain byte }
{
    byte >= b' ' && byte <= b'~' && byte != b'"' && byte != b'\\'
}

fn put_character(byte: u8, text: &mut Vec<u8>) -> Result<(), AllocError>
    ensures { OnOk result (text.new.items ≡ text.old.items ++ byte_text byte) }
{
    if is_plain(byte) {
        text.push(byte)?;
        return Ok(());
    }
    text.extend_from_slice(b"\\x")?;
    put_octet(byte, text)
}

fn put_characters(bytes: &[u8], text: &mut Vec<u8>) -> Result<(), AllocError>
    ensures { OnOk result (text.new.items ≡ text.old.items ++ flat_map byte_text bytes.now) }
{
    'bytes: for byte in bytes {
        put_character(*byte, text)?;
    }
    Ok(())
}

/// Writes bytes as a text in quotes.
#[tactic(auto, unfolding(crate::specs::Digits::quoted))]
pub(crate) fn put_quoted(bytes: &[u8], text: &mut Vec<u8>) -> Result<(), AllocError>
    ensures { OnOk result (text.new.items ≡ text.old.items ++ quoted bytes.now) }
{
    text.push(b'"')?;
    put_characters(bytes, text)?;
    text.push(b'"')?;
    Ok(())
}

/// Shows so many bytes from the front as a text in quotes.
fn put_piece(length: usize, bytes: &mut &[u8], text: &mut Vec<u8>) -> Result<(), Stop>
    ensures { Moves result text.new.items bytes.new.now (counted_text.show length text.old.items bytes.old.now) }
{
    let Some((piece, rest)) = bytes.split_at_checked(length) else {
        return Err(Stop::Unfit(Expected::Text));
    };
    put_quoted(piece, text)?;
    *bytes = rest;
    Ok(())
}

/// Shows a string as a text in quotes.
#[tactic(auto, unfolding(crate::specs::Digits::string_text))]
pub(crate) fn put_string(bytes: &mut &[u8], text: &mut Vec<u8>) -> Result<(), Stop>
    ensures { Moves result text.new.items bytes.new.now (string_text.show text.old.items bytes.old.now) }
{
    let length = bytes.try_get_u32()?;
    put_piece(length as usize, bytes, text)
}

/// Shows a long string, whose length is a uint64, as a text in quotes.
#[tactic(auto, unfolding(crate::specs::Digits::long_string_text))]
pub(crate) fn put_long_string(bytes: &mut &[u8], text: &mut Vec<u8>) -> Result<(), Stop>
    ensures { Moves result text.new.items bytes.new.now (long_string_text.show text.old.items bytes.old.now) }
{
    let length = bytes.try_get_u64()?;
    put_piece(length as usize, bytes, text)
}

/// Shows all the bytes that are left as a text in quotes.
#[tactic(auto, unfolding(crate::specs::Digits::rest_text))]
pub(crate) fn put_rest(bytes: &mut &[u8], text: &mut Vec<u8>) -> Result<(), Stop>
    ensures { Moves result text.new.items bytes.new.now (rest_text.show text.old.items bytes.old.now) }
{
    put_quoted(bytes, text)?;
    *bytes = &[];
    Ok(())
}

/// Takes what follows `\` from the front of a line, and returns the byte that it stands for.
fn take_escape(line: &[u8]) -> Option<(u8, &[u8])>
    ensures { MatchOption result (escape_in line.now ≡ None) (λ t. escape_in line.now ≡ Some (t.0, t.1.now)) }
{
    let (letter, rest) = line.split_first()?;
    if *letter == b'x' {
        take_octet(rest)
    } else {
        None
    }
}

/// Takes one character of a text in quotes from the front of a line, and returns the byte that it stands for. `None`
/// where there is none.
fn take_character(line: &[u8]) -> Option<(u8, &[u8])>
    ensures { MatchOption result (character_in line.now ≡ None) (λ t. character_in line.now ≡ Some (t.0, t.1.now)) }
{
    let (first, rest) = line.split_first()?;
    if *first == b'\\' {
        take_escape(rest)
    } else if is_plain(*first) {
        Some((*first, rest))
    } else {
        None
    }
}

/// Reads characters up to the quote that closes the text, which is taken too.
fn read_characters(line: &mut &[u8], bytes: &mut Vec<u8>) -> Result<(), Stop>
    ensures { Moves result bytes.new.items line.new.now (unquoted Plain bytes.old.items line.old.now) }
{
    'characters: loop {
        let Some((first, rest)) = line.split_first() else {
            return Err(Stop::Unfit(Expected::Text));
        };
        if *first == b'"' {
            *line = rest;
            return Ok(());
        }
        let Some((byte, rest)) = take_character(line) else {
            return Err(Stop::Unfit(Expected::Text));
        };
        bytes.push(byte)?;
        *line = rest;
    }
}

/// Reads a text in quotes as the bytes that it stands for.
#[tactic(auto, unfolding(crate::specs::Digits::text_in))]
pub(crate) fn read_quoted(line: &mut &[u8], bytes: &mut Vec<u8>) -> Result<(), Stop>
    ensures { Moves result bytes.new.items line.new.now (text_in bytes.old.items line.old.now) }
{
    let Some((first, rest)) = line.split_first() else {
        return Err(Stop::Unfit(Expected::Text));
    };
    if *first != b'"' {
        return Err(Stop::Unfit(Expected::Text));
    }
    *line = rest;
    read_characters(line, bytes)
}

/// Appends a number, and then bytes.
pub(crate) fn append_numbered(
    number: u32,
    piece: &[u8],
    bytes: &mut Vec<u8>,
) -> Result<(), AllocError>
    ensures { OnOk result (bytes.new.items ≡ bytes.old.items ++ (to_be_bytes w32 number ++ piece.now)) }
{
    bytes.put_u32(number)?;
    bytes.extend_from_slice(piece)
}

/// Appends the number of bytes or items, and then their bytes.
pub(crate) fn append_counted(count: usize, piece: &[u8], bytes: &mut Vec<u8>) -> Result<(), Stop>
    ensures { (left : List ℕ) → Moves result bytes.new.items left
        (numbered bytes.old.items (count, (piece.now, left))) }
{
    let Ok(number) = u32::try_from(count) else {
        return Err(Stop::Unfit(Expected::Fewer));
    };
    append_numbered(number, piece, bytes)?;
    Ok(())
}

/// Reads a text in quotes as a string.
#[tactic(auto, unfolding(crate::specs::Digits::string_text))]
pub(crate) fn read_string(line: &mut &[u8], bytes: &mut Vec<u8>) -> Result<(), Stop>
    ensures { Moves result bytes.new.items line.new.now (string_text.read bytes.old.items line.old.now) }
{
    let mut string = Vec::new(*bytes.allocator());
    read_quoted(line, &mut string)?;
    append_counted(string.len(), string.as_slice(), bytes)
}

/// Reads a text in quotes as a long string: the number of its bytes as a uint64, and the bytes.
#[tactic(auto, unfolding(crate::specs::Digits::long_string_text))]
pub(crate) fn read_long_string(line: &mut &[u8], bytes: &mut Vec<u8>) -> Result<(), Stop>
    ensures { Moves result bytes.new.items line.new.now (long_string_text.read bytes.old.items line.old.now) }
{
    let mut string = Vec::new(*bytes.allocator());
    read_quoted(line, &mut string)?;
    bytes.put_u64(string.len() as u64)?;
    bytes.extend_from_slice(string.as_slice())?;
    Ok(())
}
