//! Whole transcripts as text, a line a record.
ghost use Rattle.std.specs.Prelude.{◌≡◌, ◌∷◌, ◌++◌, ◌≤◌, length, MatchOption, OnOk};
ghost use Rattle.sftp_text.specs.Lines as lines;
ghost use Rattle.sftp_text.specs.Lines.{records_of, records_up_to, side_letter, text_read};
ghost use Rattle.sftp_text.specs.Texts.{GivesLine, GivesText, onto, line_bytes, transcript_onto};
ghost use Rattle.sftp_text.specs.Texts.{Shows, lines_onto, next_record, fed_line};

use crate::errors::{Fault, ShowFault, TextFault};
use crate::lines::{is_blank, take_line};
use crate::records::{letter, put_record, read_record, side_of};
use crate::words::after_word;
use bytes::Buf;
use sftp_wire::Side;
use std::alloc::AllocError;

const OPENING: &[u8] = b"SFTPTR01";

/// How many bytes a record has whose bytes are in front: as many as its length field says, or all if not all have come.
fn record_length(bytes: &[u8]) -> usize
    ensures is { result ≡ lines.record_length bytes.now }
    ensures within { result ≤ length bytes.now }
{
    let mut rest = bytes;
    match rest.try_get_u32() {
        Ok(length) => (4 + length as usize).min(bytes.len()),
        Err(_) => bytes.len(),
    }
}

/// Takes a record from the front of bytes: its side and its bytes. `None` where no side's letter is in front.
fn take_record<'a>(bytes: &mut &'a [u8]) -> Option<(Side, &'a [u8])>
    ensures { MatchOption result (next_record bytes.old.now ≡ None)
        (λ taken. next_record bytes.old.now ≡ Some ((taken.0, taken.1.now), bytes.new.now)) }
{
    let (first, rest) = bytes.split_first()?;
    let side = side_of(*first)?;
    let (record, rest) = rest.split_at(record_length(rest));
    *bytes = rest;
    Some((side, record))
}

/// Appends the line of a record and a line feed. `line` is room for the line.
fn put_line(
    side: Side,
    packet: &[u8],
    line: &mut Vec<u8>,
    text: &mut Vec<u8>,
) -> Result<(), AllocError>
    ensures { OnOk result (text.new.items ≡ text.old.items ++ fed_line side packet.now) }
{
    put_record(side, packet, line)?;
    text.extend_from_slice(line.as_slice())?;
    text.push(b'\n')?;
    Ok(())
}

/// Appends the lines of records up to the end of the bytes. There are at most as many as bytes.
#[tactic(auto, using(crate::proofs::FileLaws::record_steps))]
fn put_records(bytes: &[u8], text: &mut Vec<u8>) -> Result<(), ShowFault>
    ensures { Shows result text.new.items (lines_onto text.old.items (records_up_to (length bytes.now) bytes.now)) }
{
    let mut rest = bytes;
    let mut most = bytes.len();
    let mut line = Vec::new(*text.allocator());
    'records: while most > 0 {
        if rest.is_empty() {
            return Ok(());
        }
        let Some((side, record)) = take_record(&mut rest) else {
            return Err(ShowFault::Unfit);
        };
        put_line(side, record, &mut line, text)?;
        most -= 1;
    }
    Ok(())
}

/// Appends the lines of a transcript to a text, each with a line feed. What follows the last whole record is a line
/// too, so `read_transcript` gives the same bytes back.
///
/// # Errors
///
/// `Unfit` if the opening is not there, or if a record begins with neither `C` nor `S`: the lines before it are then in
/// `text`. `NoMemory` if memory runs out.
#[tactic(auto, unfolding(crate::specs::Lines::records_of))]
pub fn put_transcript(bytes: &[u8], text: &mut Vec<u8>) -> Result<(), ShowFault>
    ensures { Shows result text.new.items (lines_onto text.old.items (records_of bytes.now)) }
{
    let Some(rest) = after_word(OPENING, bytes) else {
        return Err(ShowFault::Unfit);
    };
    put_records(rest, text)
}

/// Appends a record to a transcript.
fn append_record(side: Side, packet: &[u8], bytes: &mut Vec<u8>) -> Result<(), AllocError>
    ensures { OnOk result (bytes.new.items ≡ bytes.old.items ++ side_letter side ∷ packet.now) }
{
    bytes.push(letter(side))?;
    bytes.extend_from_slice(packet)
}

/// Reads a line, and appends its record if it has one. `record` is room for the record.
fn read_next(line: &[u8], record: &mut Vec<u8>, bytes: &mut Vec<u8>) -> Result<(), Fault>
    ensures { GivesLine result bytes.new.items (onto bytes.old.items (line_bytes line.now)) }
{
    if is_blank(line) {
        return Ok(());
    }
    let side = read_record(line, record)?;
    match append_record(side, record.as_slice(), bytes) {
        Ok(()) => Ok(()),
        Err(_) => Err(Fault::NoMemory),
    }
}

/// Reads lines of records as a transcript, and appends its bytes. Blank lines, and lines whose first byte but spaces is
/// `#`, say nothing.
///
/// # Errors
///
/// `Unread` with the line and the column where a line differs from the grammar; `NoMemory` if memory runs out.
#[tactic(auto, unfolding(crate::specs::Lines::text_read), using(crate::proofs::TextLaws::text_steps))]
pub fn read_transcript(text: &[u8], bytes: &mut Vec<u8>) -> Result<(), TextFault>
    ensures { GivesText result bytes.new.items (transcript_onto bytes.old.items (text_read text.now)) }
{
    let mut rest = text;
    let mut number: u64 = 0;
    let mut record = Vec::new(*bytes.allocator());
    if bytes.extend_from_slice(OPENING).is_err() {
        return Err(TextFault::NoMemory);
    }
    'lines: while let Some(line) = take_line(&mut rest) {
        number = number.saturating_add(1);
        match read_next(line, &mut record, bytes) {
            Ok(()) => {}
            Err(fault) => return Err(fault.at_line(number)),
        }
    }
    Ok(())
}
