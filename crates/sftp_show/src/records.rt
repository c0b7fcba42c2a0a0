//! The lines of a transcript file.
ghost use Rattle.std.specs.Prelude.{◌<◌, IfOk, IsSome, IsTrue, MatchResult};
ghost use Rattle.sftp_transcript.specs.Recorded.{size_of};

use crate::errors::ShowError;
use crate::packets::{number, put_details};
use sftp_transcript::{Reader, Source, TranscriptError};
use sftp_wire::{Packet, Side, packet_name};
use std::fmt;
use std::io::Write;

/// The line of a record, without a line feed: its number, `C` for a packet of the client or `S` for one of the server,
/// the packet's name, its id (the version of an INIT or a VERSION), and how many bytes the packet has, its length field
/// included; then ` code ` and the code of a STATUS, or the paths of a request in quotes.
#[derive(Clone, Copy)]
pub struct RecordLine<'a> {
    pub number: u64,
    pub side: Side,
    pub packet: &'a Packet,
    pub length: usize,
}

impl fmt::Display for RecordLine<'_> {
    fn fmt<W: fmt::Write>(&self, f: &mut fmt::Formatter<W>) -> fmt::Result {
        let side = letter(self.side);
        let name = packet_name(self.packet);
        let id = number(self.packet);
        let record = self.number;
        let length = self.length;
        write!(f, "{record} {side} {name} {id} {length}")?;
        put_details(self.packet, f)
    }
}

/// How a line names a side.
fn letter(side: Side) -> char {
    match side {
        Side::Client => 'C',
        Side::Server => 'S',
    }
}

/// Writes a line for each record of a transcript file, each with a line feed, up to the first fault. The reader has
/// read nothing yet.
///
/// # Errors
///
/// `Transcript` with the first fault of the file, and `Output` if a line cannot be written.
pub fn show_transcript<R: Source, O: Write>(
    records: &mut Reader<R>,
    output: &mut O,
) -> Result<(), ShowError> {
    let mut record: u64 = 1;
    'records: while show_record(record, records, output)? {
        record = record.saturating_add(1);
    }
    Ok(())
}

/// Writes the line of the next record, whose number this is, and says whether there was one.
fn show_record<R: Source, O: Write>(
    number: u64,
    records: &mut Reader<R>,
    output: &mut O,
) -> Result<bool, ShowError>
    ensures { IfOk result (λ shown. IsTrue shown → size_of records.new.ahead < size_of records.old.ahead) }
{
    let next = records.next_record();
    let shown = put_next(number, &next, output);
    drop(next);
    shown
}

/// Writes the line of what a reader gave next, a record of this number, and says whether it was one.
fn put_next<O: Write>(
    number: u64,
    next: &Result<Option<(Side, Packet, usize)>, TranscriptError>,
    output: &mut O,
) -> Result<bool, ShowError>
    ensures { IfOk result (λ shown. IsTrue shown → MatchResult next.now IsSome (λ _. ⊥)) }
{
    match next {
        Ok(Some((side, packet, length))) => {
            let line = RecordLine {
                number,
                side: *side,
                packet,
                length: *length,
            };
            match writeln!(output, "{line}") {
                Ok(()) => Ok(true),
                Err(error) => Err(ShowError::Output(error)),
            }
        }
        Ok(None) => Ok(false),
        Err(error) => Err(ShowError::Transcript(*error)),
    }
}
