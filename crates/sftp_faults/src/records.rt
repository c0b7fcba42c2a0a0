//! Where the fault of a record is.

use crate::fields::{Fields, Spot};
use crate::packets::judge_body;
use sftp_transcript::TranscriptError;
use sftp_wire::{Fault, Side, layout_of};

/// The field in which a record has this fault, which is the first one of its file. The bytes are those of the file from
/// the record on, or more than the longest record has. Its places count from the start of the record. `None` if the
/// fault is none of the file.
pub fn spot_in_record(bytes: &[u8], error: TranscriptError) -> Option<Spot> {
    let mut fields = Fields::new(bytes);
    match error {
        TranscriptError::Magic { .. } => Some(fields.spot("opening")),
        TranscriptError::Direction { .. } => Some(fields.spot("direction")),
        TranscriptError::Start { .. } => Some(fields.spot("record")),
        TranscriptError::Truncated { .. } => Some(end_of(&mut fields)),
        TranscriptError::Wire { fault, .. } => Some(spot_of_fault(&mut fields, fault)),
        TranscriptError::Io { .. } | TranscriptError::NoMemory => None,
    }
}

/// The field in which the file ends.
fn end_of(fields: &mut Fields<'_>) -> Spot {
    let start = fields.spot("record");
    match judge_record(fields) {
        Ok(()) => start,
        Err(spot) => spot,
    }
}

/// Where a packet has this fault.
fn spot_of_fault(fields: &mut Fields<'_>, fault: Fault) -> Spot {
    let start = fields.spot("packet");
    match fault {
        Fault::Length => match fields.pass(1, "direction") {
            Ok(()) => fields.spot("length"),
            Err(spot) => spot,
        },
        Fault::WrongType => match fields.pass(5, "length") {
            Ok(()) => fields.spot("type"),
            Err(spot) => spot,
        },
        _ => match judge_record(fields) {
            Ok(()) => start,
            Err(spot) => spot,
        },
    }
}

/// Reads a record up to its first fault. Its packet's length is in range.
fn judge_record(fields: &mut Fields<'_>) -> Result<(), Spot> {
    let side = match fields.byte("direction")? {
        b'C' => Side::Client,
        _ => Side::Server,
    };
    let packet = fields.rest();
    let length = fields.number("length")?;
    fields.cut(length as usize);
    fields.byte("type")?;
    judge_body(layout_of(side, packet), fields)
}
