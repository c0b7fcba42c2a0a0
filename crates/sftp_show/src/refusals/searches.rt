//! Searches for the records of a transcript that a refusal concerns. Each takes a reader that has read nothing yet.

use crate::refusals::records::{Record, id_of};
use sftp_transcript::{Reader, Source, TranscriptError};
use sftp_wire::{Packet, Side};

/// What a search has to know of a record.
#[derive(Clone, Copy)]
struct Head {
    side: Side,
    id: Option<u32>,
}

/// The record with this number, or `None` if there are fewer.
///
/// # Errors
///
/// The first fault of the transcript before it, and `NoMemory` if memory runs out.
pub fn find_record<R: Source>(
    records: &mut Reader<R>,
    number: u64,
) -> Result<Option<Record>, TranscriptError> {
    pass_over(records, number)?;
    match records.next_record() {
        Ok(Some((side, packet, length))) => Ok(Some(Record {
            number,
            side,
            packet,
            length,
        })),
        Ok(None) => Ok(None),
        Err(error) => Err(error),
    }
}

/// Passes over the records before the one with this number, as far as there are any.
///
/// # Errors
///
/// The first fault of the transcript before that record, and `NoMemory` if memory runs out.
fn pass_over<R: Source>(records: &mut Reader<R>, number: u64) -> Result<(), TranscriptError> {
    for _ in 1..number {
        if next_head(records)?.is_none() {
            break;
        }
    }
    Ok(())
}

/// The number of the last record of a side with this id, before the record with this number.
///
/// # Errors
///
/// The first fault of the transcript before that record, and `NoMemory` if memory runs out.
pub fn last_of_id<R: Source>(
    records: &mut Reader<R>,
    side: Side,
    id: u32,
    number: u64,
) -> Result<Option<u64>, TranscriptError> {
    let mut last = None;
    for place in 1..number {
        match next_head(records)? {
            Some(head) => {
                if head.side == side && head.id == Some(id) {
                    last = Some(place);
                }
            }
            None => break,
        }
    }
    Ok(last)
}

/// What a search has to know of the next record.
///
/// # Errors
///
/// Those of `Reader::next_record`.
fn next_head<R: Source>(records: &mut Reader<R>) -> Result<Option<Head>, TranscriptError> {
    let next = records.next_record();
    let head = head_of(&next);
    drop(next);
    head
}

/// What a search has to know of the record that a reader gave.
fn head_of(
    next: &Result<Option<(Side, Packet, usize)>, TranscriptError>,
) -> Result<Option<Head>, TranscriptError> {
    match next {
        Ok(Some((side, packet, _))) => Ok(Some(Head {
            side: *side,
            id: id_of(packet),
        })),
        Ok(None) => Ok(None),
        Err(error) => Err(*error),
    }
}
