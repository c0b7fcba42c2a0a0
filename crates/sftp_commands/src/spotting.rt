//! `--explain` for malformed files: the field of the fault, and its place in the file.
ghost use Rattle.std.specs.Prelude.{◌<◌, IfSome, IsSome, MatchResult};
ghost use Rattle.sftp_transcript.specs.Recorded.{size_of};

use sftp_faults::{Spot, spot_in_record, spot_in_tree};
use sftp_files::{Failure, is_read_again};
use sftp_transcript::{OPENING, Reader, Source, Tally, TranscriptError};
use sftp_treefile::TreeError;
use sftp_wire::{PACKET_LIMIT, Packet, Side};
use std::fs;
use std::fs::Files;
use std::io::{Read, Seek, SeekFrom};

/// Where the fault is that made a run fail, if one of these files has it and it can be found. A pipe is not read again.
pub fn spot_of<R: Files + AllocGlobal>(
    rt: &R,
    tree: &str,
    transcript: &str,
    failure: &Failure<'_>,
) -> Option<Spot> {
    match failure {
        Failure::Tree(error) if is_read_again(rt, tree) => tree_spot(rt, tree, *error),
        Failure::Transcript(error) if is_read_again(rt, transcript) => {
            transcript_spot(rt, transcript, *error)
        }
        _ => None,
    }
}

/// Where the fault of a tree file is, if it can be found.
fn tree_spot<R: Files + AllocGlobal>(rt: &R, name: &str, error: TreeError) -> Option<Spot> {
    match fs::open(rt, name) {
        Ok(file) => spot_in_tree(rt.alloc(), Tally::new(file), error),
        Err(_) => None,
    }
}

/// Where the fault of a transcript is, if it can be found.
fn transcript_spot<R: Files + AllocGlobal>(
    rt: &R,
    name: &str,
    error: TranscriptError,
) -> Option<Spot> {
    let start = start_of_fault(rt, name, error)?;
    let mut bytes = Vec::new(rt.alloc());
    let spot = if is_read_from(rt, name, start, &mut bytes) {
        spot_in_record(bytes.as_slice(), error)
    } else {
        None
    };
    drop(bytes);
    match spot {
        Some(spot) => Some(spot.behind(start)),
        None => None,
    }
}

/// The place of the record with this fault of a transcript, or 0 if the opening has it.
fn start_of_fault<R: Files + AllocGlobal>(
    rt: &R,
    name: &str,
    error: TranscriptError,
) -> Option<u64> {
    match error {
        TranscriptError::Magic { .. } => Some(0),
        _ => start_of_record(rt, name),
    }
}

/// Where the first unreadable record begins.
fn start_of_record<R: Files + AllocGlobal>(rt: &R, name: &str) -> Option<u64> {
    match fs::open(rt, name) {
        Ok(file) => match Reader::new(rt.alloc(), Tally::new(file)) {
            Ok(mut records) => {
                let start = end_of_records(&mut records);
                drop(records);
                Some(start)
            }
            Err(_) => None,
        },
        Err(_) => None,
    }
}

/// Where the readable records end. The reader has read nothing yet.
fn end_of_records<R: Source>(records: &mut Reader<R>) -> u64 {
    let mut end = OPENING.len() as u64;
    'records: while let Some(length) = record_length(records) {
        end = end.saturating_add(length as u64).saturating_add(1);
    }
    end
}

/// The number of bytes of the next record's packet, if there is a next record.
fn record_length<R: Source>(records: &mut Reader<R>) -> Option<usize>
    ensures { IfSome result (λ _. size_of records.new.ahead < size_of records.old.ahead) }
{
    let next = records.next_record();
    let length = length_of(&next);
    drop(next);
    length
}

/// The number of bytes of a record's packet, if this is one.
fn length_of(next: &Result<Option<(Side, Packet, usize)>, TranscriptError>) -> Option<usize>
    ensures { IfSome result (λ _. MatchResult next.now IsSome (λ _. ⊥)) }
{
    match next {
        Ok(Some((_side, _packet, length))) => Some(*length),
        Ok(None) => None,
        Err(_) => None,
    }
}

/// Appends the bytes of a file from a place on, as many as the longest record has. Returns whether they could be read.
fn is_read_from<R: Files>(rt: &R, name: &str, start: u64, bytes: &mut Vec<u8>) -> bool {
    match fs::open(rt, name) {
        Ok(mut file) => {
            let is_read = is_record_read(&mut file, start, bytes);
            drop(file);
            is_read
        }
        Err(_) => false,
    }
}

fn is_record_read<F: Read + Seek>(file: &mut F, start: u64, bytes: &mut Vec<u8>) -> bool {
    file.seek(SeekFrom::Start(start)).is_ok() && file.take(RECORD_LIMIT).read_to_end(bytes).is_ok()
}

/// The most bytes of a record: its direction and its packet.
const RECORD_LIMIT: u64 = PACKET_LIMIT as u64 + 1;
