//! What is sought in a transcript for an explanation: numbers of records, of requests, of bytes.
use sftp_commands::LeftOut;
use sftp_show::last_of_id;
use sftp_streams::Source;
use sftp_transcript::{Reader, TranscriptError};
use sftp_wire::Side;

/// The most bytes that the packets up to a refusal may have for departures to be tried.
pub(super) const TRIED: u64 = 67_108_864;

/// A number that is sought in a transcript.
#[derive(Clone, Copy)]
pub(super) enum Sought {
    /// That of the last record of a side with this id, before the record with this number.
    Last(Side, u32, u64),
    /// That of the record of the request before which there are so many.
    Request(u64),
    /// How many requests come before the record with this number.
    Before(u64),
    /// How many bytes the packets up to the record with this number have, or more than `TRIED`.
    Bytes(u64),
    /// That of the record with this number where what is left out is not counted.
    Counted(u64),
}

impl Sought {
    /// The number, if there is one. The reader has read nothing yet.
    pub(super) fn number<S: Source>(
        self,
        left_out: &mut LeftOut,
        records: &mut Reader<S>,
    ) -> Result<Option<u64>, TranscriptError> {
        match self {
            Sought::Last(side, id, number) => last_of_id(records, side, id, number),
            Sought::Request(before) => left_out.number_of_request(records, before),
            Sought::Before(number) => counted(left_out.requests_before(records, number)),
            Sought::Bytes(number) => counted(bytes_up_to(records, number)),
            Sought::Counted(number) => left_out.find(records, number),
        }
    }
}

/// A number that was counted, as one that was found.
fn counted(number: Result<u64, TranscriptError>) -> Result<Option<u64>, TranscriptError> {
    match number {
        Ok(number) => Ok(Some(number)),
        Err(error) => Err(error),
    }
}

/// How many bytes the packets up to the record of this number have. No more are counted once these are more than
/// `TRIED`.
fn bytes_up_to<S: Source>(records: &mut Reader<S>, number: u64) -> Result<u64, TranscriptError> {
    let mut bytes: u64 = 0;
    for _ in 0..number {
        let Some((_, packet, size)) = records.next_record()? else {
            return Ok(bytes);
        };
        drop(packet);
        bytes = bytes.saturating_add(size as u64);
        if bytes > TRIED {
            return Ok(bytes);
        }
    }
    Ok(bytes)
}
