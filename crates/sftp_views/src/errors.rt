//! Why the records of a transcript are not shown to their end.

use sftp_times::TimesError;
use sftp_transcript::TranscriptError;
use std::alloc::AllocError;
use std::io;

/// Why the records of a transcript are not shown to their end.
#[derive(Debug, Drop)]
pub enum ViewError {
    /// The transcript is malformed from this record on, its source failed, or memory ran out.
    Transcript(TranscriptError),
    /// The file of times is malformed from this entry on.
    Times(TimesError),
    /// The file of times has this entry, and the transcript has no record for it.
    Spare { entry: u64 },
    /// The file of times cannot be read.
    Clock(io::Error),
    /// The lines cannot be written.
    Output(io::Error),
    /// Memory ran out.
    NoMemory,
}

impl From<AllocError> for ViewError {
    fn from(_error: AllocError) -> ViewError {
        ViewError::NoMemory
    }
}

impl From<TimesError> for ViewError {
    fn from(error: TimesError) -> ViewError {
        ViewError::Times(error)
    }
}
