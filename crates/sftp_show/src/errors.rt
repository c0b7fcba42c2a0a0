//! Why a file is not shown to its end.

use sftp_transcript::TranscriptError;
use std::io;
use thiserror::Error;

/// Why a transcript file is not shown to its end.
#[derive(Debug, Drop, Error)]
pub enum ShowError {
    /// The file is malformed from this record on, its source failed, or memory ran out.
    #[error("{0}")]
    Transcript(TranscriptError),
    /// The lines cannot be written.
    #[error("{0}")]
    Output(io::Error),
}

impl From<TranscriptError> for ShowError {
    fn from(error: TranscriptError) -> ShowError {
        ShowError::Transcript(error)
    }
}

impl From<io::Error> for ShowError {
    fn from(error: io::Error) -> ShowError {
        ShowError::Output(error)
    }
}
