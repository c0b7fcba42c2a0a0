//! The errors of transcript files.
ghost use Rattle.std.specs.Prelude.{◌≡◌};

use std::alloc::{AllocError, AllocFailed};
use std::fmt;
use thiserror::Error;

/// The first fault of a transcript file from left to right, and the number of its record. Records count from 1, the
/// opening has the number 0, and a number is capped at 2^64 - 1.
#[derive(Clone, Copy, Debug, PartialEq, Eq, Error)]
pub enum TranscriptError {
    /// The file does not begin with `SFTPTR01`.
    Magic {
        record: u64,
    },
    /// The byte before the packet is neither `C` nor `S`.
    Direction {
        record: u64,
    },
    /// The first record is missing or is not an INIT of version 3 or more from the client, the second is missing or is
    /// not a VERSION 3 from the server, or a later one is an INIT or a VERSION (draft, section 4).
    Start {
        record: u64,
    },
    /// The packet cannot be read.
    Wire {
        fault: sftp_wire::Fault,
        record: u64,
    },
    /// The file ends inside a record.
    Truncated {
        record: u64,
    },
    /// The stream failed at this record.
    Io {
        record: u64,
    },
    /// Memory ran out.
    NoMemory,
}

/// Writes the name of a fault with the number of its record.
fn put_fault<W: fmt::Write>(f: &mut fmt::Formatter<W>, record: u64, fault: &str) -> fmt::Result {
    write!(f, "record {record}: {fault}")
}

// `thiserror` would format the number of the record for each fault anew, which is slow to prove.
impl fmt::Display for TranscriptError {
    fn fmt<W: fmt::Write>(&self, f: &mut fmt::Formatter<W>) -> fmt::Result {
        match self {
            TranscriptError::Magic { record } => put_fault(f, *record, "Magic"),
            TranscriptError::Direction { record } => put_fault(f, *record, "Direction"),
            TranscriptError::Start { record } => put_fault(f, *record, "Start"),
            TranscriptError::Wire { fault, record } => write!(f, "record {record}: Wire {fault}"),
            TranscriptError::Truncated { record } => put_fault(f, *record, "Truncated"),
            TranscriptError::Io { record } => put_fault(f, *record, "Io"),
            TranscriptError::NoMemory => f.write_str("out of memory"),
        }
    }
}

impl From<AllocError> for TranscriptError {
    ghost use Rattle.sftp_transcript.specs.declared.errors.TranscriptError.TheVariants.{NoMemory as no_memory};

    ghost from_gives = { λ _ e. e ≡ no_memory };

    fn from(_error: AllocError) -> TranscriptError {
        TranscriptError::NoMemory
    }
}

impl<T: Drop> From<AllocFailed<T>> for TranscriptError {
    ghost use Rattle.sftp_transcript.specs.declared.errors.TranscriptError.TheVariants.{NoMemory as no_memory};

    ghost from_gives = { λ _ e. e ≡ no_memory };

    fn from(_error: AllocFailed<T>) -> TranscriptError {
        TranscriptError::NoMemory
    }
}
