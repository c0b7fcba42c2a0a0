//! The errors of the auditor: why it refuses a session, and which file is malformed.
ghost use Rattle.std.specs.Prelude.{◌≡◌};

use sftp_transcript::TranscriptError;
use sftp_tree::{NoMemory, TreeError};
use std::alloc::{AllocError, AllocFailed};
use std::fmt;
use thiserror::Error;

/// Why the tree does not explain a session, and the number of the record that shows it (draft, section 6.1).
#[derive(Clone, Copy, Debug, PartialEq, Eq, Error)]
pub enum Refusal {
    /// A reply whose id is not that of an unanswered request.
    UnknownReply { record: u64 },
    /// A request with the id of an unanswered one.
    IdInUse { record: u64 },
    /// A request that comes 1,024 requests or more after one that is unanswered. This limit is this profile's own.
    Window { record: u64 },
    /// A reply that the judge does not allow when the requests are done one at a time in the order asked.
    NotAllowed { record: u64 },
    /// A request that has no reply: the oldest one.
    Unanswered { record: u64 },
    /// Memory ran out.
    NoMemory,
}

/// Writes why a session is refused, with the number of the record.
fn put_refusal<W: fmt::Write>(
    f: &mut fmt::Formatter<W>,
    record: u64,
    refusal: &str,
) -> fmt::Result {
    write!(f, "record {record}: {refusal}")
}

// `thiserror` would format the number of the record for each refusal anew, which is slow to prove.
impl fmt::Display for Refusal {
    fn fmt<W: fmt::Write>(&self, f: &mut fmt::Formatter<W>) -> fmt::Result {
        match self {
            Refusal::UnknownReply { record } => put_refusal(f, *record, "UnknownReply"),
            Refusal::IdInUse { record } => put_refusal(f, *record, "IdInUse"),
            Refusal::Window { record } => put_refusal(f, *record, "Window"),
            Refusal::NotAllowed { record } => put_refusal(f, *record, "NotAllowed"),
            Refusal::Unanswered { record } => put_refusal(f, *record, "Unanswered"),
            Refusal::NoMemory => f.write_str("out of memory"),
        }
    }
}

impl From<AllocError> for Refusal {
    ghost use Rattle.sftp_audit.specs.declared.errors.Refusal.TheVariants.{NoMemory as no_memory};

    ghost from_gives = { λ _ e. e ≡ no_memory };

    fn from(_error: AllocError) -> Refusal {
        Refusal::NoMemory
    }
}

impl<T: Drop> From<AllocFailed<T>> for Refusal {
    ghost use Rattle.sftp_audit.specs.declared.errors.Refusal.TheVariants.{NoMemory as no_memory};

    ghost from_gives = { λ _ e. e ≡ no_memory };

    fn from(_error: AllocFailed<T>) -> Refusal {
        Refusal::NoMemory
    }
}

impl From<NoMemory> for Refusal {
    ghost use Rattle.sftp_audit.specs.declared.errors.Refusal.TheVariants.{NoMemory as no_memory};

    ghost from_gives = { λ _ e. e ≡ no_memory };

    fn from(_error: NoMemory) -> Refusal {
        Refusal::NoMemory
    }
}

/// Why `audit` does not accept a session.
#[derive(Clone, Copy, Debug, PartialEq, Eq, Error)]
pub enum AuditError {
    /// The bytes are not a tree file.
    #[error("tree: {0}")]
    Tree(TreeError),
    /// The bytes are not a transcript file.
    #[error("transcript: {0}")]
    Transcript(TranscriptError),
    /// The tree does not explain the session.
    #[error("refused {0}")]
    Refused(Refusal),
    /// Memory ran out. The other errors never have `NoMemory` inside.
    #[error("out of memory")]
    NoMemory,
}

impl From<NoMemory> for AuditError {
    ghost use Rattle.sftp_audit.specs.declared.errors.AuditError.TheVariants.{NoMemory as no_memory};

    ghost from_gives = { λ _ e. e ≡ no_memory };

    fn from(_error: NoMemory) -> AuditError {
        AuditError::NoMemory
    }
}

impl From<TreeError> for AuditError {
    ghost use Rattle.sftp_audit.specs.Audit.{error_of_tree};

    ghost from_gives = { λ error e. e ≡ error_of_tree error };

    fn from(error: TreeError) -> AuditError {
        match error {
            TreeError::NoMemory => AuditError::NoMemory,
            fault => AuditError::Tree(fault),
        }
    }
}

impl From<TranscriptError> for AuditError {
    ghost use Rattle.sftp_audit.specs.Audit.{error_of_transcript};

    ghost from_gives = { λ error e. e ≡ error_of_transcript error };

    fn from(error: TranscriptError) -> AuditError {
        match error {
            TranscriptError::NoMemory => AuditError::NoMemory,
            fault => AuditError::Transcript(fault),
        }
    }
}

impl From<Refusal> for AuditError {
    ghost use Rattle.sftp_audit.specs.Audit.{error_of_session};

    ghost from_gives = { λ refusal e. e ≡ error_of_session refusal };

    fn from(refusal: Refusal) -> AuditError {
        match refusal {
            Refusal::NoMemory => AuditError::NoMemory,
            reason => AuditError::Refused(reason),
        }
    }
}
