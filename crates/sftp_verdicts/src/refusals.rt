//! The record that a refusal names.
ghost use Rattle.std.specs.Prelude.{◌≡◌};
ghost use Rattle.sftp_verdicts.specs.Verdicts as spec;

use sftp_audit::Refusal;

/// A refusal with another number of the record.
pub fn numbered(refusal: Refusal, record: u64) -> Refusal
    ensures { result ≡ spec.numbered refusal «record» }
{
    match refusal {
        Refusal::UnknownReply { .. } => Refusal::UnknownReply { record },
        Refusal::IdInUse { .. } => Refusal::IdInUse { record },
        Refusal::Window { .. } => Refusal::Window { record },
        Refusal::NotAllowed { .. } => Refusal::NotAllowed { record },
        Refusal::Unanswered { .. } => Refusal::Unanswered { record },
        Refusal::NoMemory => Refusal::NoMemory,
    }
}

/// The number of the record that a refusal names.
pub fn record_of(refusal: Refusal) -> u64 {
    match refusal {
        Refusal::UnknownReply { record }
        | Refusal::IdInUse { record }
        | Refusal::Window { record }
        | Refusal::NotAllowed { record }
        | Refusal::Unanswered { record } => record,
        Refusal::NoMemory => 0,
    }
}
