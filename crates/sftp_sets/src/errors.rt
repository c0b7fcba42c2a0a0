//! Why the files of a session are not those of a session of a set.

use sftp_audit::AuditError;

/// The first fault of the files of a session: of the transcript, event by event, and then of the times.
#[derive(Clone, Copy, Debug, PartialEq, Eq)]
pub enum SessionError {
    /// The transcript has a fault, its source failed, an event comes out of turn or too late, or a request has no
    /// reply; or memory ran out.
    Events(AuditError),
    /// The record of this number, and those behind it, have no times.
    Untimed { record: u64 },
    /// The entry of this number, and those behind it, have no records.
    Spare { entry: u64 },
}
