//! A session read from its transcript and its times.
ghost use Rattle.std.specs.Prelude.{◌≡◌, ℕ, List, [], IfOk, IfErr, OnOk};
ghost use Rattle.sftp_together.specs.Sets.{TimedEvent, timed_exchanges};
ghost use Rattle.sftp_audit.specs.Audit.{IsNew, IsNoJudgement, StopsFeed, IsPlain};
ghost use Rattle.sftp_sets.specs.Sessions.{IsSession, IsUnread, IsFirstFault, any};
ghost use Rattle.sftp_sets.specs.Collecting.{WasRead, IsRead};

use crate::collecting::Collected;
use crate::errors::SessionError;
use crate::times::RecordTimes;
use sftp_audit::{AuditError, Refusal};
use sftp_together::Queue;
use sftp_transcript::{Reader, Source};
use std::alloc::Global;

/// Reads a session of a set from its transcript, of which nothing was read yet, and the times of its records. The
/// result has all of its requests in the order asked, each with its reply and with the times of both.
///
/// # Errors
///
/// The first fault of the session: of its transcript, event by event, and then of its times.
///
/// - `Events` with the error that an audit of the session alone would give, if no reply were wrong: a fault of the
///   transcript, `IdInUse`, `Window`, `UnknownReply`, `Unanswered`, or `NoMemory`.
/// - `Untimed` if a record has no entry among the times.
/// - `Spare` if an entry has no record.
pub fn read_session<R: Source>(
    alloc: Global,
    records: &mut Reader<R>,
    times: &RecordTimes,
) -> Result<Queue, SessionError>
    // What is read are the exchanges of the session that the bytes of the transcript and the times are.
    ensures read { IfOk result (λ queue. (transcript : List ℕ) → IsNew transcript records.old →
        (session : List TimedEvent) × IsSession transcript times.now.start times.now.entries.items session
        × (queue ≡ timed_exchanges session)) }
    // Bytes and times that are refused are no session.
    ensures refused { IfErr result (λ error. (IsUnread error → ⊥) → (transcript : List ℕ) →
        IsNew transcript records.old → (session : List TimedEvent) →
        IsSession transcript times.now.start times.now.entries.items session → ⊥) }
    // The error is the first fault.
    ensures first { IfErr result (λ error. (IsUnread error → ⊥) → (transcript : List ℕ) →
        IsNew transcript records.old → IsFirstFault transcript times.now.entries.items error) }
{
    let mut collected = Collected::new(alloc);
    match collect(&mut collected, times, records) {
        Ok(()) => end(collected, times),
        Err(error) => {
            drop(collected);
            Err(SessionError::Events(error))
        }
    }
}

/// Collects all events that are still to come.
///
/// # Errors
///
/// A fault of the next record, or why its event is not taken.
fn collect<R: Source>(
    collected: &mut Collected,
    times: &RecordTimes,
    records: &mut Reader<R>,
) -> Result<(), AuditError>
    requires done { collected.old.done.items ≡ [] }
    requires kept { collected.old.kept.items ≡ [] }
    requires number { collected.old.number ≡ 3 }
    ensures read { OnOk result ((transcript : List ℕ) → IsNew transcript records.old →
        WasRead times.now.start times.now.entries.items transcript collected.new) }
    ensures stopped { IfErr result (λ error. (IsNoJudgement error → ⊥) → (transcript : List ℕ) →
        IsNew transcript records.old → StopsFeed any tt transcript error) }
    ensures plain { IfErr result IsPlain }
{
    // Not by `?` on the event, which would copy it.
    'events: loop {
        match records.next() {
            Ok(Some(event)) => collected.note(times, event)?,
            Ok(None) => return Ok(()),
            Err(error) => return Err(AuditError::from(error)),
        }
    }
}

/// What was collected of a session that is read to its end.
///
/// # Errors
///
/// `Unanswered` if a request has no reply; and `Untimed` or `Spare`.
fn end(collected: Collected, times: &RecordTimes) -> Result<Queue, SessionError>
    ensures { (transcript : List ℕ) → WasRead times.now.start times.now.entries.items transcript collected →
        IsRead times.now.start times.now.entries.items transcript result }
{
    if let Some(waiting) = collected.kept.front() {
        let number = waiting.asked.number;
        drop(collected);
        return Err(SessionError::Events(AuditError::Refused(Refusal::Unanswered {
            record: number,
        })));
    }
    let count = times.entries.len() as u64;
    if count + 1 < collected.number {
        drop(collected);
        return Err(SessionError::Untimed { record: count + 1 });
    }
    if count >= collected.number {
        let number = collected.number;
        drop(collected);
        return Err(SessionError::Spare { entry: number });
    }
    let Collected { done, kept, .. } = collected;
    drop(kept);
    Ok(Queue::new(done))
}
