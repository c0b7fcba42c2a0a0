//! A set of sessions that overlapped, judged together.
ghost use Rattle.std.specs.Prelude.{◌≡◌, ◌++◌, ◌∷◌, ℕ, List, [], IfOk, IfErr, OnOk, OnErr};
ghost use Rattle.sftp_together.specs.Sets.{TimedEvent, timed_exchanges, AreExplained};
ghost use Rattle.sftp_together.specs.Checks.{ExplainsBy, IsFirstFault as IsFirstFaultOf, IsNoJudgement};
ghost use Rattle.sftp_audit.specs.Audit.{IsNew};
ghost use Rattle.sftp_sets.specs.Sessions.{IsSession, IsUnread, IsFirstFault, AreRead};

use crate::errors::SessionError;
use crate::reading::read_session;
use crate::times::RecordTimes;
use sftp_audit::AuditError;
use sftp_judges::Judges;
use sftp_together::{OrderFault, Queue, Queued, audit_together};
use sftp_transcript::{Reader, Source};
use sftp_tree::Tree;
use std::alloc::Global;
use std::marker::Model;

/// The sessions of a set, as they were read: their numbers are their positions, from 0 on. All of their exchanges are
/// in memory.
#[derive(Drop)]
pub struct SessionSet {
    alloc: Global,
    each: Vec<Queue>,
}

impl Model for SessionSet {
    ghost use Rattle.std.specs.Prelude.{List};
    ghost use Rattle.sftp_together.specs.declared.exchanges.TimedExchange.{TimedExchange};

    ghost Value = { List (List TimedExchange) };

    ghost view = { λ s. s.each.items };
}

impl SessionSet {
    /// No session.
    pub fn new(alloc: Global) -> SessionSet
        ensures { result ≡ [] }
    {
        SessionSet {
            alloc,
            each: Vec::new(alloc),
        }
    }

    /// Reads a further session from its transcript, of which nothing was read yet, and the times of its records.
    ///
    /// # Errors
    ///
    /// Those of `read_session`; the set then has the sessions that it had.
    pub fn add<R: Source>(
        &mut self,
        records: &mut Reader<R>,
        times: &RecordTimes,
    ) -> Result<(), SessionError>
        ensures added { OnOk result ((transcript : List ℕ) → IsNew transcript records.old →
            (session : List TimedEvent) × IsSession transcript times.now.start times.now.entries.items session
            × (self.new ≡ self.old ++ timed_exchanges session ∷ [])) }
        ensures refused { IfErr result (λ error. (IsUnread error → ⊥) → (transcript : List ℕ) →
            IsNew transcript records.old → (session : List TimedEvent) →
            IsSession transcript times.now.start times.now.entries.items session → ⊥) }
        ensures first { IfErr result (λ error. (IsUnread error → ⊥) → (transcript : List ℕ) →
            IsNew transcript records.old → IsFirstFault transcript times.now.entries.items error) }
        ensures kept { OnErr result (self.new ≡ self.old) }
    {
        let session = read_session(self.alloc, records, times)?;
        match self.each.push(session) {
            Ok(()) => Ok(()),
            Err(failed) => {
                drop(failed);
                Err(SessionError::Events(AuditError::NoMemory))
            }
        }
    }
}

/// Audits a set of sessions that overlapped on one tree, by an order of all their requests, as `audit_together` does.
/// `by` is what the judge judges by. The result is the tree at the end, as if what is still open were closed then.
///
/// # Errors
///
/// Those of `audit_together`: the first place at which the order is none.
pub fn audit_set<J: Judges>(
    by: J::By,
    start: Tree,
    set: SessionSet,
    order: &[u16],
    tolerance: u64,
) -> Result<Tree, OrderFault>
    // The sessions that were read are explained, and the result is the tree where their run ends.
    ensures accepted { IfOk result (λ end. (sessions : List (List TimedEvent)) → AreRead sessions set → (last : J)
        × AreExplained J.allowed (J.begun by start) tolerance sessions last × (end ≡ J.closed last)) }
    // A refused order explains nothing.
    ensures refused { IfErr result (λ fault. (IsNoJudgement fault → ⊥) → (last : J) →
        ExplainsBy J.allowed (J.begun by start) tolerance set order.now last → ⊥) }
    // The error is the first place at which it is none.
    ensures first { IfErr result (IsFirstFaultOf J.allowed (J.begun by start) tolerance set order.now) }
{
    let mut sessions = Queued::new(set.each);
    let judged = audit_together::<J, Queued>(by, start, &mut sessions, order, tolerance);
    drop(sessions);
    judged
}
