//! A set of sessions, gathered from the files of each.
ghost use Rattle.std.specs.Prelude.{◌≡◌, ◌++◌, ◌∷◌, ℕ, List, [], IfOk, IfErr, OnOk, OnErr};
ghost use Rattle.sftp_tree.specs.Picture.{IsStart};
ghost use Rattle.sftp_together.specs.Checks.{IsFirstFault, IsNoJudgement};
ghost use Rattle.sftp_audit.specs.Audit.{IsNew};
ghost use Rattle.sftp_gathering.specs.Files.{SessionFiles, IsSetExplained, IsSetExplainedBy};
ghost use Rattle.sftp_gathering.specs.Gathered.{IsGathered, IsNoMember, IsMemberFault, IsUnreadMember};

use crate::clock::SetClock;
use crate::clocks::{TimesOnClock, read_on_clock};
use crate::errors::MemberError;
use sftp_judges::Judges;
use sftp_sets::{SessionSet, audit_set};
use sftp_together::OrderFault;
use sftp_transcript::{Reader, Source};
use sftp_tree::Tree;
use std::alloc::Global;
use std::marker::Model;

/// Sessions that overlapped, read from their files: their numbers are their positions, from 0 on. All of their requests
/// and replies are in memory.
#[derive(Drop)]
pub struct Gathering {
    alloc: Global,
    clock: Option<SetClock>,
    set: SessionSet,
}

impl Model for Gathering {
    ghost use Rattle.sftp_gathering.specs.Gathered.{Gathered};

    ghost Value = { Gathered };

    ghost view = { λ g. record { clock = g.clock; each = g.set } };
}

impl Gathering {
    /// No session.
    pub fn new(alloc: Global) -> Gathering
        ensures { IsGathered [] result }
    {
        Gathering {
            alloc,
            clock: None,
            set: SessionSet::new(alloc),
        }
    }

    /// Adds a session, from its transcript, of which nothing was read yet, and the bytes of its file of times.
    ///
    /// # Errors
    ///
    /// The first fault of the session's files, of which the times are read first; what was gathered stays as it was.
    ///
    /// - `Times` if the file of times is malformed.
    /// - `OtherClock` if the times are on another clock than those of the sessions before.
    /// - `Session` as `read_session` of `sftp_sets` has it.
    pub fn add<R: Source>(
        &mut self,
        records: &mut Reader<R>,
        times: &[u8],
    ) -> Result<(), MemberError>
        // Then the session is gathered, too.
        ensures added { OnOk result ((transcript : List ℕ) → IsNew transcript records.old →
            (each : List SessionFiles) → IsGathered each self.old → (name : List ℕ) →
            IsGathered (each ++ record { name = name; transcript = transcript; times = times.now } ∷ []) self.new) }
        // Files that are refused are those of no session of such a set.
        ensures refused { IfErr result (λ error. (IsUnreadMember error → ⊥) → (transcript : List ℕ) →
            IsNew transcript records.old → (each : List SessionFiles) → IsGathered each self.old → (name : List ℕ) →
            IsNoMember each (record { name = name; transcript = transcript; times = times.now })) }
        // The error is the first fault.
        ensures first { IfErr result (λ error. (IsUnreadMember error → ⊥) → (transcript : List ℕ) →
            IsNew transcript records.old → (name : List ℕ) → IsMemberFault self.old.clock
            (record { name = name; transcript = transcript; times = times.now }) error) }
        ensures kept { OnErr result (self.new ≡ self.old) }
    {
        let TimesOnClock { clock, times } = read_on_clock(self.alloc, self.clock, times)?;
        let added = self.set.add(records, &times);
        drop(times);
        match added {
            Ok(()) => {
                self.clock = Some(clock);
                Ok(())
            }
            Err(error) => Err(MemberError::Session(error)),
        }
    }

    /// Judges the sessions together, from this tree, by an order of all their requests, which has the numbers of the
    /// sessions place by place. `by` is what the judge judges by, and times may be as much as the tolerance apart from
    /// what they say, in nanoseconds. The result is the tree at the end, as if what is still open were closed then.
    ///
    /// # Errors
    ///
    /// The first place at which the order is none, as `audit_together` of `sftp_together` has it.
    pub fn judge<J: Judges>(
        self,
        by: J::By,
        start: Tree,
        places: &[u16],
        tolerance: u64,
    ) -> Result<Tree, OrderFault>
        // The files that were gathered, and each tree file of the tree, are explained, with this end.
        ensures accepted { IfOk result (λ end. (each : List SessionFiles) → IsGathered each self → (tree : List ℕ) →
            IsStart start tree → IsSetExplained J.allowed (J.begun by) J.closed tolerance tree each end) }
        // A refused order explains nothing.
        ensures refused { IfErr result (λ fault. (IsNoJudgement fault → ⊥) → (each : List SessionFiles) →
            IsGathered each self → (tree : List ℕ) → IsStart start tree →
            IsSetExplainedBy J.allowed (J.begun by) tolerance tree each places.now → ⊥) }
        // The error is the first place at which it is none.
        ensures first { IfErr result (IsFirstFault J.allowed (J.begun by start) tolerance self.each places.now) }
    {
        audit_set::<J>(by, start, self.set, places, tolerance)
    }
}
