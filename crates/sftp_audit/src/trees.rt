//! Audits that start from a tree, and return the tree at the end.
ghost use Rattle.std.specs.Prelude.{◌≡◌, ℕ, List, Some, None, IfOk, IfErr, MatchResult};
ghost use Rattle.sftp_tree.specs.Tree as values;
ghost use Rattle.sftp_audit.specs.Audit.{AccountsBy, IsFirstFaultBy, IsNoJudgement, CountsFailure, IsExcusedBy, IsNew};
ghost use Rattle.sftp_audit.specs.Audit.{HasStart, IsPlain, IsToldBy, IsTreeError, request_count};
ghost use Rattle.sftp_audit.specs.Trees.{AccountsFrom, IsFirstFaultFrom, IsToldFrom};
ghost use Rattle.sftp_audit.specs.Trees.{IsUnjudged, JudgesTreeUnless, IsExcusedByBoth};

use crate::errors::AuditError;
use crate::feeding::{Fed, begin_and_feed};
use sftp_judges::Judges;
use sftp_transcript::{Reader, Source};
use sftp_tree::Tree;
use std::alloc::Global;

/// The result of an accepted session, with its tree in memory.
#[derive(Drop)]
pub struct Ended {
    /// The tree after the last request, with every handle closed.
    pub tree: Tree,
    /// How many requests there were, up to 2^64 - 1.
    pub requests: u64,
}

/// Audits a session that begins on this tree, by a judge that is made by `by`. The transcript is read from a stream: of
/// it no more is kept than by `audit_stream`. The tree is changed in place, so that no second one is in memory, and no
/// tree file is. `follows` is set as by `audit_stream_by`.
///
/// # Errors
///
/// Those of `audit_stream_by`, but never `Tree`.
pub fn audit_tree_by<J: Judges, R: Source>(
    by: J::By,
    start: Tree,
    records: &mut Reader<R>,
    follows: &mut bool,
) -> Result<Ended, AuditError>
    // Of a reader that has read nothing yet, whatever bytes its source has.
    ensures accepted { IfOk result (λ ended. (transcript : List ℕ) → IsNew transcript records.old →
        (events : List _)
        × AccountsFrom J.allowed J.closed (J.begun by start) transcript events ended.tree
        × (ended.requests ≡ request_count events)) }
    ensures refused { IfErr result (λ e. (IsNoJudgement e → ⊥) → (transcript : List ℕ) → IsNew transcript records.old →
        (events : List _) (end : values.Tree)
        → AccountsFrom J.allowed J.closed (J.begun by start) transcript events end → ⊥) }
    ensures first { IfErr result (λ e. (IsNoJudgement e → ⊥) → (transcript : List ℕ) → IsNew transcript records.old →
        IsFirstFaultFrom J.allowed (J.begun by start) transcript e) }
    ensures told { IfErr result (λ e. (IsNoJudgement e → ⊥) → (transcript : List ℕ) → IsNew transcript records.old →
        IsToldFrom J.allowed J.follows (J.begun by start) transcript follows.new e) }
    // Whatever the reader did before.
    ensures treeless { IfErr result (λ e. IsTreeError e → ⊥) }
    // The source failed once where the error is `Io`, and otherwise never.
    ensures counts { records.old.fault ≡ None → MatchResult result
        (λ _. records.new.ahead.failures ≡ records.old.ahead.failures)
        (λ e. CountsFailure e records.old.ahead.failures records.new.ahead.failures) }
    ensures may_fail { records.old.fault ≡ None → IfErr result (IsExcusedBy R.may_fail) }
    ensures plain { IfErr result IsPlain }
{
    let Fed { auditor, requests } = begin_and_feed::<J, R>(by, start, records, follows)?;
    let tree = auditor.end()?;
    Ok(Ended { tree, requests })
}

/// Audits a session whose tree file and transcript are both read from streams, by a judge that is made by `by`. The
/// whole tree file is read first. No more of it is held than the tree and a buffer.
///
/// # Errors
///
/// Those of `audit_stream_by`, and `Tree` with `Io` if the source of the tree file fails, which says nothing about the
/// session.
pub fn audit_streams_by<J: Judges, T: Source, R: Source>(
    alloc: Global,
    by: J::By,
    tree: T,
    records: &mut Reader<R>,
    follows: &mut bool,
) -> Result<Ended, AuditError>
where
    T: Drop,
    // Of a source of these bytes, and a reader that has read nothing yet, whatever bytes its source has.
    ensures accepted { IfOk result (λ ended. (bytes transcript : List ℕ) → T.left tree ≡ Some bytes →
        IsNew transcript records.old → (start : values.Tree) × (events : List _)
        × AccountsBy J.allowed (J.begun by) J.closed bytes transcript start events ended.tree
        × (ended.requests ≡ request_count events)) }
    ensures refused { IfErr result (λ e. (IsUnjudged e → ⊥) → (bytes transcript : List ℕ) → T.left tree ≡ Some bytes →
        IsNew transcript records.old → (start : values.Tree) (events : List _) (end : values.Tree)
        → AccountsBy J.allowed (J.begun by) J.closed bytes transcript start events end → ⊥) }
    ensures first { IfErr result (λ e. (IsUnjudged e → ⊥) → (bytes transcript : List ℕ) → T.left tree ≡ Some bytes →
        IsNew transcript records.old → IsFirstFaultBy J.allowed (J.begun by) bytes transcript e) }
    ensures told { IfErr result (λ e. (IsUnjudged e → ⊥) → (bytes transcript : List ℕ) → T.left tree ≡ Some bytes →
        IsNew transcript records.old → IsToldBy J.allowed J.follows (J.begun by) bytes transcript follows.new e) }
    // The tree file is judged first, whatever the reader did before.
    ensures judged { (bytes : List ℕ) → T.left tree ≡ Some bytes →
        MatchResult result (λ _. HasStart bytes) (JudgesTreeUnless bytes) }
    // The source of the transcript failed once where the error is its `Io`, and otherwise never.
    ensures counts { records.old.fault ≡ None → MatchResult result
        (λ _. records.new.ahead.failures ≡ records.old.ahead.failures)
        (λ e. CountsFailure e records.old.ahead.failures records.new.ahead.failures) }
    ensures may_fail { records.old.fault ≡ None → IfErr result (IsExcusedByBoth T.may_fail R.may_fail) }
    ensures plain { IfErr result IsPlain }
{
    *follows = true;
    let start = Tree::read_from(alloc, tree)?;
    audit_tree_by::<J, R>(by, start, records, follows)
}
