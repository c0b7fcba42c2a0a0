//! Audits of cut sessions, in which requests may still wait for their replies.
ghost use Rattle.std.specs.Prelude.{◌≡◌, ℕ, List, None, IfOk, IfErr, MatchResult};
ghost use Rattle.sftp_tree.specs.Tree as values;
ghost use Rattle.sftp_tree.specs.Picture.{picture};
ghost use Rattle.sftp_audit.specs.Exchanges.{recorded_exchanges};
ghost use Rattle.sftp_audit.specs.Audit.{IsFirstFault, IsFirstFaultBy, IsNoJudgement, CountsFailure, IsExcusedBy};
ghost use Rattle.sftp_audit.specs.Audit.{IsNew, HasStart, JudgesTree, IsPlain, IsToldBy, IsTreeError, request_count};
ghost use Rattle.sftp_audit.specs.Cuts.{AccountsCut, AccountsCutBy, IsUnanswered, unanswered_count, unsettled_count};
ghost use Rattle.sftp_audit.specs.Trees.{AccountsCutFrom, IsFirstFaultFrom, IsToldFrom};

use crate::errors::AuditError;
use crate::feeding::{Fed, begin_and_feed};
use sftp_handles::{GivenTable, Session};
use sftp_judges::Judges;
use sftp_transcript::{Reader, Source};
use sftp_tree::Tree;
use std::alloc::Global;

/// The result of an accepted session in which requests may still wait for their replies.
#[derive(Debug, Drop)]
pub struct AcceptedCut {
    /// The tree file of the tree after the requests before the oldest unanswered one, with every handle closed.
    pub tree: Vec<u8>,
    /// How many requests there were, up to 2^64 - 1.
    pub requests: u64,
    /// How many of them are not settled, since a reply that is still to come may be the one to a request before them:
    /// those from the oldest unanswered one on, at most 1,024.
    pub unsettled: usize,
    /// How many of them have no reply.
    pub unanswered: usize,
}

/// Audits a session that was cut, as `audit_stream` does one that is complete: the requests before the oldest
/// unanswered one are judged, and of those from that one on only the turns of their ids and the window. A complete
/// session is accepted exactly if `audit_stream` accepts it, with the same tree.
///
/// # Errors
///
/// Those of `audit_stream` but for `Unanswered`.
pub fn audit_cut_stream<R: Source>(
    alloc: Global,
    tree: &[u8],
    records: &mut Reader<R>,
) -> Result<AcceptedCut, AuditError>
    // Of a reader that has read nothing yet, whatever bytes its source has.
    ensures accepted { IfOk result (λ accepted. (transcript : List ℕ) → IsNew transcript records.old →
        (start : values.Tree) × (events : List _) × (end : values.Tree)
        × AccountsCut tree.now transcript start events end
        × (accepted.tree.items ≡ picture end)
        × (accepted.requests ≡ request_count events)
        × (accepted.unsettled ≡ unsettled_count events)
        × (accepted.unanswered ≡ unanswered_count (recorded_exchanges events))) }
    ensures refused { IfErr result (λ e. (IsNoJudgement e → ⊥) → (transcript : List ℕ) → IsNew transcript records.old →
        (start : values.Tree) (events : List _) (end : values.Tree)
        → AccountsCut tree.now transcript start events end → ⊥) }
    ensures first { IfErr result (λ e. (IsNoJudgement e → ⊥) → (transcript : List ℕ) → IsNew transcript records.old →
        IsFirstFault tree.now transcript e) }
    // It is not that a request has no reply.
    ensures answered { IfErr result (λ e. (IsNoJudgement e → ⊥) → (transcript : List ℕ) → IsNew transcript records.old →
        IsUnanswered e → ⊥) }
    // The tree file is judged first, whatever the reader did before.
    ensures judged { MatchResult result (λ _. HasStart tree.now) (JudgesTree tree.now) }
    // The source failed once where the error is `Io`, and otherwise never.
    ensures counts { records.old.fault ≡ None → MatchResult result
        (λ _. records.new.ahead.failures ≡ records.old.ahead.failures)
        (λ e. CountsFailure e records.old.ahead.failures records.new.ahead.failures) }
    ensures may_fail { records.old.fault ≡ None → IfErr result (IsExcusedBy R.may_fail) }
    ensures plain { IfErr result IsPlain }
{
    let mut follows = true;
    audit_cut_stream_by::<Session<GivenTable>, R>(alloc, (), tree, records, &mut follows)
}

/// Audits a session that was cut, as `audit_cut_stream` does, by a judge that is made by `by`. `follows` is set to
/// whether the judge follows the session up to where it is refused, as by `audit_stream_by`.
///
/// # Errors
///
/// Those of `audit_stream_by` but for `Unanswered`.
pub fn audit_cut_stream_by<J: Judges, R: Source>(
    alloc: Global,
    by: J::By,
    tree: &[u8],
    records: &mut Reader<R>,
    follows: &mut bool,
) -> Result<AcceptedCut, AuditError>
    // Of a reader that has read nothing yet, whatever bytes its source has.
    ensures accepted { IfOk result (λ accepted. (transcript : List ℕ) → IsNew transcript records.old →
        (start : values.Tree) × (events : List _) × (end : values.Tree)
        × AccountsCutBy J.allowed (J.begun by) J.closed tree.now transcript start events end
        × (accepted.tree.items ≡ picture end)
        × (accepted.requests ≡ request_count events)
        × (accepted.unsettled ≡ unsettled_count events)
        × (accepted.unanswered ≡ unanswered_count (recorded_exchanges events))) }
    ensures refused { IfErr result (λ e. (IsNoJudgement e → ⊥) → (transcript : List ℕ) → IsNew transcript records.old →
        (start : values.Tree) (events : List _) (end : values.Tree)
        → AccountsCutBy J.allowed (J.begun by) J.closed tree.now transcript start events end → ⊥) }
    ensures first { IfErr result (λ e. (IsNoJudgement e → ⊥) → (transcript : List ℕ) → IsNew transcript records.old →
        IsFirstFaultBy J.allowed (J.begun by) tree.now transcript e) }
    ensures told { IfErr result (λ e. (IsNoJudgement e → ⊥) → (transcript : List ℕ) → IsNew transcript records.old →
        IsToldBy J.allowed J.follows (J.begun by) tree.now transcript follows.new e) }
    // It is not that a request has no reply.
    ensures answered { IfErr result (λ e. (IsNoJudgement e → ⊥) → (transcript : List ℕ) → IsNew transcript records.old →
        IsUnanswered e → ⊥) }
    // The tree file is judged first, whatever the reader did before.
    ensures judged { MatchResult result (λ _. HasStart tree.now) (JudgesTree tree.now) }
    // The source failed once where the error is `Io`, and otherwise never.
    ensures counts { records.old.fault ≡ None → MatchResult result
        (λ _. records.new.ahead.failures ≡ records.old.ahead.failures)
        (λ e. CountsFailure e records.old.ahead.failures records.new.ahead.failures) }
    ensures may_fail { records.old.fault ≡ None → IfErr result (IsExcusedBy R.may_fail) }
    ensures plain { IfErr result IsPlain }
{
    *follows = true;
    let start = Tree::read(alloc, tree)?;
    let EndedCut {
        tree: end,
        requests,
        unsettled,
        unanswered,
    } = audit_cut_tree_by::<J, R>(by, start, records, follows)?;
    let written = end.write();
    drop(end);
    let tree = written?;
    Ok(AcceptedCut {
        tree,
        requests,
        unsettled,
        unanswered,
    })
}

/// The result of an accepted session in which requests may still wait for their replies, with its tree in memory.
#[derive(Drop)]
pub struct EndedCut {
    /// The tree after the requests before the oldest unanswered one, with every handle closed.
    pub tree: Tree,
    /// How many requests there were, up to 2^64 - 1.
    pub requests: u64,
    /// How many of them are not settled, as in `AcceptedCut`.
    pub unsettled: usize,
    /// How many of them have no reply.
    pub unanswered: usize,
}

/// Audits a session that was cut and begins on this tree, as `audit_tree_by` does one that is complete.
///
/// # Errors
///
/// Those of `audit_tree_by` but for `Unanswered`.
pub fn audit_cut_tree_by<J: Judges, R: Source>(
    by: J::By,
    start: Tree,
    records: &mut Reader<R>,
    follows: &mut bool,
) -> Result<EndedCut, AuditError>
    // Of a reader that has read nothing yet, whatever bytes its source has.
    ensures accepted { IfOk result (λ ended. (transcript : List ℕ) → IsNew transcript records.old →
        (events : List _)
        × AccountsCutFrom J.allowed J.closed (J.begun by start) transcript events ended.tree
        × (ended.requests ≡ request_count events)
        × (ended.unsettled ≡ unsettled_count events)
        × (ended.unanswered ≡ unanswered_count (recorded_exchanges events))) }
    ensures refused { IfErr result (λ e. (IsNoJudgement e → ⊥) → (transcript : List ℕ) → IsNew transcript records.old →
        (events : List _) (end : values.Tree)
        → AccountsCutFrom J.allowed J.closed (J.begun by start) transcript events end → ⊥) }
    ensures first { IfErr result (λ e. (IsNoJudgement e → ⊥) → (transcript : List ℕ) → IsNew transcript records.old →
        IsFirstFaultFrom J.allowed (J.begun by start) transcript e) }
    ensures told { IfErr result (λ e. (IsNoJudgement e → ⊥) → (transcript : List ℕ) → IsNew transcript records.old →
        IsToldFrom J.allowed J.follows (J.begun by start) transcript follows.new e) }
    // It is not that a request has no reply.
    ensures answered { IfErr result (λ e. (IsNoJudgement e → ⊥) → (transcript : List ℕ) → IsNew transcript records.old →
        IsUnanswered e → ⊥) }
    // Whatever the reader did before.
    ensures treeless { IfErr result (λ e. IsTreeError e → ⊥) }
    // The source failed once where the error is `Io`, and otherwise never.
    ensures counts { records.old.fault ≡ None → MatchResult result
        (λ _. records.new.ahead.failures ≡ records.old.ahead.failures)
        (λ e. CountsFailure e records.old.ahead.failures records.new.ahead.failures) }
    ensures may_fail { records.old.fault ≡ None → IfErr result (IsExcusedBy R.may_fail) }
    ensures plain { IfErr result IsPlain }
{
    let Fed { auditor, requests } = begin_and_feed::<J, R>(by, start, records, follows)?;
    let unsettled = auditor.kept();
    let unanswered = auditor.unanswered();
    Ok(EndedCut {
        tree: auditor.into_settled(),
        requests,
        unsettled,
        unanswered,
    })
}
