//! Audits of bytes in memory, and of streams.
ghost use Rattle.std.specs.Prelude.{◌≡◌, ◌≢◌, ℕ, [], List, None, false, IfOk, IfErr, MatchResult};
ghost use Rattle.sftp_audit.specs.declared.errors.AuditError.TheVariants.{NoMemory};
ghost use Rattle.sftp_tree.specs.Tree as values;
ghost use Rattle.sftp_tree.specs.Picture.{picture};
ghost use Rattle.sftp_audit.specs.Audit.{Accounts, AccountsBy, IsFirstFault, IsFirstFaultBy, IsNoJudgement};
ghost use Rattle.sftp_audit.specs.Audit.{CountsFailure, IsExcusedBy, IsNew};
ghost use Rattle.sftp_audit.specs.Audit.{HasStart, JudgesTree, IsPlain, IsToldBy, request_count};

use crate::errors::AuditError;
use crate::trees::{Ended, audit_tree_by};
use sftp_handles::{GivenTable, Session};
use sftp_judges::Judges;
use sftp_transcript::{Memory, Reader, Source};
use sftp_tree::Tree;
use std::alloc::Global;

/// The result of an accepted session.
#[derive(Debug, Drop)]
pub struct Accepted {
    /// The tree file of the tree after the last request, with every handle closed.
    pub tree: Vec<u8>,
    /// How many requests there were, up to 2^64 - 1.
    pub requests: u64,
}

/// Says whether a tree allows every reply of a recorded session, in whatever order the replies came, and what
/// tree the session ends in.
///
/// It accepts exactly if the bytes of the tree file are a tree, those of the transcript file record a session, the
/// replies pair off with earlier requests, each within 1,024 requests, and each reply is allowed when the requests are
/// carried out singly and in sequence (draft-ietf-secsh-filexfer-02, section 6.1). The session starts with nothing
/// open. A handle is open from the reply that gives it until its CLOSE is done; the names of handles are the server's
/// own choice, but no reply gives a handle that is open. A file that is removed while it is open lives until its last
/// handle is closed. The end is taken as if the handles that are still open were closed then, and files without a name
/// are not in it.
///
/// # Errors
///
/// The tree file is judged first; then the records of the transcript, one after the other, each with its event; and
/// last whether each request has its reply. The first error is returned.
///
/// - `Tree` if the bytes are not a tree file; the fault is the first one from left to right.
/// - `Transcript` if a record has a fault, with its number; the events before it are not refused.
/// - `Refused` if the tree does not explain the session, whatever else would follow, with the number of a record: of a
///   reply whose id no unanswered request has; of a request whose id an unanswered one has, or which comes too late for
///   an unanswered one; of the first reply, in the order asked, that is not allowed; or of the oldest request without a
///   reply.
/// - `NoMemory` if memory ran out. The other errors never have `NoMemory` inside.
pub fn audit(alloc: Global, tree: &[u8], transcript: &[u8]) -> Result<Accepted, AuditError>
    // An accepted session accounts for a run, and the result is the tree where it ends.
    ensures accepted { IfOk result (λ accepted. (start : values.Tree) × (events : List _) × (end : values.Tree)
        × Accounts tree.now transcript.now start events end
        × (accepted.tree.items ≡ picture end)
        × (accepted.requests ≡ request_count events)) }
    // A refused session accounts for no run, unless memory ran out.
    ensures refused { IfErr result (λ e. e ≢ NoMemory → (start : values.Tree) (events : List _) (end : values.Tree)
        → Accounts tree.now transcript.now start events end → ⊥) }
    // The error is the first fault.
    ensures first { IfErr result (IsFirstFault tree.now transcript.now) }
    // It is never `Io`, since bytes in memory can be read.
    ensures never_fails { IfErr result (IsExcusedBy false) }
    ensures plain { IfErr result IsPlain }
{
    audit_by::<Session<GivenTable>>(alloc, (), tree, transcript)
}

/// Audits a session as `audit` does, by a judge that is made by `by`: it accepts exactly if the judge allows each reply
/// when the requests are carried out singly and in sequence. `audit` is this call by the strict judge.
///
/// # Errors
///
/// Those of `audit`; a reply counts as allowed if the judge allows it.
pub fn audit_by<J: Judges>(
    alloc: Global,
    by: J::By,
    tree: &[u8],
    transcript: &[u8],
) -> Result<Accepted, AuditError>
    // An accepted session accounts for a run, and the result is the tree where it ends.
    ensures accepted { IfOk result (λ accepted. (start : values.Tree) × (events : List _) × (end : values.Tree)
        × AccountsBy J.allowed (J.begun by) J.closed tree.now transcript.now start events end
        × (accepted.tree.items ≡ picture end)
        × (accepted.requests ≡ request_count events)) }
    // A refused session accounts for no run, unless memory ran out.
    ensures refused { IfErr result (λ e. e ≢ NoMemory → (start : values.Tree) (events : List _) (end : values.Tree)
        → AccountsBy J.allowed (J.begun by) J.closed tree.now transcript.now start events end → ⊥) }
    // The error is the first fault.
    ensures first { IfErr result (IsFirstFaultBy J.allowed (J.begun by) tree.now transcript.now) }
    // It is never `Io`, since bytes in memory can be read.
    ensures never_fails { IfErr result (IsExcusedBy false) }
    ensures plain { IfErr result IsPlain }
{
    let mut records = Reader::new(alloc, Memory::new(transcript))?;
    let mut follows = true;
    let audited = audit_stream_by::<J, Memory<'_>>(alloc, by, tree, &mut records, &mut follows);
    drop(records);
    audited
}

/// Audits a session whose transcript is read from a stream, as `audit` does. The reader has read nothing yet. Of the
/// transcript it keeps what the reader holds, and the requests from the oldest unanswered one on with their replies.
///
/// # Errors
///
/// Those of `audit`, and `Transcript` with `Io` if the source fails, which says nothing about the session.
pub fn audit_stream<R: Source>(
    alloc: Global,
    tree: &[u8],
    records: &mut Reader<R>,
) -> Result<Accepted, AuditError>
    // Of a reader that has read nothing yet, whatever bytes its source has.
    ensures accepted { IfOk result (λ accepted. (transcript : List ℕ) → IsNew transcript records.old →
        (start : values.Tree) × (events : List _) × (end : values.Tree)
        × Accounts tree.now transcript start events end
        × (accepted.tree.items ≡ picture end)
        × (accepted.requests ≡ request_count events)) }
    ensures refused { IfErr result (λ e. (IsNoJudgement e → ⊥) → (transcript : List ℕ) → IsNew transcript records.old →
        (start : values.Tree) (events : List _) (end : values.Tree)
        → Accounts tree.now transcript start events end → ⊥) }
    ensures first { IfErr result (λ e. (IsNoJudgement e → ⊥) → (transcript : List ℕ) → IsNew transcript records.old →
        IsFirstFault tree.now transcript e) }
    // The tree file is judged first, whatever the reader did before.
    ensures judged { MatchResult result (λ _. HasStart tree.now) (JudgesTree tree.now) }
    // The source failed once where the error is `Io`, and otherwise never.
    ensures counts { records.old.fault ≡ None → MatchResult result
        (λ _. records.new.ahead.failures ≡ records.old.ahead.failures)
        (λ e. CountsFailure e records.old.ahead.failures records.new.ahead.failures) }
    ensures may_fail { records.old.fault ≡ None → IfErr result (IsExcusedBy R.may_fail) }
    ensures plain { IfErr result IsPlain }
{
    let mut follows = true;
    audit_stream_by::<Session<GivenTable>, R>(alloc, (), tree, records, &mut follows)
}

/// Audits a session whose transcript is read from a stream, by a judge that is made by `by`. It keeps as much of the
/// transcript as `audit_stream` does. `follows` is set to whether the judge follows the session up to where it is
/// refused: if not, a request was an extension that the judge does not know and that may have changed anything, or did
/// what the tree cannot hold.
///
/// # Errors
///
/// Those of `audit_by`, and `Transcript` with `Io` if the source fails, which says nothing about the session.
pub fn audit_stream_by<J: Judges, R: Source>(
    alloc: Global,
    by: J::By,
    tree: &[u8],
    records: &mut Reader<R>,
    follows: &mut bool,
) -> Result<Accepted, AuditError>
    // Of a reader that has read nothing yet, whatever bytes its source has.
    ensures accepted { IfOk result (λ accepted. (transcript : List ℕ) → IsNew transcript records.old →
        (start : values.Tree) × (events : List _) × (end : values.Tree)
        × AccountsBy J.allowed (J.begun by) J.closed tree.now transcript start events end
        × (accepted.tree.items ≡ picture end)
        × (accepted.requests ≡ request_count events)) }
    ensures refused { IfErr result (λ e. (IsNoJudgement e → ⊥) → (transcript : List ℕ) → IsNew transcript records.old →
        (start : values.Tree) (events : List _) (end : values.Tree)
        → AccountsBy J.allowed (J.begun by) J.closed tree.now transcript start events end → ⊥) }
    ensures first { IfErr result (λ e. (IsNoJudgement e → ⊥) → (transcript : List ℕ) → IsNew transcript records.old →
        IsFirstFaultBy J.allowed (J.begun by) tree.now transcript e) }
    ensures told { IfErr result (λ e. (IsNoJudgement e → ⊥) → (transcript : List ℕ) → IsNew transcript records.old →
        IsToldBy J.allowed J.follows (J.begun by) tree.now transcript follows.new e) }
    // The tree file is judged first, whatever the reader did before.
    ensures judged { MatchResult result (λ _. HasStart tree.now) (JudgesTree tree.now) }
    // The source failed once where the error is `Io`, and otherwise never.
    ensures counts { records.old.fault ≡ None → MatchResult result
        (λ _. records.new.ahead.failures ≡ records.old.ahead.failures)
        (λ e. CountsFailure e records.old.ahead.failures records.new.ahead.failures) }
    ensures may_fail { records.old.fault ≡ None → IfErr result (IsExcusedBy R.may_fail) }
    ensures plain { IfErr result IsPlain }
{
    *follows = true;
    let start = Tree::read(alloc, tree)?;
    let Ended {
        tree: end,
        requests,
    } = audit_tree_by::<J, R>(by, start, records, follows)?;
    let written = end.write();
    drop(end);
    let tree = written?;
    Ok(Accepted { tree, requests })
}
