//! Trees that are inferred from a session, each judged by the audit before it is believed.
ghost use Rattle.std.specs.Prelude.{◌≡◌, List, ℕ, Bool, false, None, Some, IfOk, MatchOption};
ghost use Rattle.sftp_tree.specs.Tree as values;
ghost use Rattle.sftp_tree.specs.Picture.{picture};
ghost use Rattle.sftp_audit.specs.Audit.{Accounts, AccountsBy, request_count};
ghost use Rattle.sftp_infer.specs.Texts.{bytes_of};
ghost use Rattle.sftp_profile.specs.declared.profiles.Profile.{Profile as profile};
ghost use Rattle.sftp_verdicts.specs.Verdicts.{AccountsUnder};
ghost use Rattle.sftp_inferring.specs.Inferences.{IsJudged, IsExplained};

use sftp_audit::{AuditError, Ended as End, Refusal, TranscriptError, audit_streams_by};
use sftp_handles::{GivenTable, Session};
use sftp_infer::{Candidate, Excess, Search, Step, TextStream, TreeText};
use sftp_judges::Judges;
use sftp_path::NoMemory;
use sftp_profile::{Judge, Profile};
use sftp_transcript::{Memory, Reader};
use std::alloc::Global;

/// How many trees are judged at most.
const TREES: u32 = 1_000;

/// What the audit of a session gave that is accepted.
#[derive(Drop)]
pub(crate) struct Ended {
    /// How many requests there were.
    pub(crate) requests: u64,
    /// The tree file of the tree at the end, if it was asked for.
    pub(crate) tree: Option<Vec<u8>>,
}

/// A tree that explains a session, and what the audit of the session with it gave.
#[derive(Drop)]
pub(crate) struct Inferred<'a> {
    pub(crate) candidate: Candidate<'a>,
    pub(crate) ended: Ended,
}

/// How trees are judged.
#[derive(Clone, Copy)]
pub(crate) struct Judging {
    pub(crate) alloc: Global,
    /// The profile, if replies are not judged strictly.
    pub(crate) by: Option<Profile>,
    /// Whether the tree at the end is wanted.
    pub(crate) wants_end: bool,
}

/// What a search for a tree comes to.
#[derive(Drop)]
pub(crate) enum Found<'a> {
    /// The session is accepted with this tree.
    Inferred(Inferred<'a>),
    /// The session is refused with every tree, since its records do not pair off.
    Refused(Refusal),
    /// The transcript is malformed.
    Malformed(TranscriptError),
    /// No tree was found.
    Nothing,
    /// The tree of what the session tells would be larger than it may.
    TooLarge(Excess),
    /// The tree at hand was refused at this record.
    Unfit(u64),
    /// Memory ran out.
    OutOfMemory,
}

/// Audits a session with a tree: strictly, or under a profile.
pub(crate) fn judge(how: Judging, tree: &TreeText<'_>, session: &[u8]) -> Result<Ended, AuditError>
    ensures strictly { how.by ≡ None → IsJudged Accounts how.wants_end (bytes_of tree.now) session.now result }
    ensures under { (it : profile) → how.by ≡ Some it →
        IsJudged (AccountsUnder it) how.wants_end (bytes_of tree.now) session.now result }
{
    match how.by {
        None => judge_strictly(how, tree, session),
        Some(profile) => judge_under(how, profile, tree, session),
    }
}

fn judge_strictly(how: Judging, tree: &TreeText<'_>, session: &[u8]) -> Result<Ended, AuditError>
    ensures { IsJudged Accounts how.wants_end (bytes_of tree.now) session.now result }
{
    judge_by::<Session<GivenTable>>(how, (), tree, session)
}

fn judge_under(
    how: Judging,
    profile: Profile,
    tree: &TreeText<'_>,
    session: &[u8],
) -> Result<Ended, AuditError>
    ensures { IsJudged (AccountsUnder profile) how.wants_end (bytes_of tree.now) session.now result }
{
    judge_by::<Judge>(how, profile, tree, session)
}

/// Audits a session. The tree is made from the stream of its file, which is in memory nowhere.
fn judge_by<J: Judges>(
    how: Judging,
    by: J::By,
    tree: &TreeText<'_>,
    session: &[u8],
) -> Result<Ended, AuditError>
    ensures { IsJudged (AccountsBy J.allowed (J.begun by) J.closed) how.wants_end (bytes_of tree.now) session.now
        result }
{
    match audit_text::<J>(how.alloc, by, tree, session) {
        Ok(end) => outcome_of(how, end),
        Err(error) => Err(error),
    }
}

fn audit_text<J: Judges>(
    alloc: Global,
    by: J::By,
    tree: &TreeText<'_>,
    session: &[u8],
) -> Result<End, AuditError>
    ensures { IfOk result (λ end. (start : values.Tree) × (events : List _)
        × AccountsBy J.allowed (J.begun by) J.closed (bytes_of tree.now) session.now start events end.tree
        × (end.requests ≡ request_count events)) }
{
    match Reader::new(alloc, Memory::new(session)) {
        Ok(mut records) => {
            let mut follows = true;
            let audited = audit_streams_by::<J, TextStream<'_>, Memory<'_>>(
                alloc,
                by,
                tree.stream(),
                &mut records,
                &mut follows,
            );
            drop(records);
            audited
        }
        Err(error) => Err(AuditError::from(error)),
    }
}

/// What an audit gave, with the tree file of the end only if it is wanted.
fn outcome_of(how: Judging, end: End) -> Result<Ended, AuditError>
    ensures requests { IfOk result (λ ended. ended.requests ≡ end.requests) }
    ensures tree { IfOk result (λ ended. MatchOption ended.tree (how.wants_end ≡ false)
        (λ bytes. bytes.items ≡ picture end.tree)) }
{
    let requests = end.requests;
    let written = if how.wants_end {
        Some(end.tree.write())
    } else {
        None
    };
    drop(end);
    match written {
        Some(Ok(tree)) => Ok(Ended {
            requests,
            tree: Some(tree),
        }),
        Some(Err(_no_memory)) => Err(AuditError::NoMemory),
        None => Ok(Ended {
            requests,
            tree: None,
        }),
    }
}

/// Judges a session with the tree that a search gave.
fn judged<'a>(how: Judging, session: &[u8], candidate: Candidate<'a>) -> Found<'a>
    ensures strictly { how.by ≡ None → IsExplained Accounts how.wants_end session.now result }
    ensures under { (it : profile) → how.by ≡ Some it →
        IsExplained (AccountsUnder it) how.wants_end session.now result }
{
    match judge(how, &candidate.tree, session) {
        Ok(ended) => Found::Inferred(Inferred { candidate, ended }),
        Err(error) => {
            drop(candidate);
            found_by(error)
        }
    }
}

/// What the error of an audit says of a session and its tree.
fn found_by<'a>(error: AuditError) -> Found<'a>
    ensures strictly { (wanted : Bool) (session : List ℕ) → IsExplained Accounts wanted session result }
    ensures under { (wanted : Bool) (session : List ℕ) (it : profile) →
        IsExplained (AccountsUnder it) wanted session result }
{
    match error {
        AuditError::Refused(Refusal::NotAllowed { record }) => Found::Unfit(record),
        AuditError::Refused(refusal) => Found::Refused(refusal),
        AuditError::Transcript(error) => Found::Malformed(error),
        AuditError::Tree(_) => Found::Unfit(0),
        AuditError::NoMemory => Found::OutOfMemory,
    }
}

/// The next tree of a search, judged.
fn next_judged<'a>(
    how: Judging,
    session: &[u8],
    search: &mut Search<'a>,
) -> Result<Found<'a>, NoMemory>
    ensures strictly { how.by ≡ None → IfOk result (IsExplained Accounts how.wants_end session.now) }
    ensures under { (it : profile) → how.by ≡ Some it →
        IfOk result (IsExplained (AccountsUnder it) how.wants_end session.now) }
{
    match search.next()? {
        Step::Tree(candidate) => Ok(judged(how, session, candidate)),
        Step::Nothing => Ok(Found::Nothing),
        Step::TooLarge(excess) => Ok(Found::TooLarge(excess)),
    }
}

/// A tree with which a session is accepted, if the search finds one: each tree that it gives is judged by the audit.
pub(crate) fn find<'a>(
    how: Judging,
    session: &[u8],
    search: &mut Search<'a>,
) -> Result<Found<'a>, NoMemory>
    ensures strictly { how.by ≡ None → IfOk result (IsExplained Accounts how.wants_end session.now) }
    ensures under { (it : profile) → how.by ≡ Some it →
        IfOk result (IsExplained (AccountsUnder it) how.wants_end session.now) }
{
    for _ in 0..TREES {
        match next_judged(how, session, search)? {
            Found::Unfit(number) => search.refuse(number)?,
            found => return Ok(found),
        }
    }
    Ok(Found::Nothing)
}
