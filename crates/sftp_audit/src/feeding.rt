//! Feeds an auditor the events of a transcript.
ghost use Rattle.std.specs.Prelude.{◌≡◌, ℕ, [], List, None, true, OnOk, IfOk, IfErr, MatchResult};
ghost use Rattle.sftp_audit.specs.Auditor.{StandsFor};
ghost use Rattle.sftp_audit.specs.Audit.{IsNoJudgement, CountsFailure, IsExcusedBy, IsNew, HasRefused, IsTreeError};
ghost use Rattle.sftp_audit.specs.Audit.{IsPlain, WasFed, StopsFeed, IsToldOf, is_request};

use crate::auditor::Auditor;
use crate::errors::AuditError;
use sftp_judges::Judges;
use sftp_transcript::{Event, Reader, Source};
use sftp_tree::Tree;
use std::alloc::Global;

/// How many bytes the allocator keeps for an audit after they were freed: two windows of WRITEs of 32 KiB, and more.
const KEPT: usize = 8 * 1_048_576;

/// An auditor that was fed a whole transcript, and how many requests that has, up to 2^64 - 1.
#[derive(Drop)]
pub(crate) struct Fed<J: Judges> {
    pub(crate) auditor: Auditor<J>,
    pub(crate) requests: u64,
}

/// Feeds an auditor of a session that begins on this tree the events of a transcript, of which nothing was read yet.
/// The auditor judges by a judge that is made by `by`. `follows` is set to whether the judge follows the session up to
/// where it is refused.
///
/// # Errors
///
/// Those of `feed_all`.
// It has two callers, for sessions that are whole and for those that were cut. Called, and not inlined, it makes an
// audit take 7 percent more instructions: the loop in it then copies each event more often.
#[inline(always)]
pub(crate) fn begin_and_feed<J: Judges, R: Source>(
    by: J::By,
    start: Tree,
    records: &mut Reader<R>,
    follows: &mut bool,
) -> Result<Fed<J>, AuditError>
    ensures fed { IfOk result (λ fed. (transcript : List ℕ) → IsNew transcript records.old →
        WasFed J.allowed (J.begun by start) transcript fed.requests fed.auditor) }
    ensures stopped { IfErr result (λ e. (IsNoJudgement e → ⊥) → (transcript : List ℕ) → IsNew transcript records.old →
        StopsFeed J.allowed (J.begun by start) transcript e) }
    ensures told { IfErr result (λ e. (IsNoJudgement e → ⊥) → (transcript : List ℕ) → IsNew transcript records.old →
        IsToldOf J.allowed J.follows (J.begun by start) transcript follows.new e) }
    ensures treeless { IfErr result (λ e. IsTreeError e → ⊥) }
    ensures counts { records.old.fault ≡ None → MatchResult result
        (λ _. records.new.ahead.failures ≡ records.old.ahead.failures)
        (λ e. CountsFailure e records.old.ahead.failures records.new.ahead.failures) }
    ensures may_fail { records.old.fault ≡ None → IfErr result (IsExcusedBy R.may_fail) }
    ensures plain { IfErr result IsPlain }
    ensures followed { OnOk result (follows.new ≡ true) }
{
    *follows = true;
    keep_freed_memory(start.allocator(), KEPT);
    let mut auditor = Auditor::<J>::by(by, start)?;
    match feed_all(&mut auditor, records) {
        Ok(requests) => Ok(Fed { auditor, requests }),
        Err(error) => {
            *follows = auditor.follows();
            drop(auditor);
            Err(error)
        }
    }
}

/// Has the allocator keep up to so many bytes that were freed, for later, in the place of giving them back to the
/// system: it takes a block of half of them and frees it. It takes no memory that stays, and needs none.
// The GNU C library gives memory at the end of its heap back once that is twice the largest block mapped by itself that
// was freed (M_TRIM_THRESHOLD of mallopt(3)), 128 KiB at first. WRITEs of 32 KiB wait for their replies 64 at a time:
// each window of them was given back, and taken again page by page, which was half of the time of their audit.
// `mallopt` would say it, but is not to be had.
pub fn keep_freed_memory(alloc: Global, most: usize) {
    match Vec::<u8>::with_capacity(alloc, most / 2) {
        Ok(block) => drop(block),
        Err(_no_memory) => {}
    }
}

/// Feeds an auditor the events that are still to come, and returns how many of them are requests, up to 2^64 - 1.
///
/// # Errors
///
/// The first error: `Refused` if an event is refused, which each later call of `judge_event` then returns, `Transcript`
/// if the next record has a fault or the source fails, and `NoMemory` if memory runs out.
#[inline(always)]
pub fn feed_all<J: Judges, R: Source>(
    auditor: &mut Auditor<J>,
    records: &mut Reader<R>,
) -> Result<u64, AuditError>
    // Of a reader that has read nothing yet, and an auditor that stands for no events, from any start.
    ensures fed { IfOk result (λ requests. (start : J) (transcript : List ℕ) → IsNew transcript records.old
        → StandsFor J.allowed start [] auditor.old → WasFed J.allowed start transcript requests auditor.new) }
    ensures stopped { IfErr result (λ e. (IsNoJudgement e → ⊥) → (start : J) (transcript : List ℕ)
        → IsNew transcript records.old → StandsFor J.allowed start [] auditor.old
        → StopsFeed J.allowed start transcript e) }
    // It is then known whether the judge follows the session up to there.
    ensures told { IfErr result (λ e. (IsNoJudgement e → ⊥) → (start : J) (transcript : List ℕ)
        → IsNew transcript records.old → StandsFor J.allowed start [] auditor.old
        → IsToldOf J.allowed J.follows start transcript auditor.new.follows e) }
    // After a refusal the auditor returns it from then on, and no request is kept.
    ensures for_good { IfErr result (λ e. HasRefused e auditor.new) }
    ensures treeless { IfErr result (λ e. IsTreeError e → ⊥) }
    ensures counts { records.old.fault ≡ None → MatchResult result
        (λ _. records.new.ahead.failures ≡ records.old.ahead.failures)
        (λ e. CountsFailure e records.old.ahead.failures records.new.ahead.failures) }
    ensures may_fail { records.old.fault ≡ None → IfErr result (IsExcusedBy R.may_fail) }
    ensures plain { IfErr result IsPlain }
{
    let mut requests: u64 = 0;
    // Not by `?` on the event, which would copy it.
    'events: loop {
        match records.next() {
            Ok(Some(event)) => {
                requests = requests.saturating_add(u64::from(is_request(&event)));
                auditor.judge_event(event)?;
            }
            Ok(None) => return Ok(requests),
            Err(error) => return Err(AuditError::from(error)),
        }
    }
}

/// Whether the event is a request.
fn is_request(event: &Event) -> bool
    ensures { result ≡ is_request event.now }
{
    match event {
        Event::Asked(_) => true,
        Event::Replied(_) => false,
    }
}
