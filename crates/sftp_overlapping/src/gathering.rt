//! The sessions of a set, read from the files of each.
ghost use Rattle.std.specs.Prelude.{◌≡◌, ◌++◌, ◌∷◌, ℕ, List, [], Some, IfOk, IfErr, OnOk};
ghost use Rattle.sftp_audit.specs.Audit.{IsNoJudgement};
ghost use Rattle.sftp_gathering.specs.Files.{SessionFiles};
ghost use Rattle.sftp_gathering.specs.Gathered.{IsGathered, IsNoMember, IsUnreadMember};
ghost use Rattle.sftp_overlapping.specs.Sets.{IsMember, AreMembers, AreNoSessions, IsJudged};

use crate::members::Member;
use crate::rejections::{Cause, Rejection};
use crate::reports::{of_clock, of_spare, of_times, of_transcript, of_untimed};
use sftp_audit::{AuditError, Refusal};
use sftp_files::Failure;
use sftp_gathering::{Gathering, MemberError};
use sftp_sets::SessionError;
use sftp_streams::Tally;
use sftp_times::TimesError;
use sftp_transcript::{Reader, TranscriptError};
use sftp_verdicts::Opens;
use std::alloc::Global;
use std::io::Read;

/// Gathers the sessions of these files.
///
/// # Errors
///
/// The first file that cannot be read, is malformed, or is that of no session.
pub(crate) fn gather<'a, T: Opens<'a>>(
    alloc: Global,
    members: &[Member<'a, T>],
) -> Result<Gathering, Rejection<'a>>
    ensures gathered { IfOk result
        (λ set. (each : List SessionFiles) → AreMembers T.bytes members.now each → IsGathered each set) }
    ensures refused { IfErr result (λ rejection. IsJudged rejection → (each : List SessionFiles) →
        AreMembers T.bytes members.now each → AreNoSessions each) }
{
    let mut set = Gathering::new(alloc);
    match gather_all(alloc, members, &mut set) {
        Ok(()) => Ok(set),
        Err(rejection) => {
            drop(set);
            Err(rejection)
        }
    }
}

/// Adds the sessions of these files to none.
fn gather_all<'a, T: Opens<'a>>(
    alloc: Global,
    members: &[Member<'a, T>],
    set: &mut Gathering,
) -> Result<(), Rejection<'a>>
    requires { IsGathered [] set.old }
    ensures gathered { OnOk result
        ((each : List SessionFiles) → AreMembers T.bytes members.now each → IsGathered each set.new) }
    ensures refused { IfErr result (λ rejection. IsJudged rejection → (each : List SessionFiles) →
        AreMembers T.bytes members.now each → AreNoSessions each) }
{
    'members: for (session, member) in members.iter().enumerate() {
        add_member(alloc, session, member, set)?;
    }
    Ok(())
}

/// Adds the session of this number.
fn add_member<'a, T: Opens<'a>>(
    alloc: Global,
    session: usize,
    member: &Member<'a, T>,
    set: &mut Gathering,
) -> Result<(), Rejection<'a>>
    ensures added { OnOk result ((files : SessionFiles) → IsMember T.bytes member.now files →
        (each : List SessionFiles) → IsGathered each set.old → IsGathered (each ++ files ∷ []) set.new) }
    ensures refused { IfErr result (λ rejection. IsJudged rejection → (files : SessionFiles) →
        IsMember T.bytes member.now files → (each : List SessionFiles) → IsGathered each set.old →
        IsNoMember each files) }
{
    let times = member.times.bytes(alloc)?;
    let transcript = member.transcript.file.open()?;
    let added = add_opened(alloc, transcript, times.as_slice(), set);
    drop(times);
    match added {
        Ok(()) => Ok(()),
        Err(error) => Err(rejection_of(alloc, session, member, error)),
    }
}

/// Adds the session of an open transcript and of the bytes of a file of times.
fn add_opened<F: Read + Drop>(
    alloc: Global,
    transcript: F,
    times: &[u8],
    set: &mut Gathering,
) -> Result<(), MemberError>
    ensures added { OnOk result ((known : List ℕ) → F.remaining transcript ≡ Some known →
        (each : List SessionFiles) → IsGathered each set.old → (name : List ℕ) →
        IsGathered (each ++ record { name = name; transcript = known; times = times.now } ∷ []) set.new) }
    ensures refused { IfErr result (λ error. (IsUnreadMember error → ⊥) → (known : List ℕ) →
        F.remaining transcript ≡ Some known → (each : List SessionFiles) → IsGathered each set.old →
        (name : List ℕ) → IsNoMember each (record { name = name; transcript = known; times = times.now })) }
{
    match Reader::new(alloc, Tally::new(transcript)) {
        Ok(mut records) => {
            let added = set.add(&mut records, times);
            drop(records);
            added
        }
        Err(error) => Err(MemberError::Session(SessionError::Events(AuditError::from(error)))),
    }
}

/// Why the session of this number is not added.
fn rejection_of<'a, T>(
    alloc: Global,
    session: usize,
    member: &Member<'a, T>,
    error: MemberError,
) -> Rejection<'a>
    ensures judged { IsJudged result → IsUnreadMember error → ⊥ }
{
    let transcript = member.transcript.path;
    let times = member.times.path;
    match error {
        MemberError::Times(TimesError::NoMemory) => Rejection::Failed(Failure::OutOfMemory),
        MemberError::Times(fault) => Rejection::Failed(of_times(alloc, times, fault)),
        MemberError::OtherClock => Rejection::Failed(of_clock(alloc, times)),
        MemberError::Session(SessionError::Untimed { record }) => {
            Rejection::Failed(of_untimed(alloc, times, record))
        }
        MemberError::Session(SessionError::Spare { entry }) => {
            Rejection::Failed(of_spare(alloc, times, entry))
        }
        MemberError::Session(SessionError::Events(error)) => {
            rejection_of_events(alloc, session, transcript, error)
        }
    }
}

/// Why the session of this number, whose transcript has this name, is not added.
fn rejection_of_events<'a>(
    alloc: Global,
    session: usize,
    transcript: &'a str,
    error: AuditError,
) -> Rejection<'a>
    ensures judged { IsJudged result → IsNoJudgement error → ⊥ }
{
    match error {
        AuditError::Refused(Refusal::NoMemory) | AuditError::NoMemory => {
            Rejection::Failed(Failure::OutOfMemory)
        }
        AuditError::Transcript(TranscriptError::NoMemory) => {
            Rejection::Failed(Failure::OutOfMemory)
        }
        AuditError::Transcript(TranscriptError::Io { .. }) => {
            Rejection::Failed(Failure::CannotRead(transcript, None))
        }
        AuditError::Refused(refusal) => Rejection::Refused(Cause::Session { session, refusal }),
        AuditError::Transcript(fault) => {
            Rejection::Failed(of_transcript(alloc, transcript, fault))
        }
        AuditError::Tree(fault) => Rejection::Failed(Failure::from(fault)),
    }
}
