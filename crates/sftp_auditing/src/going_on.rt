//! `audit --keep-going`: all that an audit finds wrong in a session, one finding after the other.
ghost use Rattle.std.specs.Prelude.{◌≡◌, IfOk, IfErr};
ghost use Rattle.sftp_files.specs.declared.messages.Ending.TheVariants as endings;
ghost use Rattle.sftp_files.specs.Failures.{IsUnwritten};

use crate::auditing::{Finding, report_finding};
use crate::counts::Counts;
use crate::totals::{End, Reason, Total, print_total};
use sftp_audit::{AuditError, Auditor, Refusal};
use sftp_commands::{
    Asked, Bearing, LeftOut, Outcome, Replied, find_reply, is_harmless, is_request, last_asked,
};
use sftp_files::{BoundedRecords, Ending, Failure, Meter, System, open};
use sftp_profile::{Judge, Profile};
use sftp_show::{Record, find_record};
use sftp_transcript::{Reader, Source, Tally, TranscriptError};
use sftp_tree::Tree;
use sftp_treefile::TreeError;
use sftp_verdicts::{AuditOptions, Opens, numbered, record_of};
use sftp_wire::{Answer, asked_handle};
use std::alloc::Global;
use std::fs::Files;
use std::io::{Read, Write};

/// The most findings of a session, where the options do not say how many.
const MOST: u64 = 100;

/// Says why a session of these files is refused, and all else that is wrong with it behind replies that changed
/// nothing, as if these and their requests were not there. Each further finding is that of a further audit.
pub(crate) fn report_findings<'a, T: Opens<'a>, R: System, O: Write, E: Write>(
    rt: &R,
    files: &AuditOptions<'a>,
    tree: &T,
    first: Finding,
    output: &mut O,
    errors: &mut E,
) -> Result<Ending, Failure<'a>>
    ensures ok { IfOk result (λ ending. ending ≡ endings.Refused) }
    ensures err { IfErr result IsUnwritten }
{
    let mut left_out = LeftOut::new(rt.alloc());
    let total = report_each(rt, files, tree, &mut left_out, first, output, errors);
    drop(left_out);
    print_total(total?, files.is_json, output)
}

/// Says each finding, and returns how many there are and why there are no more.
fn report_each<'a, T: Opens<'a>, R: System, O: Write, E: Write>(
    rt: &R,
    files: &AuditOptions<'a>,
    tree: &T,
    left_out: &mut LeftOut,
    first: Finding,
    output: &mut O,
    errors: &mut E,
) -> Result<Total, Failure<'a>>
    ensures { IfErr result IsUnwritten }
{
    let most = files.most.unwrap_or(MOST);
    let mut finding = first;
    let mut findings: u64 = 1;
    'findings: loop {
        report_finding(rt, files, tree, left_out, finding, output, errors)?;
        if findings >= most {
            return Ok(Total {
                findings,
                end: End::Most,
            });
        }
        match next_finding(rt, files, tree, left_out, finding) {
            Ok(next) => finding = next,
            Err(end) => return Ok(Total { findings, end }),
        }
        findings += 1;
    }
}

/// What an audit finds behind this finding, or why it finds no more.
fn next_finding<'a, T: Opens<'a>, R: System>(
    rt: &R,
    files: &AuditOptions<'a>,
    tree: &T,
    left_out: &mut LeftOut,
    finding: Finding,
) -> Result<Finding, End> {
    leave_out(rt, files, left_out, finding)?;
    let next = judge_rest(rt, files, tree, left_out)?;
    let record = record_of(next.refusal);
    if record == record_of(finding.refusal) {
        // another request with its id was left out, and nobody knows whose reply this is
        return Err(End::Stopped(record, Reason::SameId));
    }
    Ok(next)
}

/// Leaves out what was found wrong, if the audit can go on behind it.
fn leave_out<R: Files + AllocGlobal>(
    rt: &R,
    files: &AuditOptions<'_>,
    left_out: &mut LeftOut,
    finding: Finding,
) -> Result<(), End> {
    match finding.refusal {
        Refusal::NotAllowed { record } => {
            leave_exchange(rt, files, left_out, record, finding.follows)
        }
        Refusal::UnknownReply { record } => Ok(left_out.leave_record(record)?),
        Refusal::Unanswered { record } => Err(End::Stopped(record, Reason::Unanswered)),
        Refusal::IdInUse { record } => Err(End::Stopped(record, Reason::SameId)),
        Refusal::Window { record } => Err(End::Stopped(record, Reason::Window)),
        Refusal::NoMemory => Err(End::OutOfMemory),
    }
}

/// Leaves out the wrong reply with this number and its request, and what hangs on them, if the request changed nothing
/// else.
fn leave_exchange<R: Files + AllocGlobal>(
    rt: &R,
    files: &AuditOptions<'_>,
    left_out: &mut LeftOut,
    number: u64,
    follows: bool,
) -> Result<(), End> {
    let replied = reply_at(rt, files, number)?;
    let asked = request_of(rt, files, replied)?;
    if !is_harmless(asked.bearing, replied.outcome, follows) {
        return Err(End::Stopped(number, reason_of(follows)));
    }
    if left_out.leaves(asked.number) {
        // a request that hangs on another one has the same id, and nobody knows whose reply this is
        return Err(End::Stopped(number, Reason::SameId));
    }
    left_out.leave_record(asked.number)?;
    leave_handle(rt, files, left_out, asked, replied)
}

/// Why a request with a wrong reply ends the audit, by whether the session is followed up to there.
fn reason_of(follows: bool) -> Reason {
    if follows {
        Reason::Changed
    } else {
        Reason::NotModelled
    }
}

/// Leaves out the requests that hang on a wrong reply: through the handle that it gives, or, where it has names of a
/// listing, for more of these.
fn leave_handle<R: Files + AllocGlobal>(
    rt: &R,
    files: &AuditOptions<'_>,
    left_out: &mut LeftOut,
    asked: Asked,
    replied: Replied,
) -> Result<(), End> {
    match (asked.bearing, replied.outcome) {
        (Bearing::Lists, _) => leave_handle_of(rt, files, left_out, asked.number, true),
        (Bearing::Opens, Outcome::Opened) => {
            leave_handle_of(rt, files, left_out, replied.number, false)
        }
        _ => Ok(()),
    }
}

/// Leaves out the requests with the handle in the record of this number, behind it.
fn leave_handle_of<R: Files + AllocGlobal>(
    rt: &R,
    files: &AuditOptions<'_>,
    left_out: &mut LeftOut,
    number: u64,
    lists: bool,
) -> Result<(), End> {
    let found = record_at(rt, files, number)?;
    let left = match handle_of(&found) {
        Some(handle) => left_out.leave_handle(handle, number, lists),
        None => Ok(()),
    };
    drop(found);
    Ok(left?)
}

/// The handle that a request names or a reply gives.
fn handle_of(found: &Record) -> Option<&[u8]> {
    match (found.ask(), found.answer()) {
        (Some(ask), _) => asked_handle(ask),
        (None, Some(Answer::Handle(handle))) => Some(handle.as_slice()),
        _ => None,
    }
}

/// The reply that is the record with this number.
fn reply_at<R: Files + AllocGlobal>(
    rt: &R,
    files: &AuditOptions<'_>,
    number: u64,
) -> Result<Replied, End> {
    match records_of(rt, files) {
        Ok(mut records) => {
            let found = find_reply(&mut records, number);
            drop(records);
            required(found)
        }
        Err(end) => Err(end),
    }
}

/// The request of a reply.
fn request_of<R: Files + AllocGlobal>(
    rt: &R,
    files: &AuditOptions<'_>,
    replied: Replied,
) -> Result<Asked, End> {
    match records_of(rt, files) {
        Ok(mut records) => {
            let found = last_asked(&mut records, replied.id, replied.number);
            drop(records);
            required(found)
        }
        Err(end) => Err(end),
    }
}

/// The record with this number.
fn record_at<R: Files + AllocGlobal>(
    rt: &R,
    files: &AuditOptions<'_>,
    number: u64,
) -> Result<Record, End> {
    match records_of(rt, files) {
        Ok(mut records) => {
            let found = find_record(&mut records, number);
            drop(records);
            required(found)
        }
        Err(end) => Err(end),
    }
}

/// What was found, which is missing only where the transcript is not what it was.
fn required<T>(found: Result<Option<T>, TranscriptError>) -> Result<T, End> {
    match found {
        Ok(Some(found)) => Ok(found),
        Ok(None) => Err(End::OtherTranscript),
        Err(error) => Err(End::from(error)),
    }
}

/// A reader of the transcript from its start.
fn records_of<R: Files + AllocGlobal>(
    rt: &R,
    files: &AuditOptions<'_>,
) -> Result<Reader<Tally<R::File>>, End> {
    match opened(open(rt, files.transcript)) {
        Ok(file) => match Reader::new(rt.alloc(), Tally::new(file)) {
            Ok(records) => Ok(records),
            Err(error) => Err(End::from(error)),
        },
        Err(end) => Err(end),
    }
}

/// What it means that a file cannot be opened.
fn end_of(failure: Failure<'_>) -> End {
    let end = match &failure {
        Failure::OutOfMemory | Failure::OverLimit(_) => End::OutOfMemory,
        _ => End::OtherTranscript,
    };
    drop(failure);
    end
}

/// Why an audit of what is not left out does not accept it.
enum Halt {
    /// It is refused. The number of the record does not count what is left out.
    Refused(Refusal),
    /// The audit ended without a verdict.
    Ended(End),
}

/// What the error of an audit says of what is not left out.
fn halt_of(error: AuditError) -> Halt {
    match error {
        AuditError::Refused(Refusal::NoMemory) => Halt::Ended(End::OutOfMemory),
        AuditError::Refused(refusal) => Halt::Refused(refusal),
        AuditError::Transcript(fault) => Halt::Ended(End::from(fault)),
        AuditError::Tree(_) => Halt::Ended(End::OtherTranscript),
        AuditError::NoMemory => Halt::Ended(End::OutOfMemory),
    }
}

/// What an audit finds in all that is not left out, or why it finds nothing.
fn judge_rest<'a, T: Opens<'a>, R: System>(
    rt: &R,
    files: &AuditOptions<'a>,
    tree: &T,
    left_out: &mut LeftOut,
) -> Result<Finding, End> {
    let mut follows = true;
    match judge_file(rt, files, tree, left_out, &mut follows) {
        Ok(counts) => Err(End::Accepted(counts)),
        Err(Halt::Ended(end)) => Err(end),
        Err(Halt::Refused(refusal)) => {
            let record = number_of(rt, files, left_out, record_of(refusal))?;
            Ok(Finding {
                refusal: numbered(refusal, record),
                follows,
            })
        }
    }
}

/// The number in the transcript of the record that has this number where what is left out is not counted.
fn number_of<R: Files + AllocGlobal>(
    rt: &R,
    files: &AuditOptions<'_>,
    left_out: &mut LeftOut,
    counted: u64,
) -> Result<u64, End> {
    match records_of(rt, files) {
        Ok(mut records) => {
            let number = left_out.find(&mut records, counted);
            drop(records);
            required(number)
        }
        Err(end) => Err(end),
    }
}

/// Audits what is not left out of the session of these files, within the limit on memory if there is one. `follows` is
/// set to whether the profile follows it up to where it is refused.
fn judge_file<'a, T: Opens<'a>, R: System>(
    rt: &R,
    files: &AuditOptions<'a>,
    tree: &T,
    left_out: &mut LeftOut,
    follows: &mut bool,
) -> Result<Counts, Halt> {
    let file = match opened(open(rt, files.transcript)) {
        Ok(file) => file,
        Err(end) => return Err(Halt::Ended(end)),
    };
    match Meter::new(rt, files.memory) {
        Ok(mut meter) => {
            let judged = judge_source(rt.alloc(), files, tree, left_out, file, &mut meter, follows);
            let is_over = meter.is_over();
            drop(meter);
            halted(judged, is_over)
        }
        Err(failure) => {
            drop(file);
            Err(Halt::Ended(end_of(failure)))
        }
    }
}

/// What an audit gave, unless the process had more memory than it may.
fn halted(judged: Result<Counts, AuditError>, is_over: bool) -> Result<Counts, Halt> {
    if is_over {
        return Err(Halt::Ended(End::OutOfMemory));
    }
    match judged {
        Ok(counts) => Ok(counts),
        Err(error) => Err(halt_of(error)),
    }
}

/// A file that was opened, or what it means that it cannot be.
fn opened<F>(file: Result<F, Failure<'_>>) -> Result<F, End> {
    match file {
        Ok(file) => Ok(file),
        Err(failure) => Err(end_of(failure)),
    }
}

/// Audits what is not left out of the session of a transcript that is read as a stream.
fn judge_source<'a, T: Opens<'a>, F: Read + Drop>(
    alloc: Global,
    files: &AuditOptions<'a>,
    tree: &T,
    left_out: &mut LeftOut,
    transcript: F,
    meter: &mut Meter,
    follows: &mut bool,
) -> Result<Counts, AuditError> {
    match BoundedRecords::new(alloc, transcript, meter) {
        Ok(bounded) => match Reader::new(alloc, Tally::new(bounded)) {
            Ok(mut records) => {
                let judged = judge_records(alloc, files, tree, left_out, &mut records, follows);
                drop(records);
                judged
            }
            Err(error) => Err(AuditError::from(error)),
        },
        Err(_no_memory) => Err(AuditError::NoMemory),
    }
}

/// Audits what is not left out of the session of a reader that has read nothing yet.
fn judge_records<'a, T: Opens<'a>, R: Source>(
    alloc: Global,
    files: &AuditOptions<'a>,
    tree: &T,
    left_out: &mut LeftOut,
    records: &mut Reader<R>,
    follows: &mut bool,
) -> Result<Counts, AuditError> {
    match new_auditor(alloc, files, tree) {
        Ok(mut auditor) => match feed_rest(&mut auditor, left_out, records) {
            Ok(requests) => ended(auditor, requests, left_out.hanging(), files.cuts),
            Err(error) => {
                *follows = auditor.follows();
                drop(auditor);
                Err(error)
            }
        },
        Err(error) => Err(error),
    }
}

/// An auditor of a session that begins on this tree.
fn new_auditor<'a, T: Opens<'a>>(
    alloc: Global,
    files: &AuditOptions<'a>,
    tree: &T,
) -> Result<Auditor<Judge>, AuditError> {
    let profile = files.profile.unwrap_or(Profile::strict());
    match read_again(alloc, tree) {
        Ok(tree) => match Auditor::<Judge>::by(profile, tree) {
            Ok(auditor) => Ok(auditor),
            Err(_no_memory) => Err(AuditError::NoMemory),
        },
        Err(error) => Err(AuditError::from(error)),
    }
}

/// The tree of a tree file that is read once more.
///
/// # Errors
///
/// The first fault of the file; `Io` at no entry if it cannot be opened.
fn read_again<'a, T: Opens<'a>>(alloc: Global, tree: &T) -> Result<Tree, TreeError> {
    match tree.open() {
        Ok(file) => Tree::read_from(alloc, Tally::new(file)),
        Err(failure) => {
            drop(failure);
            Err(TreeError::Io { entry: 0 })
        }
    }
}

/// How many requests of a session there are of each kind, whose events an auditor was fed. So many more hang on wrong
/// replies. If it may not have been cut, each has to have its reply.
fn ended(
    auditor: Auditor<Judge>,
    requests: u64,
    hanging: u64,
    cuts: bool,
) -> Result<Counts, AuditError> {
    let kept = auditor.kept();
    let unanswered = auditor.unanswered();
    if cuts {
        drop(auditor);
    } else {
        drop(auditor.end()?);
    }
    Ok(Counts {
        judged: requests.saturating_sub(kept as u64),
        unanswered,
        unjudged: kept
            .saturating_sub(unanswered)
            .saturating_add(hanging as usize),
    })
}

/// Feeds an auditor the events that are not left out, and returns how many of them are requests, up to 2^64 - 1. The
/// auditor has seen no event yet, and the reader has read nothing yet.
///
/// # Errors
///
/// Those of `feed_all`. The number of a refusal's record does not count what is left out; that of a fault does.
pub(crate) fn feed_rest<R: Source>(
    auditor: &mut Auditor<Judge>,
    left_out: &mut LeftOut,
    records: &mut Reader<R>,
) -> Result<u64, AuditError> {
    left_out.begin();
    let mut requests: u64 = 0;
    'events: while let Some(event) = left_out.next(records)? {
        requests = requests.saturating_add(u64::from(is_request(&event)));
        auditor.judge_event(event)?;
    }
    Ok(requests)
}
