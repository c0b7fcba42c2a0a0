//! The subcommand `audit`: the session of a transcript, judged with the tree of a file.
ghost use Rattle.std.specs.Prelude.{◌≡◌, ◌≤◌, ℕ, List, Option, Some, IfOk, IfErr, MatchResult};
ghost use Rattle.sftp_tree.specs.Picture.{IsStart, picture};
ghost use Rattle.sftp_audit.specs.Audit.{IsFirstFaultBy, IsNew, IsToldBy};
ghost use Rattle.sftp_files.specs.declared.messages.Ending.TheVariants as endings;
ghost use Rattle.sftp_files.specs.Failures.{IsUnwritten, IsUsage};
ghost use Rattle.sftp_files.specs.Failures.{failure_status};
ghost use Rattle.sftp_verdicts.specs.Files.{IsWithin, Becomes};
ghost use Rattle.sftp_verdicts.specs.Verdicts.{IsAuditStatus};
ghost use Rattle.sftp_auditing.specs.Audits.{accounts_by, uncut, with_umask};
ghost use Rattle.sftp_auditing.specs.Audits.{IsOutcome, IsAudit, IsResultAsked, IsSaidAsked};
ghost use Rattle.sftp_auditing.specs.Audits.{IsReportOf, IsReportOfError, IsFailureOf, IsStoredEnd};

use crate::accepting::accepted_before;
use crate::counts::{Label, counts_of, say_accepted};
use crate::explaining::explain;
use crate::going_on::report_findings;
use crate::starts::start_in_view;
use crate::verdict_objects::{Beside, print_refused};
use sftp_audit::{AuditError, Ended, EndedCut, Refusal, audit_cut_tree_by, audit_tree_by};
use sftp_commands::{LeftOut, is_lost};
use sftp_files::{BoundedRecords, Ending, Failure, Meter, Repeatable, System, print};
use sftp_handles::{GivenTable, Session};
use sftp_judges::Judges;
use sftp_profile::{Judge, Profile};
use sftp_progress::{Progress, Task, Tracked};
use sftp_transcript::{Reader, Source, Tally};
use sftp_tree::Tree;
use sftp_verdicts::{
    AuditOptions, NamedFile, Opens, StoredFile, Stores, TRANSCRIPT_LOST, asked_profile,
};
use std::alloc::Global;
use std::fs::Files;
use std::io::{IsTerminal, Read, Write};
use std::time::Clock;

/// Why `--most` cannot stand alone.
const LACKS_KEEP_GOING: &str =
    "the following required arguments were not provided:\n  --keep-going";

/// Audits a session.
///
/// # Errors
///
/// `Usage` if the options cannot be meant so, such as a final tree in the file of the transcript; a malformed file; and
/// a file or a stream that cannot be read or written, or memory that ran out.
pub fn audit<'a, R: System + Clock, O: Write, E: Write + IsTerminal>(
    rt: &R,
    files: &AuditOptions<'a>,
    output: &mut O,
    errors: &mut E,
) -> Result<Ending, Failure<'a>>
    ensures { IsAuditStatus result }
{
    if is_lost(rt, files.out, Some(files.transcript)) {
        return Err(Failure::of_misuse(rt.alloc(), TRANSCRIPT_LOST));
    }
    if files.most.is_some() && !files.keeps_going {
        return Err(Failure::of_misuse(rt.alloc(), LACKS_KEEP_GOING));
    }
    let asked = asked_of(rt.alloc(), files)?;
    if !asked.explains && !asked.keeps_going {
        return audit_at(rt, &asked, asked.tree, output, errors);
    }
    let tree = Repeatable::of(rt, asked.tree, asked.memory)?;
    let ending = audit_at(rt, &asked, tree.path(), output, errors);
    drop(tree);
    ending
}

/// The options with the umask in their profile.
pub(crate) fn asked_of<'a>(
    alloc: Global,
    files: &AuditOptions<'a>,
) -> Result<AuditOptions<'a>, Failure<'a>>
    ensures ok { IfOk result (λ asked. asked ≡ with_umask files.now) }
    ensures err { IfErr result IsUsage }
{
    let mut asked = *files;
    asked.profile = asked_profile(alloc, files.profile, files.umask)?;
    Ok(asked)
}

/// Audits the session of the files that have these names. The tree file is read at this path. What explains a refusal,
/// and what goes on behind it, reads it there again.
fn audit_at<'a, R: System + Clock, O: Write, E: Write + IsTerminal>(
    rt: &R,
    files: &AuditOptions<'a>,
    path: &str,
    output: &mut O,
    errors: &mut E,
) -> Result<Ending, Failure<'a>>
    ensures { IsAuditStatus result }
{
    let tree = NamedFile::new(rt, path, files.tree);
    let transcript = NamedFile::new(rt, files.transcript, files.transcript);
    let mut out = StoredFile::new(rt, files.out, files.keeping);
    let ending = audit_files(rt, files, &tree, &transcript, &mut out, output, errors);
    drop(out);
    drop(transcript);
    drop(tree);
    ending
}

/// Audits the session of these files. The tree file is read and the transcript is opened before either is judged; the
/// transcript is read as a stream. The tree file is read again if an explanation is asked for, or what else is wrong.
pub(crate) fn audit_files<'a, T, S, K, R, O, E>(
    rt: &R,
    files: &AuditOptions<'a>,
    tree: &T,
    transcript: &S,
    out: &mut K,
    output: &mut O,
    errors: &mut E,
) -> Result<Ending, Failure<'a>>
where
    T: Opens<'a>,
    S: Opens<'a>,
    K: Stores<'a>,
    R: System + Clock,
    O: Write,
    E: Write + IsTerminal,
    // What is said of the session is the verdict on these bytes, and what is stored is the tree at its end.
    ensures verdict { (bytes : List ℕ) → T.bytes tree.now ≡ Some bytes → IsWithin files.now.memory bytes →
        IsSaidAsked files.now.profile files.now.cuts (IsStoredEnd (K.stored out.old) (K.stored out.new))
        bytes (S.bytes transcript.now) result }
    ensures status { IsAuditStatus result }
{
    let file = tree.open()?;
    let start = start_in_view(rt, files, tree.path(), file, errors)?;
    match transcript.open() {
        Ok(transcript) => match start {
            Ok(start) => audit_transcript(rt, files, start, tree, transcript, out, output, errors),
            Err(error) => {
                drop(transcript);
                Err(Failure::from(error))
            }
        },
        Err(failure) => {
            drop(start);
            Err(failure)
        }
    }
}

/// Audits the session of this transcript, within the limit on memory if there is one.
fn audit_transcript<'a, T, F, K, R, O, E>(
    rt: &R,
    files: &AuditOptions<'a>,
    start: Tree,
    tree: &T,
    transcript: F,
    out: &mut K,
    output: &mut O,
    errors: &mut E,
) -> Result<Ending, Failure<'a>>
where
    T: Opens<'a>,
    F: Read + Drop,
    K: Stores<'a>,
    R: System + Clock,
    O: Write,
    E: Write + IsTerminal,
    // The verdict on each tree file of this tree.
    ensures verdict { (bytes : List ℕ) → IsStart start bytes →
        IsSaidAsked files.now.profile files.now.cuts (IsStoredEnd (K.stored out.old) (K.stored out.new))
        bytes (F.remaining transcript) result }
    ensures status { IsAuditStatus result }
{
    match files.memory {
        Some(_) => audit_within(rt, files, start, tree, transcript, out, output, errors),
        None => judge_and_report(rt, files, start, tree, transcript, out, output, errors),
    }
}

/// Audits the session of this transcript within the limit on memory.
fn audit_within<'a, T, F, K, R, O, E>(
    rt: &R,
    files: &AuditOptions<'a>,
    start: Tree,
    tree: &T,
    transcript: F,
    out: &mut K,
    output: &mut O,
    errors: &mut E,
) -> Result<Ending, Failure<'a>>
where
    T: Opens<'a>,
    F: Read + Drop,
    K: Stores<'a>,
    R: System + Clock,
    O: Write,
    E: Write + IsTerminal,
    // The verdict on each tree file of this tree.
    ensures verdict { (bytes : List ℕ) → IsStart start bytes →
        IsSaidAsked files.now.profile files.now.cuts (IsStoredEnd (K.stored out.old) (K.stored out.new))
        bytes (F.remaining transcript) result }
    ensures status { IsAuditStatus result }
{
    let mut meter = Meter::new(rt, files.memory)?;
    let bounded = BoundedRecords::new(rt.alloc(), transcript, &mut meter)?;
    match judge_and_report(rt, files, start, tree, bounded, out, output, errors) {
        Err(_) if meter.is_over() => Err(Failure::OverLimit(files.transcript)),
        ending => ending,
    }
}

/// Audits the session of this transcript and says what came of it. Without an option of a profile the session is judged
/// strictly, and without `--cut` it has to be complete.
fn judge_and_report<'a, T, F, K, R, O, E>(
    rt: &R,
    files: &AuditOptions<'a>,
    start: Tree,
    tree: &T,
    transcript: F,
    out: &mut K,
    output: &mut O,
    errors: &mut E,
) -> Result<Ending, Failure<'a>>
where
    T: Opens<'a>,
    F: Read + Drop,
    K: Stores<'a>,
    R: System + Clock,
    O: Write,
    E: Write + IsTerminal,
    // The verdict on each tree file of this tree.
    ensures verdict { (bytes : List ℕ) → IsStart start bytes →
        IsSaidAsked files.now.profile files.now.cuts (IsStoredEnd (K.stored out.old) (K.stored out.new))
        bytes (F.remaining transcript) result }
    ensures status { IsAuditStatus result }
{
    let judged = judge_in_view(rt, files, start, transcript, errors);
    let ending = report(rt, files, tree, &judged, out, output, errors);
    drop(judged);
    ending
}

/// What an audit gave, and whether the judge follows the session up to where it is refused. Strictly each session is
/// followed.
#[derive(Drop)]
struct Judged {
    ended: Result<EndedCut, AuditError>,
    follows: bool,
}

/// Says what came of the audit of a session of these files.
fn report<'a, T: Opens<'a>, K: Stores<'a>, R: System, O: Write, E: Write>(
    rt: &R,
    files: &AuditOptions<'a>,
    tree: &T,
    judged: &Judged,
    out: &mut K,
    output: &mut O,
    errors: &mut E,
) -> Result<Ending, Failure<'a>>
    ensures of_audit { IsReportOf (IsStoredEnd (K.stored out.old) (K.stored out.new))
        judged.now.ended result }
    ensures status { IsAuditStatus result }
{
    match &judged.ended {
        Ok(ended) => accept(ended, files, out, output),
        Err(error) => report_error(rt, files, tree, *error, judged.follows, output, errors),
    }
}

/// Why a session is refused, and whether its profile follows it up to there.
#[derive(Clone, Copy)]
pub(crate) struct Finding {
    pub(crate) refusal: Refusal,
    pub(crate) follows: bool,
}

/// Says why a session of these files is not accepted.
fn report_error<'a, T: Opens<'a>, R: System, O: Write, E: Write>(
    rt: &R,
    files: &AuditOptions<'a>,
    tree: &T,
    error: AuditError,
    follows: bool,
    output: &mut O,
    errors: &mut E,
) -> Result<Ending, Failure<'a>>
    ensures of_error { MatchResult result (IsReportOfError error) (IsFailureOf error) }
    ensures status { IsAuditStatus result }
{
    match refusal_or_failure(error, files.transcript) {
        Ok(refusal) => report_refusal(rt, files, tree, refusal, follows, output, errors),
        Err(failure) => Err(failure),
    }
}

/// Says why a session of these files is refused, and what else is asked for.
fn report_refusal<'a, T: Opens<'a>, R: System, O: Write, E: Write>(
    rt: &R,
    files: &AuditOptions<'a>,
    tree: &T,
    refusal: Refusal,
    follows: bool,
    output: &mut O,
    errors: &mut E,
) -> Result<Ending, Failure<'a>>
    ensures ok { IfOk result (λ ending. ending ≡ endings.Refused) }
    ensures err { IfErr result IsUnwritten }
{
    let finding = Finding { refusal, follows };
    if files.keeps_going {
        return report_findings(rt, files, tree, finding, output, errors);
    }
    let mut left_out = LeftOut::new(rt.alloc());
    let ending = report_finding(rt, files, tree, &mut left_out, finding, output, errors);
    drop(left_out);
    ending
}

/// Says why a session of these files is refused where this is left out of it, and explains it if that is asked for.
pub(crate) fn report_finding<'a, T: Opens<'a>, R: Files + AllocGlobal, O: Write, E: Write>(
    rt: &R,
    files: &AuditOptions<'a>,
    tree: &T,
    left_out: &mut LeftOut,
    finding: Finding,
    output: &mut O,
    errors: &mut E,
) -> Result<Ending, Failure<'a>>
    ensures ok { IfOk result (λ ending. ending ≡ endings.Refused) }
    ensures err { IfErr result IsUnwritten }
{
    if files.is_json {
        return refuse_as_object(rt, files, tree.path(), left_out, finding, output);
    }
    let ending = refuse(files, finding, output);
    if files.explains && ending.is_ok() {
        explain(rt, files, tree.path(), left_out, finding.refusal, errors);
    }
    ending
}

/// Says why a session of these files is refused as a JSON object, with the explanation in it if that is asked for.
fn refuse_as_object<'a, R: Files + AllocGlobal, O: Write>(
    rt: &R,
    files: &AuditOptions<'a>,
    tree: &str,
    left_out: &mut LeftOut,
    finding: Finding,
    output: &mut O,
) -> Result<Ending, Failure<'a>>
    ensures ok { IfOk result (λ ending. ending ≡ endings.Refused) }
    ensures err { IfErr result IsUnwritten }
{
    let mut lines = Vec::new(rt.alloc());
    explain_in_object(rt, files, tree, left_out, finding.refusal, &mut lines);
    let beside = Beside {
        name: files.shown_name(),
        accepted: accepted_before(rt, files, finding.refusal),
        lines: lines.as_slice(),
        explains: files.explains,
    };
    let ending = print_refused(finding.refusal, finding.follows, beside, output);
    drop(lines);
    ending
}

/// Writes the explanation of a refusal, if the object of the session has it, or what is expected and what was found.
fn explain_in_object<'a, R: Files + AllocGlobal>(
    rt: &R,
    files: &AuditOptions<'a>,
    tree: &str,
    left_out: &mut LeftOut,
    refusal: Refusal,
    lines: &mut Vec<u8>,
) {
    if files.explains || files.is_named {
        explain(rt, files, tree, left_out, refusal, lines);
    }
}

/// Audits the session of this transcript, while standard error says how much of it is read.
fn judge_in_view<F: Read + Drop, R: System + Clock, E: Write + IsTerminal>(
    rt: &R,
    files: &AuditOptions<'_>,
    start: Tree,
    transcript: F,
    errors: &mut E,
) -> Judged
    ensures { (tree : List ℕ) → IsStart start tree →
        IsResultAsked files.now.profile files.now.cuts tree (F.remaining transcript) result.ended result.follows }
{
    let is_asked = files.says_progress;
    let file = Some(files.transcript);
    let mut progress = Progress::new(rt, errors, is_asked, Task::ReadTranscript, file);
    let tracked = Tracked::new(transcript, &mut progress);
    let judged = judge(rt.alloc(), files.profile, files.cuts, start, tracked);
    progress.end();
    judged
}

/// Audits the session of a transcript that is read as a stream, complete or with `cuts` cut too: strictly, or under a
/// profile.
fn judge<F: Read + Drop>(
    alloc: Global,
    by: Option<Profile>,
    cuts: bool,
    start: Tree,
    transcript: F,
) -> Judged
    ensures { (tree : List ℕ) → IsStart start tree →
        IsResultAsked by cuts tree (F.remaining transcript) result.ended result.follows }
{
    match by {
        None => judge_by::<Session<GivenTable>, F>(alloc, (), cuts, start, transcript),
        Some(profile) => judge_by::<Judge, F>(alloc, profile, cuts, start, transcript),
    }
}

/// Audits such a session by a judge that is made by `by`.
fn judge_by<J: Judges, F: Read + Drop>(
    alloc: Global,
    by: J::By,
    cuts: bool,
    start: Tree,
    transcript: F,
) -> Judged
    ensures { (tree : List ℕ) → IsStart start tree →
        IsAudit (accounts_by cuts J.allowed (J.begun by) J.closed) (IsFirstFaultBy J.allowed (J.begun by))
        (IsToldBy J.allowed J.follows (J.begun by)) tree (F.remaining transcript) result.ended result.follows }
{
    match Reader::new(alloc, Tally::new(transcript)) {
        Ok(mut records) => {
            let mut follows = true;
            let ended = judge_records::<J, Tally<F>>(by, cuts, start, &mut records, &mut follows);
            drop(records);
            Judged { ended, follows }
        }
        Err(error) => {
            drop(start);
            let ended = Err(AuditError::from(error));
            Judged {
                ended,
                follows: true,
            }
        }
    }
}

/// Audits the session of a reader that has read nothing yet.
fn judge_records<J: Judges, R: Source>(
    by: J::By,
    cuts: bool,
    start: Tree,
    records: &mut Reader<R>,
    follows: &mut bool,
) -> Result<EndedCut, AuditError>
    // Of whatever bytes its source is known to have.
    ensures { (tree : List ℕ) → IsStart start tree → (known : Option (List ℕ)) →
        ((bytes : List ℕ) → known ≡ Some bytes → IsNew bytes records.old) →
        IsAudit (accounts_by cuts J.allowed (J.begun by) J.closed) (IsFirstFaultBy J.allowed (J.begun by))
        (IsToldBy J.allowed J.follows (J.begun by)) tree known result follows.new }
{
    if cuts {
        audit_cut_tree_by::<J, R>(by, start, records, follows)
    } else {
        uncut(audit_tree_by::<J, R>(by, start, records, follows))
    }
}

/// The result of a complete session as that of one that may have been cut: each of its requests has its reply.
fn uncut(audited: Result<Ended, AuditError>) -> Result<EndedCut, AuditError>
    ensures { result ≡ uncut audited }
{
    match audited {
        Ok(Ended { tree, requests }) => Ok(EndedCut {
            tree,
            requests,
            unsettled: 0,
            unanswered: 0,
        }),
        Err(error) => Err(error),
    }
}

/// Stores the tree before the oldest unanswered request, and then says that the session is accepted, and how much of it
/// was not judged. A complete session gets the same line with `--cut` as without.
fn accept<'a, K: Stores<'a>, O: Write>(
    ended: &EndedCut,
    files: &AuditOptions<'a>,
    out: &mut K,
    output: &mut O,
) -> Result<Ending, Failure<'a>>
    ensures ok { IfOk result (λ ending. (ending ≡ endings.Done)
        × Becomes (K.stored out.old) (K.stored out.new) (picture ended.now.tree)) }
    ensures err { IfErr result IsUnwritten }
{
    out.store_tree(&ended.tree)?;
    say_accepted(counts_of(ended), files, output)
}

/// Says why the session is refused, as a line: `NotModelled` where the profile does not follow a request.
fn refuse<'a, O: Write>(
    files: &AuditOptions<'a>,
    finding: Finding,
    output: &mut O,
) -> Result<Ending, Failure<'a>>
    ensures ok { IfOk result (λ ending. ending ≡ endings.Refused) }
    ensures err { IfErr result IsUnwritten }
{
    let label = Label(files.shown_name());
    match finding.refusal {
        Refusal::NotAllowed { record } if !finding.follows => print(
            output,
            format_args!("{label}refused record {record}: NotModelled\n"),
            Ending::Refused,
        ),
        refusal => print(
            output,
            format_args!("{label}refused {refusal}\n"),
            Ending::Refused,
        ),
    }
}

/// The refusal of a session by the error of its audit, or the failure of the run. The transcript has this name.
fn refusal_or_failure<'a>(error: AuditError, transcript: &'a str) -> Result<Refusal, Failure<'a>>
    ensures outcome { IsOutcome transcript.now error result }
    ensures status { IfErr result (λ failure. 2 ≤ failure_status failure) }
{
    match error {
        AuditError::Refused(Refusal::NoMemory) | AuditError::NoMemory => Err(Failure::OutOfMemory),
        AuditError::Refused(refusal) => Ok(refusal),
        AuditError::Tree(error) => Err(Failure::from(error)),
        AuditError::Transcript(error) => Err(Failure::of_transcript(error, transcript)),
    }
}
