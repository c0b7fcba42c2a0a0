//! `audit` with several transcripts: each is judged from the same tree, and has a line of its own.
ghost use Rattle.std.specs.Prelude.{◌≡◌, ◌≤◌, ℕ, List, Some, IfErr};
ghost use Rattle.sftp_files.specs.Failures.{IsUsage, failure_status};
ghost use Rattle.sftp_verdicts.specs.Files.{IsWithin};
ghost use Rattle.sftp_verdicts.specs.Verdicts.{IsAuditStatus};
ghost use Rattle.sftp_auditing.specs.Audits.{IsSaidAsked, IsAnyEnd};

use crate::auditing::{asked_of, audit_files};
use crate::counts::Label;
use sftp_commands::{Faulty, ReadFiles, is_of_output, put_failed};
use sftp_files::{
    Ending, Failure, Named, Repeatable, STANDARD_OUTPUT, System, advice_on_reading, input_name,
    read, read_at_most, write_flushed,
};
use sftp_progress::Pace;
use sftp_transcript::Tally;
use sftp_tree::Tree;
use sftp_verdicts::{
    AuditOptions, EachOptions, Held, NamedFile, Opens, StoredFile, named_object_of,
};
use std::alloc::{AllocError, Global};
use std::io::{IsTerminal, Write};
use std::time::Clock;
use std::{fmt, io};

/// Why no transcript is named.
const LACKS_TRANSCRIPT: &str =
    "the following required arguments were not provided:\n  --transcript <FILE>, or FILE...";

/// Why `--transcript` cannot stand beside further names.
const HAS_TRANSCRIPT: &str =
    "'--transcript' cannot be used with further transcripts: name it among them";

/// Why `--out` cannot be used.
const HAS_OUT: &str =
    "'--out' cannot be used with several transcripts: each session ends in a tree of its own";

/// Why `--keep-going` cannot be used.
const KEEPS_GOING: &str =
    "'--keep-going' and '--most' cannot be used with several transcripts: give '--transcript'";

/// Why `--explain` cannot be used alone.
const EXPLAINS: &str = "'--explain' with several transcripts needs '--json'";

/// Why there has to be a tree file.
const NEEDS_TREE: &str =
    "'--tree unknown' cannot be used with several transcripts: each has a tree of its own";

/// The name that stands for a tree that nobody knows.
const UNKNOWN: &str = "unknown";

/// Audits the sessions of several transcripts, each by itself. The tree file is read once. Each transcript has a line,
/// or an object, which begins with its name; if one has no verdict, its line says why, and the others are judged.
///
/// # Errors
///
/// `Usage` if the options cannot be meant so; if the tree file or the list of names cannot be read or is malformed, or
/// standard output cannot be written; and `Unjudged` if any transcript has no verdict.
pub fn audit_each<'a, R: System + Clock, O: Write, E: Write + IsTerminal>(
    rt: &R,
    options: &EachOptions<'a>,
    output: &mut O,
    errors: &mut E,
) -> Result<Ending, Failure<'a>>
    ensures { IsAuditStatus result }
{
    refuse_misuse(rt.alloc(), options)?;
    let asked = asked_of(rt.alloc(), &options.asked)?;
    let tree = Repeatable::of(rt, asked.tree, asked.memory)?;
    let totals = audit_at(rt, &asked, tree.path(), options, output, errors);
    drop(tree);
    ended(totals?)
}

/// Refuses options that make no sense with several transcripts.
fn refuse_misuse<'a>(alloc: Global, options: &EachOptions<'a>) -> Result<(), Failure<'a>>
    ensures { IfErr result IsUsage }
{
    match misuse_of(options) {
        Some(message) => Err(Failure::of_misuse(alloc, message)),
        None => Ok(()),
    }
}

/// Why options cannot be used with several transcripts, if they cannot.
fn misuse_of(options: &EachOptions<'_>) -> Option<&'static str> {
    let asked = &options.asked;
    if options.names.is_empty() && options.list.is_none() {
        return Some(LACKS_TRANSCRIPT);
    }
    if !asked.transcript.is_empty() {
        return Some(HAS_TRANSCRIPT);
    }
    if asked.out.is_some() {
        return Some(HAS_OUT);
    }
    if asked.keeps_going || asked.most.is_some() {
        return Some(KEEPS_GOING);
    }
    if asked.explains && !asked.is_json {
        return Some(EXPLAINS);
    }
    if asked.tree == UNKNOWN {
        return Some(NEEDS_TREE);
    }
    None
}

/// Audits the sessions of the transcripts that options name, each from the tree of the file that is read at this path.
fn audit_at<'a, R: System + Clock, O: Write, E: Write + IsTerminal>(
    rt: &R,
    asked: &AuditOptions<'a>,
    path: &str,
    options: &EachOptions<'a>,
    output: &mut O,
    errors: &mut E,
) -> Result<Totals, Failure<'a>>
    ensures { IfErr result (λ failure. 2 ≤ failure_status failure) }
{
    let bytes = tree_bytes(rt, asked, path)?;
    let tree = Held::new(path, bytes.as_slice());
    let names = options.names.as_slice();
    let totals = match options.list {
        None => audit_all(rt, asked, &tree, names, output, errors),
        Some(list) => audit_listed(rt, asked, &tree, names, list, output, errors),
    };
    drop(bytes);
    totals
}

/// The bytes of the tree file, which is read at this path, if it is one.
fn tree_bytes<'a, R: System>(
    rt: &R,
    asked: &AuditOptions<'a>,
    path: &str,
) -> Result<Vec<u8>, Failure<'a>>
    ensures { IfErr result (λ failure. 2 ≤ failure_status failure) }
{
    let bytes = match read_at_most(rt, path, asked.memory) {
        Ok(bytes) => bytes,
        Err(failure) => return Err(renamed(failure, asked.tree)),
    };
    match Tree::read_from(rt.alloc(), Tally::new(bytes.as_slice())) {
        Ok(tree) => {
            drop(tree);
            Ok(bytes)
        }
        Err(error) => {
            drop(bytes);
            Err(Failure::from(error))
        }
    }
}

/// A failure to read a file, of the file `name`.
fn renamed<'a>(failure: Failure<'_>, name: &'a str) -> Failure<'a>
    ensures { 2 ≤ failure_status result }
{
    match failure {
        Failure::CannotRead(_, code) => Failure::CannotRead(name, code),
        Failure::OverLimit(_) => Failure::OverLimit(name),
        _ => Failure::OutOfMemory,
    }
}

/// Audits the sessions of the transcripts with these names, and of those that a list names, one a line.
fn audit_listed<'a, R: System + Clock, O: Write, E: Write + IsTerminal>(
    rt: &R,
    asked: &AuditOptions<'a>,
    tree: &Held<'_>,
    names: &[&'a str],
    list: &'a str,
    output: &mut O,
    errors: &mut E,
) -> Result<Totals, Failure<'a>>
    ensures { IfErr result (λ failure. 2 ≤ failure_status failure) }
{
    let bytes = read(rt, list)?;
    let totals = match str::from_utf8(bytes.as_slice()) {
        Ok(text) => audit_lines(rt, asked, tree, names, (list, text), output, errors),
        Err(_) => Err(not_text(rt.alloc(), list)),
    };
    drop(bytes);
    totals
}

/// That the file `name` is no text.
fn not_text<'a>(alloc: Global, name: &str) -> Failure<'a>
    ensures { 2 ≤ failure_status result }
{
    let name = Named(input_name(name));
    Failure::of_text(format!(in alloc; "{name} is not UTF-8"))
}

/// Audits the sessions of the transcripts with these names, and of those that the lines of a list's text are. Empty
/// lines are none.
fn audit_lines<'f, 'n, R: System + Clock, O: Write, E: Write + IsTerminal>(
    rt: &R,
    asked: &AuditOptions<'n>,
    tree: &Held<'_>,
    names: &[&'n str],
    list: (&str, &'n str),
    output: &mut O,
    errors: &mut E,
) -> Result<Totals, Failure<'f>>
    ensures { IfErr result (λ failure. 2 ≤ failure_status failure) }
{
    let (name, text) = list;
    let mut all = Vec::from_slice(rt.alloc(), names)?;
    let totals = match add_lines(text, &mut all) {
        Ok(()) if all.is_empty() => Err(no_names(rt.alloc(), name)),
        Ok(()) => audit_all(rt, asked, tree, all.as_slice(), output, errors),
        Err(_no_memory) => Err(Failure::OutOfMemory),
    };
    drop(all);
    totals
}

/// Adds the lines of a text that are not empty.
fn add_lines<'t>(text: &'t str, names: &mut Vec<&'t str>) -> Result<(), AllocError> {
    for line in text.lines() {
        if !line.is_empty() {
            names.push(line)?;
        }
    }
    Ok(())
}

/// That the list of this name has no names.
fn no_names<'a>(alloc: Global, list: &str) -> Failure<'a>
    ensures { 2 ≤ failure_status result }
{
    let list = Named(input_name(list));
    Failure::of_text(format!(in alloc; "{list} names no transcript"))
}

/// How many transcripts were refused, and how many have no verdict.
#[derive(Clone, Copy)]
struct Totals {
    all: u64,
    refused: u64,
    /// Those that are malformed.
    malformed: u64,
    /// Those that cannot be read, or for which memory did not suffice.
    unread: u64,
}

impl Totals {
    fn none() -> Totals {
        Totals {
            all: 0,
            refused: 0,
            malformed: 0,
            unread: 0,
        }
    }

    /// Counts a transcript whose audit has this status.
    fn count(&mut self, status: u8) {
        self.all = self.all.saturating_add(1);
        match status {
            0 => {}
            1 => self.refused = self.refused.saturating_add(1),
            2 => self.malformed = self.malformed.saturating_add(1),
            _ => self.unread = self.unread.saturating_add(1),
        }
    }
}

/// How a run ends with these totals: with the worst status of all.
fn ended<'a>(totals: Totals) -> Result<Ending, Failure<'a>>
    ensures { IsAuditStatus result }
{
    let unjudged = totals.malformed.saturating_add(totals.unread);
    if totals.unread > 0 {
        return Err(Failure::Unjudged(unjudged, totals.all, false));
    }
    if totals.malformed > 0 {
        return Err(Failure::Unjudged(unjudged, totals.all, true));
    }
    if totals.refused > 0 {
        Ok(Ending::Refused)
    } else {
        Ok(Ending::Done)
    }
}

/// Audits the sessions of the transcripts with these names, each from this tree.
fn audit_all<'f, 'n, R: System + Clock, O: Write, E: Write + IsTerminal>(
    rt: &R,
    asked: &AuditOptions<'n>,
    tree: &Held<'_>,
    names: &[&'n str],
    output: &mut O,
    errors: &mut E,
) -> Result<Totals, Failure<'f>>
    ensures { IfErr result (λ failure. 2 ≤ failure_status failure) }
{
    let mut pace = Pace::new(rt, asked.says_progress);
    let mut totals = Totals::none();
    let all = names.len();
    for name in names {
        let files = options_for(asked, *name);
        match audit_named(rt, &files, tree, output, errors) {
            Ok(status) => totals.count(status),
            Err(code) => return Err(Failure::CannotWrite(STANDARD_OUTPUT, code)),
        }
        let done = totals.all;
        pace.tell(
            rt,
            errors,
            format_args!("sftpv3: audited {done} of {all} transcripts\n"),
        );
    }
    Ok(totals)
}

/// The options of the audit of the transcript `name`.
fn options_for<'n>(asked: &AuditOptions<'n>, name: &'n str) -> AuditOptions<'n> {
    let mut files = *asked;
    files.transcript = name;
    files.says_progress = false;
    files
}

/// Audits the session of these files, says what came of it, and returns the status of that.
///
/// # Errors
///
/// If standard output cannot be written: the system's number for the error, if it gave one.
fn audit_named<R: System + Clock, O: Write, E: Write + IsTerminal>(
    rt: &R,
    files: &AuditOptions<'_>,
    tree: &Held<'_>,
    output: &mut O,
    errors: &mut E,
) -> Result<u8, Option<i32>> {
    let transcript = NamedFile::new(rt, files.transcript, files.transcript);
    let ending = audit_held(rt, files, tree, &transcript, output, errors);
    drop(transcript);
    match ending {
        Ok(ending) => Ok(ending.status()),
        Err(failure) => {
            let said = say_failed(rt, files, &failure, output, errors);
            drop(failure);
            said
        }
    }
}

/// Audits the session of this transcript from the tree of this file. No tree is stored.
fn audit_held<'a, T, S, R, O, E>(
    rt: &R,
    files: &AuditOptions<'a>,
    tree: &T,
    transcript: &S,
    output: &mut O,
    errors: &mut E,
) -> Result<Ending, Failure<'a>>
where
    T: Opens<'a>,
    S: Opens<'a>,
    R: System + Clock,
    O: Write,
    E: Write + IsTerminal,
    // What is said of each session is the verdict on these bytes.
    ensures verdict { (bytes : List ℕ) → T.bytes tree.now ≡ Some bytes → IsWithin files.now.memory bytes →
        IsSaidAsked files.now.profile files.now.cuts IsAnyEnd bytes (S.bytes transcript.now) result }
    ensures status { IsAuditStatus result }
{
    let mut out = StoredFile::new(rt, None, files.keeping);
    let ending = audit_files(rt, files, tree, transcript, &mut out, output, errors);
    drop(out);
    ending
}

/// Says why the session of these files has no verdict, and returns the status of the failure.
///
/// # Errors
///
/// If standard output cannot be written: the system's number for the error, if it gave one.
fn say_failed<'a, R: System, O: Write, E: Write>(
    rt: &R,
    files: &AuditOptions<'a>,
    failure: &Failure<'a>,
    output: &mut O,
    errors: &mut E,
) -> Result<u8, Option<i32>> {
    if is_of_output(failure) {
        return Err(code_of(failure));
    }
    let read = ReadFiles {
        tree: None,
        transcript: Some(files.transcript),
        either: None,
    };
    let faulty = Faulty::of(rt, read, failure);
    let said = if files.is_json {
        put_failed_object(rt.alloc(), files, failure, faulty, output)
    } else {
        put_failed_line(files, failure, faulty, output, errors)
    };
    match said {
        Ok(()) => Ok(failure.status()),
        Err(error) => Err(error.raw_os_error()),
    }
}

/// The system's number for the error of a stream that cannot be written, if it gave one.
fn code_of(failure: &Failure<'_>) -> Option<i32> {
    match failure {
        Failure::CannotWrite(_, code) => *code,
        _ => None,
    }
}

fn put_failed_object<'a, O: Write>(
    alloc: Global,
    files: &AuditOptions<'a>,
    failure: &Failure<'a>,
    faulty: Option<Faulty<'a>>,
    output: &mut O,
) -> io::Result<()> {
    let mut json = named_object_of(files.shown_name(), "failed", output);
    put_failed(alloc, failure, faulty, None, &mut json);
    json.end_line();
    let written = json.finish();
    drop(json);
    written
}

fn put_failed_line<'a, O: Write, E: Write>(
    files: &AuditOptions<'a>,
    failure: &Failure<'a>,
    faulty: Option<Faulty<'a>>,
    output: &mut O,
    errors: &mut E,
) -> io::Result<()> {
    let label = Label(files.shown_name());
    let reason = Reason(failure);
    write_flushed(output, format_args!("{label}{reason}\n"))?;
    if let Some(faulty) = faulty {
        faulty.put_format(errors);
    }
    Ok(())
}

/// Why a transcript has no verdict, behind its name.
#[derive(Clone, Copy)]
struct Reason<'f, 'a>(&'f Failure<'a>);

impl fmt::Display for Reason<'_, '_> {
    fn fmt<W: fmt::Write>(&self, f: &mut fmt::Formatter<W>) -> fmt::Result {
        match self.0 {
            Failure::Transcript(fault) => write!(f, "malformed: {fault}"),
            Failure::CannotRead(_, Some(code)) => {
                let reason = io::Error::from_raw_os_error(*code);
                let advice = advice_on_reading(*code);
                write!(f, "cannot be read: {reason}{advice}")
            }
            Failure::CannotRead(_, None) => f.write_str("cannot be read"),
            Failure::OverLimit(_) => f.write_str("needs more memory than '--memory' allows"),
            _ => f.write_str("out of memory"),
        }
    }
}
