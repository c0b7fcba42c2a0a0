//! `--json`: what an audit says, as JSON objects.
ghost use Rattle.std.specs.Prelude.{◌≡◌, IfOk, IfErr};
ghost use Rattle.sftp_files.specs.declared.messages.Ending.TheVariants as endings;
ghost use Rattle.sftp_files.specs.Failures.{IsUnwritten};

use crate::counts::{Counts, put_counts};
use sftp_audit::Refusal;
use sftp_files::{Ending, Failure};
use sftp_json::JsonLines;
use sftp_verdicts::{AuditOptions, named_object_of, parts_of_line, print_object, whole_lines};
use std::io::Write;

/// Prints the object of an accepted session, which may have been cut or not, as the last step of a run.
pub(crate) fn print_accepted<'a, O: Write>(
    counts: Counts,
    files: &AuditOptions<'a>,
    output: &mut O,
) -> Result<Ending, Failure<'a>>
    ensures ok { IfOk result (λ ending. ending ≡ endings.Done) }
    ensures err { IfErr result IsUnwritten }
{
    let mut json = named_object_of(files.shown_name(), "accepted", output);
    put_counts(counts, files.cuts, &mut json);
    print_object(json, Ending::Done)
}

/// What is said of a refused session beside the refusal.
#[derive(Clone, Copy)]
pub(crate) struct Beside<'a, 'l> {
    /// The name of the transcript, if that is to be said.
    pub(crate) name: Option<&'a str>,
    /// How many requests are accepted before the refusal, if that is to be said.
    pub(crate) accepted: Option<u64>,
    /// The lines of the explanation, if there are any.
    pub(crate) lines: &'l [u8],
    /// Whether they are to be said.
    pub(crate) explains: bool,
}

/// Prints the object of a refused session, as the last step of a run. Where the profile does not follow a request, the
/// kind is `NotModelled`.
pub(crate) fn print_refused<'a, O: Write>(
    refusal: Refusal,
    follows: bool,
    beside: Beside<'_, '_>,
    output: &mut O,
) -> Result<Ending, Failure<'a>>
    ensures ok { IfOk result (λ ending. ending ≡ endings.Refused) }
    ensures err { IfErr result IsUnwritten }
{
    let (record, kind) = parts_of(refusal, follows);
    let mut json = named_object_of(beside.name, "refused", output);
    json.number("record", record);
    json.word("kind", kind);
    put_beside(beside, &mut json);
    print_object(json, Ending::Refused)
}

/// Writes what is said beside the refusal. What is expected and what was found are members by themselves, too, where
/// the name of the transcript is said.
fn put_beside<O: Write>(beside: Beside<'_, '_>, json: &mut JsonLines<'_, O>) {
    if let Some(accepted) = beside.accepted {
        json.number("accepted", accepted);
    }
    if beside.name.is_some() {
        put_difference(beside.lines, json);
    }
    if beside.explains {
        put_explanation(beside.lines, json);
    }
}

/// Writes what is expected in place of a reply, if an explanation says it, and what was found: the reply, if there is
/// no line on what in it is wrong.
fn put_difference<O: Write>(lines: &[u8], json: &mut JsonLines<'_, O>) {
    let Some(expected) = part_of(lines, "expected") else {
        return;
    };
    json.word("expected", expected);
    if let Some(found) = part_of(lines, "found").or(part_of(lines, "reply")) {
        json.word("found", found);
    }
}

/// What the first line of an explanation says that has this part.
fn part_of<'l>(lines: &'l [u8], wanted: &str) -> Option<&'l str> {
    for line in whole_lines(lines).lines() {
        let (part, text) = parts_of_line(line);
        if part == wanted {
            return Some(text);
        }
    }
    None
}

/// The record that a refusal names, and its kind.
fn parts_of(refusal: Refusal, follows: bool) -> (u64, &'static str) {
    match refusal {
        Refusal::UnknownReply { record } => (record, "UnknownReply"),
        Refusal::IdInUse { record } => (record, "IdInUse"),
        Refusal::Window { record } => (record, "Window"),
        Refusal::NotAllowed { record } if !follows => (record, "NotModelled"),
        Refusal::NotAllowed { record } => (record, "NotAllowed"),
        Refusal::Unanswered { record } => (record, "Unanswered"),
        Refusal::NoMemory => (0, "NoMemory"),
    }
}

/// Writes the whole lines of an explanation as a list: an object for each.
fn put_explanation<O: Write>(lines: &[u8], json: &mut JsonLines<'_, O>) {
    json.open_list("explanation");
    for line in whole_lines(lines).lines() {
        put_line(line, json);
    }
    json.close_list();
}

/// Writes a line as an object: what stands before its colon, the number of the record that it shows, if it does, and
/// what stands behind the colon.
fn put_line<O: Write>(line: &str, json: &mut JsonLines<'_, O>) {
    let (part, text) = parts_of_line(line);
    json.open();
    json.word("part", part);
    if let Some(record) = shown_record(part, text) {
        json.number("record", record);
    }
    json.word("text", text);
    json.close();
}

/// The number of the record that a part of an explanation shows, which its text begins with.
fn shown_record(part: &str, text: &str) -> Option<u64> {
    match part {
        "request" | "reply" | "answered" | "unanswered" => {
            let (number, _) = text.split_once(' ')?;
            number.parse::<u64>().ok()
        }
        _ => None,
    }
}
