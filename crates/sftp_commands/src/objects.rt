//! `--json`: why a run failed, as a JSON object.
ghost use Rattle.std.specs.Prelude.{◌≡◌, IfOk, IfErr};
ghost use Rattle.sftp_files.specs.Failures.{IsUnwritten};

use crate::faulty::Faulty;
use sftp_faults::Spot;
use sftp_files::{Ending, Failure, STANDARD_OUTPUT};
use sftp_json::JsonLines;
use sftp_transcript::TranscriptError;
use sftp_treefile::TreeError;
use std::alloc::Global;
use std::io;
use std::io::Write;

/// The outcome of a run whose last step was to print.
pub fn ended<'a>(printed: io::Result<()>, ending: Ending) -> Result<Ending, Failure<'a>>
    ensures ok { IfOk result (λ ended. ended ≡ ending) }
    ensures err { IfErr result IsUnwritten }
{
    match printed {
        Ok(()) => Ok(ending),
        Err(error) => Err(Failure::writing(STANDARD_OUTPUT, &error)),
    }
}

/// Whether something was printed: the failure of the run if it was not.
pub(crate) fn printed<'a>(put: io::Result<()>) -> Result<(), Failure<'a>>
    ensures { IfErr result IsUnwritten }
{
    match put {
        Ok(()) => Ok(()),
        Err(error) => Err(Failure::writing(STANDARD_OUTPUT, &error)),
    }
}

/// Prints the object of a run that failed, with what is known of the malformed file, and where its fault is. If it
/// cannot be written, there is nothing left to do.
pub fn print_failed<'a, O: Write>(
    alloc: Global,
    failure: &Failure<'a>,
    file: Option<Faulty<'a>>,
    spot: Option<Spot>,
    output: &mut O,
) {
    let mut json = JsonLines::new(output, usize::MAX);
    json.open();
    put_failed(alloc, failure, file, spot, &mut json);
    json.end_line();
    drop(json.finish());
    drop(json);
}

/// Writes the member that says why a run failed, with what is known of the malformed file, and where its fault is.
pub fn put_failed<'a, O: Write>(
    alloc: Global,
    failure: &Failure<'a>,
    file: Option<Faulty<'a>>,
    spot: Option<Spot>,
    json: &mut JsonLines<'_, O>,
) {
    json.open_member("error");
    json.number("status", u64::from(failure.status()));
    json.word("kind", kind_of(failure));
    put_file(failure, file, json);
    put_message(alloc, failure, json);
    put_spot(spot, json);
    json.close();
}

/// Whether standard output failed, to which no more is written then.
pub fn is_of_output(failure: &Failure<'_>) -> bool {
    match failure {
        Failure::CannotWrite(name, _) => *name == STANDARD_OUTPUT,
        _ => false,
    }
}

/// What objects call a failure.
fn kind_of(failure: &Failure<'_>) -> &'static str {
    match failure {
        Failure::Usage(_) => "usage",
        Failure::Tree(_) | Failure::TreeOf(..) => "tree",
        Failure::Transcript(_) => "transcript",
        Failure::Text(_) => "text",
        Failure::UnknownFile => "unknown",
        Failure::CannotRead(..) => "read",
        Failure::CannotWrite(..) | Failure::CannotReplace(..) => "write",
        Failure::CannotCopy(..) | Failure::Unfit(..) => "write",
        Failure::OverLimit(_) | Failure::OutOfMemory => "memory",
        Failure::Unjudged(..) => "unjudged",
    }
}

/// Writes the file that a failure is about, what it is if it is of another kind, and the entry or the record.
fn put_file<'a, O: Write>(
    failure: &Failure<'a>,
    file: Option<Faulty<'a>>,
    json: &mut JsonLines<'_, O>,
) {
    if let Some(name) = name_of(failure, file) {
        json.word("file", name);
    }
    match file {
        Some(
            Faulty {
                format: Some(format),
                ..
            },
        ) => json.word("found", format.word()),
        _ => {}
    }
    match failure {
        Failure::Tree(error) | Failure::TreeOf(_, error) => {
            json.number("entry", u64::from(entry_of(*error)));
        }
        Failure::Transcript(error) => json.number("record", record_of_fault(*error)),
        _ => {}
    }
}

/// The name of the file that a failure is about.
fn name_of<'a>(failure: &Failure<'a>, file: Option<Faulty<'a>>) -> Option<&'a str> {
    match failure {
        Failure::CannotRead(name, _) => Some(*name),
        Failure::CannotWrite(name, _) => Some(*name),
        Failure::CannotReplace(name, _) => Some(*name),
        Failure::CannotCopy(name, _) => Some(*name),
        Failure::Unfit(name, _) => Some(*name),
        Failure::OverLimit(name) => Some(*name),
        _ => match file {
            Some(file) => Some(file.name),
            None => None,
        },
    }
}

/// The number of the entry with a fault.
fn entry_of(error: TreeError) -> u32 {
    match error {
        TreeError::Magic { entry }
        | TreeError::Short { entry }
        | TreeError::Trailing { entry }
        | TreeError::Value { entry }
        | TreeError::Order { entry }
        | TreeError::Parent { entry }
        | TreeError::Io { entry } => entry,
        TreeError::NoMemory => 0,
    }
}

/// The number of the record with a fault.
pub fn record_of_fault(error: TranscriptError) -> u64 {
    match error {
        TranscriptError::Magic { record }
        | TranscriptError::Direction { record }
        | TranscriptError::Start { record }
        | TranscriptError::Wire { record, .. }
        | TranscriptError::Truncated { record }
        | TranscriptError::Io { record } => record,
        TranscriptError::NoMemory => 0,
    }
}

/// Writes the line of a failure, the fault that it names, and the system's reason.
fn put_message<O: Write>(alloc: Global, failure: &Failure<'_>, json: &mut JsonLines<'_, O>) {
    match format!(in alloc; "{failure}") {
        Ok(line) => {
            put_line_of(failure, line.as_str().trim_end(), json);
            drop(line);
        }
        Err(_no_memory) => {}
    }
    if let Some(code) = code_of(failure) {
        put_reason(alloc, code, json);
    }
}

/// Writes the line of a failure, and the fault, with which that of a malformed file ends.
fn put_line_of<O: Write>(failure: &Failure<'_>, line: &str, json: &mut JsonLines<'_, O>) {
    let message = line.strip_prefix("sftpv3: ").unwrap_or(line);
    if is_of_file(failure) {
        let (_, fault) = message.rsplit_once(": ").unwrap_or(("", message));
        json.word("fault", fault);
    }
    json.word("message", message);
}

fn is_of_file(failure: &Failure<'_>) -> bool {
    match failure {
        Failure::Tree(_) | Failure::TreeOf(..) | Failure::Transcript(_) => true,
        _ => false,
    }
}

/// The system's number of the error that a failure comes from.
fn code_of(failure: &Failure<'_>) -> Option<i32> {
    match failure {
        Failure::CannotRead(_, code) => *code,
        Failure::CannotWrite(_, code) => *code,
        Failure::CannotReplace(_, code) => *code,
        Failure::CannotCopy(_, code) => *code,
        _ => None,
    }
}

/// Writes what the system's error of this number means.
fn put_reason<O: Write>(alloc: Global, code: i32, json: &mut JsonLines<'_, O>) {
    let error = io::Error::from_raw_os_error(code);
    match format!(in alloc; "{error}") {
        Ok(reason) => {
            json.word("reason", reason.as_str());
            drop(reason);
        }
        Err(_no_memory) => {}
    }
    drop(error);
}

/// Writes the field with a fault, and the place of its first byte in the file.
fn put_spot<O: Write>(spot: Option<Spot>, json: &mut JsonLines<'_, O>) {
    if let Some(spot) = spot {
        json.word("field", spot.field);
        json.number("byte", spot.place);
    }
}
