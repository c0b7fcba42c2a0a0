//! `--json`: verdicts as JSON objects, and the lines that go into them.
ghost use Rattle.std.specs.Prelude.{◌≡◌, IfOk, IfErr};
ghost use Rattle.sftp_files.specs.Failures.{IsUnwritten};

use sftp_commands::ended;
use sftp_files::{Ending, Failure};
use sftp_json::JsonLines;
use std::io::Write;

/// The object of a session with this verdict, to which members are added.
pub fn object_of<'o, O: Write>(verdict: &str, output: &'o mut O) -> JsonLines<'o, O> {
    let mut json = JsonLines::new(output, usize::MAX);
    json.open();
    json.word("verdict", verdict);
    json
}

/// The same of a session whose transcript has this name, which comes first, if it has one.
pub fn named_object_of<'o, O: Write>(
    name: Option<&str>,
    verdict: &str,
    output: &'o mut O,
) -> JsonLines<'o, O> {
    let mut json = JsonLines::new(output, usize::MAX);
    json.open();
    if let Some(name) = name {
        json.word("name", name);
    }
    json.word("verdict", verdict);
    json
}

/// Ends an object, and prints it as the last step of a run.
///
/// # Errors
///
/// If standard output cannot be written, and `OutOfMemory`.
pub fn print_object<'a, O: Write>(
    object: JsonLines<'_, O>,
    ending: Ending,
) -> Result<Ending, Failure<'a>>
    ensures ok { IfOk result (λ ended. ended ≡ ending) }
    ensures err { IfErr result IsUnwritten }
{
    let mut json = object;
    json.end_line();
    let printed = json.finish();
    drop(json);
    ended(printed, ending)
}

/// The lines that are whole. If memory ran out, the last may be cut off.
pub fn whole_lines(lines: &[u8]) -> &str {
    let text = str::from_utf8(lines).unwrap_or("");
    let (whole, _) = text.rsplit_once('\n').unwrap_or(("", ""));
    whole
}

/// What stands before and behind the colon of a line.
pub fn parts_of_line(line: &str) -> (&str, &str) {
    line.split_once(": ").unwrap_or(("", line))
}
