//! `--json`: what `infer` says, as JSON objects.
ghost use Rattle.std.specs.Prelude.{◌≡◌, IfOk, IfErr};
ghost use Rattle.sftp_files.specs.declared.messages.Ending.TheVariants as endings;
ghost use Rattle.sftp_files.specs.Failures.{IsUnwritten};

use sftp_files::{Ending, Failure};
use sftp_infer::Candidate;
use sftp_json::JsonLines;
use sftp_verdicts::{object_of, parts_of_line, print_object, whole_lines};
use std::io::Write;

/// Prints the object of a session for which no tree was found, for a reason of this kind, as the last step of a run.
/// The numbers are those of the record that contradicts, and of the one that it contradicts; 0 stands for none.
pub(crate) fn print_untold<'a, O: Write>(
    kind: &str,
    found: u64,
    told: u64,
    output: &mut O,
) -> Result<Ending, Failure<'a>>
    ensures ok { IfOk result (λ ending. ending ≡ endings.Refused) }
    ensures err { IfErr result IsUnwritten }
{
    let mut json = object_of("no-tree", output);
    json.number("record", found);
    json.word("kind", kind);
    json.number("contradicts", told);
    print_object(json, Ending::Refused)
}

/// Prints the object of a session whose search came to this record, and could not fit it to an earlier one, as the last
/// step of a run.
pub(crate) fn print_unfit<'a, O: Write>(
    found: u64,
    told: u64,
    output: &mut O,
) -> Result<Ending, Failure<'a>>
    ensures ok { IfOk result (λ ending. ending ≡ endings.Refused) }
    ensures err { IfErr result IsUnwritten }
{
    let mut json = object_of("no-tree", output);
    json.number("record", found);
    json.word("kind", "Unfit");
    json.number("contradicts", 0);
    json.number("beside", told);
    print_object(json, Ending::Refused)
}

/// Prints the object of a session for which a tree was found, as the last step of a run. `assumed` has a line for each
/// thing that the tree assumes beyond what replies tell.
pub(crate) fn print_inferred<'a, O: Write>(
    requests: u64,
    candidate: &Candidate<'_>,
    assumed: &[u8],
    output: &mut O,
) -> Result<Ending, Failure<'a>>
    ensures ok { IfOk result (λ ending. ending ≡ endings.Done) }
    ensures err { IfErr result IsUnwritten }
{
    let mut json = object_of("accepted", output);
    json.number("requests", requests);
    json.number("entries", candidate.entries);
    json.number("checked", candidate.checked);
    json.open_list("assumed");
    put_assumptions(assumed, &mut json);
    json.close_list();
    print_object(json, Ending::Done)
}

/// Writes what stands behind the colon of each whole line as an item.
fn put_assumptions<O: Write>(lines: &[u8], json: &mut JsonLines<'_, O>) {
    for line in whole_lines(lines).lines() {
        let (_, assumption) = parts_of_line(line);
        json.item(assumption);
    }
}
