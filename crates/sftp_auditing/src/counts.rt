//! How many requests of an accepted session were judged, and what is said of them and of the others.
ghost use Rattle.std.specs.Prelude.{◌≡◌, ◌-◌, IfOk, IfErr};
ghost use Rattle.sftp_files.specs.declared.messages.Ending.TheVariants as endings;
ghost use Rattle.sftp_files.specs.Failures.{IsUnwritten};

use crate::verdict_objects::print_accepted;
use sftp_audit::EndedCut;
use sftp_files::{Ending, Failure, Named, print};
use sftp_json::JsonLines;
use sftp_verdicts::AuditOptions;
use std::fmt;
use std::io::Write;

/// How many requests of an accepted session there are of each kind. Each request is of one kind.
#[derive(Clone, Copy)]
pub(crate) struct Counts {
    /// Those before the oldest unanswered one: they and their replies were judged.
    pub(crate) judged: u64,
    /// Those without a reply.
    pub(crate) unanswered: usize,
    /// The others: they come after the oldest unanswered one and have replies, which were not judged.
    pub(crate) unjudged: usize,
}

impl fmt::Display for Counts {
    fn fmt<W: fmt::Write>(&self, f: &mut fmt::Formatter<W>) -> fmt::Result {
        let judged = self.judged;
        write!(f, "accepted {judged} requests")?;
        put_count(f, self.unanswered, "unanswered")?;
        put_count(f, self.unjudged, "not judged")
    }
}

/// Writes how many requests there are of a kind, if there are any.
fn put_count<W: fmt::Write>(f: &mut fmt::Formatter<W>, count: usize, kind: &str) -> fmt::Result {
    if count == 0 {
        return Ok(());
    }
    write!(f, ", {count} {kind}")
}

/// Writes the counts as members of an object, those of the others only of a session that may have been cut.
pub(crate) fn put_counts<O: Write>(counts: Counts, cuts: bool, json: &mut JsonLines<'_, O>) {
    json.number("requests", counts.judged);
    if cuts {
        json.number("unanswered", counts.unanswered as u64);
        json.number("unjudged", counts.unjudged as u64);
    }
}

/// Says that a session is accepted, and how many requests there are of each kind: as an object, which has the others of
/// a session alone that may have been cut, or as a line.
pub(crate) fn say_accepted<'a, O: Write>(
    counts: Counts,
    files: &AuditOptions<'a>,
    output: &mut O,
) -> Result<Ending, Failure<'a>>
    ensures ok { IfOk result (λ ending. ending ≡ endings.Done) }
    ensures err { IfErr result IsUnwritten }
{
    if files.is_json {
        return print_accepted(counts, files, output);
    }
    let label = Label(files.shown_name());
    print(output, format_args!("{label}{counts}\n"), Ending::Done)
}

/// The name of a transcript in front of what is said of its session, if it has one.
#[derive(Clone, Copy)]
pub(crate) struct Label<'a>(pub(crate) Option<&'a str>);

impl fmt::Display for Label<'_> {
    fn fmt<W: fmt::Write>(&self, f: &mut fmt::Formatter<W>) -> fmt::Result {
        match self.0 {
            Some(name) => {
                let name = Named(name);
                write!(f, "{name}: ")
            }
            None => Ok(()),
        }
    }
}

/// How many requests of an accepted session there are of each kind.
pub(crate) fn counts_of(ended: &EndedCut) -> Counts
    ensures judged { result.judged ≡ ended.now.requests - ended.now.unsettled }
    ensures unanswered { result.unanswered ≡ ended.now.unanswered }
    ensures unjudged { result.unjudged ≡ ended.now.unsettled - ended.now.unanswered }
{
    Counts {
        judged: ended.requests.saturating_sub(ended.unsettled as u64),
        unanswered: ended.unanswered,
        unjudged: ended.unsettled.saturating_sub(ended.unanswered),
    }
}
