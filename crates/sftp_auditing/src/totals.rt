//! `audit --keep-going`: the line at the end, which says how many findings there are and where the audit ended.
ghost use Rattle.std.specs.Prelude.{◌≡◌, IfOk, IfErr};
ghost use Rattle.sftp_files.specs.declared.messages.Ending.TheVariants as endings;
ghost use Rattle.sftp_files.specs.Failures.{IsUnwritten};

use crate::counts::{Counts, put_counts};
use sftp_commands::record_of_fault;
use sftp_files::{Ending, Failure, print};
use sftp_json::JsonLines;
use sftp_transcript::TranscriptError;
use sftp_verdicts::{object_of, print_object};
use std::alloc::AllocError;
use std::fmt;
use std::io::Write;

/// Why an audit does not go on behind a record.
#[derive(Clone, Copy)]
pub(crate) enum Reason {
    /// The request with the wrong reply may have changed something.
    Changed,
    /// The profile does not follow the request.
    NotModelled,
    /// The request has no reply.
    Unanswered,
    /// The request has the id of one that waits for its reply.
    SameId,
    /// Too many requests wait for their replies.
    Window,
}

/// How an audit ends that goes on behind wrong replies.
#[derive(Clone, Copy)]
pub(crate) enum End {
    /// All that was judged besides is right.
    Accepted(Counts),
    /// There are as many findings as were asked for.
    Most,
    /// It cannot go on behind the record with this number.
    Stopped(u64, Reason),
    /// The transcript has this fault.
    Malformed(TranscriptError),
    /// The transcript is not what it was when it was audited. It may be a pipe.
    OtherTranscript,
    /// Memory ran out, or there is more than a limit on it allows.
    OutOfMemory,
}

impl From<AllocError> for End {
    fn from(_error: AllocError) -> End {
        End::OutOfMemory
    }
}

impl From<TranscriptError> for End {
    fn from(error: TranscriptError) -> End {
        match error {
            TranscriptError::NoMemory => End::OutOfMemory,
            TranscriptError::Io { .. } => End::OtherTranscript,
            fault => End::Malformed(fault),
        }
    }
}

impl Reason {
    /// What objects call it.
    fn word(self) -> &'static str {
        match self {
            Reason::Changed => "changed",
            Reason::NotModelled => "not modelled",
            Reason::Unanswered => "unanswered",
            Reason::SameId => "id in use",
            Reason::Window => "window",
        }
    }

    /// What the line says.
    fn text(self) -> &'static str {
        match self {
            Reason::Changed => "its request may have changed something",
            Reason::NotModelled => "its request is not modelled",
            Reason::Unanswered => "it has no reply",
            Reason::SameId => "an unanswered request has its id",
            Reason::Window => "too many requests wait for replies",
        }
    }
}

/// The findings of an audit, and how it ended.
#[derive(Clone, Copy)]
pub(crate) struct Total {
    pub(crate) findings: u64,
    pub(crate) end: End,
}

impl fmt::Display for Total {
    fn fmt<W: fmt::Write>(&self, f: &mut fmt::Formatter<W>) -> fmt::Result {
        let findings = self.findings;
        write!(f, "{findings} findings, ")?;
        put_end(f, self.end)
    }
}

fn put_end<W: fmt::Write>(f: &mut fmt::Formatter<W>, end: End) -> fmt::Result {
    match end {
        End::Accepted(counts) => write!(f, "{counts}"),
        End::Most => f.write_str("stopped: there may be more"),
        End::Stopped(record, reason) => put_stop(f, record, reason),
        End::Malformed(error) => write!(f, "stopped: transcript: {error}"),
        End::OtherTranscript => f.write_str("stopped: the transcript cannot be read again"),
        End::OutOfMemory => f.write_str("stopped: out of memory"),
    }
}

fn put_stop<W: fmt::Write>(f: &mut fmt::Formatter<W>, record: u64, reason: Reason) -> fmt::Result {
    let text = reason.text();
    write!(f, "stopped at record {record}: {text}")
}

/// Prints the line, or the object, at the end of the findings, as the last step of a run.
pub(crate) fn print_total<'a, O: Write>(
    total: Total,
    is_json: bool,
    output: &mut O,
) -> Result<Ending, Failure<'a>>
    ensures ok { IfOk result (λ ending. ending ≡ endings.Refused) }
    ensures err { IfErr result IsUnwritten }
{
    if is_json {
        return print_as_object(total, output);
    }
    print(output, format_args!("{total}\n"), Ending::Refused)
}

fn print_as_object<'a, O: Write>(total: Total, output: &mut O) -> Result<Ending, Failure<'a>>
    ensures ok { IfOk result (λ ending. ending ≡ endings.Refused) }
    ensures err { IfErr result IsUnwritten }
{
    let mut json = object_of("refused", output);
    json.number("findings", total.findings);
    json.word("end", word_of(total.end));
    put_members(total.end, &mut json);
    print_object(json, Ending::Refused)
}

/// What objects call an end.
fn word_of(end: End) -> &'static str {
    match end {
        End::Accepted(_) => "complete",
        End::Most => "most",
        End::Stopped(_, reason) => reason.word(),
        End::Malformed(_) => "malformed",
        End::OtherTranscript => "unread",
        End::OutOfMemory => "memory",
    }
}

/// Writes what is to be said of an end.
fn put_members<O: Write>(end: End, json: &mut JsonLines<'_, O>) {
    match end {
        End::Accepted(counts) => put_counts(counts, true, json),
        End::Stopped(record, _) => json.number("record", record),
        End::Malformed(error) => json.number("record", record_of_fault(error)),
        _ => {}
    }
}
