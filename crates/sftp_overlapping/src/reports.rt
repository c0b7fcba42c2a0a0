//! What is said of a set: a line or a JSON object for its verdict, and a line for a file with a fault.
ghost use Rattle.std.specs.Prelude.{◌≡◌, IfOk, IfErr};
ghost use Rattle.sftp_files.specs.declared.messages.Ending.TheVariants as endings;
ghost use Rattle.sftp_files.specs.Failures.{IsUnwritten};

use crate::members::Member;
use crate::rejections::Cause;
use sftp_audit::Refusal;
use sftp_files::{Ending, Failure, Named, print};
use sftp_orders::OrderError;
use sftp_times::TimesError;
use sftp_together::OrderFault;
use sftp_transcript::TranscriptError;
use sftp_verdicts::{object_of, print_object, record_of};
use std::alloc::Global;
use std::fmt;
use std::io::Write;

// ---- malformed files

/// The file of times of this name has this fault.
pub(crate) fn of_times<'a>(alloc: Global, name: &str, fault: TimesError) -> Failure<'a> {
    let name = Named(name);
    Failure::of_text(format!(in alloc; "{name}: {fault}"))
}

/// The times of this file are on another clock than those of the sessions before.
pub(crate) fn of_clock<'a>(alloc: Global, name: &str) -> Failure<'a> {
    let name = Named(name);
    Failure::of_text(format!(in alloc;
        "{name}: its times are of another boot or form than those before it, so they cannot be compared"
    ))
}

/// The file of times of this name has no entry for this record.
pub(crate) fn of_untimed<'a>(alloc: Global, name: &str, record: u64) -> Failure<'a> {
    let name = Named(name);
    Failure::of_text(format!(in alloc; "{name}: entry {record}: Short"))
}

/// The file of times of this name has an entry more than there are records.
pub(crate) fn of_spare<'a>(alloc: Global, name: &str, entry: u64) -> Failure<'a> {
    let name = Named(name);
    Failure::of_text(format!(in alloc; "{name}: entry {entry}: Trailing"))
}

/// The transcript of this name has this fault.
pub(crate) fn of_transcript<'a>(alloc: Global, name: &str, fault: TranscriptError) -> Failure<'a> {
    let name = Named(name);
    Failure::of_text(format!(in alloc; "{name}: {fault}"))
}

/// The order of this name has this fault.
pub(crate) fn of_order<'a>(alloc: Global, name: &str, fault: OrderError) -> Failure<'a> {
    let name = Named(name);
    Failure::of_text(format!(in alloc; "{name}: {fault}"))
}

/// The order of this name is one of other sessions.
pub(crate) fn of_other_sessions<'a>(alloc: Global, name: &str) -> Failure<'a> {
    let name = Named(name);
    Failure::of_text(format!(in alloc; "{name}: the order is of other sessions"))
}

// ---- verdicts

/// Says that a set is accepted, as the last step of a run.
pub(crate) fn say_accepted<'a, O: Write>(
    requests: usize,
    sessions: usize,
    is_json: bool,
    output: &mut O,
) -> Result<Ending, Failure<'a>>
    ensures ok { IfOk result (λ ending. ending ≡ endings.Done) }
    ensures err { IfErr result IsUnwritten }
{
    if is_json {
        let mut json = object_of("accepted", output);
        json.number("requests", requests as u64);
        json.number("sessions", sessions as u64);
        return print_object(json, Ending::Done);
    }
    print(
        output,
        format_args!("accepted {requests} requests in {sessions} sessions\n"),
        Ending::Done,
    )
}

/// Where a set is refused: which session, which record of its transcript, at which place of the order from 1 on, and
/// why.
#[derive(Clone, Copy)]
struct Spot {
    session: usize,
    record: Option<u64>,
    place: Option<u64>,
    kind: Kind,
}

/// Why a set is refused.
#[derive(Clone, Copy)]
enum Kind {
    /// The session is none, whatever the order.
    Session(Refusal),
    /// The order names a session that has no request left.
    NothingLeft,
    /// The request has to come earlier, by the clock.
    Clock,
    /// The reply is not allowed there.
    NotAllowed,
    /// The order has no place for the request.
    LeftOut,
}

impl Kind {
    /// Its word.
    fn word(self) -> &'static str {
        match self {
            Kind::Session(Refusal::UnknownReply { .. }) => "UnknownReply",
            Kind::Session(Refusal::IdInUse { .. }) => "IdInUse",
            Kind::Session(Refusal::Window { .. }) => "Window",
            Kind::Session(Refusal::Unanswered { .. }) => "Unanswered",
            Kind::Session(Refusal::NoMemory) => "NoMemory",
            Kind::Session(Refusal::NotAllowed { .. }) | Kind::NotAllowed => "NotAllowed",
            Kind::NothingLeft => "NothingLeft",
            Kind::Clock => "Clock",
            Kind::LeftOut => "LeftOut",
        }
    }

    /// What it means.
    fn meaning(self) -> &'static str {
        match self {
            Kind::Session(Refusal::UnknownReply { .. }) => "no request waits for it",
            Kind::Session(Refusal::IdInUse { .. }) => "a request that waits has its id",
            Kind::Session(Refusal::Window { .. }) => "too many requests wait",
            Kind::Session(Refusal::Unanswered { .. }) => "it has no reply",
            Kind::Session(_) => "the session cannot be judged",
            Kind::NothingLeft => "the session has no request left",
            Kind::Clock => "it was answered before an earlier one was asked",
            Kind::NotAllowed => "the reply is wrong",
            Kind::LeftOut => "the order has no place for it",
        }
    }
}

/// Where and why a set is refused.
fn spot_of(cause: Cause) -> Spot {
    match cause {
        Cause::Session { session, refusal } => Spot {
            session,
            record: Some(record_of(refusal)),
            place: None,
            kind: Kind::Session(refusal),
        },
        Cause::Order(fault) => spot_of_fault(fault),
    }
}

/// Where an order is none, and why.
fn spot_of_fault(fault: OrderFault) -> Spot {
    let (session, record, place, kind) = match fault {
        OrderFault::NothingLeft { place, session } => {
            (usize::from(session), None, Some(place), Kind::NothingLeft)
        }
        OrderFault::Clock {
            place,
            session,
            record,
        } => (usize::from(session), Some(record), Some(place), Kind::Clock),
        OrderFault::Reply {
            place,
            session,
            record,
        } => (
            usize::from(session),
            Some(record),
            Some(place),
            Kind::NotAllowed,
        ),
        OrderFault::LeftOut { session, record } => (session, Some(record), None, Kind::LeftOut),
        OrderFault::Unread { session } => (session, None, None, Kind::Session(Refusal::NoMemory)),
        OrderFault::NoMemory => (0, None, None, Kind::Session(Refusal::NoMemory)),
    };
    Spot {
        session,
        record,
        place: place.map(|place| (place as u64).saturating_add(1)),
        kind,
    }
}

/// A place of an order, as a line has it.
#[derive(Clone, Copy)]
struct AtPlace(Option<u64>);

impl fmt::Display for AtPlace {
    fn fmt<W: fmt::Write>(&self, f: &mut fmt::Formatter<W>) -> fmt::Result {
        match self.0 {
            Some(place) => write!(f, " at place {place} of the order"),
            None => Ok(()),
        }
    }
}

/// A record, as a line has it.
#[derive(Clone, Copy)]
struct OfRecord(Option<u64>);

impl fmt::Display for OfRecord {
    fn fmt<W: fmt::Write>(&self, f: &mut fmt::Formatter<W>) -> fmt::Result {
        match self.0 {
            Some(record) => write!(f, " record {record}"),
            None => Ok(()),
        }
    }
}

/// Says where and why a set is refused, as the last step of a run.
pub(crate) fn say_refused<'a, T, O: Write>(
    cause: Cause,
    members: &[Member<'a, T>],
    is_json: bool,
    output: &mut O,
) -> Result<Ending, Failure<'a>>
    ensures ok { IfOk result (λ ending. ending ≡ endings.Refused) }
    ensures err { IfErr result IsUnwritten }
{
    let spot = spot_of(cause);
    let transcript = match members.get(spot.session) {
        Some(member) => member.transcript.path,
        None => "",
    };
    if is_json {
        return print_spot(&spot, transcript, output);
    }
    let name = Named(transcript);
    let record = OfRecord(spot.record);
    let place = AtPlace(spot.place);
    let word = spot.kind.word();
    let meaning = spot.kind.meaning();
    print(
        output,
        format_args!("refused: {name}{record}: {word}{place}: {meaning}\n"),
        Ending::Refused,
    )
}

/// Prints the object of a refused set.
fn print_spot<'a, O: Write>(
    spot: &Spot,
    transcript: &str,
    output: &mut O,
) -> Result<Ending, Failure<'a>>
    ensures ok { IfOk result (λ ending. ending ≡ endings.Refused) }
    ensures err { IfErr result IsUnwritten }
{
    let mut json = object_of("refused", output);
    json.word("transcript", transcript);
    if let Some(record) = spot.record {
        json.number("record", record);
    }
    json.word("kind", spot.kind.word());
    if let Some(place) = spot.place {
        json.number("place", place);
    }
    json.word("text", spot.kind.meaning());
    print_object(json, Ending::Refused)
}
