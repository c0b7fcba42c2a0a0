//! `serve --replay`: the order of a recorded session; and its replies, proposed to the one that is served.

use sftp_files::{Failure, System, open};
use sftp_handles::{GivenTable, Session};
use sftp_server::{Schedule, Step};
use sftp_transcript::{Event, Reader, Tally, TranscriptError, WINDOW};
use sftp_tree::NoMemory;
use sftp_vary::Proposer;
use sftp_wire::{Answer, Ask, Packet, Reply, Request, asked_handle, encode, extension_name};
use std::alloc::Global;
use std::fmt;
use std::fs::File;

/// Where the fields of a request begin in its packet: behind the length, the type and the id.
const FIELDS: usize = 9;

/// Where its type is: behind the length.
const TYPE: usize = 4;

/// The bytes of the length of a text.
const LENGTH: usize = 4;

/// The number of the record of VERSION.
const VERSION: u64 = 2;

/// The order of a recorded session: each request is awaited where the record has it, and each reply sent there.
#[derive(Drop)]
pub(crate) struct Replay {
    alloc: Global,
    events: Reader<Tally<File>>,
    /// The request of the last step, if that takes one.
    expected: Option<Spelled>,
    parting: Parting,
}

/// How far a session followed a script, and why it left it.
#[derive(Clone, Copy)]
pub(crate) struct Parting {
    /// The number of the record of the last step.
    record: u64,
    /// How many requests the script had so far.
    requests: u64,
    why: Why,
}

/// Why a session leaves its script.
#[derive(Clone, Copy)]
enum Why {
    /// No request came.
    Unasked,
    /// Another request came.
    Other,
    /// No request waits for the reply.
    Unanswerable,
    /// It has no more records.
    Over,
    /// The process may have no more memory.
    NoMemory,
    /// The record cannot be read.
    Unread(TranscriptError),
}

impl Replay {
    /// The order of the session in the transcript `name`. Its greetings are read.
    pub(crate) fn new<'a, R: System>(rt: &R, name: &'a str) -> Result<Replay, Failure<'a>> {
        Ok(Replay {
            alloc: rt.alloc(),
            events: open_record(rt, name)?,
            expected: None,
            parting: Parting {
                record: VERSION,
                requests: 0,
                why: Why::Over,
            },
        })
    }

    /// How far the session has followed so far, and why it does not go on.
    pub(crate) fn parting(&self) -> Parting {
        self.parting
    }

    /// Leaves the script, as the process may have no more memory.
    pub(crate) fn leave(&mut self) {
        self.parting.why = Why::NoMemory;
    }

    /// Notes a further record, and why the session left if its step cannot be done.
    fn note(&mut self, why: Why) {
        self.parting.record = self.parting.record.saturating_add(1);
        self.parting.why = why;
    }

    /// The step that takes this request.
    fn take(&mut self, request: Request) -> Step {
        self.note(Why::Unasked);
        self.parting.requests = self.parting.requests.saturating_add(1);
        self.expected = spelling_of(self.alloc, request);
        Step::Take
    }
}

/// The transcript `name`, behind its greetings.
pub(crate) fn open_record<'a, R: System>(
    rt: &R,
    name: &'a str,
) -> Result<Reader<Tally<File>>, Failure<'a>> {
    let file = open(rt, name)?;
    match Reader::new(rt.alloc(), Tally::new(file)) {
        Ok(events) => begun(events, name),
        Err(error) => Err(Failure::of_transcript(error, name)),
    }
}

/// The events behind the greetings.
fn begun<'a>(
    mut events: Reader<Tally<File>>,
    name: &'a str,
) -> Result<Reader<Tally<File>>, Failure<'a>> {
    match pass_greetings(&mut events) {
        Ok(()) => Ok(events),
        Err(error) => {
            drop(events);
            Err(Failure::of_transcript(error, name))
        }
    }
}

/// Reads INIT and VERSION.
fn pass_greetings(events: &mut Reader<Tally<File>>) -> Result<(), TranscriptError> {
    drop(events.next_record()?);
    drop(events.next_record()?);
    Ok(())
}

impl Schedule for Replay {
    fn pick(&mut self, _count: usize) -> usize {
        0
    }

    fn step(&mut self) -> Option<Step> {
        match self.events.next() {
            Ok(Some(Event::Asked(request))) => Some(self.take(request)),
            Ok(Some(Event::Replied(reply))) => {
                let id = reply.id;
                drop(reply);
                self.note(Why::Unanswerable);
                Some(Step::Reply(id))
            }
            Ok(None) => {
                self.parting.why = Why::Over;
                None
            }
            Err(error) => {
                self.note(Why::Unread(error));
                None
            }
        }
    }

    fn expects(&mut self, request: &Request) -> bool {
        let is_same = match &self.expected {
            Some(expected) => is_asked(self.alloc, request, expected),
            None => false,
        };
        if !is_same {
            self.parting.why = Why::Other;
        }
        is_same
    }
}

/// The bytes of a request's packet, and where its handle begins and ends in them, past their end if it names none.
#[derive(Drop)]
struct Spelled {
    bytes: Vec<u8>,
    handle: usize,
    behind: usize,
}

impl Spelled {
    /// The bytes before the handle, from the type on.
    fn front(&self) -> &[u8] {
        let end = self.handle.min(self.bytes.len());
        self.bytes.get(TYPE..end).unwrap_or(&[])
    }

    /// The bytes behind the handle.
    fn back(&self) -> &[u8] {
        self.bytes.get(self.behind..).unwrap_or(&[])
    }
}

/// The bytes of a request, unless memory runs out.
fn spelling_of(alloc: Global, request: Request) -> Option<Spelled> {
    let (handle, behind) = handle_place(&request.ask);
    let packet = Packet::Request(request);
    let mut bytes = Vec::new(alloc);
    let done = encode(&packet, &mut bytes);
    drop(packet);
    match done {
        Ok(()) => Some(Spelled {
            bytes,
            handle,
            behind,
        }),
        Err(_) => {
            drop(bytes);
            None
        }
    }
}

/// Where the handle of a request begins and ends in its packet; past the end if it names none.
fn handle_place(ask: &Ask) -> (usize, usize) {
    match asked_handle(ask) {
        Some(handle) => {
            let begin = match extension_name(ask) {
                Some(name) => name.len().saturating_add(FIELDS + LENGTH),
                None => FIELDS,
            };
            (
                begin,
                begin.saturating_add(LENGTH).saturating_add(handle.len()),
            )
        }
        None => (usize::MAX, usize::MAX),
    }
}

/// Whether a request is the one that was recorded. Their handles may have other names.
fn is_asked(alloc: Global, request: &Request, expected: &Spelled) -> bool {
    match copy(request) {
        Some(copy) => match spelling_of(alloc, copy) {
            Some(found) => {
                let is_same = found.front() == expected.front() && found.back() == expected.back();
                drop(found);
                is_same
            }
            None => false,
        },
        None => false,
    }
}

/// A copy of a request, unless memory runs out.
fn copy(request: &Request) -> Option<Request> {
    match request.ask.clone() {
        Ok(ask) => Some(Request {
            id: request.id,
            ask,
        }),
        Err(_) => None,
    }
}

impl Parting {
    /// Whether a session of so many requests followed its script to the end, and asked no more.
    pub(crate) fn is_whole(&self, requests: u64) -> bool {
        match self.why {
            Why::Over => requests <= self.requests,
            _ => false,
        }
    }
}

impl fmt::Display for Parting {
    fn fmt<W: fmt::Write>(&self, f: &mut fmt::Formatter<W>) -> fmt::Result {
        let record = self.record;
        let (place, why) = match self.why {
            Why::Unasked => ("at", ": no request came"),
            Why::Other => ("at", ": another request came"),
            Why::Unanswerable => ("at", ": no request waits for this reply"),
            Why::Over => ("after", ", which is the last"),
            Why::NoMemory => ("after", ": too little memory"),
            Why::Unread(error) => return write!(f, "left at {error}"),
        };
        write!(f, "left {place} record {record}{why}")
    }
}

/// The most replies that are read ahead: a request that waits for its reply has at most a window of others before it,
/// and one behind it.
const MOST_AHEAD: usize = 2 * WINDOW;

/// Proposes the replies of a recorded session, for each request the next one of its id.
#[derive(Drop)]
pub(crate) struct Recorded {
    /// The record behind the replies that were read; `None` if there is none, or no more of it.
    events: Option<Reader<Tally<File>>>,
    /// Replies that were read and not proposed, in the order of the record.
    ahead: Vec<Noted>,
}

/// A reply of the record.
#[derive(Drop)]
struct Noted {
    id: u32,
    /// Its answer; `None` if nothing of it is free.
    answer: Option<Answer>,
}

impl Recorded {
    /// The replies of the transcript of this name, if there is one.
    pub(crate) fn new<'a, R: System>(
        rt: &R,
        name: Option<&'a str>,
    ) -> Result<Recorded, Failure<'a>> {
        let events = match name {
            Some(name) => Some(open_record(rt, name)?),
            None => None,
        };
        Ok(Recorded {
            events,
            ahead: Vec::new(rt.alloc()),
        })
    }

    /// Whether there is a record, or more of it.
    pub(crate) fn has_more(&self) -> bool {
        self.events.is_some()
    }

    /// Reads on to the next reply of this id, and returns its answer.
    fn read_to(&mut self, id: u32) -> Result<Option<Answer>, NoMemory> {
        for _ in 0..MOST_AHEAD {
            match self.next_reply() {
                Some(noted) => {
                    if noted.id == id {
                        return Ok(noted.answer);
                    }
                    self.ahead.push(noted)?;
                }
                None => return Ok(None),
            }
        }
        self.end();
        Ok(None)
    }

    /// The next reply of the record. At its end, or where it cannot be read, there are no more.
    fn next_reply(&mut self) -> Option<Noted> {
        for _ in 0..MOST_AHEAD {
            let event = match &mut self.events {
                Some(events) => events.next(),
                None => return None,
            };
            match event {
                Ok(Some(Event::Replied(reply))) => return Some(note_of(reply)),
                Ok(Some(Event::Asked(request))) => drop(request),
                Ok(None) => {
                    self.end();
                    return None;
                }
                Err(_) => {
                    self.end();
                    return None;
                }
            }
        }
        self.end();
        None
    }

    /// Leaves the record.
    fn end(&mut self) {
        self.events = None;
    }

    /// Where the next reply of this id is among those that were read; their number if it is not there.
    fn place_of(&self, id: u32) -> usize {
        for (place, noted) in self.ahead.iter().enumerate() {
            if noted.id == id {
                return place;
            }
        }
        self.ahead.len()
    }
}

/// What is kept of a reply. The data of a READ, and the limits, are as the session gives them.
fn note_of(reply: Reply) -> Noted {
    let id = reply.id;
    let answer = match reply.answer {
        Answer::Data(bytes) => {
            drop(bytes);
            None
        }
        Answer::Extended(bytes) => {
            drop(bytes);
            None
        }
        other => Some(other),
    };
    Noted { id, answer }
}

impl Proposer for Recorded {
    fn propose(
        &mut self,
        _session: &Session<GivenTable>,
        request: &Request,
    ) -> Result<Option<Answer>, NoMemory> {
        let place = self.place_of(request.id);
        if place < self.ahead.len() {
            Ok(self.ahead.remove(place).answer)
        } else {
            self.read_to(request.id)
        }
    }
}
