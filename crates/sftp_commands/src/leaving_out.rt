//! `audit --keep-going`: a recorded session without its wrong replies, their requests, and what hangs on these.
ghost use Rattle.std.specs.Prelude.{◌<◌, ◌≤◌, length, IfOk, IfSome};
ghost use Rattle.sftp_transcript.specs.Recorded.{size_of};

use crate::bearings::{Bearing, Outcome, bearing_of, outcome_of};
use sftp_transcript::{Event, Reader, Source, TranscriptError, WINDOW};
use sftp_wire::{Answer, Ask, ByteString, Reply, Request, asked_handle};
use std::alloc::{AllocError, Global};

/// The number of the last record before the events.
const OPENED: u64 = 2;

/// What is left out of a session, and how far it has been read without that.
#[derive(Drop)]
pub struct LeftOut {
    alloc: Global,
    /// The numbers of the records found wrong, in ascending order: of requests, whose replies are left out with them,
    /// and of replies to no request.
    numbers: Vec<u64>,
    /// The handles whose requests are left out.
    lost: Vec<Lost>,
    /// The number of the record that was read last.
    number: u64,
    /// How many of the numbers were passed.
    passed: usize,
    /// The ids of requests that were left out and have no reply yet: at most as many as can be in flight.
    waiting: Vec<u32>,
    /// How many requests were left out since they hang on a wrong reply.
    hanging: u64,
}

/// A handle of which nobody knows what it stands for, or what its listing has left.
#[derive(Drop)]
struct Lost {
    handle: ByteString,
    /// The record behind which it is so.
    behind: u64,
    /// Whether READDIR alone is left out.
    lists: bool,
    /// Whether a later reply gave the handle anew.
    is_over: bool,
}

impl Lost {
    /// Whether a request is left out that names this handle and is the record with this number.
    fn is_hit(&self, handle: &[u8], lists: bool, number: u64) -> bool {
        !self.is_over
            && number > self.behind
            && (lists || !self.lists)
            && self.handle.as_slice() == handle
    }

    /// Notes that the reply with this number gives a handle.
    fn note_given(&mut self, handle: &[u8], number: u64) {
        if number > self.behind && self.handle.as_slice() == handle {
            self.is_over = true;
        }
    }
}

/// A reply of a session: the number of its record, its id, and what it says.
#[derive(Clone, Copy)]
pub struct Replied {
    pub number: u64,
    pub id: u32,
    pub outcome: Outcome,
}

/// A request of a session: the number of its record, and what it may change.
#[derive(Clone, Copy)]
pub struct Asked {
    pub number: u64,
    pub bearing: Bearing,
}

impl LeftOut {
    /// Nothing is left out.
    pub fn new(alloc: Global) -> LeftOut {
        LeftOut {
            alloc,
            numbers: Vec::new(alloc),
            lost: Vec::new(alloc),
            number: OPENED,
            passed: 0,
            waiting: Vec::new(alloc),
            hanging: 0,
        }
    }

    /// Whether nothing is left out.
    pub fn is_empty(&self) -> bool {
        self.numbers.is_empty()
    }

    /// Whether the record with this number is left out.
    pub fn leaves(&self, number: u64) -> bool {
        for each in self.numbers.iter() {
            if *each == number {
                return true;
            }
        }
        false
    }

    /// Leaves out the record with this number: a request with its reply, or a reply to no request.
    ///
    /// # Errors
    ///
    /// `AllocError` if memory runs out.
    pub fn leave_record(&mut self, number: u64) -> Result<(), AllocError> {
        self.numbers.push(number)?;
        self.numbers.sort_unstable();
        Ok(())
    }

    /// Leaves out the requests with this handle behind the record with this number, READDIR alone or all, until a reply
    /// gives the handle anew.
    ///
    /// # Errors
    ///
    /// `AllocError` if memory runs out.
    pub fn leave_handle(
        &mut self,
        handle: &[u8],
        behind: u64,
        lists: bool,
    ) -> Result<(), AllocError> {
        let handle = ByteString::from_slice(self.alloc, handle)?;
        self.lost.push(Lost {
            handle,
            behind,
            lists,
            is_over: false,
        })?;
        Ok(())
    }

    /// How many requests were left out, up to the record that was read last, since they hang on a wrong reply.
    pub fn hanging(&self) -> u64 {
        self.hanging
    }

    /// Begins anew, with a session of which nothing was read yet.
    pub fn begin(&mut self) {
        self.number = OPENED;
        self.passed = 0;
        self.hanging = 0;
        self.waiting.clear();
        for lost in self.lost.iter_mut() {
            lost.is_over = false;
        }
    }

    /// The next event that is not left out; `None` at the end.
    ///
    /// # Errors
    ///
    /// Those of `Reader::next`.
    pub fn next<R: Source>(
        &mut self,
        records: &mut Reader<R>,
    ) -> Result<Option<Event>, TranscriptError>
        ensures { IfOk result (λ given. IfSome given (λ _. size_of records.new.ahead < size_of records.old.ahead)) }
    {
        'events: while let Some(event) = records.next()? {
            self.number = self.number.saturating_add(1);
            match self.is_left_out(&event) {
                Ok(false) => return Ok(Some(event)),
                Ok(true) => drop(event),
                Err(_no_memory) => {
                    drop(event);
                    return Err(TranscriptError::NoMemory);
                }
            }
        }
        Ok(None)
    }

    /// Whether the event that was just read is left out.
    fn is_left_out(&mut self, event: &Event) -> Result<bool, AllocError> {
        match event {
            Event::Asked(request) => self.is_request_left_out(request),
            Event::Replied(reply) => Ok(self.is_reply_left_out(reply)),
        }
    }

    fn is_request_left_out(&mut self, request: &Request) -> Result<bool, AllocError> {
        let is_wrong = self.is_wrong();
        if !is_wrong && !self.hangs(&request.ask) {
            return Ok(false);
        }
        self.hanging = self.hanging.saturating_add(u64::from(!is_wrong));
        self.wait_for(request.id)?;
        Ok(true)
    }

    fn is_reply_left_out(&mut self, reply: &Reply) -> bool {
        if let Answer::Handle(handle) = &reply.answer {
            note_given(&mut self.lost, handle.as_slice(), self.number);
        }
        self.is_wrong() || self.has_waited_for(reply.id)
    }

    /// Whether the record that was read last was found wrong.
    fn is_wrong(&mut self) -> bool {
        match self.numbers.get(self.passed) {
            Some(number) if *number == self.number => {
                self.passed = self.passed.saturating_add(1);
                true
            }
            _ => false,
        }
    }

    /// Whether a request hangs on a wrong reply.
    fn hangs(&self, ask: &Ask) -> bool {
        match asked_handle(ask) {
            Some(handle) => is_hit(&self.lost, handle, is_list(ask), self.number),
            None => false,
        }
    }

    /// Notes the id of a request that is left out.
    fn wait_for(&mut self, id: u32) -> Result<(), AllocError> {
        if self.waiting.len() >= WINDOW {
            self.waiting.swap_remove(0);
        }
        self.waiting.push(id)?;
        Ok(())
    }

    /// Whether a reply belongs to a request that was left out. From then on it has its reply.
    fn has_waited_for(&mut self, id: u32) -> bool {
        match place_of(self.waiting.as_slice(), id) {
            Some(place) => {
                self.waiting.swap_remove(place);
                true
            }
            None => false,
        }
    }
}

/// Searches. Each takes a reader that has read nothing yet.
impl LeftOut {
    /// The number in the transcript of the record that has this number where what is left out is not counted, if there
    /// are as many.
    ///
    /// # Errors
    ///
    /// The first fault of the transcript before it, and `NoMemory` if memory runs out.
    pub fn find<R: Source>(
        &mut self,
        records: &mut Reader<R>,
        counted: u64,
    ) -> Result<Option<u64>, TranscriptError> {
        self.begin();
        let mut last = OPENED;
        'events: while let Some(event) = self.next(records)? {
            drop(event);
            last = last.saturating_add(1);
            if last == counted {
                return Ok(Some(self.number));
            }
        }
        Ok(None)
    }

    /// How many requests that are not left out come before the record with this number.
    ///
    /// # Errors
    ///
    /// The first fault of the transcript before it, and `NoMemory` if memory runs out.
    pub fn requests_before<R: Source>(
        &mut self,
        records: &mut Reader<R>,
        number: u64,
    ) -> Result<u64, TranscriptError> {
        self.begin();
        let mut requests: u64 = 0;
        'events: while let Some(event) = self.next(records)? {
            let is_request = is_request(&event);
            drop(event);
            if self.number >= number {
                break 'events;
            }
            requests = requests.saturating_add(u64::from(is_request));
        }
        Ok(requests)
    }

    /// The number of the request that has so many requests before it that are not left out, if there is one.
    ///
    /// # Errors
    ///
    /// The first fault of the transcript before it, and `NoMemory` if memory runs out.
    pub fn number_of_request<R: Source>(
        &mut self,
        records: &mut Reader<R>,
        before: u64,
    ) -> Result<Option<u64>, TranscriptError> {
        self.begin();
        let mut left = before;
        'events: while let Some(event) = self.next(records)? {
            let is_request = is_request(&event);
            drop(event);
            if is_request && left == 0 {
                return Ok(Some(self.number));
            }
            left = left.saturating_sub(u64::from(is_request));
        }
        Ok(None)
    }
}

/// The last request with this id before the record with this number, if there is one. The reader has read nothing yet.
///
/// # Errors
///
/// The first fault of the transcript before that record, and `NoMemory` if memory runs out.
pub fn last_asked<R: Source>(
    records: &mut Reader<R>,
    id: u32,
    number: u64,
) -> Result<Option<Asked>, TranscriptError> {
    let mut last = None;
    let mut place = OPENED;
    'events: while let Some(event) = records.next()? {
        place = place.saturating_add(1);
        let bearing = bearing_in(&event, id);
        drop(event);
        if place >= number {
            break 'events;
        }
        if let Some(bearing) = bearing {
            last = Some(Asked {
                number: place,
                bearing,
            });
        }
    }
    Ok(last)
}

/// What the request may change that an event is, if it is one with this id.
fn bearing_in(event: &Event, id: u32) -> Option<Bearing> {
    match event {
        Event::Asked(request) if request.id == id => Some(bearing_of(&request.ask)),
        _ => None,
    }
}

/// The reply that is the record with this number, if there is one. The reader has read nothing yet.
///
/// # Errors
///
/// The first fault of the transcript up to it, and `NoMemory` if memory runs out.
pub fn find_reply<R: Source>(
    records: &mut Reader<R>,
    number: u64,
) -> Result<Option<Replied>, TranscriptError> {
    let mut place = OPENED;
    'events: while let Some(event) = records.next()? {
        place = place.saturating_add(1);
        if place >= number {
            let replied = replied_in(&event, place);
            drop(event);
            return Ok(replied);
        }
        drop(event);
    }
    Ok(None)
}

/// The reply that an event is, if it is one, with this number.
fn replied_in(event: &Event, number: u64) -> Option<Replied> {
    match event {
        Event::Replied(reply) => Some(Replied {
            number,
            id: reply.id,
            outcome: outcome_of(&reply.answer),
        }),
        Event::Asked(_) => None,
    }
}

/// Whether an event is a request.
pub fn is_request(event: &Event) -> bool {
    match event {
        Event::Asked(_) => true,
        Event::Replied(_) => false,
    }
}

fn is_list(ask: &Ask) -> bool {
    match ask {
        Ask::Readdir { .. } => true,
        _ => false,
    }
}

/// Whether one of these handles is that of a request that is left out.
fn is_hit(lost: &Vec<Lost>, handle: &[u8], lists: bool, number: u64) -> bool {
    for one in lost {
        if one.is_hit(handle, lists, number) {
            return true;
        }
    }
    false
}

/// Notes that the reply with this number gives a handle.
fn note_given(lost: &mut Vec<Lost>, handle: &[u8], number: u64) {
    for one in lost.iter_mut() {
        one.note_given(handle, number);
    }
}

/// Where an id is in a list, if it is there.
fn place_of(ids: &[u32], id: u32) -> Option<usize>
    ensures { IfSome result (λ place. place < length ids.now) }
{
    for (place, each) in ids.iter().enumerate() {
        if *each == id {
            return Some(place);
        }
    }
    None
}
