//! The requests of a transcript in the order asked, each with its reply.

use sftp_path::NoMemory;
use sftp_transcript::{OPENING, WINDOW};
use sftp_wire::{Answer, Ask, Packet, Side, WireError, front};
use std::alloc::Global;
use std::collections::VecDeque;

/// The version of the protocol.
const VERSION: u32 = 3;

/// A packet, where it begins and its record ends in the transcript, and the number of the record.
#[derive(Drop)]
struct Record {
    number: u64,
    from: usize,
    end: usize,
    packet: Packet,
}

/// A request that waits for its turn.
#[derive(Drop)]
struct Waiting {
    id: u32,
    /// Whether its reply is there.
    is_answered: bool,
    record: Record,
}

/// A reply to a request that is not the first one that waits.
#[derive(Drop)]
struct Early {
    /// The number of the request's record.
    asked: u64,
    record: Record,
}

/// A request with its reply.
#[derive(Clone, Copy)]
pub(crate) struct Exchange<'e> {
    pub(crate) ask: &'e Ask,
    /// The number of the request's record, and where that ends in the transcript.
    pub(crate) asked: u64,
    pub(crate) ask_end: usize,
    pub(crate) answer: &'e Answer,
    /// The same of the reply's, and where its packet begins.
    pub(crate) replied: u64,
    pub(crate) answer_from: usize,
    pub(crate) answer_end: usize,
}

/// What a packet is to those that read a session.
enum Kind {
    /// A request with this id.
    Ask(u32),
    /// A reply to a request with this id.
    Answer(u32),
    /// INIT or VERSION.
    Beginning,
}

/// What a packet is that may be in the record with this number: a session begins with an INIT and a VERSION.
fn kind_in(packet: &Packet, number: u64) -> Option<Kind> {
    match packet {
        Packet::Request(request) if number > 2 => Some(Kind::Ask(request.id)),
        Packet::Reply(reply) if number > 2 => Some(Kind::Answer(reply.id)),
        Packet::Init { version, .. } if number == 1 && *version >= VERSION => Some(Kind::Beginning),
        Packet::Version { version, .. } if number == 2 && *version == VERSION => {
            Some(Kind::Beginning)
        }
        _ => None,
    }
}

/// The exchanges of a transcript one by one, as long as each has a reply and nothing is malformed. What is wrong with
/// the records is the audit's to say.
///
/// Packets are large: each is moved once to where it waits, and then lent.
#[derive(Drop)]
pub(crate) struct Exchanges {
    alloc: Global,
    waiting: VecDeque<Waiting>,
    /// The reply to the first request that waits, if it is there.
    reply: Option<Record>,
    early: Vec<Early>,
    /// Whether the first request that waits was given.
    is_given: bool,
    /// The number of the last record.
    number: u64,
    /// Where it ends.
    end: usize,
}

impl Exchanges {
    pub(crate) fn new(alloc: Global, session: &[u8]) -> Exchanges {
        Exchanges {
            alloc,
            waiting: VecDeque::new(alloc),
            reply: None,
            early: Vec::new(alloc),
            is_given: false,
            number: 0,
            end: match session.strip_prefix(&OPENING) {
                Some(_) => OPENING.len(),
                None => session.len(),
            },
        }
    }

    /// The next exchange of this session; `None` at the end, and from the first request on that has no reply.
    pub(crate) fn next(&mut self, session: &[u8]) -> Result<Option<Exchange<'_>>, NoMemory> {
        if self.is_given {
            self.drop_first();
        }
        for _ in 0..u64::MAX {
            if self.reply.is_some() {
                self.is_given = true;
                return Ok(self.first());
            }
            if !self.read(session)? {
                return Ok(None);
            }
        }
        Ok(None)
    }

    /// Has the next request be the first one that waits.
    fn drop_first(&mut self) {
        self.is_given = false;
        drop(self.waiting.pop_front());
        let early = if self.early.is_empty() {
            None
        } else {
            self.take_early()
        };
        self.set_reply(early);
    }

    /// Has this be the reply to the first request that waits, in the place of the one before.
    fn set_reply(&mut self, reply: Option<Record>) {
        drop(std::mem::replace(&mut self.reply, reply));
    }

    /// Takes out the reply to the first request that waits, if it came early.
    fn take_early(&mut self) -> Option<Record> {
        let asked = self.waiting.front()?.record.number;
        let place = self.place_of_early(asked)?;
        if place < self.early.len() {
            let Early { asked: _, record } = self.early.swap_remove(place);
            return Some(record);
        }
        None
    }

    /// Which of the early replies is to the request with this number.
    fn place_of_early(&self, asked: u64) -> Option<usize> {
        for (place, early) in self.early.iter().enumerate() {
            if early.asked == asked {
                return Some(place);
            }
        }
        None
    }

    /// The first request that waits, with its reply.
    fn first(&self) -> Option<Exchange<'_>> {
        let asked = &self.waiting.front()?.record;
        match (&asked.packet, &self.reply) {
            (Packet::Request(request), Some(record)) => match &record.packet {
                Packet::Reply(reply) => Some(Exchange {
                    ask: &request.ask,
                    asked: asked.number,
                    ask_end: asked.end,
                    answer: &reply.answer,
                    replied: record.number,
                    answer_from: record.from,
                    answer_end: record.end,
                }),
                _ => None,
            },
            _ => None,
        }
    }

    /// Reads a record, and says whether there was one that may be there.
    fn read(&mut self, session: &[u8]) -> Result<bool, NoMemory> {
        let left = session.get(self.end..).unwrap_or(&[]);
        let Some((direction, spelled)) = left.split_first() else {
            return Ok(false);
        };
        let side = match *direction {
            b'C' => Side::Client,
            b'S' => Side::Server,
            _ => return Ok(false),
        };
        match front(self.alloc, spelled, side) {
            Ok(Some((packet, length))) => {
                self.number = self.number.saturating_add(1);
                let from = self.end.saturating_add(1);
                self.end = from.saturating_add(length);
                self.take(packet, from)
            }
            Err(WireError::NoMemory) => Err(NoMemory),
            _ => Ok(false),
        }
    }

    fn take(&mut self, packet: Packet, from: usize) -> Result<bool, NoMemory> {
        let kind = kind_in(&packet, self.number);
        let record = Record {
            number: self.number,
            from,
            end: self.end,
            packet,
        };
        match kind {
            Some(Kind::Ask(id)) => self.ask(id, record),
            Some(Kind::Answer(id)) => self.answer(id, record),
            Some(Kind::Beginning) => {
                drop(record);
                Ok(true)
            }
            None => {
                drop(record);
                Ok(false)
            }
        }
    }

    fn ask(&mut self, id: u32, record: Record) -> Result<bool, NoMemory> {
        if self.waiting.len() >= WINDOW {
            drop(record);
            return Ok(false);
        }
        self.waiting.push_back(Waiting {
            id,
            is_answered: false,
            record,
        })?;
        Ok(true)
    }

    /// Gives a reply to the oldest request with this id that has none, and says whether there is one.
    fn answer(&mut self, id: u32, record: Record) -> Result<bool, NoMemory> {
        match self.place_of(id) {
            Some(place) => {
                let asked = self.mark_answered(place);
                if place == 0 {
                    self.set_reply(Some(record));
                } else {
                    self.early.push(Early { asked, record })?;
                }
                Ok(true)
            }
            None => {
                drop(record);
                Ok(false)
            }
        }
    }

    /// Notes that the request at this place has its reply, and returns the number of its record.
    fn mark_answered(&mut self, place: usize) -> u64 {
        match self.waiting.get_mut(place) {
            Some(waiting) => {
                waiting.is_answered = true;
                waiting.record.number
            }
            None => 0,
        }
    }

    fn place_of(&self, id: u32) -> Option<usize> {
        for place in 0..self.waiting.len() {
            if let Some(waiting) = self.waiting.get(place) {
                if waiting.id == id && !waiting.is_answered {
                    return Some(place);
                }
            }
        }
        None
    }
}
