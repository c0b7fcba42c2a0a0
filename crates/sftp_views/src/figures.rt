//! Figures of a session: what was asked, how long it took, and how much went on at a time.

use crate::exchanges::Pair;
use crate::packets::name_of;
use crate::records::Recorded;
use sftp_wire::{Answer, Ask, status};
use std::alloc::{AllocError, Global};

/// How many of the slowest exchanges are named.
const SLOWEST: usize = 10;

/// Figures of the exchanges that are shown, and of how much went on at a time in the whole session.
#[derive(Drop)]
pub(crate) struct Figures {
    /// A row for each kind of request, in the order in which they first come.
    pub(crate) rows: Vec<Row>,
    /// The slowest exchanges, the slowest first.
    pub(crate) slowest: Vec<Slow>,
    pub(crate) in_flight: Peak,
    pub(crate) handles: Peak,
}

/// A number that rises and falls.
#[derive(Clone, Copy)]
pub(crate) struct Peak {
    now: u64,
    /// The most that it was.
    pub(crate) most: u64,
}

impl Peak {
    fn none() -> Peak {
        Peak { now: 0, most: 0 }
    }

    fn rise(&mut self) {
        self.now = self.now.saturating_add(1);
        self.most = self.most.max(self.now);
    }

    fn fall(&mut self) {
        self.now = self.now.saturating_sub(1);
    }
}

/// The figures of a kind of request.
#[derive(Drop)]
pub(crate) struct Row {
    /// The name of the packet.
    pub(crate) name: &'static str,
    pub(crate) counts: Counts,
    /// How many nanoseconds each request took, as far as that is known.
    pub(crate) took: Vec<u64>,
}

/// How many requests there are, and how many bytes.
#[derive(Clone, Copy)]
pub(crate) struct Counts {
    pub(crate) requests: u64,
    /// Those whose reply is a STATUS with another code than OK and EOF.
    pub(crate) refused: u64,
    pub(crate) unanswered: u64,
    /// The bytes of the requests' packets.
    pub(crate) sent: u64,
    /// The bytes of the replies' packets.
    pub(crate) received: u64,
    /// The bytes that WRITEs and DATA have.
    pub(crate) data: u64,
}

impl Counts {
    pub(crate) fn none() -> Counts {
        Counts {
            requests: 0,
            refused: 0,
            unanswered: 0,
            sent: 0,
            received: 0,
            data: 0,
        }
    }

    /// These and others together.
    pub(crate) fn with(self, other: Counts) -> Counts {
        Counts {
            requests: self.requests.saturating_add(other.requests),
            refused: self.refused.saturating_add(other.refused),
            unanswered: self.unanswered.saturating_add(other.unanswered),
            sent: self.sent.saturating_add(other.sent),
            received: self.received.saturating_add(other.received),
            data: self.data.saturating_add(other.data),
        }
    }
}

/// An exchange that took long.
#[derive(Clone, Copy)]
pub(crate) struct Slow {
    /// How many nanoseconds.
    pub(crate) took: u64,
    pub(crate) name: &'static str,
    /// The number of the request's record.
    pub(crate) request: u64,
    /// The number of the reply's record.
    pub(crate) reply: u64,
}

impl Figures {
    /// The figures of no exchange.
    pub(crate) fn new(alloc: Global) -> Figures {
        Figures {
            rows: Vec::new(alloc),
            slowest: Vec::new(alloc),
            in_flight: Peak::none(),
            handles: Peak::none(),
        }
    }

    /// A request was asked.
    pub(crate) fn ask(&mut self) {
        self.in_flight.rise();
    }

    /// A request will get no reply.
    pub(crate) fn give_up(&mut self) {
        self.in_flight.fall();
    }

    /// A request got this reply, which may open or close a handle.
    pub(crate) fn answer(&mut self, asked: &Recorded, reply: &Recorded) {
        self.in_flight.fall();
        let (Some(request), Some(reply)) = (asked.request(), reply.reply()) else {
            return;
        };
        match (&request.ask, &reply.answer) {
            (_, Answer::Handle(_)) => self.handles.rise(),
            (Ask::Close { .. }, Answer::Status { code, .. }) if *code == status::OK => {
                self.handles.fall();
            }
            _ => {}
        }
    }

    /// Adds an exchange that is shown. One without a request is in no row.
    pub(crate) fn add(&mut self, alloc: Global, pair: Pair<'_>) -> Result<(), AllocError> {
        let Some(asked) = pair.asked else {
            return Ok(());
        };
        let name = name_of(&asked.packet);
        let took = took_in(pair);
        self.add_to_row(alloc, name, counts_of(asked, pair.reply), took)?;
        match (took, pair.reply) {
            (Some(took), Some(reply)) => self.rank(Slow {
                took,
                name,
                request: asked.number,
                reply: reply.number,
            }),
            _ => Ok(()),
        }
    }

    fn add_to_row(
        &mut self,
        alloc: Global,
        name: &'static str,
        counts: Counts,
        took: Option<u64>,
    ) -> Result<(), AllocError> {
        for row in &mut self.rows {
            if row.name == name {
                return row.add(counts, took);
            }
        }
        let mut row = Row {
            name,
            counts: Counts::none(),
            took: Vec::new(alloc),
        };
        row.add(counts, took)?;
        self.rows.push(row)?;
        Ok(())
    }

    /// Puts an exchange among the slowest, if it is one of them. Of those that took equally long the first comes first.
    fn rank(&mut self, slow: Slow) -> Result<(), AllocError> {
        let mut place = 0_usize;
        for other in &self.slowest {
            if other.took >= slow.took {
                place = place.saturating_add(1);
            }
        }
        if place < SLOWEST && place <= self.slowest.len() {
            self.slowest.insert(place, slow)?;
            self.slowest.truncate(SLOWEST);
        }
        Ok(())
    }
}

impl Row {
    fn add(&mut self, counts: Counts, took: Option<u64>) -> Result<(), AllocError> {
        self.counts = self.counts.with(counts);
        if let Some(took) = took {
            self.took.push(took)?;
        }
        Ok(())
    }
}

/// How many nanoseconds the request of an exchange took, if that is known.
fn took_in(pair: Pair<'_>) -> Option<u64> {
    pair.answered?.took
}

/// The figures of one exchange.
fn counts_of(asked: &Recorded, reply: Option<&Recorded>) -> Counts {
    let mut counts = Counts::none();
    counts.requests = 1;
    counts.sent = asked.length as u64;
    counts.data = written_by(asked);
    match reply {
        Some(reply) => {
            counts.received = reply.length as u64;
            counts.data = counts.data.saturating_add(given_by(reply));
            counts.refused = if is_refusal(reply) { 1 } else { 0 };
        }
        None => counts.unanswered = 1,
    }
    counts
}

/// How many bytes a WRITE has.
fn written_by(asked: &Recorded) -> u64 {
    match asked.request() {
        Some(request) => match &request.ask {
            Ask::Write { bytes, .. } => bytes.as_slice().len() as u64,
            _ => 0,
        },
        None => 0,
    }
}

/// How many bytes a DATA has.
fn given_by(reply: &Recorded) -> u64 {
    match reply.reply() {
        Some(reply) => match &reply.answer {
            Answer::Data(bytes) => bytes.as_slice().len() as u64,
            _ => 0,
        },
        None => 0,
    }
}

/// Whether a reply is a STATUS with another code than OK and EOF.
fn is_refusal(reply: &Recorded) -> bool {
    match reply.reply() {
        Some(reply) => match &reply.answer {
            Answer::Status { code, .. } => *code != status::OK && *code != status::EOF,
            _ => false,
        },
        None => false,
    }
}

/// What of some numbers is shown.
#[derive(Clone, Copy)]
pub(crate) struct Spread {
    /// The least that half of them do not exceed.
    pub(crate) median: u64,
    /// The least that 99 of 100 do not exceed.
    pub(crate) high: u64,
    pub(crate) greatest: u64,
}

/// What is shown of these numbers, which are in order; nothing if there are none.
pub(crate) fn spread_of(sorted: &[u64]) -> Option<Spread> {
    Some(Spread {
        median: ranked(sorted, 50)?,
        high: ranked(sorted, 99)?,
        greatest: *sorted.last()?,
    })
}

/// The least of these numbers that so many of a hundred do not exceed.
fn ranked(sorted: &[u64], of_hundred: u64) -> Option<u64> {
    let rank = (sorted.len() as u64)
        .saturating_mul(of_hundred)
        .saturating_add(99)
        / 100;
    sorted.get(rank.saturating_sub(1) as usize).copied()
}
