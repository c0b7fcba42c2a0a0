//! The exchanges of a session, collected event by event.
ghost use Rattle.std.specs.Prelude.{◌≡◌, ◌<◌, [], true, OnOk, IfErr};
ghost use Rattle.std.specs.VecDeque.{deque_len, deque_capacity};
ghost use Rattle.sftp_transcript.specs.declared.events.Event.TheVariants.{Asked, Replied};
ghost use Rattle.sftp_audit.specs.Trees.{starts_answered};
ghost use Rattle.sftp_audit.specs.Exchanges.{unsettled};
ghost use Rattle.sftp_sets.specs.Sessions.{time_of};
ghost use Rattle.sftp_sets.specs.Collecting.{AreMoved, MovesFirst, exchanges_of, Notes, HasReason};

use crate::times::RecordTimes;
use crate::waiting::{Stamped, Waiting, answer, ask, timed_of};
use sftp_audit::{Event, Refusal};
use sftp_together::{Stamp, TimedExchange};
use sftp_wire::{Reply, Request};
use std::alloc::Global;
use std::collections::VecDeque;

/// The number of the first event's record: INIT and VERSION have the numbers 1 and 2.
const FIRST_NUMBER: u64 = 3;

/// What is kept of a session while it is read.
#[derive(Drop)]
pub(crate) struct Collected {
    /// The exchanges before the first request without a reply.
    pub(crate) done: VecDeque<TimedExchange>,
    /// The requests from that one on.
    pub(crate) kept: VecDeque<Waiting>,
    /// The number of the next event's record, capped at 2^64 - 1.
    pub(crate) number: u64,
}

impl Collected {
    /// Nothing was read yet.
    pub(crate) fn new(alloc: Global) -> Collected
        ensures done { result.done.items ≡ [] }
        ensures kept { result.kept.items ≡ [] }
        ensures number { result.number ≡ 3 }
    {
        Collected {
            done: VecDeque::new(alloc),
            kept: VecDeque::new(alloc),
            number: FIRST_NUMBER,
        }
    }

    /// Notes the next event, which has its time.
    ///
    /// # Errors
    ///
    /// `IdInUse`, `Window` and `UnknownReply` as an auditor has them, and `NoMemory` if memory runs out.
    pub(crate) fn note(&mut self, times: &RecordTimes, event: Event) -> Result<(), Refusal>
        ensures holds { OnOk result (Notes times.now.start times.now.entries.items self.old event self.new) }
        ensures refused { IfErr result (HasReason times.now.start times.now.entries.items self.old event) }
    {
        match event {
            Event::Asked(request) => self.note_request(times, request),
            Event::Replied(reply) => self.note_reply(times, reply),
        }
    }

    /// Notes a request, which waits.
    fn note_request(&mut self, times: &RecordTimes, request: Request) -> Result<(), Refusal>
        ensures holds { OnOk result
            (Notes times.now.start times.now.entries.items self.old (Asked request) self.new) }
        ensures refused { IfErr result
            (HasReason times.now.start times.now.entries.items self.old (Asked request)) }
    {
        let stamp = self.stamp(times);
        ask(&mut self.kept, request, stamp)?;
        self.number = self.number.saturating_add(1);
        Ok(())
    }

    /// Notes a reply, and settles what then has its reply.
    fn note_reply(&mut self, times: &RecordTimes, reply: Reply) -> Result<(), Refusal>
        ensures holds { OnOk result
            (Notes times.now.start times.now.entries.items self.old (Replied reply) self.new) }
        ensures refused { IfErr result
            (HasReason times.now.start times.now.entries.items self.old (Replied reply)) }
    {
        let stamp = self.stamp(times);
        answer(&mut self.kept, Stamped { reply, stamp })?;
        settle(&mut self.kept, &mut self.done)?;
        self.number = self.number.saturating_add(1);
        Ok(())
    }

    /// The record of the next event.
    fn stamp(&self, times: &RecordTimes) -> Stamp
        ensures { result ≡ record {
          number = self.now.number;
          time = time_of times.now.start times.now.entries.items self.now.number;
        } }
    {
        Stamp {
            number: self.number,
            time: times.time_of(self.number),
        }
    }
}

/// Whether there is a first request, and it has its reply.
fn starts_answered(kept: &VecDeque<Waiting>) -> bool
    ensures { result ≡ starts_answered (exchanges_of kept.now.items) }
{
    match kept.front() {
        Some(waiting) => waiting.replied.is_some(),
        None => false,
    }
}

/// Moves the exchanges before the first request without a reply to those that are done.
///
/// # Errors
///
/// `NoMemory` if memory runs out.
fn settle(kept: &mut VecDeque<Waiting>, done: &mut VecDeque<TimedExchange>) -> Result<(), Refusal>
    ensures moved { OnOk result (AreMoved done.old.items kept.old.items done.new.items kept.new.items) }
    ensures first_waits { OnOk result (unsettled (exchanges_of kept.new.items) ≡ exchanges_of kept.new.items) }
    ensures no_memory { IfErr result (λ refusal. refusal ≡ Refusal.NoMemory) }
{
    'settle: while starts_answered(kept) {
        done.reserve(1)?;
        move_first(kept, done);
    }
    Ok(())
}

/// Moves the first exchange, which has its reply.
fn move_first(kept: &mut VecDeque<Waiting>, done: &mut VecDeque<TimedExchange>)
    requires answered { starts_answered (exchanges_of kept.old.items) ≡ true }
    requires room { deque_len done.old < deque_capacity done.old }
    ensures { MovesFirst done.old.items kept.old.items done.new.items kept.new.items }
{
    let Some(waiting) = kept.pop_front() else {
        unreachable!()
    };
    match timed_of(waiting) {
        Some(exchange) => done.push_back_reserved(exchange),
        None => unreachable!(),
    }
}
