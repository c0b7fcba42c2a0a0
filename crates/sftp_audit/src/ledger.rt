//! The exchanges that an auditor keeps: those from the oldest request without a reply on.
ghost use Rattle.std.specs.Prelude.{◌≡◌, ◌<◌, ◌≤◌, ◌++◌, ℕ, [], ◌∷◌, None, true, false, length, drop, slice_get};
ghost use Rattle.std.specs.Prelude.{OnOk, OnErr, IfErr, option_copied};
ghost use Rattle.std.specs.VecDeque.{deque_len, deque_capacity};
ghost use Rattle.sftp_transcript.specs.Explained.{window};
ghost use Rattle.sftp_audit.specs.Exchanges.{is_awaited, with_reply};
ghost use Rattle.sftp_audit.specs.Cuts.{is_unanswered, unanswered_count};
ghost use Rattle.sftp_audit.specs.Trees.{starts_answered, ordinal_at, IsIndexed, RefusesRequest, RefusesReply};

use crate::errors::Refusal;
use crate::exchanges::{Exchange, RecordedReply};
use indexmap::IndexMap;
use sftp_transcript::WINDOW;
use sftp_wire::{Reply, Request};
use std::alloc::Global;
use std::collections::VecDeque;
use std::marker::Model;

/// The exchanges that are kept, in the order asked. No two unanswered requests have one id.
#[derive(Drop)]
pub(crate) struct Ledger {
    exchanges: VecDeque<Exchange>,
    /// The ordinals of the unanswered requests, by their ids.
    unanswered: IndexMap<u32, u64>,
    /// The ordinal of the first exchange. Ordinals count requests, modulo 2^64.
    first: u64,
}

impl Model for Ledger {
    ghost use Rattle.std.specs.Prelude.{List};
    ghost use Rattle.sftp_audit.specs.declared.exchanges.Exchange.{Exchange};
    ghost use Rattle.sftp_audit.specs.Trees.{IsIndexed};

    ghost Value = { List Exchange };

    ghost view = { λ l. l.exchanges.items };

    ghost invariant = { λ l. IsIndexed l.exchanges.items l.unanswered.entries l.first };
}

impl Ledger {
    /// No exchange.
    pub(crate) fn new(alloc: Global) -> Ledger
        ensures { result ≡ [] }
    {
        Ledger {
            exchanges: VecDeque::new(alloc),
            unanswered: IndexMap::new(alloc),
            first: 0,
        }
    }

    /// How many exchanges are kept: at most `WINDOW`.
    pub(crate) fn len(&self) -> usize
        ensures count { result ≡ length self.now }
        ensures few { result ≤ window }
    {
        self.exchanges.len()
    }

    /// How many exchanges are without a reply.
    pub(crate) fn unanswered(&self) -> usize
        ensures { result ≡ unanswered_count self.now }
    {
        unanswered_in(&self.exchanges)
    }

    /// Notes a request, which is unanswered. The number is that of its record.
    ///
    /// # Errors
    ///
    /// `IdInUse` if an unanswered request has the same id, `Window` if `WINDOW` exchanges are kept, and `NoMemory` if
    /// memory runs out. On error no exchange is kept.
    #[inline(always)]
    pub(crate) fn ask(&mut self, request: Request, number: u64) -> Result<(), Refusal>
        ensures noted { OnOk result
            (self.new ≡ self.old ++ record { request = request; number = number; reply = None } ∷ []) }
        ensures apart { OnOk result (is_awaited request.id self.old ≡ false) }
        ensures in_time { OnOk result (length self.old < window) }
        ensures refused { IfErr result (RefusesRequest self.old request number) }
        ensures cleared { OnErr result (self.new ≡ []) }
        ensures few { length self.new ≤ window }
    {
        match enter(
            &mut self.exchanges,
            &mut self.unanswered,
            self.first,
            &request,
            number,
        ) {
            Ok(()) => {
                self.exchanges.push_back_reserved(Exchange {
                    request,
                    number,
                    reply: None,
                });
                Ok(())
            }
            Err(refusal) => {
                drop(request);
                forget_all(&mut self.exchanges, &mut self.unanswered);
                Err(refusal)
            }
        }
    }

    /// Notes a reply to the unanswered request of its id.
    ///
    /// # Errors
    ///
    /// `UnknownReply` if no unanswered request has its id.
    #[inline(always)]
    pub(crate) fn answer(&mut self, recorded: RecordedReply) -> Result<(), Refusal>
        ensures noted { OnOk result (self.new ≡ with_reply recorded self.old) }
        ensures waited { OnOk result (is_awaited recorded.reply.id self.old ≡ true) }
        ensures refused { IfErr result (RefusesReply self.old recorded) }
        ensures few { length self.new ≤ window }
    {
        let Some(ordinal) = self.unanswered.swap_remove(&recorded.reply.id) else {
            let refusal = Refusal::UnknownReply {
                record: recorded.number,
            };
            drop(recorded);
            return Err(refusal);
        };
        let position = position_of(ordinal, self.first);
        match self.exchanges.get_mut(position) {
            Some(exchange) => {
                exchange.reply = Some(recorded);
                Ok(())
            }
            None => unreachable!(),
        }
    }

    /// The first exchange.
    pub(crate) fn first(&self) -> Option<&Exchange>
        ensures { option_copied result ≡ slice_get self.now 0 }
    {
        self.exchanges.front()
    }

    /// Forgets the first exchange, which has its reply.
    pub(crate) fn forget_first(&mut self)
        requires { starts_answered self.old ≡ true }
        ensures { self.new ≡ drop 1 self.old }
    {
        drop(self.exchanges.pop_front());
        self.first = self.first.wrapping_add(1);
    }

    /// Forgets all exchanges.
    pub(crate) fn clear(&mut self)
        ensures { self.new ≡ [] }
    {
        forget_all(&mut self.exchanges, &mut self.unanswered);
    }
}

/// How many of these exchanges are without a reply.
fn unanswered_in(exchanges: &VecDeque<Exchange>) -> usize
    ensures { result ≡ unanswered_count exchanges.now.items }
{
    exchanges
        .iter()
        .filter(|exchange| is_unanswered(exchange))
        .count()
}

/// Whether the exchange is without a reply.
#[tactic(auto, unfolding(crate::specs::Cuts::is_unanswered))]
fn is_unanswered(exchange: &Exchange) -> bool
    ensures { result ≡ is_unanswered exchange.now }
{
    exchange.reply.is_none()
}

/// Forgets the exchanges, and the ids in the index.
fn forget_all(exchanges: &mut VecDeque<Exchange>, unanswered: &mut IndexMap<u32, u64>)
    ensures exchanges { exchanges.new.items ≡ [] }
    ensures index { unanswered.new.entries ≡ [] }
{
    exchanges.clear();
    unanswered.clear();
}

/// Makes room for the exchange of a request, and puts its id into the index. The exchange itself has to follow.
///
/// # Errors
///
/// `IdInUse` if an unanswered request has the same id, `Window` if `WINDOW` exchanges are kept, and `NoMemory` if
/// memory runs out. On error the index may have another ordinal for the id, so it has to be cleared.
fn enter(
    exchanges: &mut VecDeque<Exchange>,
    unanswered: &mut IndexMap<u32, u64>,
    first: u64,
    request: &Request,
    number: u64,
) -> Result<(), Refusal>
    requires { IsIndexed exchanges.old.items unanswered.old.entries first }
    ensures kept { exchanges.new.items ≡ exchanges.old.items }
    ensures room { OnOk result (deque_len exchanges.new < deque_capacity exchanges.new) }
    ensures entered { OnOk result (IsIndexed
        (exchanges.old.items ++ record { request = request.now; number = number; reply = None } ∷ [])
        unanswered.new.entries first) }
    ensures apart { OnOk result (is_awaited request.now.id exchanges.old.items ≡ false) }
    ensures in_time { OnOk result (length exchanges.old.items < window) }
    ensures refused { IfErr result (RefusesRequest exchanges.old.items request.now number) }
{
    if exchanges.len() >= WINDOW {
        return Err(if unanswered.contains_key(&request.id) {
            Refusal::IdInUse { record: number }
        } else {
            Refusal::Window { record: number }
        });
    }
    exchanges.reserve(1)?;
    let ordinal = first.wrapping_add(exchanges.len() as u64);
    // The old value shows whether the id is in use, so the id is looked up once.
    match unanswered.insert(request.id, ordinal)? {
        None => Ok(()),
        Some(_) => Err(Refusal::IdInUse { record: number }),
    }
}

/// The position of the exchange with this ordinal, given the ordinal of the first one.
fn position_of(ordinal: u64, first: u64) -> usize
    ensures { (position : ℕ) → position ≤ window → ordinal ≡ ordinal_at first position → result ≡ position }
{
    ordinal.wrapping_sub(first) as usize
}
