//! One request of an order at its place: judged by the clock and by the reply.
ghost use Rattle.std.specs.Prelude.{◌≡◌, ◌+◌, nat_lt, false, not, max, OnOk, IfOk, IfErr};
ghost use Rattle.sftp_together.specs.Sets.{pair_in};
ghost use Rattle.sftp_together.specs.Checks.{IsMisplaced, IsJudged};

use crate::errors::OrderFault;
use crate::exchanges::TimedExchange;
use crate::names::number_pair;
use sftp_judges::Judges;
use sftp_tree::Tree;
use std::alloc::Global;
use std::marker::Model;

/// An order of several sessions as far as its requests have their places: what their judge knows, and when the last of
/// them was asked.
#[derive(Drop)]
pub(crate) struct Placing<J: Judges> {
    alloc: Global,
    judge: J,
    /// One session is the whole set.
    alone: bool,
    tolerance: u64,
    latest: u64,
}

impl<J: Judges> Model for Placing<J> {
    ghost use Rattle.sftp_together.specs.Checks.{Judging};

    ghost Value = { Judging J };

    ghost view = { λ p. record { state = p.judge; alone = p.alone; tolerance = p.tolerance; latest = p.latest } };
}

impl<J: Judges> Placing<J> {
    /// No request has its place yet.
    pub(crate) fn new(alloc: Global, judge: J, alone: bool, tolerance: u64) -> Placing<J>
        ensures { result ≡ record { state = judge; alone = alone; tolerance = tolerance; latest = 0 } }
    {
        Placing {
            alloc,
            judge,
            alone,
            tolerance,
            latest: 0,
        }
    }

    /// Whether a request may come after those that have their places: none was asked more than the tolerance after it
    /// had its reply.
    fn may_come(&self, exchange: &TimedExchange) -> bool
        ensures { result ≡ not (nat_lt (exchange.now.replied.time + self.now.tolerance) self.now.latest) }
    {
        self.latest <= exchange.replied.time.saturating_add(self.tolerance)
    }

    /// Gives the next request of a session its place.
    ///
    /// # Errors
    ///
    /// - `Clock` if it has to come before a request that has its place.
    /// - `Reply` if its reply is not allowed.
    /// - `NoMemory` if memory runs out.
    pub(crate) fn put(
        &mut self,
        place: usize,
        session: u16,
        mut exchange: TimedExchange,
    ) -> Result<(), OrderFault>
        ensures alone { self.new.alone ≡ self.old.alone }
        ensures tolerance { self.new.tolerance ≡ self.old.tolerance }
        ensures latest { OnOk result (self.new.latest ≡ max self.old.latest exchange.asked.time) }
        ensures in_time { OnOk result
            (nat_lt (exchange.replied.time + self.old.tolerance) self.old.latest ≡ false) }
        ensures allowed { OnOk result (J.allowed self.old.state (pair_in self.old.alone (session, exchange)).0
            (pair_in self.old.alone (session, exchange)).1 self.new.state) }
        ensures refused { IfErr result (IsMisplaced J.allowed self.old place session exchange) }
    {
        if !self.may_come(&exchange) {
            let number = exchange.asked.number;
            drop(exchange);
            return Err(OrderFault::Clock {
                place,
                session,
                record: number,
            });
        }
        self.latest = self.latest.max(exchange.asked.time);
        let number = exchange.replied.number;
        let allowed = self.judge_pair(session, &mut exchange);
        drop(exchange);
        match allowed {
            Ok(true) => Ok(()),
            Ok(false) => Err(OrderFault::Reply {
                place,
                session,
                record: number,
            }),
            Err(fault) => Err(fault),
        }
    }

    /// Whether the reply of a request is allowed now. Its handle gets the number of its session, unless that is alone.
    fn judge_pair(&mut self, session: u16, exchange: &mut TimedExchange) -> Result<bool, OrderFault>
        ensures alone { self.new.alone ≡ self.old.alone }
        ensures tolerance { self.new.tolerance ≡ self.old.tolerance }
        ensures latest { self.new.latest ≡ self.old.latest }
        ensures judged { IfOk result (IsJudged J.allowed self.old session exchange.old self.new) }
        ensures no_memory { IfErr result (λ fault. fault ≡ OrderFault.NoMemory) }
    {
        number_pair(
            self.alloc,
            self.alone,
            session,
            &mut exchange.request,
            &mut exchange.reply,
        )?;
        let allowed = self.judge.accept(&exchange.request, &exchange.reply)?;
        Ok(allowed)
    }

    /// The tree at the end, as if what is still open were closed. Does not allocate.
    pub(crate) fn into_tree(self) -> Tree
        ensures { result ≡ J.closed self.state }
    {
        self.judge.into_tree()
    }
}
