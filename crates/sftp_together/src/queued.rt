//! Sessions in memory.
ghost use Rattle.std.specs.Prelude.{◌≡◌, [], ◌∷◌, MatchOption};

use crate::exchanges::TimedExchange;
use crate::sessions::{Sessions, Unread};
use std::collections::VecDeque;
use std::marker::Model;

/// What a session has left, in the order asked.
#[derive(Drop)]
pub struct Queue {
    left: VecDeque<TimedExchange>,
}

impl Model for Queue {
    ghost use Rattle.std.specs.Prelude.{List};
    ghost use Rattle.sftp_together.specs.declared.exchanges.TimedExchange.{TimedExchange as Exchange};

    ghost Value = { List Exchange };

    ghost view = { λ q. q.left.items };
}

impl Queue {
    /// A session with these exchanges.
    pub fn new(left: VecDeque<TimedExchange>) -> Queue
        ensures { result ≡ left.items }
    {
        Queue { left }
    }

    /// Takes the first one.
    fn take(&mut self) -> Option<TimedExchange>
        ensures { MatchOption result ((self.old ≡ []) × (self.new ≡ [])) (λ first. self.old ≡ first ∷ self.new) }
    {
        self.left.pop_front()
    }
}

/// Sessions whose exchanges are all in memory.
#[derive(Drop)]
pub struct Queued {
    each: Vec<Queue>,
}

impl Queued {
    /// These sessions, numbered from 0 in this order.
    pub fn new(each: Vec<Queue>) -> Queued
        ensures { result.each ≡ each }
    {
        Queued { each }
    }
}

impl Sessions for Queued {
    ghost ahead = { λ s. s.each.items };

    fn count(&self) -> usize {
        self.each.len()
    }

    fn next_of(&mut self, session: usize) -> Result<Option<TimedExchange>, Unread> {
        match self.each.get_mut(session) {
            Some(queue) => Ok(queue.take()),
            None => Ok(None),
        }
    }
}
