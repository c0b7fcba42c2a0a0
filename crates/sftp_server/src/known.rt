//! Which requests of a queue were found ready: each stays so until it is done. A choice among all that are possible
//! need then not compare each request with all before it.

use crate::queue::{Progress, Queue};
use sftp_handles::{HandleTable, Session};
use sftp_wire::Request;
use std::alloc::Global;
use std::collections::VecDeque;

/// What was found when a request was last looked at.
#[derive(Clone, Copy)]
pub(crate) enum Found {
    /// It was not looked at yet.
    Nothing,
    /// It is ready.
    Ready,
    /// The request so many positions before it was in its way.
    Behind(usize),
}

/// What was found of each request of a queue, as far as they were looked at. It is a guess, of which nothing is
/// promised: an act that is chosen by it is looked at again before it is done.
#[derive(Drop)]
pub(crate) struct Known {
    found: VecDeque<Found>,
    /// The positions of the acts that were possible when they were last counted.
    possible: Vec<usize>,
}

impl Known {
    /// Nothing is known.
    pub(crate) fn new(alloc: Global) -> Known {
        Known {
            found: VecDeque::new(alloc),
            possible: Vec::new(alloc),
        }
    }

    /// How many acts are possible: requests that are ready, and replies to be sent. Acts are left out for which there
    /// is no memory.
    pub(crate) fn count<T: HandleTable>(&mut self, session: &Session<T>, queue: &Queue) -> usize {
        self.possible.clear();
        'each: for k in 0..queue.len() {
            if self.is_possible(session, queue, k) {
                let _ = self.possible.push(k);
            }
        }
        self.possible.len()
    }

    /// Whether an act is possible at this position.
    fn is_possible<T: HandleTable>(
        &mut self,
        session: &Session<T>,
        queue: &Queue,
        k: usize,
    ) -> bool {
        let Some(entry) = queue.entry(k) else {
            return false;
        };
        match entry.progress {
            Progress::Pending => self.is_ready(session, queue, k, &entry.request),
            Progress::Done(_) => true,
            Progress::Sent => false,
        }
    }

    /// Whether the request at this position, which is pending, is ready. Unless it was found ready, it is looked at
    /// again, and what was in its way is asked first.
    fn is_ready<T: HandleTable>(
        &mut self,
        session: &Session<T>,
        queue: &Queue,
        k: usize,
        request: &Request,
    ) -> bool {
        match self.found(k) {
            Found::Ready => return true,
            Found::Behind(back) => {
                if back <= k && queue.is_in_way(session, k - back, request) {
                    return false;
                }
            }
            Found::Nothing => {}
        }
        match queue.blocker(session, k, request) {
            Some(j) => {
                self.note(k, Found::Behind(k.saturating_sub(j)));
                false
            }
            None => {
                self.note(k, Found::Ready);
                true
            }
        }
    }

    /// What was found of the request at this position.
    fn found(&self, k: usize) -> Found {
        match self.found.get(k) {
            Some(found) => *found,
            None => Found::Nothing,
        }
    }

    /// Keeps what was found of the request at this position, if there is memory for it.
    fn note(&mut self, k: usize, found: Found) {
        'short: while self.found.len() <= k {
            if self.found.reserve(1).is_err() {
                return;
            }
            self.found.push_back_reserved(Found::Nothing);
        }
        self.found[k] = found;
    }

    /// The position of the act of this number among those that were counted.
    pub(crate) fn position(&self, number: usize) -> Option<usize> {
        self.possible.get(number).copied()
    }

    /// So many requests left the front of the queue.
    pub(crate) fn pass(&mut self, count: usize) {
        'passed: for _ in 0..count {
            self.found.pop_front();
        }
    }
}
