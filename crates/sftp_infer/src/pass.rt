//! A pass over a session, and the way back to its start, with what is known of it.

use crate::errors::Stop;
use crate::exchanges::Exchanges;
use crate::facts::Fact;
use crate::files::File;
use crate::handles::Handles;
use crate::nodes::{Node, Rights, Slot};
use crate::pieces::Pieces;
use crate::snapshots::Listings;
use crate::world::World;
use sftp_path::NoMemory;
use std::alloc::Global;

/// How often a session is gone through at most with what was told of the start before.
const ROUNDS: u32 = 12;

/// How many bytes of memory the facts of any session may take, and those of each place.
const FREE_BYTES: u64 = 1 << 20;

const PLACE_BYTES: u64 = 128;

/// What a pass comes to.
#[derive(Clone, Copy)]
pub(crate) enum Passed {
    /// Every reply fits.
    Clean,
    /// What is known has to be there from the start: a further pass begins with it.
    Dirty,
    /// Two records contradict each other.
    Stuck,
    /// The pass took more steps, or more memory, than it may.
    Over,
}

/// Whether two records contradict each other.
fn is_clash(stop: Stop) -> bool {
    match stop {
        Stop::Clash => true,
        Stop::Again => false,
        Stop::NoMemory => false,
    }
}

/// What a pass comes to that stops for this reason.
fn passed_by(stop: Stop) -> Result<Passed, NoMemory> {
    match stop {
        Stop::Clash => Ok(Passed::Stuck),
        Stop::Again => Ok(Passed::Dirty),
        Stop::NoMemory => Err(NoMemory),
    }
}

impl World {
    /// Goes through the session: first for what was done alone, until nothing new comes of it, and then for what was
    /// refused, too. So what a refusal may mean is judged with all that is known of the start. `most` is how many steps
    /// all of it may take, and `passes` how often it may go through.
    pub(crate) fn rounds(
        &mut self,
        session: &[u8],
        listings: &Listings,
        most: u64,
        passes: u32,
    ) -> Result<Passed, NoMemory> {
        for _ in 0..ROUNDS.min(passes) {
            let mut exchanges = Exchanges::new(self.alloc, session);
            let passed = self.pass(session, listings, &mut exchanges, most);
            drop(exchanges);
            self.passes = self.passes.saturating_add(1);
            match passed? {
                Passed::Clean if self.skipped => self.hears = true,
                Passed::Dirty => {}
                passed => return Ok(passed),
            }
            self.rewind()?;
        }
        Ok(Passed::Dirty)
    }

    /// Takes each exchange of the session. `most` is how many steps it may take.
    pub(crate) fn pass(
        &mut self,
        session: &[u8],
        listings: &Listings,
        exchanges: &mut Exchanges,
        most: u64,
    ) -> Result<Passed, NoMemory> {
        let known = self.learned.len();
        for _ in 0..u64::MAX {
            match exchanges.next(session)? {
                Some(exchange) => {
                    let taken = self.take(session, listings, exchange);
                    if let Err(stop) = self.checked(taken) {
                        if is_clash(stop) {
                            self.propose_more(exchange.ask)?;
                        }
                        return passed_by(stop);
                    }
                }
                None => break,
            }
            if self.work > most || self.is_over() {
                return Ok(Passed::Over);
            }
        }
        if self.learned.len() == known {
            Ok(Passed::Clean)
        } else {
            Ok(Passed::Dirty)
        }
    }

    /// Whether what is known takes more memory than it may: three quarters of the bytes of the session, and some for
    /// each place.
    fn is_over(&self) -> bool {
        let places = (self.nodes.len() as u64).saturating_mul(PLACE_BYTES);
        let most = self
            .session_bytes
            .saturating_sub(self.session_bytes / 4)
            .saturating_add(places);
        self.taken > most.saturating_add(FREE_BYTES)
    }
}

impl File {
    /// Forgets what the session did, and a size that was only assumed.
    fn rewind(&mut self, alloc: Global) {
        self.size = None;
        self.sized = 0;
        self.furthest = 0;
        self.written_by = 0;
        self.peak = 0;
        self.zeros = u64::MAX;
        self.first = 0;
        self.last = 0;
        self.is_appended = false;
        self.is_blurred = false;
        drop(std::mem::replace(&mut self.written, Pieces::new(alloc)));
        if self.is_guessed {
            let (least, most) = self.unguessed;
            self.least = least;
            self.most = most;
        }
    }
}

impl Rights {
    fn rewind(&mut self) {
        self.owner = None;
        self.permissions = None;
        self.first = 0;
        self.last = 0;
    }
}

impl Slot {
    pub(crate) fn rewind(&mut self) {
        self.now = None;
        self.changed = 0;
        self.listed = 0;
    }
}

impl Node {
    /// Makes it what it was at the start.
    fn rewind(&mut self, alloc: Global) {
        self.seat = self.old_seat;
        self.rights.rewind();
        self.file.rewind(alloc);
        self.names.rewind();
    }
}

/// How many bytes of memory facts take, about.
fn bytes_of(facts: &[Fact]) -> u64 {
    let mut sum: u64 = 0;
    for fact in facts {
        sum = sum.saturating_add(fact.bytes());
    }
    sum
}

impl World {
    /// Goes back to the start of the session, with what is known of it.
    pub(crate) fn rewind(&mut self) -> Result<(), NoMemory> {
        drop(std::mem::replace(&mut self.handles, Handles::new(self.alloc)));
        self.asked = 0;
        self.replied = 0;
        self.teller = 0;
        let invented = bytes_of(self.invented.as_slice());
        self.taken = bytes_of(self.learned.as_slice()).saturating_add(invented);
        self.owner = None;
        self.owner_by = 0;
        self.skipped = false;
        self.spare.clear();
        self.marks.clear();
        for at in 0..self.nodes.len() {
            self.rewind_at(at)?;
        }
        Ok(())
    }

    /// Rewinds an entry; one that the session made is there no more.
    fn rewind_at(&mut self, at: usize) -> Result<(), NoMemory> {
        let alloc = self.alloc;
        let entry = self.entry_mut(at);
        if entry.is_old {
            let shown = entry.file.shown.len() as u64;
            entry.rewind(alloc);
            self.take_pieces(shown);
            return Ok(());
        }
        entry.file.rewind(alloc);
        self.spare.push(at)?;
        Ok(())
    }
}
