//! The search: a first look at the session, and then pass after pass, each with further facts, until one goes through.

use crate::candidates::{Candidate, Excess};
use crate::choices::{Base, Choices};
use crate::errors::{Clash, Stop, What};
use crate::exchanges::{Exchange, Exchanges};
use crate::homes::home_of;
use crate::pass::Passed;
use crate::refusals::Guess;
use crate::rows::Drawn;
use crate::settings::Settings;
use crate::snapshots::Listings;
use crate::texts::TreeText;
use crate::world::World;
use sftp_path::NoMemory;
use sftp_wire::{Answer, Ask};
use std::alloc::Global;

/// How many steps all passes may take for each record of the session, and for each name in a reply; and how many
/// besides, for any session.
const WORK: u64 = 64;

const FREE_WORK: u64 = 2_000_000;

/// What is added to how far a pass came that takes refusals, too: it came further than any that does not.
pub(crate) const HEARD: u64 = 1 << 22;

/// How many bytes of memory all choices may take beside a quarter of those that the session has.
const FREE_BYTES: u64 = 1 << 24;

/// What a step of the search comes to.
#[derive(Drop)]
pub enum Step<'a> {
    /// This tree.
    Tree(Candidate<'a>),
    /// Nothing is left to try.
    Nothing,
    /// The tree of a pass that went through would be larger than it may. No other one is tried.
    TooLarge(Excess),
}

impl Step<'_> {
    fn is_nothing(&self) -> bool {
        match self {
            Step::Nothing => true,
            _ => false,
        }
    }
}

/// A search for a tree at the start of a session.
#[derive(Drop)]
pub struct Search<'a> {
    pub(crate) alloc: Global,
    pub(crate) session: &'a [u8],
    pub(crate) settings: Settings,
    pub(crate) home: Vec<u8>,
    /// Whether a reply told the home, or the caller.
    pub(crate) is_home_told: bool,
    /// Whether the caller told it, whether a path is relative, and the places at which such a path may begin.
    pub(crate) is_home_given: bool,
    pub(crate) is_relative: bool,
    pub(crate) homes: Vec<Vec<u8>>,
    /// What listings gave.
    pub(crate) listings: Listings,
    /// How many requests of the session have replies, with how many names these have.
    pub(crate) requests: u64,
    /// How many requests have replies.
    pub(crate) replies: u64,
    pub(crate) choices: Choices,
    pub(crate) passes: u32,
    pub(crate) work: u64,
    /// Whether something was left untried, since it would have taken more than the search may.
    pub(crate) is_spent: bool,
    /// The contradiction that came last in the session of those that were met.
    pub(crate) clash: Option<Clash>,
    /// The tree of the pass that came furthest.
    pub(crate) best: Option<TreeText<'a>>,
    pub(crate) furthest: u64,
    /// The choice of the last tree, and its refusals for which a reason was taken that nothing tells.
    pub(crate) last: usize,
    pub(crate) guesses: Vec<Guess>,
}

impl<'a> Search<'a> {
    /// A search that has tried nothing yet. `home` is the absolute text of the place where relative paths begin, if it
    /// is known.
    ///
    /// # Errors
    ///
    /// `NoMemory` if memory runs out.
    pub fn new(
        alloc: Global,
        session: &'a [u8],
        home: Option<&[u8]>,
        settings: Settings,
    ) -> Result<Search<'a>, NoMemory> {
        let mut search = Search {
            alloc,
            session,
            settings,
            home: Vec::from_slice(alloc, home.unwrap_or(b"/"))?,
            is_home_told: home.is_some(),
            is_home_given: home.is_some(),
            is_relative: false,
            homes: Vec::new(alloc),
            listings: Listings::new(alloc),
            requests: 0,
            replies: 0,
            choices: Choices::new(alloc),
            passes: 0,
            work: 0,
            is_spent: false,
            clash: None,
            best: None,
            furthest: 0,
            last: 0,
            guesses: Vec::new(alloc),
        };
        match search.prepare() {
            Ok(()) => Ok(search),
            Err(error) => {
                drop(search);
                Err(error)
            }
        }
    }

    /// Adds a choice with no facts, and looks at the session.
    fn prepare(&mut self) -> Result<(), NoMemory> {
        self.choices.add_first()?;
        self.look_first()?;
        if self.is_home_given {
            return Ok(());
        }
        self.choose_homes()
    }

    /// How many passes were made.
    pub fn passes(&self) -> u32 {
        self.passes
    }

    /// Whether something was left untried, since it would have taken more passes, steps or memory than the search may.
    pub fn is_spent(&self) -> bool {
        self.is_spent
    }

    /// The contradiction that came last in the session of those that were met.
    pub fn clash(&self) -> Option<&Clash> {
        self.clash.as_ref()
    }

    /// The tree file of the pass that came furthest, if there was one.
    pub fn best(&self) -> Option<&TreeText<'a>> {
        self.best.as_ref()
    }

    /// The next tree that explains the session, as far as a pass can see.
    ///
    /// # Errors
    ///
    /// `NoMemory` if memory runs out.
    pub fn next(&mut self) -> Result<Step<'a>, NoMemory> {
        for _ in 0..self.settings.passes {
            if self.passes >= self.settings.passes || self.work_left() == 0 || self.is_full() {
                break;
            }
            let Some(choice) = self.choices.take_next() else {
                return Ok(Step::Nothing);
            };
            let step = self.try_choice(choice)?;
            if !step.is_nothing() {
                return Ok(step);
            }
            drop(step);
        }
        self.is_spent = true;
        Ok(Step::Nothing)
    }

    /// Whether the choices take more memory than they may: a quarter of the bytes of the session, and some.
    fn is_full(&self) -> bool {
        self.choices.bytes() > (self.session.len() as u64 / 4).saturating_add(FREE_BYTES)
    }

    fn work_left(&self) -> u64 {
        let records = self.requests.saturating_mul(2).saturating_add(16);
        let most = records.saturating_mul(WORK).saturating_add(FREE_WORK);
        most.saturating_sub(self.work)
    }

    /// Goes through the session with a choice.
    fn try_choice(&mut self, choice: usize) -> Result<Step<'a>, NoMemory> {
        let mut world = World::new(
            self.alloc,
            self.session.len() as u64,
            self.settings,
            self.home.as_slice(),
        )?;
        let passed = self.pass(choice, &mut world);
        let (work, passes) = (world.work, world.passes);
        let ended = match passed {
            Ok(passed) => self.end(choice, passed, &mut world),
            Err(error) => Err(error),
        };
        drop(world);
        self.work = self.work.saturating_add(work);
        self.passes = self.passes.saturating_add(passes.max(1));
        ended
    }

    fn pass(&self, choice: usize, world: &mut World) -> Result<Passed, NoMemory> {
        let begun = self.choices.begin(choice, world);
        match world.checked(begun) {
            Ok(()) => {}
            Err(Stop::NoMemory) => return Err(NoMemory),
            Err(_) => return Ok(Passed::Stuck),
        }
        let left = self.settings.passes.saturating_sub(self.passes);
        world.rounds(self.session, &self.listings, self.work_left(), left)
    }

    /// Takes what a choice comes to.
    fn end(
        &mut self,
        choice: usize,
        passed: Passed,
        world: &mut World,
    ) -> Result<Step<'a>, NoMemory> {
        match passed {
            Passed::Clean => self.end_clean(choice, world),
            Passed::Stuck => {
                self.end_stuck(choice, world)?;
                Ok(Step::Nothing)
            }
            Passed::Over | Passed::Dirty => {
                self.is_spent = true;
                Ok(Step::Nothing)
            }
        }
    }

    /// Takes a pass that went through.
    fn end_clean(&mut self, choice: usize, world: &mut World) -> Result<Step<'a>, NoMemory> {
        let base = self.choices.learn(choice, world)?;
        self.last = base;
        self.guesses = std::mem::replace(&mut world.guesses, Vec::new(self.alloc));
        self.candidate(base, world)
    }

    /// Takes a pass that met a contradiction.
    fn end_stuck(&mut self, choice: usize, world: &mut World) -> Result<(), NoMemory> {
        let base = self.choices.learn(choice, world)?;
        self.choices.branch(base, world)?;
        self.keep_best(world)
    }

    /// Keeps the contradiction of a pass if it comes later in the session than those before.
    fn keep_best(&mut self, world: &mut World) -> Result<(), NoMemory> {
        let found = world.progress();
        if found < self.furthest || self.clash.is_some() && found == self.furthest {
            return Ok(());
        }
        self.set_clash(found, world.clash.take());
        let best = best_of(world, self.session)?;
        drop(std::mem::replace(&mut self.best, best));
        Ok(())
    }

    /// Keeps a contradiction of a pass that came so far.
    fn set_clash(&mut self, found: u64, clash: Option<Clash>) {
        self.furthest = found;
        drop(std::mem::replace(&mut self.clash, clash));
    }

    /// Takes that an audit refused the last tree at this record, with no reason that a pass knows: refusals before it
    /// may have other reasons.
    ///
    /// # Errors
    ///
    /// `NoMemory` if memory runs out.
    pub fn refuse(&mut self, found: u64) -> Result<(), NoMemory> {
        let reached = found.saturating_add(HEARD);
        if reached > self.furthest {
            let clash = Clash {
                told: 0,
                found,
                place: Vec::new(self.alloc),
                what: What::Refused(None),
                texts: None,
            };
            self.set_clash(reached, Some(clash));
        }
        self.guess_before(found)
    }

    /// Adds choices in which refusals before this record have other reasons.
    fn guess_before(&mut self, found: u64) -> Result<(), NoMemory> {
        let guesses = std::mem::replace(&mut self.guesses, Vec::new(self.alloc));
        let base = Base {
            index: self.last,
            progress: found.saturating_add(HEARD),
        };
        let cost = self.choices.cost_from(base);
        let next = self
            .choices
            .guess_otherwise(base, cost, guesses.as_slice(), found, false);
        drop(guesses);
        match next {
            Ok(_) => Ok(()),
            Err(error) => Err(error),
        }
    }
}

/// The tree file of what a pass found.
fn best_of<'a>(world: &World, session: &'a [u8]) -> Result<Option<TreeText<'a>>, NoMemory> {
    match world.draw(session)? {
        Drawn::Text(tree, _) => Ok(Some(tree)),
        Drawn::TooLarge(_) => Ok(None),
    }
}

impl<'a> Search<'a> {
    /// Counts the requests and the names in replies, and looks for the home.
    pub(crate) fn look_first(&mut self) -> Result<(), NoMemory> {
        let mut exchanges = Exchanges::new(self.alloc, self.session);
        let looked = self.look_at_each(&mut exchanges);
        drop(exchanges);
        looked
    }

    fn look_at_each(&mut self, exchanges: &mut Exchanges) -> Result<(), NoMemory> {
        let session = self.session;
        for _ in 0..u64::MAX {
            match exchanges.next(session)? {
                Some(exchange) => self.look_at(exchange)?,
                None => return Ok(()),
            }
        }
        Ok(())
    }

    fn look_at(&mut self, exchange: Exchange<'_>) -> Result<(), NoMemory> {
        let (ask, answer) = (exchange.ask, exchange.answer);
        let steps = count_of_names(answer).saturating_add(1);
        self.requests = self.requests.saturating_add(steps);
        self.replies = self.replies.saturating_add(1);
        self.listings.note(exchange)?;
        self.look_for_homes(exchange)?;
        if self.is_home_told {
            return Ok(());
        }
        if let Some(home) = home_told(ask, answer) {
            self.home = Vec::from_slice(self.alloc, home)?;
            self.is_home_told = true;
        }
        Ok(())
    }
}

/// The home that an exchange tells.
fn home_told<'t>(ask: &Ask, answer: &'t Answer) -> Option<&'t [u8]> {
    match (ask, answer) {
        (Ask::Realpath { path }, Answer::Name(names)) => {
            let item = names.as_slice().first()?;
            home_of(path.as_slice(), item.filename.as_slice())
        }
        _ => None,
    }
}

/// How many names a reply has.
fn count_of_names(answer: &Answer) -> u64 {
    match answer {
        Answer::Name(names) => names.as_slice().len() as u64,
        _ => 0,
    }
}
