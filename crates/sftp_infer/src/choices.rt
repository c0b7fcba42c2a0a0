//! What the search may begin a pass with: choices of facts and reasons, each of which adds to another one.

use crate::errors::Stop;
use crate::facts::Fact;
use crate::refusals::Guess;
use crate::world::World;
use sftp_path::NoMemory;
use std::alloc::Global;
use std::collections::BTreeMap;

/// The most proposals that a contradiction adds to the search.
const PROPOSALS: usize = 96;

/// The most refusals for which another reason is tried after a contradiction.
const GUESSES: usize = 8;

/// What is added to the cost of what adds to a choice whose pass came no further than the one whose contradiction it
/// was to resolve: so other ways to resolve that are tried first.
const LAG: usize = 8;

/// How many bytes of memory a choice takes beside its facts.
const CHOICE_BYTES: u64 = 128;

/// A reason to take for a refusal.
#[derive(Clone, Copy)]
pub(crate) struct Take {
    /// The number of the request's record.
    pub(crate) asked: u64,
    /// The reason, as a bit.
    pub(crate) reason: u32,
}

/// A choice that others add to, and how far its pass came.
#[derive(Clone, Copy)]
pub(crate) struct Base {
    pub(crate) index: usize,
    pub(crate) progress: u64,
}

/// A set of facts to begin a pass with.
#[derive(Drop)]
pub(crate) struct Choice {
    /// The choice that this one adds to.
    pub(crate) parent: Option<usize>,
    pub(crate) facts: Vec<Fact>,
    pub(crate) take: Option<Take>,
    /// How many proposals were passed over for it.
    pub(crate) cost: usize,
    /// How far the pass came whose contradiction it may resolve.
    pub(crate) progress: u64,
    pub(crate) is_waiting: bool,
}

impl Choice {
    /// How many bytes of memory it takes, about.
    fn bytes(&self) -> u64 {
        let mut sum = CHOICE_BYTES;
        for fact in self.facts.iter() {
            sum = sum.saturating_add(fact.bytes());
        }
        sum
    }
}

/// The choices of a search.
#[derive(Drop)]
pub(crate) struct Choices {
    pub(crate) alloc: Global,
    each: Vec<Choice>,
    /// How many bytes of memory all of them take, about.
    bytes: u64,
    /// Those that wait, by their costs, and by how far the passes came that led to them; and some that wait no more.
    by_cost: BTreeMap<u64, usize>,
    by_progress: BTreeMap<u64, usize>,
    /// Whether the last one was taken by its cost.
    was_by_cost: bool,
}

/// A number of at most so many bits.
fn within_bits(number: u64, bits: u32) -> u64 {
    number.min(match bits {
        16 => 0xffff,
        _ => 0xff_ffff,
    })
}

/// The order of choices by their costs, of equal ones the newest first.
fn key_by_cost(cost: usize, index: usize) -> u64 {
    let newest = 0xff_ffff_u64.saturating_sub(within_bits(index as u64, 24));
    (within_bits(cost as u64, 24) << 24) | newest
}

/// The order of choices by how far passes came, of equal ones by their costs, and then the newest first.
fn key_by_progress(progress: u64, cost: usize, index: usize) -> u64 {
    let left = 0xff_ffff_u64.saturating_sub(within_bits(progress, 24));
    let newest = 0xff_ffff_u64.saturating_sub(within_bits(index as u64, 24));
    (left << 40) | (within_bits(cost as u64, 16) << 24) | newest
}

impl Choices {
    pub(crate) fn new(alloc: Global) -> Choices {
        Choices {
            alloc,
            each: Vec::new(alloc),
            bytes: 0,
            by_cost: BTreeMap::new(alloc),
            by_progress: BTreeMap::new(alloc),
            was_by_cost: false,
        }
    }

    /// The choice with this number.
    pub(crate) fn get(&self, index: usize) -> Option<&Choice> {
        self.each.get(index)
    }

    /// How many bytes of memory all of them take, about.
    pub(crate) fn bytes(&self) -> u64 {
        self.bytes
    }

    /// Has a choice wait no more, and says whether it did.
    fn stop_waiting(&mut self, index: usize) -> bool {
        match self.each.get_mut(index) {
            Some(choice) => std::mem::replace(&mut choice.is_waiting, false),
            None => false,
        }
    }

    /// Adds the first choice, which has no facts.
    pub(crate) fn add_first(&mut self) -> Result<(), NoMemory> {
        self.add(Choice {
            parent: None,
            facts: Vec::new(self.alloc),
            take: None,
            cost: 0,
            progress: u64::MAX,
            is_waiting: true,
        })?;
        Ok(())
    }

    /// Adds a choice of where relative paths begin. It is tried before all that resolve contradictions.
    pub(crate) fn add_home(&mut self, home: Fact) -> Result<(), NoMemory> {
        let facts = vec![in self.alloc; home]?;
        self.add(Choice {
            parent: None,
            facts,
            take: None,
            cost: 1,
            progress: u64::MAX,
            is_waiting: true,
        })?;
        Ok(())
    }

    /// Takes the choice to try next out of those that wait: in turn the one that passes over the fewest proposals, and
    /// the one of a pass that came furthest.
    pub(crate) fn take_next(&mut self) -> Option<usize> {
        self.was_by_cost = !self.was_by_cost;
        for _ in 0..=self.each.len() {
            let (_, index) = if self.was_by_cost {
                self.by_cost.pop_first()?
            } else {
                self.by_progress.pop_first()?
            };
            if self.stop_waiting(index) {
                return Some(index);
            }
        }
        None
    }

    /// Begins with the facts of a choice, and of those that it adds to.
    pub(crate) fn begin(&self, choice: usize, world: &mut World) -> Result<(), Stop> {
        let chain = self.chain(choice)?;
        let begun = self.begin_each(chain.as_slice(), world);
        drop(chain);
        begun
    }

    /// Begins with the facts of choices, the last one first.
    fn begin_each(&self, chain: &[usize], world: &mut World) -> Result<(), Stop> {
        for index in chain.iter().rev() {
            self.begin_choice(*index, world)?;
        }
        Ok(())
    }

    fn begin_choice(&self, index: usize, world: &mut World) -> Result<(), Stop> {
        if let Some(choice) = self.each.get(index) {
            if let Some(take) = choice.take {
                world.takes.push(take)?;
            }
            for fact in choice.facts.iter() {
                world.work = world.work.saturating_add(1);
                world.begin_with(fact)?;
            }
        }
        Ok(())
    }

    /// A choice, the one that it adds to, and so on.
    pub(crate) fn chain(&self, choice: usize) -> Result<Vec<usize>, NoMemory> {
        let mut chain = Vec::new(self.alloc);
        let mut next = Some(choice);
        for _ in 0..self.each.len() {
            match next {
                Some(index) => {
                    chain.push(index)?;
                    next = self.parent(index);
                }
                None => break,
            }
        }
        Ok(chain)
    }

    fn parent(&self, index: usize) -> Option<usize> {
        match self.each.get(index) {
            Some(choice) => choice.parent,
            None => None,
        }
    }

    /// Keeps what a choice learned as facts of a choice that adds to it, and returns that one.
    pub(crate) fn learn(&mut self, choice: usize, world: &mut World) -> Result<usize, NoMemory> {
        if world.learned.is_empty() {
            return Ok(choice);
        }
        let learned = std::mem::replace(&mut world.learned, Vec::new(self.alloc));
        let (cost, progress) = (self.cost(choice), self.progress(choice));
        self.add(Choice {
            parent: Some(choice),
            facts: learned,
            take: None,
            cost,
            progress,
            is_waiting: false,
        })
    }

    fn cost(&self, choice: usize) -> usize {
        match self.each.get(choice) {
            Some(choice) => choice.cost,
            None => 0,
        }
    }

    /// How far the pass came whose contradiction a choice may resolve; no pass came so far for the first choices.
    fn progress(&self, choice: usize) -> u64 {
        match self.each.get(choice) {
            Some(choice) => choice.progress,
            None => u64::MAX,
        }
    }

    /// The cost of the first choice that adds to this one.
    pub(crate) fn cost_from(&self, base: Base) -> usize {
        let before = self.progress(base.index);
        let cost = self.cost(base.index);
        if before != u64::MAX && base.progress <= before {
            cost.saturating_add(LAG)
        } else {
            cost
        }
    }

    fn add(&mut self, choice: Choice) -> Result<usize, NoMemory> {
        let index = self.each.len();
        let (cost, progress, is_waiting) = (choice.cost, choice.progress, choice.is_waiting);
        self.bytes = self.bytes.saturating_add(choice.bytes());
        self.each.push(choice)?;
        if is_waiting {
            self.by_cost.insert(key_by_cost(cost, index), index)?;
            let key = key_by_progress(progress, cost, index);
            self.by_progress.insert(key, index)?;
        }
        Ok(index)
    }

    /// Adds a choice for each proposal of a contradiction, and for the other reasons that refusals may have which led
    /// to it.
    pub(crate) fn branch(&mut self, base: usize, world: &mut World) -> Result<(), NoMemory> {
        let (told, found) = match &world.clash {
            Some(clash) => (clash.told, clash.found),
            None => (0, 0),
        };
        let progress = world.progress();
        let from = Base {
            index: base,
            progress,
        };
        let guesses = world.guesses.as_slice();
        let cost = self.guess_otherwise(from, self.cost_from(from), guesses, told, true)?;
        let cost = self.add_each(from, cost, world.proposals.as_slice())?;
        self.guess_otherwise(from, cost, guesses, found, false)?;
        Ok(())
    }

    /// Adds a choice for each proposal. Returns the cost of the next one.
    fn add_each(&mut self, base: Base, cost: usize, proposals: &[Fact]) -> Result<usize, NoMemory> {
        let mut cost = cost;
        for fact in proposals.iter().take(PROPOSALS) {
            self.add_fact(base, fact, cost)?;
            cost = cost.saturating_add(1);
        }
        Ok(cost)
    }

    fn add_fact(&mut self, base: Base, fact: &Fact, cost: usize) -> Result<(), NoMemory> {
        let fact = fact.try_clone(self.alloc)?;
        let facts = vec![in self.alloc; fact]?;
        self.add(Choice {
            parent: Some(base.index),
            facts,
            take: None,
            cost,
            progress: base.progress,
            is_waiting: true,
        })?;
        Ok(())
    }

    /// Adds choices in which refusals have other reasons: that of the request with this number, or of the last ones
    /// before it. Returns the cost of the next one.
    pub(crate) fn guess_otherwise(
        &mut self,
        base: Base,
        cost: usize,
        guesses: &[Guess],
        number: u64,
        is_exact: bool,
    ) -> Result<usize, NoMemory> {
        let mut cost = cost;
        let mut left = GUESSES;
        for guess in guesses.iter().rev() {
            let fits = if is_exact {
                guess.asked == number
            } else {
                guess.asked < number
            };
            if fits && left > 0 {
                left = left.saturating_sub(1);
                cost = self.guess_each(base, cost, *guess)?;
            }
        }
        Ok(cost)
    }

    /// Adds a choice for each other reason of a refusal.
    fn guess_each(&mut self, base: Base, cost: usize, guess: Guess) -> Result<usize, NoMemory> {
        let mut cost = cost;
        let mut bit: u32 = 1;
        for _ in 0..16 {
            if guess.others & bit != 0 {
                self.add(Choice {
                    parent: Some(base.index),
                    facts: Vec::new(self.alloc),
                    take: Some(Take {
                        asked: guess.asked,
                        reason: bit,
                    }),
                    cost,
                    progress: base.progress,
                    is_waiting: true,
                })?;
                cost = cost.saturating_add(1);
            }
            bit = bit.saturating_mul(2);
        }
        Ok(cost)
    }
}
