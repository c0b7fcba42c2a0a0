//! Trees that a search gives.

use crate::choices::Choices;
use crate::facts::{Fact, Says};
use crate::rows::Drawn;
use crate::search::{Search, Step};
use crate::texts::TreeText;
use crate::world::World;
use sftp_path::NoMemory;

/// A tree that explains the session, as far as a pass can see.
#[derive(Drop)]
pub struct Candidate<'a> {
    /// The bytes of the tree file.
    pub tree: TreeText<'a>,
    /// How many entries it has below its root.
    pub entries: u64,
    /// What it assumes beyond what replies tell.
    pub assumed: Vec<Fact>,
    /// Whether it has higher limits than the usual ones, since the session needs them.
    pub is_large: bool,
    /// How many replies the session has, and how many of them say what another record says, too. Of the others nobody
    /// knows whether they are right: the tree has what they alone tell.
    pub replies: u64,
    pub checked: u64,
}

/// Why there is no tree of what a session tells: it would be larger than it may.
#[derive(Clone, Copy)]
pub enum Excess {
    /// The files of the session, each as large as it was at most, would have so many bytes in all.
    Files(u64),
    /// A file would have so many bytes at the start, which no tree has.
    File(u64),
    /// Its paths and the targets of its links would have so many bytes in all.
    Paths(u64),
    /// It would have more entries than any tree.
    Entries,
}

impl<'a> Search<'a> {
    /// The tree of a pass that went through.
    pub(crate) fn candidate(&self, choice: usize, world: &mut World) -> Result<Step<'a>, NoMemory> {
        match world.draw(self.session)? {
            Drawn::Text(tree, entries) => self.candidate_of(choice, world, tree, entries),
            Drawn::TooLarge(excess) => Ok(Step::TooLarge(excess)),
        }
    }

    fn candidate_of(
        &self,
        choice: usize,
        world: &mut World,
        tree: TreeText<'a>,
        entries: u64,
    ) -> Result<Step<'a>, NoMemory> {
        let mut assumed = std::mem::replace(&mut world.invented, Vec::new(self.alloc));
        match self.put_assumed(choice, world, &mut assumed) {
            Ok(()) => Ok(Step::Tree(Candidate {
                tree,
                entries,
                assumed,
                is_large: world.is_large(),
                replies: self.replies,
                checked: world.marks.count().min(self.replies),
            })),
            Err(error) => {
                drop(tree);
                drop(assumed);
                Err(error)
            }
        }
    }

    /// Appends the facts of a choice that no reply tells.
    fn put_assumed(
        &self,
        choice: usize,
        world: &World,
        assumed: &mut Vec<Fact>,
    ) -> Result<(), NoMemory> {
        self.choices.put_assumed(choice, assumed)?;
        let is_told = self.is_home_told && world.home == self.home;
        if self.is_relative && !is_told {
            let place = Vec::from_slice(self.alloc, world.home.as_slice())?;
            let (says, told) = (Says::Home, 0);
            assumed.push(Fact { place, says, told })?;
        }
        Ok(())
    }
}

impl Choices {
    /// Appends the facts of a choice, and of those that it adds to, that no reply tells.
    fn put_assumed(&self, choice: usize, assumed: &mut Vec<Fact>) -> Result<(), NoMemory> {
        let chain = self.chain(choice)?;
        let put = self.put_assumed_of_each(chain.as_slice(), assumed);
        drop(chain);
        put
    }

    /// Appends the facts of choices that no reply tells, those of the last one first.
    fn put_assumed_of_each(
        &self,
        chain: &[usize],
        assumed: &mut Vec<Fact>,
    ) -> Result<(), NoMemory> {
        for index in chain.iter().rev() {
            self.put_assumed_of(*index, assumed)?;
        }
        Ok(())
    }

    fn put_assumed_of(&self, index: usize, assumed: &mut Vec<Fact>) -> Result<(), NoMemory> {
        if let Some(choice) = self.get(index) {
            for fact in choice.facts.iter() {
                if is_assumed(&fact.says) {
                    put_fact(fact.try_clone(self.alloc)?, assumed)?;
                }
            }
        }
        Ok(())
    }
}

/// Appends a fact. If it says otherwise what an earlier one says, it takes that one's place: a pass that begins with
/// both goes by the later one.
fn put_fact(fact: Fact, assumed: &mut Vec<Fact>) -> Result<(), NoMemory> {
    match replaced_by(&fact, assumed.as_slice()) {
        Some(index) => {
            if let Some(earlier) = assumed.get_mut(index) {
                drop(std::mem::replace(earlier, fact));
            }
            Ok(())
        }
        None => Ok(assumed.push(fact)?),
    }
}

/// The index of the fact in whose place another one comes.
fn replaced_by(fact: &Fact, assumed: &[Fact]) -> Option<usize> {
    for (index, earlier) in assumed.iter().enumerate() {
        if are_alike(&earlier.says, &fact.says) && earlier.place == fact.place {
            return Some(index);
        }
    }
    None
}

/// Whether of one place only one of these can hold.
fn are_alike(one: &Says, other: &Says) -> bool {
    match (one, other) {
        (Says::Link(_), Says::Link(_)) | (Says::Size(_), Says::Size(_)) => true,
        _ => false,
    }
}

/// Whether no reply tells what a fact says.
fn is_assumed(says: &Says) -> bool {
    match says {
        Says::Link(_) | Says::SameFile(_) | Says::Size(_) => true,
        Says::There | Says::Directory | Says::File | Says::Home => false,
    }
}
