//! Where a path leads, as far as that is known.

use crate::names::{Place, Spot};
use crate::nodes::{Held, Sort};
use crate::world::World;
use sftp_path::{NoMemory, good_path, is_dot, is_dot_dot};
use std::alloc::Global;

/// The most components that a walk looks at.
const COMPONENT_LIMIT: u64 = 90_000;

/// The most links that a walk follows.
const LINK_LIMIT: u32 = 40;

/// Where a path leads.
#[derive(Clone, Copy)]
pub(crate) enum Look {
    /// To this entry.
    Entry(usize),
    /// To a name at which nothing is, as this record told.
    Nothing(u64),
    /// To a name of which nothing is known.
    Unknown,
    /// Nowhere: nothing is at a name on the way, as this record told.
    NoEntry(u64),
    /// Nowhere: this entry on the way is no directory.
    NotDir(usize),
    /// Nowhere: too many links are on the way.
    Loop,
    /// Nowhere: the path is bad.
    Bad,
    /// A name on the way is not known.
    UnknownWay,
    /// An entry on the way is of no known kind.
    Unsure(usize),
    /// A link on the way has no known target.
    Blind(usize),
}

/// Where a path leads, and the directory and the name where the walk ended.
#[derive(Drop)]
pub(crate) struct Found<'p> {
    pub(crate) look: Look,
    pub(crate) parent: usize,
    /// The name, where the path has it, and else a copy.
    given: Option<&'p [u8]>,
    copied: Vec<u8>,
    /// Where in the list of the directory the name is.
    found: Place,
    /// How many components the walk looked at.
    pub(crate) steps: u64,
}

impl Found<'_> {
    /// The name where the walk ended.
    pub(crate) fn name(&self) -> &[u8] {
        match self.given {
            Some(name) => name,
            None => self.copied.as_slice(),
        }
    }

    /// The same, in its directory.
    pub(crate) fn spot(&self) -> Spot<'_> {
        Spot {
            parent: self.parent,
            name: self.name(),
            found: self.found,
        }
    }
}

/// Where a walk ended.
#[derive(Drop)]
struct Ended {
    look: Look,
    parent: usize,
    /// How long the name is, and how much of the path is left behind it, where the path has it.
    given: Option<(usize, usize)>,
    /// The name, where it has not.
    copied: Vec<u8>,
    found: Place,
    steps: u64,
}

/// A walk that has not ended.
#[derive(Drop)]
struct Walk<'w> {
    at: usize,
    /// Where in the list of the directory the last name was found.
    found: Place,
    rest: &'w [u8],
    /// Whether the rest is one of the path.
    is_given: bool,
    /// What comes after the rest, the next one last.
    waiting: Vec<&'w [u8]>,
    links: u32,
}

/// What a step of a walk comes to.
enum Step<'w> {
    /// The walk goes on.
    On,
    /// It ends here, at this name.
    End(Look, &'w [u8]),
}

/// The first component of a path and what is behind it, if there is any.
pub(crate) fn next_part(path: &[u8]) -> Option<(&[u8], &[u8])> {
    let inner = path.get(start_of_part(path)?..)?;
    let end = inner
        .iter()
        .position(|byte| *byte == b'/')
        .unwrap_or(inner.len());
    inner.split_at_checked(end)
}

/// The text before the last slash, and the name behind it.
pub(crate) fn cut_last(place: &[u8]) -> Option<(&[u8], &[u8])> {
    let slash = place.iter().rposition(|byte| *byte == b'/')?;
    let (above, rest) = place.split_at_checked(slash)?;
    Some((above, rest.get(1..)?))
}

/// So many bytes of a path, behind which so many are left.
fn part_before(path: &[u8], len: usize, left: usize) -> Option<&[u8]> {
    let end = path.len().checked_sub(left)?;
    path.get(end.checked_sub(len)?..end)
}

/// Where the first component of a path begins, if there is any.
fn start_of_part(path: &[u8]) -> Option<usize> {
    path.iter().position(|byte| *byte != b'/')
}

/// Whether a path has a component.
fn has_part(path: &[u8]) -> bool {
    start_of_part(path).is_some()
}

impl<'w> Walk<'w> {
    /// A walk along a path from the root, that has not begun.
    fn new(alloc: Global, path: &'w [u8]) -> Walk<'w> {
        Walk {
            at: 0,
            found: Place::NotSought,
            rest: path,
            is_given: true,
            waiting: Vec::new(alloc),
            links: 0,
        }
    }

    /// Goes along the path of the home first.
    fn begin_at(&mut self, home: &'w [u8]) -> Result<(), NoMemory> {
        if has_part(self.rest) {
            self.waiting.push(self.rest)?;
        }
        self.rest = home;
        self.is_given = false;
        Ok(())
    }

    /// Whether no component is left.
    fn is_done(&self) -> bool {
        self.waiting.is_empty() && !has_part(self.rest)
    }

    /// Goes on with a link's target from this directory.
    fn follow(&mut self, target: &'w [u8]) -> Result<(), NoMemory> {
        if has_part(self.rest) {
            self.waiting.push(self.rest)?;
        }
        self.rest = target;
        self.is_given = false;
        self.links = self.links.saturating_add(1);
        if target.first() == Some(&b'/') {
            self.at = 0;
        }
        Ok(())
    }
}

impl World {
    /// Where a path leads now.
    pub(crate) fn look<'p>(&self, path: &'p [u8], follows: bool) -> Result<Found<'p>, NoMemory> {
        let ended = self.walk_from(path, follows)?;
        let given = match ended.given {
            Some((len, left)) => part_before(path, len, left),
            None => None,
        };
        let Ended {
            look,
            parent,
            given: _,
            copied,
            found,
            steps,
        } = ended;
        Ok(Found {
            look,
            parent,
            given,
            copied,
            found,
            steps,
        })
    }

    fn walk_from<'w>(&'w self, path: &'w [u8], follows: bool) -> Result<Ended, NoMemory> {
        if !good_path(path) {
            return Ok(self.nowhere(Look::Bad, 0));
        }
        let mut walk = Walk::new(self.alloc, path);
        let ended = self.walk(&mut walk, follows);
        drop(walk);
        ended
    }

    /// A walk that led nowhere.
    fn nowhere(&self, look: Look, steps: u64) -> Ended {
        Ended {
            look,
            parent: 0,
            given: None,
            copied: Vec::new(self.alloc),
            found: Place::NotSought,
            steps,
        }
    }

    /// What a walk comes to that ended at this name.
    fn end(&self, walk: &Walk<'_>, look: Look, name: &[u8], steps: u64) -> Result<Ended, NoMemory> {
        let (given, copied) = if walk.is_given {
            (Some((name.len(), walk.rest.len())), Vec::new(self.alloc))
        } else {
            (None, Vec::from_slice(self.alloc, name)?)
        };
        Ok(Ended {
            look,
            parent: walk.at,
            given,
            copied,
            found: walk.found,
            steps,
        })
    }

    fn walk<'w>(&'w self, walk: &mut Walk<'w>, follows: bool) -> Result<Ended, NoMemory> {
        if walk.rest.first() != Some(&b'/') {
            walk.begin_at(self.home.as_slice())?;
        }
        for steps in 0..COMPONENT_LIMIT {
            match self.step(walk, follows)? {
                Step::On => {}
                Step::End(look, name) => return self.end(walk, look, name, steps),
            }
        }
        Ok(self.nowhere(Look::Loop, COMPONENT_LIMIT))
    }

    fn step<'w>(&'w self, walk: &mut Walk<'w>, follows: bool) -> Result<Step<'w>, NoMemory> {
        match next_part(walk.rest) {
            Some((name, behind)) => {
                walk.rest = behind;
                self.enter(walk, name, follows)
            }
            None => match walk.waiting.pop() {
                Some(rest) => {
                    walk.rest = rest;
                    walk.is_given = walk.links == 0;
                    Ok(Step::On)
                }
                None => Ok(self.end_in(walk)),
            },
        }
    }

    /// The walk ends in the directory that it has reached.
    fn end_in<'w>(&'w self, walk: &mut Walk<'w>) -> Step<'w> {
        let look = Look::Entry(walk.at);
        walk.found = Place::NotSought;
        walk.is_given = false;
        if walk.at == 0 {
            return Step::End(look, &[]);
        }
        let seat = self.entry(walk.at).seat;
        walk.at = seat.parent;
        Step::End(look, self.name_at(seat))
    }

    fn enter<'w>(
        &'w self,
        walk: &mut Walk<'w>,
        name: &'w [u8],
        follows: bool,
    ) -> Result<Step<'w>, NoMemory> {
        if is_dot(name) {
            return Ok(Step::On);
        }
        if is_dot_dot(name) {
            walk.at = self.entry(walk.at).seat.parent;
            return Ok(Step::On);
        }
        let is_last = walk.is_done();
        let spot = self.spot(walk.at, name);
        walk.found = spot.found;
        match self.held(spot) {
            Some((Held::Entry(at), _)) => self.enter_entry(walk, name, at, is_last, follows),
            Some((Held::Nothing, told)) if is_last => Ok(Step::End(Look::Nothing(told), name)),
            Some((Held::Nothing, told)) => Ok(Step::End(Look::NoEntry(told), name)),
            None if is_last => Ok(Step::End(Look::Unknown, name)),
            None => Ok(Step::End(Look::UnknownWay, name)),
        }
    }

    fn enter_entry<'w>(
        &'w self,
        walk: &mut Walk<'w>,
        name: &'w [u8],
        at: usize,
        is_last: bool,
        follows: bool,
    ) -> Result<Step<'w>, NoMemory> {
        match self.sort(at) {
            Sort::Link if follows || !is_last => self.follow(walk, name, at),
            _ if is_last => Ok(Step::End(Look::Entry(at), name)),
            Sort::Directory => {
                walk.at = at;
                Ok(Step::On)
            }
            Sort::Unknown => Ok(Step::End(Look::Unsure(at), name)),
            _ => Ok(Step::End(Look::NotDir(at), name)),
        }
    }

    fn follow<'w>(
        &'w self,
        walk: &mut Walk<'w>,
        name: &'w [u8],
        at: usize,
    ) -> Result<Step<'w>, NoMemory> {
        if walk.links >= LINK_LIMIT {
            return Ok(Step::End(Look::Loop, name));
        }
        match self.target(at) {
            Some(target) => {
                walk.follow(target)?;
                Ok(Step::On)
            }
            None => Ok(Step::End(Look::Blind(at), name)),
        }
    }

    /// The target of a link, if it is known.
    pub(crate) fn target(&self, at: usize) -> Option<&[u8]> {
        match &self.entry(at).target {
            Some(target) => Some(target.as_slice()),
            None => None,
        }
    }

    /// What a name in a directory leads to now, and the record that told it, if that is known.
    pub(crate) fn held(&self, spot: Spot<'_>) -> Option<(Held, u64)> {
        if let Some(held) = self.slot(spot).held() {
            return Some(held);
        }
        match self.entry(spot.parent).complete {
            Some(told) => Some((Held::Nothing, told)),
            None => None,
        }
    }
}
