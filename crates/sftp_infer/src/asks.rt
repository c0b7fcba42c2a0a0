//! What a reason for a refusal asks of the place to which a path leads, and what it costs to take it for granted.

use crate::errors::Stop;
use crate::look::Look;
use crate::nodes::Sort;
use crate::world::World;

/// What has to be at the end of a path, or on the way.
#[derive(Clone, Copy)]
pub(crate) enum Asks {
    Nothing,
    Something,
    Directory,
    /// Something that is no directory.
    NoDirectory,
    /// Something that is no file.
    NoFile,
    /// Something that is no link.
    NoLink,
    /// A directory with entries.
    Full,
    /// Whatever there is, or nothing: the way leads there.
    Place,
    /// Nothing is at a name on the way.
    Lost,
    /// Something on the way is no directory.
    Blocked,
    /// A link that leads to where no directory is.
    Astray,
    /// A link that leads to itself.
    Loops,
}

/// What it costs to take back that nothing is somewhere, where that was only assumed.
const RETRACTED: u32 = 4;

/// What each name on the way costs of which nothing is known.
const WAY: u32 = 2;

impl Asks {
    /// The kind of something at the end that does what is asked, if nothing is known of it.
    pub(crate) fn sort(self) -> Sort {
        match self {
            Asks::Directory | Asks::Full | Asks::NoFile => Sort::Directory,
            Asks::NoDirectory | Asks::NoLink => Sort::File,
            Asks::Astray | Asks::Loops => Sort::Link,
            _ => Sort::Unknown,
        }
    }

    /// The kind of something on the way that does what is asked, if nothing is known of it.
    pub(crate) fn sort_of_way(self) -> Sort {
        match self {
            Asks::Blocked => Sort::File,
            _ => Sort::Directory,
        }
    }

    /// Whether it is asked of a link.
    fn is_of_link(self) -> bool {
        matches!(self, Asks::Astray | Asks::Loops)
    }

    /// What this costs of something of this kind; `None` if it is not so.
    fn cost_of_sort(self, sort: Sort) -> Option<u32> {
        if self.is_of_link() && sort == Sort::Unknown {
            return Some(WAY);
        }
        let fits = match self {
            Asks::Something | Asks::Place => return Some(0),
            Asks::Directory | Asks::Full => sort == Sort::Directory,
            Asks::NoDirectory => sort != Sort::Directory,
            Asks::NoFile => sort != Sort::File,
            Asks::NoLink => sort != Sort::Link,
            Asks::Nothing | Asks::Lost | Asks::Blocked => return None,
            Asks::Astray | Asks::Loops => return None,
        };
        if sort == Sort::Unknown {
            return Some(1);
        }
        if fits { Some(0) } else { None }
    }
}

/// Where a path leads, and whether it is only assumed that nothing is there.
#[derive(Clone, Copy)]
pub(crate) struct Seen {
    look: Look,
    is_assumed: bool,
}

impl World {
    /// Where a path leads, for what is asked of it.
    pub(crate) fn see(&mut self, path: &[u8], follows: bool) -> Result<Seen, Stop> {
        let found = self.look(path, follows)?;
        let is_assumed = self.slot(found.spot()).is_assumed;
        let (look, steps) = (found.look, found.steps);
        drop(found);
        self.count_steps(steps);
        Ok(Seen { look, is_assumed })
    }

    /// What it costs to take for granted what is asked of a path: 0 if it is known, `None` if it is not so.
    pub(crate) fn cost_at(&self, seen: Seen, asks: Asks) -> Option<u32> {
        let is_assumed = seen.is_assumed;
        match seen.look {
            Look::Entry(at) => self.cost_of_entry(at, asks),
            Look::Nothing(_) => cost_of_nothing(asks, is_assumed),
            Look::Unknown => cost_of_unknown(asks),
            Look::NoEntry(_) => cost_of_no_entry(asks, is_assumed),
            Look::NotDir(_) | Look::Loop | Look::Bad => match asks {
                Asks::Blocked => Some(0),
                _ => None,
            },
            Look::UnknownWay => match asks {
                Asks::Lost | Asks::Blocked | Asks::Astray => Some(1),
                _ => Some(WAY),
            },
            Look::Unsure(_) => match asks {
                Asks::Blocked => Some(1),
                Asks::Lost => None,
                _ => Some(WAY),
            },
            Look::Blind(_) => Some(WAY),
        }
    }

    fn cost_of_entry(&self, at: usize, asks: Asks) -> Option<u32> {
        let cost = asks.cost_of_sort(self.sort(at))?;
        match asks {
            Asks::Full => match self.has_entries(at) {
                Some(true) => Some(cost),
                Some(false) => None,
                None => Some(cost.saturating_add(1)),
            },
            _ => Some(cost),
        }
    }
}

/// What is asked of a name of which nothing is known.
fn cost_of_unknown(asks: Asks) -> Option<u32> {
    match asks {
        Asks::Lost | Asks::Blocked => None,
        Asks::Place => Some(0),
        Asks::Astray | Asks::Loops => Some(WAY),
        _ => Some(1),
    }
}

/// What is asked of a path with a name on the way at which nothing is, which may be only assumed.
fn cost_of_no_entry(asks: Asks, is_assumed: bool) -> Option<u32> {
    match asks {
        Asks::Lost | Asks::Astray => Some(0),
        _ if is_assumed => Some(RETRACTED),
        _ => None,
    }
}

/// What is asked of a name at which nothing is, which may be only assumed.
fn cost_of_nothing(asks: Asks, is_assumed: bool) -> Option<u32> {
    match asks {
        Asks::Nothing | Asks::Place => Some(0),
        Asks::Lost | Asks::Blocked | Asks::Astray | Asks::Loops => None,
        _ if is_assumed => Some(RETRACTED),
        _ => None,
    }
}
