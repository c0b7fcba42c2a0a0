//! What a refusal may mean: all reasons that could hold, and of those that nothing tells the cheapest one.

use crate::asks::Seen;
use crate::errors::{Stop, What};
use crate::look::{Found, Look};
use crate::reasons::{Case, Reason, are_bad, case_of, has_loose_end, is_bad_target};
use crate::world::World;
use sftp_wire::{Ask, status};

/// How many directories are above an entry at most.
const DEPTH: u32 = 128;

/// A refusal for which a reason was taken that nothing tells.
#[derive(Clone, Copy)]
pub(crate) struct Guess {
    /// The number of the request's record.
    pub(crate) asked: u64,
    /// The reasons that it may have as well: a bit each, the first one the lowest.
    pub(crate) others: u32,
}

/// The reason that is taken for a refusal.
#[derive(Clone, Copy)]
struct Chosen {
    reason: Reason,
    cost: u32,
    bit: u32,
}

/// What a look at all reasons found.
#[derive(Clone, Copy)]
struct Choice {
    chosen: Option<Chosen>,
    /// The reasons that could hold, a bit each.
    possible: u32,
    /// Whether the search says which one is to be taken.
    is_forced: bool,
}

impl Choice {
    /// Adds a reason that could hold.
    fn add(&mut self, reason: Reason, cost: u32, bit: u32, forced: u32) {
        self.possible |= bit;
        let is_better = match self.chosen {
            Some(chosen) => cost < chosen.cost,
            None => true,
        };
        let is_forced = bit & forced != 0;
        if is_forced || (is_better && !self.is_forced) {
            self.chosen = Some(Chosen { reason, cost, bit });
        }
        if is_forced {
            self.is_forced = true;
        }
    }
}

/// Where a path ends: what it leads to, and the directory where the walk ended.
#[derive(Clone, Copy)]
struct End {
    look: Look,
    parent: usize,
}

impl End {
    /// Whether it is the root, or nowhere at all.
    fn is_root(self) -> bool {
        match self.look {
            Look::Entry(0) => true,
            Look::Bad => true,
            _ => false,
        }
    }

    /// Whether it is a place, at which something may be or not.
    fn is_place(self) -> bool {
        match self.look {
            Look::Entry(_) | Look::Nothing(_) | Look::Unknown => true,
            _ => false,
        }
    }
}

impl World {
    /// Takes a refusal with this code.
    pub(crate) fn refuse(&mut self, ask: &Ask, code: u32) -> Result<(), Stop> {
        if self.is_free(ask, code) {
            return Ok(());
        }
        let Some(case) = case_of(ask, self.settings.link_first) else {
            return Ok(());
        };
        if has_loose_end(case.old) && !self.settings.is_strict {
            return Ok(());
        }
        if self.is_of_places(ask)? {
            return Ok(());
        }
        if !self.hears {
            self.skipped = true;
            return Ok(());
        }
        self.explain(&case, code)
    }

    /// Whether the refusal needs no reason that the tree has.
    fn is_free(&self, ask: &Ask, code: u32) -> bool {
        let settings = self.settings;
        if settings.may_deny && code == status::PERMISSION_DENIED {
            return true;
        }
        if settings.may_be_full && code == status::FAILURE {
            return true;
        }
        if !settings.any_code && code != status::NO_SUCH_FILE && code != status::FAILURE {
            return true;
        }
        match ask {
            Ask::Open { pflags, .. } => are_bad(*pflags) || self.is_crowded(),
            Ask::Opendir { .. } => self.is_crowded(),
            Ask::Symlink {
                targetpath,
                linkpath,
            } => {
                let target = if settings.link_first {
                    linkpath
                } else {
                    targetpath
                };
                is_bad_target(target.as_slice())
            }
            _ => false,
        }
    }

    /// Whether as many handles are open as a tree with the usual limits allows.
    fn is_crowded(&self) -> bool {
        self.handles.len() >= 256
    }

    /// Whether the root would be moved, replaced or removed, or something moved into itself.
    fn is_of_places(&self, ask: &Ask) -> Result<bool, Stop> {
        match ask {
            Ask::Rmdir { path } => Ok(self.end_of(path.as_slice())?.is_root()),
            Ask::Rename { oldpath, newpath } => {
                self.is_bad_move(oldpath.as_slice(), newpath.as_slice(), false)
            }
            Ask::PosixRename { oldpath, newpath } => {
                self.is_bad_move(oldpath.as_slice(), newpath.as_slice(), true)
            }
            _ => Ok(false),
        }
    }

    /// Whether the root would be moved, or replaced if something may be, or something moved into itself.
    fn is_bad_move(&self, old: &[u8], new: &[u8], replaces: bool) -> Result<bool, Stop> {
        let old = self.end_of(old)?;
        let new = self.end_of(new)?;
        let is_root = old.is_root() || replaces && new.is_root();
        Ok(is_root || self.is_moved_inside(old, new))
    }

    /// Where a path ends, whose last link is not followed.
    fn end_of(&self, path: &[u8]) -> Result<End, Stop> {
        let found = self.look(path, false)?;
        let end = End {
            look: found.look,
            parent: found.parent,
        };
        drop(found);
        Ok(end)
    }

    /// Whether the old path leads to a directory on the way to the new one.
    fn is_moved_inside(&self, old: End, new: End) -> bool {
        match old.look {
            Look::Entry(moved) if new.is_place() => self.is_above(moved, new.parent),
            _ => false,
        }
    }

    /// Whether a directory is another one, or above it.
    pub(crate) fn is_above(&self, above: usize, below: usize) -> bool {
        let mut at = below;
        for _ in 0..DEPTH {
            if at == above {
                return true;
            }
            at = self.entry(at).seat.parent;
        }
        false
    }

    fn explain(&mut self, case: &Case<'_>, code: u32) -> Result<(), Stop> {
        let choice = self.choose(case, code)?;
        match choice.chosen {
            Some(chosen) if chosen.cost == 0 => {
                self.cross_refusal();
                Ok(())
            }
            Some(chosen) => {
                let others = choice.possible & !chosen.bit;
                if others != 0 {
                    let asked = self.asked;
                    self.guesses.push(Guess { asked, others })?;
                }
                self.take_reason(case, chosen.reason)?;
                self.confirm(case, code)
            }
            None => self.leave_unexplained(case),
        }
    }

    /// The reason to take, and those that could hold.
    fn choose(&mut self, case: &Case<'_>, code: u32) -> Result<Choice, Stop> {
        let old = self.see(case.old, case.follows)?;
        let new = match case.new {
            Some(new) => self.see(new, false)?,
            None => old,
        };
        let forced = self.forced();
        let mut choice = Choice {
            chosen: None,
            possible: 0,
            is_forced: false,
        };
        let mut bit: u32 = 1;
        for reason in case.reasons {
            if case.follows || !reason.is_of_followed() {
                if let Some(cost) = self.cost_of_reason(old, new, *reason, code) {
                    choice.add(*reason, cost, bit, forced);
                }
            }
            bit = bit.saturating_mul(2);
        }
        Ok(choice)
    }

    /// The reason that the search wants for the request at hand, as a bit.
    fn forced(&self) -> u32 {
        let mut forced = 0;
        for take in self.takes.iter() {
            if take.asked == self.asked {
                forced = take.reason;
            }
        }
        forced
    }

    /// What it costs to take this reason for granted, if it could hold.
    fn cost_of_reason(&self, old: Seen, new: Seen, reason: Reason, code: u32) -> Option<u32> {
        let has_code = reason.has(code);
        if !has_code && !self.settings.any_code {
            return None;
        }
        let old = match reason.0 {
            Some(asks) => self.cost_at(old, asks)?,
            None => 0,
        };
        let new = match reason.1 {
            Some(asks) => self.cost_at(new, asks)?,
            None => 0,
        };
        let sum = old.saturating_add(new);
        if sum == 0 || has_code {
            return Some(sum);
        }
        Some(sum.saturating_add(1))
    }

    fn take_reason(&mut self, case: &Case<'_>, reason: Reason) -> Result<(), Stop> {
        if let Some(asks) = reason.0 {
            self.grant(case.old, case.follows, asks)?;
        }
        match (reason.1, case.new) {
            (Some(asks), Some(new)) => self.grant(new, false, asks),
            _ => Ok(()),
        }
    }

    /// Whether the refusal follows from what is known, once a reason was taken: what is known may be in that one's way.
    fn confirm(&mut self, case: &Case<'_>, code: u32) -> Result<(), Stop> {
        if self.is_explained(case, code)? {
            return Ok(());
        }
        self.leave_unexplained(case)
    }

    fn is_explained(&mut self, case: &Case<'_>, code: u32) -> Result<bool, Stop> {
        let old = self.see(case.old, case.follows)?;
        let new = match case.new {
            Some(new) => self.see(new, false)?,
            None => old,
        };
        for reason in case.reasons {
            if let Some(0) = self.cost_of_reason(old, new, *reason, code) {
                return Ok(true);
            }
        }
        Ok(false)
    }

    /// No reason is left. What is at the end of the first path may be something else than it seems.
    fn leave_unexplained(&mut self, case: &Case<'_>) -> Result<(), Stop> {
        let found = self.look(case.old, case.follows)?;
        let done = self.unexplained(&found);
        drop(found);
        done
    }

    fn unexplained(&mut self, found: &Found<'_>) -> Result<(), Stop> {
        let told = match found.look {
            Look::Entry(at) | Look::NotDir(at) | Look::Unsure(at) | Look::Blind(at) => {
                return self.unexplained_at(at);
            }
            Look::Nothing(told) | Look::NoEntry(told) => told,
            _ => 0,
        };
        Err(self.clash_name(found.spot(), told, What::Refused(None)))
    }

    fn unexplained_at(&mut self, at: usize) -> Result<(), Stop> {
        if !self.is_shown(at) {
            self.propose_link_astray(at, None);
        }
        let sort = self.sort(at);
        Err(self.clash_of(at, What::Refused(Some(sort))))
    }
}
