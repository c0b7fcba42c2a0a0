//! Requests that make, remove and move names.

use crate::errors::{Stop, What, done};
use crate::look::{Found, Look};
use crate::names::Spot;
use crate::nodes::{Held, Sort};
use crate::world::World;
use sftp_wire::Attrs;

/// How often a walk is begun anew, since what it met was told on the way.
const WALKS: u32 = 8_192;

impl World {
    /// Where a path leads whose request was done: each name on the way is a directory.
    pub(crate) fn reach<'p>(&mut self, path: &'p [u8], follows: bool) -> Result<Found<'p>, Stop> {
        for _ in 0..WALKS {
            let found = self.look(path, follows)?;
            self.count_steps(found.steps);
            match found.look {
                Look::UnknownWay | Look::Unsure(_) | Look::Blind(_) | Look::NoEntry(_) => {
                    self.open_way(found)?;
                }
                Look::NotDir(at) => {
                    drop(found);
                    self.tell_sort(at, Sort::Directory, None)?;
                    return Err(Stop::Clash);
                }
                _ => return Ok(found),
            }
        }
        let found = self.look(path, follows)?;
        Ok(found)
    }

    /// Tells that what stopped a walk does not stop it.
    fn open_way(&mut self, found: Found<'_>) -> Result<(), Stop> {
        let opened = self.open_way_at(&found);
        drop(found);
        opened
    }

    fn open_way_at(&mut self, found: &Found<'_>) -> Result<(), Stop> {
        let spot = found.spot();
        match found.look {
            Look::UnknownWay => done(self.tell(spot, Sort::Directory)),
            Look::Unsure(at) => {
                self.set_sort(at, Sort::Directory);
                Ok(())
            }
            Look::Blind(at) => self.invent_target(at),
            Look::NoEntry(told) => done(self.require(spot, told)),
            _ => Ok(()),
        }
    }

    /// Something is at a name of which this record told that nothing is.
    fn require(&mut self, spot: Spot<'_>, told: u64) -> Result<usize, Stop> {
        if let Some(at) = self.retract(spot)? {
            return Ok(at);
        }
        Err(self.clash_name(spot, told, What::There))
    }

    /// The entry to which a path leads whose request was done and needs one. If nothing is known of it, it is of this
    /// kind.
    pub(crate) fn reach_entry(
        &mut self,
        path: &[u8],
        follows: bool,
        sort: Sort,
    ) -> Result<usize, Stop> {
        let found = self.reach(path, follows)?;
        let at = self.entry_of(&found, sort);
        drop(found);
        at
    }

    /// The same of a path that was looked at.
    pub(crate) fn entry_of(&mut self, found: &Found<'_>, sort: Sort) -> Result<usize, Stop> {
        let spot = found.spot();
        match found.look {
            Look::Entry(at) => {
                self.cross(self.told(at));
                self.set_sort(at, sort);
                Ok(at)
            }
            Look::Unknown => self.tell(spot, sort),
            Look::Nothing(told) => {
                let at = self.require(spot, told)?;
                self.set_sort(at, sort);
                Ok(at)
            }
            _ => Err(self.clash_name(spot, 0, What::Place)),
        }
    }

    /// The directory and the name to which a path leads at which a request made something: nothing was there.
    pub(crate) fn reach_free<'p>(&mut self, path: &'p [u8]) -> Result<Found<'p>, Stop> {
        let found = self.reach(path, false)?;
        match self.require_free(&found) {
            Ok(()) => Ok(found),
            Err(stop) => {
                drop(found);
                Err(stop)
            }
        }
    }

    fn require_free(&mut self, found: &Found<'_>) -> Result<(), Stop> {
        let spot = found.spot();
        match found.look {
            Look::Unknown => self.tell_nothing(spot, false),
            Look::Nothing(told) => {
                self.cross(told);
                Ok(())
            }
            Look::Entry(at) => Err(self.clash_of(at, What::Gone)),
            _ => Err(self.clash_name(spot, 0, What::Place)),
        }
    }

    /// A directory was made.
    pub(crate) fn mkdir(&mut self, path: &[u8], attrs: &Attrs) -> Result<(), Stop> {
        let found = self.reach_free(path)?;
        let rights = self.made_rights(attrs, 0o755, 0o777);
        let done = self.make(Sort::Directory, found.spot());
        drop(found);
        let at = done?;
        self.entry_mut(at).rights = rights;
        Ok(())
    }

    /// A link was made.
    pub(crate) fn symlink(&mut self, target: &[u8], path: &[u8]) -> Result<(), Stop> {
        let found = self.reach_free(path)?;
        let done = self.make(Sort::Link, found.spot());
        drop(found);
        let at = done?;
        let text = Vec::from_slice(self.alloc, target)?;
        self.lead(at, text);
        Ok(())
    }

    /// A name was removed.
    pub(crate) fn remove(&mut self, path: &[u8]) -> Result<(), Stop> {
        let found = self.reach(path, false)?;
        let done = self.remove_at(&found);
        drop(found);
        done
    }

    fn remove_at(&mut self, found: &Found<'_>) -> Result<(), Stop> {
        let at = self.entry_of(found, Sort::File)?;
        if self.sort(at) == Sort::Directory {
            self.tell_sort(at, Sort::File, None)?;
        }
        self.change(found.spot(), Held::Nothing)
    }

    /// An empty directory was removed.
    pub(crate) fn rmdir(&mut self, path: &[u8]) -> Result<(), Stop> {
        let found = self.reach(path, false)?;
        let done = self.rmdir_at(&found);
        drop(found);
        done
    }

    fn rmdir_at(&mut self, found: &Found<'_>) -> Result<(), Stop> {
        let at = self.entry_of(found, Sort::Directory)?;
        self.tell_sort(at, Sort::Directory, None)?;
        if let Some(told) = self.entry_told(at) {
            return Err(self.clash_at(at, told, What::Entries));
        }
        self.complete(at);
        self.change(found.spot(), Held::Nothing)
    }

    /// Tells that a directory has no names but those that are known.
    pub(crate) fn complete(&mut self, at: usize) {
        let told = self.teller;
        let directory = self.entry_mut(at);
        if directory.complete.is_none() {
            directory.complete = Some(told);
        }
    }

    /// Something was moved to a name at which nothing was.
    pub(crate) fn rename(&mut self, old: &[u8], new: &[u8]) -> Result<(), Stop> {
        let from = self.reach(old, false)?;
        let done = self.rename_from(&from, new);
        drop(from);
        done
    }

    fn rename_from(&mut self, from: &Found<'_>, new: &[u8]) -> Result<(), Stop> {
        let at = self.entry_of(from, Sort::Unknown)?;
        let to = self.reach_free(new)?;
        let done = self.move_out(from, at, &to);
        drop(to);
        done
    }

    /// Something was moved to a name at which something may have been.
    pub(crate) fn replace(&mut self, old: &[u8], new: &[u8]) -> Result<(), Stop> {
        let from = self.reach(old, false)?;
        let done = self.replace_from(&from, new);
        drop(from);
        done
    }

    fn replace_from(&mut self, from: &Found<'_>, new: &[u8]) -> Result<(), Stop> {
        let at = self.entry_of(from, Sort::Unknown)?;
        let to = self.reach(new, false)?;
        let done = match to.look {
            Look::Entry(other) if other == at => Ok(()),
            Look::Entry(other) => self.replace_entry(from, at, &to, other),
            _ => self.move_out(from, at, &to),
        };
        drop(to);
        done
    }

    /// Moves an entry to the name of another one, which is a directory if that is one, and has no entries then.
    fn replace_entry(
        &mut self,
        from: &Found<'_>,
        at: usize,
        to: &Found<'_>,
        other: usize,
    ) -> Result<(), Stop> {
        if self.settings.is_strict {
            self.fit_replaced(at, other)?;
        }
        self.move_out(from, at, to)
    }

    fn fit_replaced(&mut self, at: usize, other: usize) -> Result<(), Stop> {
        if self.sort(at) != Sort::Directory && self.sort(other) != Sort::Directory {
            return Ok(());
        }
        self.set_sort(at, Sort::Directory);
        self.set_sort(other, Sort::Directory);
        if self.sort(at) != self.sort(other) {
            return Err(self.clash_of(other, What::Kind(self.sort(other), self.sort(at))));
        }
        if let Some(told) = self.entry_told(other) {
            return Err(self.clash_at(other, told, What::Entries));
        }
        self.complete(other);
        Ok(())
    }

    /// Moves an entry, which is no directory on the way to its new name.
    fn move_out(&mut self, from: &Found<'_>, at: usize, to: &Found<'_>) -> Result<(), Stop> {
        if self.settings.is_strict && self.is_above(at, to.parent) {
            return Err(self.clash_of(at, What::Kind(Sort::Directory, Sort::Link)));
        }
        self.move_to(from, at, to)
    }

    /// Moves an entry from one name to another.
    fn move_to(&mut self, from: &Found<'_>, at: usize, to: &Found<'_>) -> Result<(), Stop> {
        self.change(from.spot(), Held::Nothing)?;
        self.seat_entry(at, to.spot())
    }

    /// A file got a further name.
    pub(crate) fn hardlink(&mut self, old: &[u8], new: &[u8]) -> Result<(), Stop> {
        let at = self.reach_entry(old, false, Sort::File)?;
        if self.settings.is_strict {
            self.tell_sort(at, Sort::File, None)?;
        }
        let to = self.reach_free(new)?;
        let done = self.change(to.spot(), Held::Entry(at));
        drop(to);
        self.further = self.further.saturating_add(1);
        done
    }
}
