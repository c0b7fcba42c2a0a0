//! What it tells that something was opened.

use crate::errors::Stop;
use crate::handles::Opened;
use crate::look::{Found, Look};
use crate::nodes::Sort;
use crate::snapshots::Listings;
use crate::world::World;
use bitflags::Flags;
use sftp_wire::{Ask, Attrs, ByteString, OpenFlags};

impl World {
    /// A reply gave a handle.
    pub(crate) fn take_handle(
        &mut self,
        session: &[u8],
        listings: &Listings,
        ask: &Ask,
        handle: &ByteString,
    ) -> Result<(), Stop> {
        let (entry, flags, is_listing) = match ask {
            Ask::Open {
                path,
                pflags,
                attrs,
            } => (self.open(path.as_slice(), *pflags, attrs), *pflags, false),
            Ask::Opendir { path } => (self.open_directory(path.as_slice()), 0, true),
            _ => return Ok(()),
        };
        let opened = Opened {
            entry: entry?,
            told: self.replied,
            asked: self.asked,
            is_listing,
            flags,
        };
        let alloc = self.alloc;
        self.handles.insert(alloc, handle.as_slice(), opened)?;
        self.most_handles = self.most_handles.max(self.handles.len() as u64);
        if is_listing && self.settings.is_strict {
            return self.list_whole(session, listings, opened);
        }
        Ok(())
    }

    /// OPENDIR was done.
    fn open_directory(&mut self, path: &[u8]) -> Result<usize, Stop> {
        let at = self.reach_entry(path, true, Sort::Directory)?;
        self.tell_sort(at, Sort::Directory, None)?;
        Ok(at)
    }

    /// OPEN was done.
    fn open(&mut self, path: &[u8], flags: u32, attrs: &Attrs) -> Result<usize, Stop> {
        let set = OpenFlags::from_bits_retain(flags);
        let makes = set.contains(OpenFlags::CREAT);
        if makes && set.contains(OpenFlags::EXCL) {
            return self.open_new(path, attrs);
        }
        let at = self.open_path(path, makes, attrs)?;
        if set.contains(OpenFlags::TRUNC) {
            self.cut(at, 0)?;
        }
        Ok(at)
    }

    /// OPEN made a file.
    fn open_new(&mut self, path: &[u8], attrs: &Attrs) -> Result<usize, Stop> {
        let found = self.reach_free(path)?;
        let at = self.make_file(&found, attrs, false);
        drop(found);
        at
    }

    /// OPEN opened what was there, or may have made it.
    fn open_path(&mut self, path: &[u8], makes: bool, attrs: &Attrs) -> Result<usize, Stop> {
        let found = self.reach(path, true)?;
        let at = self.open_found(&found, makes, attrs);
        drop(found);
        at
    }

    fn open_found(&mut self, found: &Found<'_>, makes: bool, attrs: &Attrs) -> Result<usize, Stop> {
        let spot = found.spot();
        match found.look {
            Look::Nothing(_) if makes => {
                let is_assumed = self.slot(spot).is_assumed;
                self.make_file(found, attrs, is_assumed)
            }
            Look::Unknown if makes => {
                self.tell_nothing(spot, true)?;
                self.make_file(found, attrs, true)
            }
            _ => self.open_entry(found),
        }
    }

    /// Opens what was there.
    fn open_entry(&mut self, found: &Found<'_>) -> Result<usize, Stop> {
        let at = self.entry_of(found, Sort::File)?;
        if self.sort(at) == Sort::Directory && self.settings.is_strict {
            self.tell_sort(at, Sort::File, None)?;
        }
        Ok(at)
    }

    /// Makes a file; `is_chosen` says whether it may as well have been there.
    fn make_file(
        &mut self,
        found: &Found<'_>,
        attrs: &Attrs,
        is_chosen: bool,
    ) -> Result<usize, Stop> {
        let rights = self.made_rights(attrs, 0o644, 0o666);
        let at = self.make(Sort::File, found.spot())?;
        let made = self.entry_mut(at);
        made.rights = rights;
        made.is_chosen = is_chosen;
        Ok(at)
    }
}
