//! Directories that are open, and what becomes of them when names change (POSIX, open, readdir and rename).
ghost use Rattle.std.specs.Prelude.{◌≡◌, ◌==◌, ◌+◌, ◌++◌, [], ◌∷◌, Some, map, drop, OnOk, IfOk, option_copied};
ghost use Rattle.sftp_handles.specs.Replies.{names_in};
ghost use Rattle.sftp_packets.specs.Spelling.{no_attributes};
ghost use Rattle.sftp_profile.specs.Profiles as spec;

use sftp_handles::Listing;
use sftp_path::{Name, Place};
use sftp_tree::NoMemory;
use sftp_wire::{Attrs, ByteString, NameItem};
use std::alloc::Global;

/// A directory that is open.
#[derive(Drop)]
pub struct Directory {
    /// The handle.
    pub(crate) handle: ByteString,
    /// Where it is; nowhere once it has been removed.
    pub(crate) place: Option<Place>,
    /// Whether OPENDIR gave the handle, and not OPEN.
    pub(crate) is_listed: bool,
    /// The names that were there all the time since OPENDIR, and were not given yet.
    pub(crate) must: Listing,
    /// The names that came since OPENDIR, or came again, and were not given since then. Their attributes say nothing.
    pub(crate) fresh: Listing,
}

/// What a request takes away, and what it brings, each with all that is below it.
#[derive(Drop)]
pub struct Shift {
    pub(crate) gone: Option<Place>,
    pub(crate) come: Option<Place>,
}

impl Directory {
    /// Whether it is open under this handle.
    pub(crate) fn is_under(&self, handle: &[u8]) -> bool
        ensures { result ≡ spec.is_under handle.now self.now }
    {
        handle == self.handle.as_slice()
    }

    /// Notes that a name was given, or is gone.
    pub(crate) fn strike(&mut self, name: &Name)
        ensures { self.new ≡ spec.struck_name self.old name.now }
    {
        self.must.strike(name);
        self.fresh.strike(name);
    }

    /// Notes that a name is gone, if there is one.
    fn lose(&mut self, name: Option<&Name>)
        ensures { self.new ≡ spec.lost self.old (option_copied name.entry) }
    {
        match name {
            Some(name) => self.strike(name),
            None => {}
        }
    }

    /// Notes that a name is new, if there is one.
    ///
    /// # Errors
    ///
    /// `NoMemory` if memory runs out.
    fn gain(&mut self, alloc: Global, name: Option<&Name>) -> Result<(), NoMemory>
        ensures { OnOk result (self.new ≡ spec.gained self.old (option_copied name.entry)) }
    {
        match name {
            Some(name) => self.add(name.try_clone(alloc)?),
            None => Ok(()),
        }
    }

    /// Notes that a name is new.
    ///
    /// # Errors
    ///
    /// `NoMemory` if memory runs out.
    fn add(&mut self, name: Name) -> Result<(), NoMemory>
        ensures { OnOk result (self.new ≡ spec.gained self.old (Some name)) }
    {
        self.must.strike(&name);
        self.fresh.add(name, no_attributes())?;
        Ok(())
    }

    /// Notes names that the listing under a handle gave. What cannot be a name was not given.
    ///
    /// # Errors
    ///
    /// `NoMemory` if memory runs out.
    pub(crate) fn give(
        &mut self,
        alloc: Global,
        handle: &[u8],
        items: &[NameItem],
    ) -> Result<(), NoMemory>
        ensures { OnOk result (self.new ≡ spec.given_by handle.now (names_in items.now) self.old) }
    {
        if !self.is_under(handle) {
            return Ok(());
        }
        self.strike_items(alloc, items)
    }

    /// Notes that the names of these items were given.
    ///
    /// # Errors
    ///
    /// `NoMemory` if memory runs out.
    fn strike_items(&mut self, alloc: Global, items: &[NameItem]) -> Result<(), NoMemory>
        ensures { OnOk result (self.new ≡ spec.struck_names self.old (names_in items.now)) }
    {
        for item in items {
            self.strike_item(alloc, item)?;
        }
        Ok(())
    }

    /// Notes that the name of an item was given, if it can be one.
    ///
    /// # Errors
    ///
    /// `NoMemory` if memory runs out.
    fn strike_item(&mut self, alloc: Global, item: &NameItem) -> Result<(), NoMemory>
        ensures { OnOk result (self.new ≡ spec.struck_bytes self.old item.now.filename) }
    {
        let Some(name) = Name::from_slice(alloc, item.filename.as_slice())? else {
            return Ok(());
        };
        self.strike(&name);
        drop(name);
        Ok(())
    }

    /// Where the directory of a listing is.
    fn listed_place(&self) -> Option<&Place>
        ensures { option_copied result ≡ spec.listed_place self.now }
    {
        if self.is_listed {
            self.place.as_ref()
        } else {
            None
        }
    }

    /// Notes which names are gone, and which are new.
    ///
    /// # Errors
    ///
    /// `NoMemory` if memory runs out.
    fn renew(&mut self, alloc: Global, shift: &Shift) -> Result<(), NoMemory>
        ensures { OnOk result (self.new ≡ spec.renewed shift.now self.old) }
    {
        let gone = name_between(self.listed_place(), shift.gone.as_ref());
        let come = name_between(self.listed_place(), shift.come.as_ref());
        self.lose(gone);
        self.gain(alloc, come)?;
        Ok(())
    }

    /// Notes which names are gone, and which are new, and where the directory is then.
    ///
    /// # Errors
    ///
    /// `NoMemory` if memory runs out.
    fn shift(&mut self, alloc: Global, shift: &Shift) -> Result<(), NoMemory>
        ensures { OnOk result (self.new ≡ spec.shifted shift.now self.old) }
    {
        self.renew(alloc, shift)?;
        let place = place_after(alloc, shift, self.place.as_ref())?;
        self.place = place;
        Ok(())
    }
}

/// Attributes that say nothing.
fn no_attributes() -> Attrs
    ensures { result ≡ no_attributes }
{
    Attrs {
        size: None,
        owner: None,
        permissions: None,
        times: None,
        extended: None,
    }
}

/// The name of a place in a directory, if it is right in it.
fn name_between<'a>(top: Option<&Place>, place: Option<&'a Place>) -> Option<&'a Name>
    ensures { option_copied result ≡ spec.name_between (option_copied top.entry) (option_copied place.entry) }
{
    match (top, place) {
        (Some(top), Some(place)) => name_below(top, place),
        (Some(_), None) => None,
        (None, _) => None,
    }
}

/// The last name of a place that is right below another.
fn name_below<'a>(top: &Place, place: &'a Place) -> Option<&'a Name>
    ensures { option_copied result ≡ spec.name_below top.now place.now }
{
    let names = place.names();
    if place.starts_with(top) && is_next(names.len(), top.depth()) {
        names.get(top.depth())
    } else {
        None
    }
}

/// Whether the first number is one more than the second.
fn is_next(next: usize, number: usize) -> bool
    ensures { result ≡ (next == number + 1) }
{
    next > number && next - number == 1
}

/// Where a directory is after what is gone, and what came.
///
/// # Errors
///
/// `NoMemory` if memory runs out.
fn place_after(
    alloc: Global,
    shift: &Shift,
    place: Option<&Place>,
) -> Result<Option<Place>, NoMemory>
    ensures { IfOk result (λ after. after ≡ spec.place_after shift.now (option_copied place.entry)) }
{
    let Some(place) = place else {
        return Ok(None);
    };
    match &shift.gone {
        Some(gone) if place.starts_with(gone) => carried(alloc, gone, shift.come.as_ref(), place),
        Some(_) => unless_replaced(alloc, shift.come.as_ref(), place),
        None => unless_replaced(alloc, shift.come.as_ref(), place),
    }
}

/// Where a place goes that is gone, or below one, with what is gone.
///
/// # Errors
///
/// `NoMemory` if memory runs out.
fn carried(
    alloc: Global,
    gone: &Place,
    come: Option<&Place>,
    place: &Place,
) -> Result<Option<Place>, NoMemory>
    ensures { IfOk result (λ after. after ≡ spec.carried gone.now (option_copied come.entry) place.now) }
{
    match come {
        Some(come) => Ok(Some(joined(alloc, come, place.names(), gone.depth())?)),
        None => Ok(None),
    }
}

/// The place, unless what came replaces it.
///
/// # Errors
///
/// `NoMemory` if memory runs out.
fn unless_replaced(
    alloc: Global,
    come: Option<&Place>,
    place: &Place,
) -> Result<Option<Place>, NoMemory>
    ensures { IfOk result (λ after. after ≡ spec.unless_replaced (option_copied come.entry) place.now) }
{
    match come {
        Some(come) if place.starts_with(come) => Ok(None),
        Some(_) => Ok(Some(place.try_clone(alloc)?)),
        None => Ok(Some(place.try_clone(alloc)?)),
    }
}

/// The place of these names but the first ones, below another one.
///
/// # Errors
///
/// `NoMemory` if memory runs out.
fn joined(alloc: Global, top: &Place, names: &[Name], first: usize) -> Result<Place, NoMemory>
    ensures { IfOk result (λ place. place ≡ top.now ++ drop first names.now) }
{
    let rest = names_from(names, first);
    let mut place = top.try_clone(alloc)?;
    for name in rest {
        enter(&mut place, alloc, name)?;
    }
    Ok(place)
}

/// Goes down by a copy of a name.
///
/// # Errors
///
/// `NoMemory` if memory runs out.
pub(crate) fn enter(place: &mut Place, alloc: Global, name: &Name) -> Result<(), NoMemory>
    ensures { OnOk result (place.new ≡ place.old ++ name.now ∷ []) }
{
    let name = name.try_clone(alloc)?;
    place.enter(name)?;
    Ok(())
}

/// The names but the first ones.
fn names_from(names: &[Name], first: usize) -> &[Name]
    ensures { result.now ≡ drop first names.now }
{
    if first <= names.len() {
        &names[first..]
    } else {
        &[]
    }
}

/// The first directory that is open under a handle.
pub(crate) fn directory_at<'a>(directories: &'a [Directory], handle: &[u8]) -> Option<&'a Directory>
    ensures { option_copied result ≡ spec.directory_at directories.now handle.now }
{
    for directory in directories {
        if directory.is_under(handle) {
            return Some(directory);
        }
    }
    None
}

/// Forgets what is open under a handle.
pub(crate) fn close(directories: &mut Vec<Directory>, handle: &[u8])
    ensures { directories.new.items ≡ spec.without_handle directories.old.items handle.now }
{
    directories.retain(|directory| !directory.is_under(handle));
}

/// Notes what a request took away, and what it brought.
///
/// # Errors
///
/// `NoMemory` if memory runs out.
pub(crate) fn shift_all(
    directories: &mut Vec<Directory>,
    alloc: Global,
    shift: &Shift,
) -> Result<(), NoMemory>
    ensures { OnOk result (directories.new.items ≡ map (spec.shifted shift.now) directories.old.items) }
{
    for directory in directories.iter_mut() {
        directory.shift(alloc, shift)?;
    }
    Ok(())
}
