//! The times of a tree's entries, and what requests that were done did to them.

use crate::ends::{End, end_of, split};
use crate::files::{FileAt, FileTimes};
use crate::places::{Child, PlaceNo, PlaceTimes, Spot};
use crate::times::Times;
use crate::ways::{Led, Ways};
use sftp_path::Name;
use sftp_tree::{FileNo, NoMemory, Tree};
use std::alloc::Global;

/// The times of the entries of a tree: of files by their numbers, of directories and links by their places. What was
/// given no times, and has none in the tree file of the start, has those of the start.
///
/// It takes some 60 bytes for each file that was given times, and some 230 for each directory and link that was, for
/// each directory above one or on a path that is kept, and for each link of the start, and 430 more if it is the only
/// such one in its directory; 40 for each name in a directory that was listed since its names changed. Some 16,000
/// paths of at most 512 bytes are kept with what they lead to.
#[derive(Drop)]
pub struct TimeTable {
    files: FileTimes,
    places: PlaceTimes,
    ways: Ways,
    start: Times,
    /// Whether something was given times, and how often times changed.
    is_touched: bool,
    changes: u64,
    /// Whether there may be links, and whether each of them has an entry.
    may_have_links: bool,
    knows_links: bool,
    /// Whether a file may have several names.
    may_have_two_names: bool,
}

impl TimeTable {
    /// The table in which nothing has times of its own. Does not allocate.
    pub fn new(alloc: Global) -> TimeTable {
        TimeTable {
            files: FileTimes::new(alloc),
            places: PlaceTimes::new(alloc),
            ways: Ways::new(alloc),
            start: Times::at(0),
            is_touched: false,
            changes: 0,
            may_have_links: true,
            knows_links: false,
            may_have_two_names: true,
        }
    }

    /// What has no times of its own has these.
    pub(crate) fn start_at(&mut self, start: Times) {
        self.start = start;
    }

    /// The times of a file if it has some of its own.
    pub(crate) fn own_of_file(&self, number: FileNo) -> Option<Times> {
        self.files.get(number)
    }

    /// The times of the directory of an absolute text if it has some of its own.
    pub(crate) fn own_of_directory(&self, path: &[u8]) -> Option<Times> {
        self.places.get_at(path)
    }

    /// The times of what was given none.
    pub(crate) fn start(&self) -> Times {
        self.start
    }

    /// Whether something was given times.
    pub(crate) fn is_touched(&self) -> bool {
        self.is_touched
    }

    /// Whether a file may have several names.
    pub(crate) fn may_have_two_names(&self) -> bool {
        self.may_have_two_names
    }

    /// The times of a file.
    pub(crate) fn of_file(&self, number: FileNo) -> Times {
        self.files.get(number).unwrap_or(self.start)
    }

    /// The times of a file that is open, of which they may be asked again.
    pub(crate) fn of_open(&mut self, number: FileNo) -> Times {
        self.files.get_again(number).unwrap_or(self.start)
    }

    /// The times of a directory or link.
    fn of_place(&self, place: PlaceNo) -> Times {
        self.places.get(place).unwrap_or(self.start)
    }

    /// The times of what a path leads to.
    fn of_led(&mut self, path: &[u8], led: &Led) -> Times {
        match led {
            Led::File(file) => self.of_file_at(path, file),
            Led::Place(place) => self.of_place(*place),
        }
    }

    /// The times of a file. If it has got some since it was looked up, it is kept where they are.
    fn of_file_at(&mut self, path: &[u8], file: &FileAt) -> Times {
        if let Some(times) = self.files.get_at(file) {
            return times;
        }
        let found = self.files.find(file.number());
        match self.files.get_at(&found) {
            Some(times) => {
                self.ways.keep_file(path, &found);
                times
            }
            None => self.start,
        }
    }

    /// The times of what stands at a name of a directory.
    pub(crate) fn of_child(&self, child: &Child) -> Times {
        match child {
            Child::File(file) => match self.files.get_at(file) {
                Some(times) => times,
                None => self.of_file(file.number()),
            },
            Child::Place(at) => self.places.get_there(*at).unwrap_or(self.start),
            Child::Other => self.start,
        }
    }

    /// The times of the file or directory that a path leads to; `None` if memory runs out.
    #[inline(always)]
    pub(crate) fn of_path(&mut self, tree: &Tree, path: &[u8]) -> Option<Times> {
        if !self.is_touched {
            return Some(self.start);
        }
        match self.of_kept(path) {
            Some(times) => Some(times),
            None => self.of_led_to(tree, path),
        }
    }

    /// The times of what a path leads to, if that is kept and they are where they were.
    fn of_kept(&self, path: &[u8]) -> Option<Times> {
        match self.ways.find(path)? {
            Led::File(file) => self.files.get_at(file),
            Led::Place(place) => self.places.get_or(*place, self.start),
        }
    }

    // Its values are not those of a path that is kept.
    #[inline(never)]
    fn of_led_to(&mut self, tree: &Tree, path: &[u8]) -> Option<Times> {
        match self.led_to(tree, path) {
            Ok(Some(led)) => Some(self.of_led(path, &led)),
            _ => None,
        }
    }

    /// The times of the link that a path leads to; `None` if memory runs out.
    pub(crate) fn of_link(&self, tree: &Tree, path: &[u8]) -> Option<Times> {
        if !self.is_touched {
            return Some(self.start);
        }
        match end_of(tree, path, false) {
            Ok(Some(end)) => Some(self.of_names(&end)),
            _ => None,
        }
    }

    fn of_names(&self, end: &End) -> Times {
        self.places
            .get_by(end.names.as_slice())
            .unwrap_or(self.start)
    }
}

// Where paths lead. A path that led there is kept, with entries for each directory to the one that it led to. A kept
// path leads elsewhere only behind a RENAME of one of these, and behind a change of a link. Then all are forgotten; the
// paths of files are forgotten whenever a name goes.
impl TimeTable {
    /// The file or directory that a path leads to, which is there.
    ///
    /// # Errors
    ///
    /// `NoMemory` if memory runs out.
    pub(crate) fn led_to(&mut self, tree: &Tree, path: &[u8]) -> Result<Option<Led>, NoMemory> {
        match self.kept(path) {
            Some(led) => Ok(Some(led)),
            None => self.walk_to(tree, path),
        }
    }

    /// What a path leads to, if that is kept.
    fn kept(&self, path: &[u8]) -> Option<Led> {
        let led = *self.ways.find(path)?;
        if self.is_there(&led) { Some(led) } else { None }
    }

    fn is_there(&self, led: &Led) -> bool {
        match led {
            Led::File(_) => true,
            Led::Place(place) => self.places.has(*place),
        }
    }

    fn walk_to(&mut self, tree: &Tree, path: &[u8]) -> Result<Option<Led>, NoMemory> {
        match end_of(tree, path, true)? {
            Some(end) => Ok(Some(self.keep(path, &end)?)),
            None => Ok(None),
        }
    }

    fn keep(&mut self, path: &[u8], end: &End) -> Result<Led, NoMemory> {
        match end.file {
            Some(number) => Ok(Led::File(self.keep_file(path, number))),
            None => Ok(Led::Place(self.keep_directory(path, end)?)),
        }
    }

    fn keep_file(&mut self, path: &[u8], number: FileNo) -> FileAt {
        let file = self.files.find(number);
        let kept = file;
        self.ways.keep_file(path, &kept);
        file
    }

    fn keep_directory(&mut self, path: &[u8], end: &End) -> Result<PlaceNo, NoMemory> {
        let place = self.places.reach(end.names.as_slice())?;
        self.ways.keep_directory(path, place);
        Ok(place)
    }

    /// The file that a path leads to, if it leads to one.
    ///
    /// # Errors
    ///
    /// `NoMemory` if memory runs out.
    pub(crate) fn file_of(&mut self, tree: &Tree, path: &[u8]) -> Result<Option<FileNo>, NoMemory> {
        match &self.kept(path) {
            Some(Led::File(file)) => Ok(Some(file.number())),
            _ => self.walk_to_file(tree, path),
        }
    }

    fn walk_to_file(&mut self, tree: &Tree, path: &[u8]) -> Result<Option<FileNo>, NoMemory> {
        let file = match end_of(tree, path, true)? {
            Some(end) => end.file,
            None => None,
        };
        if let Some(number) = file {
            self.keep_file(path, number);
        }
        Ok(file)
    }

    /// The directory that a path leads to, if it leads to one.
    ///
    /// # Errors
    ///
    /// `NoMemory` if memory runs out.
    fn directory(&mut self, tree: &Tree, path: &[u8]) -> Result<Option<PlaceNo>, NoMemory> {
        match &self.kept(path) {
            Some(Led::Place(place)) => Ok(Some(*place)),
            _ => self.walk_to_directory(tree, path),
        }
    }

    /// With `.` behind it, a path leads to a directory or nowhere.
    fn walk_to_directory(&mut self, tree: &Tree, path: &[u8]) -> Result<Option<PlaceNo>, NoMemory> {
        let mut text = Vec::from_slice(tree.allocator(), path)?;
        let behind: &[u8] = if path.is_empty() { b"." } else { b"/." };
        text.extend_from_slice(behind)?;
        match end_of(tree, text.as_slice(), true)? {
            Some(end) => Ok(Some(self.keep_directory(path, &end)?)),
            None => Ok(None),
        }
    }

    /// The name at which a path ends, in its directory. A last link is not followed.
    ///
    /// # Errors
    ///
    /// `NoMemory` if memory runs out.
    pub(crate) fn spot(&mut self, tree: &Tree, path: &[u8]) -> Result<Option<Spot>, NoMemory> {
        match split(path) {
            Some((above, name)) => match self.directory(tree, above)? {
                Some(directory) => Ok(Some(Spot::new(tree.allocator(), directory, name)?)),
                None => Ok(None),
            },
            None => self.walk_to_spot(tree, path),
        }
    }

    fn walk_to_spot(&mut self, tree: &Tree, path: &[u8]) -> Result<Option<Spot>, NoMemory> {
        match end_of(tree, path, false)? {
            Some(end) => self.spot_by(tree.allocator(), end.names.as_slice()),
            None => Ok(None),
        }
    }

    fn spot_by(&mut self, alloc: Global, names: &[Name]) -> Result<Option<Spot>, NoMemory> {
        match names.split_last() {
            Some((name, above)) => {
                let directory = self.places.reach(above)?;
                Ok(Some(Spot::new(alloc, directory, name.as_slice())?))
            }
            None => Ok(None),
        }
    }

    /// The directory of a file that was made by an OPEN, which may have followed a last link.
    fn directory_of_new(
        &mut self,
        tree: &Tree,
        path: &[u8],
        follow: bool,
    ) -> Result<Option<PlaceNo>, NoMemory> {
        match split(path) {
            Some((above, _)) if !follow || !self.may_have_links => self.directory(tree, above),
            _ => self.walk_to_directory_of(tree, path, follow),
        }
    }

    fn walk_to_directory_of(
        &mut self,
        tree: &Tree,
        path: &[u8],
        follow: bool,
    ) -> Result<Option<PlaceNo>, NoMemory> {
        match end_of(tree, path, follow)? {
            Some(end) => match end.names.as_slice().split_last() {
                Some((_, above)) => Ok(Some(self.places.reach(above)?)),
                None => Ok(None),
            },
            None => Ok(None),
        }
    }
}

// What finds no memory for its times keeps those that it had, or has those of the start.
impl TimeTable {
    /// Times change.
    fn touch(&mut self) {
        self.is_touched = true;
        self.changes = self.changes.wrapping_add(1);
    }

    /// Gives a file times.
    pub(crate) fn set_file(&mut self, tree: &Tree, number: FileNo, times: Times) {
        self.touch();
        let _ = self.files.set(tree, number, times);
    }

    /// A file is modified at this moment.
    pub(crate) fn modify_file(&mut self, tree: &Tree, number: FileNo, now: u32) {
        self.touch();
        let _ = self.files.modify(tree, number, self.start, now);
    }

    fn set_place(&mut self, place: PlaceNo, times: Times) {
        self.touch();
        self.places.set(place, times);
    }

    /// Gives what a path leads to times.
    pub(crate) fn set_path(&mut self, tree: &Tree, path: &[u8], times: Times) {
        match &self.led_to(tree, path) {
            Ok(Some(Led::File(file))) => self.set_file(tree, file.number(), times),
            Ok(Some(Led::Place(place))) => self.set_place(*place, times),
            _ => {}
        }
    }

    /// The names of a directory changed.
    pub(crate) fn modify_names(&mut self, directory: PlaceNo, now: u32) {
        self.touch();
        self.places.modify_names(directory, self.start, now);
    }

    /// A directory was made.
    pub(crate) fn make(&mut self, spot: Spot, times: Times, now: u32) {
        let directory = spot.directory;
        if let Ok(place) = self.places.make(spot) {
            self.set_place(place, times);
        }
        self.modify_names(directory, now);
    }

    /// A link was made.
    pub(crate) fn make_link(&mut self, spot: Spot, now: u32) {
        let directory = spot.directory;
        self.may_have_links = true;
        self.ways.forget_all();
        match self.places.make(spot) {
            Ok(place) => {
                self.set_place(place, Times::at(now));
                self.places.mark_link(place);
            }
            Err(_) => self.knows_links = false,
        }
        self.modify_names(directory, now);
    }

    /// A file was made by an OPEN of this path.
    pub(crate) fn make_file(&mut self, tree: &Tree, path: &[u8], follow: bool, now: u32) {
        match self.directory_of_new(tree, path, follow) {
            Ok(Some(directory)) => self.modify_names(directory, now),
            _ => self.places.forget_all_children(),
        }
    }

    /// A file got a further name.
    pub(crate) fn name(&mut self, spot: &Spot, now: u32) {
        self.may_have_two_names = true;
        self.modify_names(spot.directory, now);
    }

    /// What stood at a name was removed.
    pub(crate) fn remove(&mut self, spot: &Spot, now: u32) {
        let is_over = self.places.forget(spot);
        self.forget_ways(is_over);
        self.modify_names(spot.directory, now);
    }

    /// What stood at a name is at another one now, and what stood there is gone.
    pub(crate) fn rename(&mut self, old: &Spot, new: Spot, now: u32) {
        let directory = new.directory;
        let is_over = self.places.rename(old, new);
        self.forget_ways(is_over);
        self.modify_names(old.directory, now);
        self.modify_names(directory, now);
    }

    /// A name is gone: paths to files may lead elsewhere, and all paths if some may lead over it.
    fn forget_ways(&mut self, is_over: bool) {
        if is_over || !self.knows_links {
            self.ways.forget_all();
        } else {
            self.ways.forget_files();
        }
    }
}

// Directories by their numbers, as listings look them up.
impl TimeTable {
    /// What stands at the names of a directory, if that is known.
    pub(crate) fn children(&self, directory: PlaceNo) -> &[Child] {
        self.places.children(directory)
    }

    /// This stands at the names of a directory.
    pub(crate) fn keep_children(&mut self, directory: PlaceNo, children: Vec<Child>) {
        self.places.keep_children(directory, children);
    }

    /// The times of what stands at the names of a directory, if these are kept as they are.
    pub(crate) fn shown(&self, directory: PlaceNo) -> &[Times] {
        self.places.shown(directory, self.changes)
    }

    /// What stands at the names of a directory has these times now.
    pub(crate) fn keep_shown(&mut self, directory: PlaceNo, times: Vec<Times>) {
        let changes = self.changes;
        self.places.keep_shown(directory, changes, times);
    }

    /// What stands at a name of a directory, which may be a name of this file.
    pub(crate) fn child(&self, directory: PlaceNo, name: &[u8], file: Option<FileNo>) -> Child {
        match file {
            Some(number) => Child::File(self.files.find(number)),
            None => self.places.child(directory, name),
        }
    }
}

// What a tree file says.
impl TimeTable {
    /// Gives the directory of an absolute text times.
    ///
    /// # Errors
    ///
    /// `NoMemory` if memory runs out.
    pub(crate) fn take_directory(&mut self, path: &[u8], times: Times) -> Result<(), NoMemory> {
        let place = self.places.make_at(path)?;
        self.set_place(place, times);
        Ok(())
    }

    /// Gives a file times.
    ///
    /// # Errors
    ///
    /// `NoMemory` if memory runs out.
    pub(crate) fn take_file(&mut self, number: FileNo, times: Times) -> Result<(), NoMemory> {
        self.touch();
        self.files.put(number, times)
    }

    /// At an absolute text stands a link.
    ///
    /// # Errors
    ///
    /// `NoMemory` if memory runs out.
    pub(crate) fn take_link(&mut self, path: &[u8]) -> Result<(), NoMemory> {
        let place = self.places.make_at(path)?;
        self.places.mark_link(place);
        self.may_have_links = true;
        Ok(())
    }

    /// A file has a further name.
    pub(crate) fn take_name(&mut self) {
        self.may_have_two_names = true;
    }

    /// From now on, each link and each further name of the tree is said.
    pub(crate) fn take_all(&mut self) {
        self.may_have_links = false;
        self.knows_links = true;
        self.may_have_two_names = false;
    }
}
