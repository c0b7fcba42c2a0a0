//! The tree file of what is known of the start.
ghost use Rattle.std.specs.Prelude.{◌≡◌, ◌≤◌, ◌<◌, ◌^◌};
ghost use Rattle.sftp_treefile.specs.TreeFile.{most_limits as most};
ghost use Rattle.sftp_treefile.specs.declared.limits.Opening.TheVariants.{Raised};

use crate::candidates::Excess;
use crate::files::File;
use crate::look::Look;
use crate::nodes::{Held, Node, Sort};
use crate::texts::TreeText;
use crate::world::World;
use sftp_path::NoMemory;
use sftp_treefile::{
    Head, NO_TIMES, Opening, Owner, TreeLimits, highest_limits, most_limits, put_directory,
    put_file, put_further_name, put_head, put_link, usual_limits,
};
use sftp_wire::ByteString;
use std::collections::BTreeMap;

/// How many bytes the paths and targets of each place may have, and those of all places besides.
const PATH_BYTES: u64 = 384;

const FREE_BYTES: u64 = 1 << 20;

/// The bytes of the field that says how long a file is, and of the one before it, which says who owns it.
const LENGTH_BYTES: usize = 4;

const OWNER_BYTES: usize = 12;

/// The longest text of a field.
const LONGEST: usize = 4_294_967_295;

/// A place of the start: the entry, its name, and how long the path of its directory is.
#[derive(Clone, Copy)]
struct Listed<'w> {
    at: usize,
    name: &'w [u8],
    above: usize,
}

impl Listed<'_> {
    /// How long its path is.
    fn length(&self) -> usize {
        self.above.saturating_add(self.name.len()).saturating_add(1)
    }
}

/// The number between two bounds that is closest to this one.
fn within(number: u64, least: u32, most: u32) -> u32 {
    match u32::try_from(number) {
        Ok(number) => number.max(least).min(most),
        Err(_) => most,
    }
}

/// The long number between two bounds that is closest to this one.
fn within_long(number: u64, least: u64, most: u64) -> u64
    ensures { result ≤ most }
{
    number.max(least).min(most)
}

/// The opening of a tree with these limits, which has no times.
fn opening_of(limits: TreeLimits) -> Opening
    ensures { result ≡ Raised → limits.file_bytes < 2 ^ 32 }
{
    if limits.file_bytes > highest_limits().file_bytes {
        return Opening::Wide;
    }
    limits.opening(false)
}

/// What a pass makes of the start.
#[derive(Drop)]
pub(crate) enum Drawn<'a> {
    /// The bytes of its tree file, and how many entries it has.
    Text(TreeText<'a>, u64),
    /// It would be larger than it may.
    TooLarge(Excess),
}

impl World {
    /// The tree file of what is known of the start, with the bytes of this session.
    pub(crate) fn draw<'a>(&self, session: &'a [u8]) -> Result<Drawn<'a>, NoMemory> {
        let Some(rows) = self.rows()? else {
            return Ok(Drawn::TooLarge(Excess::Entries));
        };
        let drawn = self.draw_rows(session, rows.as_slice());
        drop(rows);
        drawn
    }

    fn draw_rows<'a>(&self, session: &'a [u8], rows: &[Listed<'_>]) -> Result<Drawn<'a>, NoMemory> {
        let largest = self.largest();
        if largest > most_limits().file_bytes {
            return Ok(Drawn::TooLarge(Excess::File(largest)));
        }
        let bytes = self.all_bytes();
        if bytes > self.settings.most {
            return Ok(Drawn::TooLarge(Excess::Files(bytes)));
        }
        let paths = self.paths_of(rows);
        if paths > self.most_of_paths(rows.len()) {
            return Ok(Drawn::TooLarge(Excess::Paths(paths)));
        }
        let text = self.text_of_rows(session, rows)?;
        Ok(Drawn::Text(text, rows.len() as u64))
    }

    /// How many bytes the paths and the targets of these places have.
    fn paths_of(&self, rows: &[Listed<'_>]) -> u64 {
        let mut sum = self.home.len();
        for listed in rows {
            sum = sum
                .saturating_add(listed.length())
                .saturating_add(self.target_length(listed.at));
        }
        sum as u64
    }

    /// How many bytes paths and targets may have: as many as half of the session, and some for each place.
    fn most_of_paths(&self, places: usize) -> u64 {
        let free = (places as u64)
            .saturating_mul(PATH_BYTES)
            .saturating_add(FREE_BYTES);
        free.saturating_add(self.session_bytes / 2)
    }

    /// How long the target of an entry is, if it has one that is known.
    fn target_length(&self, at: usize) -> usize {
        match self.target(at) {
            Some(target) => target.len(),
            None => 0,
        }
    }

    /// How many bytes the largest file has at the start.
    fn largest(&self) -> u64 {
        let mut most: u64 = 0;
        for entry in self.nodes.iter() {
            if entry.is_old && entry.sort == Sort::File {
                most = most.max(entry.file.least);
            }
        }
        most
    }

    /// The most bytes that all files have in an audit of the session, each at the start or later.
    fn all_bytes(&self) -> u64 {
        let mut sum: u64 = 0;
        for entry in self.nodes.iter() {
            if entry.sort == Sort::File {
                sum = sum.saturating_add(entry.file.least.max(entry.file.peak));
            }
        }
        sum
    }

    /// The places of the start in the order of a tree file; `None` if there are more than a tree may have.
    fn rows(&self) -> Result<Option<Vec<Listed<'_>>>, NoMemory> {
        let mut rows = Vec::new(self.alloc);
        let mut waiting = Vec::new(self.alloc);
        let done = self.list_all(&mut waiting, &mut rows);
        drop(waiting);
        match done {
            Ok(true) => Ok(Some(rows)),
            Ok(false) => {
                drop(rows);
                Ok(None)
            }
            Err(error) => {
                drop(rows);
                Err(error)
            }
        }
    }

    /// Appends the places, and says whether these are all.
    fn list_all<'w>(
        &'w self,
        waiting: &mut Vec<Listed<'w>>,
        rows: &mut Vec<Listed<'w>>,
    ) -> Result<bool, NoMemory> {
        self.push_names(0, 0, waiting)?;
        for _ in 0..=most_limits().entries {
            match waiting.pop() {
                Some(listed) => {
                    if self.sort(listed.at) == Sort::Directory {
                        self.push_names(listed.at, listed.length(), waiting)?;
                    }
                    rows.push(listed)?;
                }
                None => return Ok(true),
            }
        }
        Ok(false)
    }

    /// Pushes what a directory had at the start, the last name first.
    fn push_names<'w>(
        &'w self,
        at: usize,
        above: usize,
        waiting: &mut Vec<Listed<'w>>,
    ) -> Result<(), NoMemory> {
        let directory = self.entry(at);
        if is_in_order(directory) {
            return push_in_order(directory, above, waiting);
        }
        let names = self.sorted(directory)?;
        let pushed = push_sorted(&names, above, waiting);
        drop(names);
        pushed
    }

    /// What a directory had at the start, by names.
    fn sorted<'w>(&self, directory: &'w Node) -> Result<BTreeMap<&'w [u8], usize>, NoMemory> {
        let mut names = BTreeMap::new(self.alloc);
        for named in directory.names.each() {
            if let Some(Held::Entry(child)) = named.slot.start {
                names.insert(named.name.as_slice(), child)?;
            }
        }
        Ok(names)
    }

    fn text_of_rows<'a>(
        &self,
        session: &'a [u8],
        rows: &[Listed<'_>],
    ) -> Result<TreeText<'a>, NoMemory> {
        let mut text = TreeText::new(self.alloc, session)?;
        match self.put_rows(rows, &mut text) {
            Ok(()) => Ok(text),
            Err(error) => {
                drop(text);
                Err(error)
            }
        }
    }

    fn put_rows(&self, rows: &[Listed<'_>], text: &mut TreeText<'_>) -> Result<(), NoMemory> {
        let mut pen = Pen {
            path: Vec::new(self.alloc),
            head: Vec::new(self.alloc),
            firsts: vec![in self.alloc; 0; self.nodes.len()]?,
        };
        let done = self.put_all(rows, &mut pen, text);
        drop(pen);
        done
    }

    fn put_all(
        &self,
        rows: &[Listed<'_>],
        pen: &mut Pen,
        text: &mut TreeText<'_>,
    ) -> Result<(), NoMemory> {
        self.put_start(rows.len(), &mut pen.head)?;
        text.push(pen.head.as_slice())?;
        let mut number: u32 = 0;
        for listed in rows {
            number = number.saturating_add(1);
            pen.begin(listed)?;
            let path = pen.path.as_slice();
            self.put_row(path, listed.at, number, &mut pen.firsts, &mut pen.head)?;
            text.push(pen.head.as_slice())?;
            self.put_bytes(listed.at, number, pen, text)?;
        }
        Ok(())
    }

    /// The head of the tree file.
    fn put_start(&self, count: usize, out: &mut Vec<u8>) -> Result<(), NoMemory> {
        let told = self.home_owner()?;
        let (uid, gid) = self.owner.or(told).unwrap_or((0, 0));
        let root = self.owner_of(0, 0o755);
        let home = ByteString::from_slice(self.alloc, self.home.as_slice())?;
        let limits = self.limits(count);
        let head = Head {
            opening: opening_of(limits),
            limits,
            home,
            uid,
            gid,
            root,
            count: within(count as u64, 0, most_limits().entries),
            root_times: NO_TIMES,
        };
        if head.home.as_slice().len() > LONGEST {
            drop(head);
            return Err(NoMemory);
        }
        let done = put_head(out, &head);
        drop(head);
        done
    }

    /// The owner that a reply showed of the directory where relative paths begin: who made that makes more.
    fn home_owner(&self) -> Result<Option<(u32, u32)>, NoMemory> {
        let found = self.look(self.home.as_slice(), true)?;
        let owner = match found.look {
            Look::Entry(at) => self.rights(at).start_owner,
            _ => None,
        };
        drop(found);
        Ok(owner)
    }

    /// The lowest limits that the session needs, or those that `raise` sets where they are enough.
    fn limits(&self, count: usize) -> TreeLimits
        ensures { result.file_bytes ≤ most.file_bytes }
    {
        let high = most_limits();
        let low = if self.settings.is_raised {
            highest_limits()
        } else {
            usual_limits()
        };
        let bytes = self.most_bytes.max(self.largest());
        let entries = self.most_entries().max(count as u64);
        TreeLimits {
            entries: within(entries, low.entries, high.entries),
            file_bytes: within_long(bytes, low.file_bytes, high.file_bytes),
            read_bytes: within(self.most_read, low.read_bytes, high.read_bytes),
            open_handles: within(self.most_handles, low.open_handles, high.open_handles),
            total_bytes: low.total_bytes,
        }
    }

    /// The most entries below the root that the session may have at one time.
    fn most_entries(&self) -> u64 {
        let below = self.nodes.len().saturating_sub(1);
        (below as u64).saturating_add(self.further)
    }

    /// Whether the tree needs limits beyond the usual ones.
    pub(crate) fn is_large(&self) -> bool {
        !self.settings.is_raised && self.limits(0).are_own()
    }

    /// The owner and the permissions of an entry at the start, with these permissions if nothing told them.
    fn owner_of(&self, at: usize, permissions: u32) -> Owner {
        let rights = self.rights(at);
        let (uid, gid) = rights.start_owner.or(self.owner).unwrap_or((0, 0));
        Owner {
            uid,
            gid,
            permissions: rights.start_permissions.unwrap_or(permissions) & 0o7777,
        }
    }

    /// Has the entry of a place written, but for the bytes of a file.
    fn put_row(
        &self,
        path: &[u8],
        at: usize,
        number: u32,
        firsts: &mut Vec<u32>,
        out: &mut Vec<u8>,
    ) -> Result<(), NoMemory> {
        if path.len() > LONGEST {
            return Err(NoMemory);
        }
        match self.sort(at) {
            Sort::Directory => put_directory(out, path, &self.owner_of(at, 0o755)),
            Sort::Link => self.put_link_row(path, at, out),
            _ => match take_first(firsts, at, number) {
                Some(first) => put_further_name(out, path, first),
                None => self.put_file_row(path, at, out),
            },
        }
    }

    fn put_link_row(&self, path: &[u8], at: usize, out: &mut Vec<u8>) -> Result<(), NoMemory> {
        match self.target(at) {
            Some(target) => put_target(path, target, out),
            None => match self.invented(at, self.entry(at).length) {
                Ok(target) => {
                    let put = put_target(path, target.as_slice(), out);
                    drop(target);
                    put
                }
                Err(_) => Err(NoMemory),
            },
        }
    }

    /// Appends the entry of a file: that of an empty one, and then its length in the place of the last field.
    fn put_file_row(&self, path: &[u8], at: usize, out: &mut Vec<u8>) -> Result<(), NoMemory> {
        if path.len() > LONGEST {
            return Err(NoMemory);
        }
        put_file(out, path, &self.owner_of(at, 0o644), &[])?;
        put_length(out, self.entry(at).file.least)
    }

    /// Appends the bytes of a file behind its first name: those that were shown, and zeros.
    fn put_bytes(
        &self,
        at: usize,
        number: u32,
        pen: &Pen,
        text: &mut TreeText<'_>,
    ) -> Result<(), NoMemory> {
        match pen.firsts.get(at) {
            Some(first) if *first == number => put_shown(&self.entry(at).file, text),
            _ => Ok(()),
        }
    }
}

/// Has the entry of an empty file, which is the last one, say that the file has so many bytes. From 2^32 bytes on it
/// has another letter, and a longer number.
fn put_length(out: &mut Vec<u8>, length: u64) -> Result<(), NoMemory> {
    out.truncate(out.len().saturating_sub(LENGTH_BYTES));
    if let Ok(short) = u32::try_from(length) {
        out.extend_from_slice(&short.to_be_bytes())?;
        return Ok(());
    }
    let place = out.len().saturating_sub(OWNER_BYTES).saturating_sub(1);
    if let Some(letter) = out.get_mut(place) {
        *letter = b'G';
    }
    out.extend_from_slice(&length.to_be_bytes())?;
    Ok(())
}

/// Whether the names that a directory had at the start are in order in its list.
fn is_in_order(directory: &Node) -> bool {
    let mut last: &[u8] = &[];
    for named in directory.names.each() {
        if let Some(Held::Entry(_)) = named.slot.start {
            if named.name.as_slice() <= last {
                return false;
            }
            last = named.name.as_slice();
        }
    }
    true
}

/// Pushes what a directory had at the start, the last one in its list first.
fn push_in_order<'w>(
    directory: &'w Node,
    above: usize,
    waiting: &mut Vec<Listed<'w>>,
) -> Result<(), NoMemory> {
    for named in directory.names.each().iter().rev() {
        if let Some(Held::Entry(at)) = named.slot.start {
            let name = named.name.as_slice();
            waiting.push(Listed { at, name, above })?;
        }
    }
    Ok(())
}

/// Pushes entries, the last name first.
fn push_sorted<'w>(
    names: &BTreeMap<&'w [u8], usize>,
    above: usize,
    waiting: &mut Vec<Listed<'w>>,
) -> Result<(), NoMemory> {
    for (name, child) in names.iter().rev() {
        let (name, at) = (*name, *child);
        waiting.push(Listed { at, name, above })?;
    }
    Ok(())
}

/// What entries are written with.
#[derive(Drop)]
struct Pen {
    /// The path of the entry at hand.
    path: Vec<u8>,
    /// Its bytes, but for those of a file.
    head: Vec<u8>,
    /// The numbers of the entries that have the first name of each file.
    firsts: Vec<u32>,
}

impl Pen {
    /// Begins the entry of a place, of which the path of the one before has what is above it.
    fn begin(&mut self, listed: &Listed<'_>) -> Result<(), NoMemory> {
        self.head.clear();
        self.path.truncate(listed.above);
        self.path.push(b'/')?;
        self.path.extend_from_slice(listed.name)?;
        Ok(())
    }
}

/// Appends the bytes of a file at the start.
fn put_shown(file: &File, text: &mut TreeText<'_>) -> Result<(), NoMemory> {
    let mut done: u64 = 0;
    for (offset, kept) in file.shown.iter() {
        let piece = kept.piece();
        let begin = (*offset).min(file.least);
        text.push_zeros(begin.saturating_sub(done))?;
        let len = piece.len.min(file.least.saturating_sub(begin));
        text.push_given(piece.from, len as usize)?;
        done = begin.saturating_add(len);
    }
    text.push_zeros(file.least.saturating_sub(done))
}

/// The number of the entry that has the first name of a file, unless it is the one at hand.
fn take_first(firsts: &mut Vec<u32>, at: usize, number: u32) -> Option<u32> {
    match firsts.get_mut(at) {
        Some(first) if *first == 0 => {
            *first = number;
            None
        }
        Some(first) => Some(*first),
        None => None,
    }
}

/// Appends the entry of a link, unless it is longer than the format allows.
fn put_target(path: &[u8], target: &[u8], out: &mut Vec<u8>) -> Result<(), NoMemory> {
    if path.len() > LONGEST || target.len() > LONGEST {
        return Err(NoMemory);
    }
    put_link(out, path, target)
}
