//! The reasons to refuse each request, with what they ask of its paths, and how a reason is taken for granted.

use crate::asks::Asks;
use crate::errors::{Stop, done};
use crate::look::{Found, Look};
use crate::names::Spot;
use crate::nodes::Sort;
use crate::world::World;
use bitflags::Flags;
use sftp_path::good_path;
use sftp_wire::{Ask, OpenFlags, status};

/// The most bytes of a file that a tree with the usual limits may have.
const FILE_LIMIT: u64 = 16_777_216;

/// The codes that a reason may have.
#[derive(Clone, Copy)]
pub(crate) enum Codes {
    NoSuchFile,
    Failure,
    Either,
}

/// What a reason asks of the first path and of the second one, if it asks anything, and its codes.
#[derive(Clone, Copy)]
pub(crate) struct Reason(
    pub(crate) Option<Asks>,
    pub(crate) Option<Asks>,
    pub(crate) Codes,
);

impl Reason {
    /// Whether a refusal by this reason has this code.
    pub(crate) fn has(self, code: u32) -> bool {
        match self.2 {
            Codes::NoSuchFile => code == status::NO_SUCH_FILE,
            Codes::Failure => code == status::FAILURE,
            Codes::Either => code == status::NO_SUCH_FILE || code == status::FAILURE,
        }
    }

    /// Whether it holds only of requests that follow a last link.
    pub(crate) fn is_of_followed(self) -> bool {
        matches!(self.0, Some(Asks::Astray | Asks::Loops))
    }
}

/// A refused request: its first path, whether a last link is followed there, its second path if it has one, and the
/// reasons that it may have, the likely ones first.
#[derive(Clone, Copy)]
pub(crate) struct Case<'a> {
    pub(crate) old: &'a [u8],
    pub(crate) follows: bool,
    pub(crate) new: Option<&'a [u8]>,
    pub(crate) reasons: &'static [Reason],
}

const LOOK: &[Reason] = &[
    Reason(Some(Asks::Nothing), None, Codes::NoSuchFile),
    Reason(Some(Asks::Lost), None, Codes::NoSuchFile),
    Reason(Some(Asks::Blocked), None, Codes::Either),
    Reason(Some(Asks::Astray), None, Codes::NoSuchFile),
    Reason(Some(Asks::Loops), None, Codes::Either),
];

const SET_SIZE: &[Reason] = &[
    Reason(Some(Asks::Nothing), None, Codes::NoSuchFile),
    Reason(Some(Asks::Directory), None, Codes::Failure),
    Reason(Some(Asks::Lost), None, Codes::NoSuchFile),
    Reason(Some(Asks::Blocked), None, Codes::Either),
    Reason(Some(Asks::Astray), None, Codes::NoSuchFile),
    Reason(Some(Asks::Loops), None, Codes::Either),
];

/// Of a size beyond the usual limit, which no file may have.
const SET_LARGE: &[Reason] = &[
    Reason(Some(Asks::Nothing), None, Codes::NoSuchFile),
    Reason(Some(Asks::Something), None, Codes::Failure),
    Reason(Some(Asks::Lost), None, Codes::NoSuchFile),
    Reason(Some(Asks::Blocked), None, Codes::Either),
    Reason(Some(Asks::Astray), None, Codes::NoSuchFile),
    Reason(Some(Asks::Loops), None, Codes::Either),
];

const OPEN_MAKING: &[Reason] = &[
    Reason(Some(Asks::Directory), None, Codes::Failure),
    Reason(Some(Asks::Lost), None, Codes::NoSuchFile),
    Reason(Some(Asks::Blocked), None, Codes::Either),
    Reason(Some(Asks::Astray), None, Codes::NoSuchFile),
    Reason(Some(Asks::Loops), None, Codes::Either),
];

const MAKE: &[Reason] = &[
    Reason(Some(Asks::Something), None, Codes::Failure),
    Reason(Some(Asks::Lost), None, Codes::NoSuchFile),
    Reason(Some(Asks::Blocked), None, Codes::Either),
];

const OPENDIR: &[Reason] = &[
    Reason(Some(Asks::Nothing), None, Codes::NoSuchFile),
    Reason(Some(Asks::NoDirectory), None, Codes::Either),
    Reason(Some(Asks::Lost), None, Codes::NoSuchFile),
    Reason(Some(Asks::Blocked), None, Codes::Either),
    Reason(Some(Asks::Astray), None, Codes::NoSuchFile),
    Reason(Some(Asks::Loops), None, Codes::Either),
];

const RMDIR: &[Reason] = &[
    Reason(Some(Asks::Nothing), None, Codes::NoSuchFile),
    Reason(Some(Asks::Full), None, Codes::Failure),
    Reason(Some(Asks::NoDirectory), None, Codes::Either),
    Reason(Some(Asks::Lost), None, Codes::NoSuchFile),
    Reason(Some(Asks::Blocked), None, Codes::Either),
];

const REALPATH: &[Reason] = &[
    Reason(Some(Asks::Lost), None, Codes::NoSuchFile),
    Reason(Some(Asks::Blocked), None, Codes::Either),
    Reason(Some(Asks::Astray), None, Codes::NoSuchFile),
    Reason(Some(Asks::Loops), None, Codes::Either),
];

const READLINK: &[Reason] = &[
    Reason(Some(Asks::Nothing), None, Codes::NoSuchFile),
    Reason(Some(Asks::NoLink), None, Codes::Failure),
    Reason(Some(Asks::Lost), None, Codes::NoSuchFile),
    Reason(Some(Asks::Blocked), None, Codes::Either),
];

const RENAME: &[Reason] = &[
    Reason(Some(Asks::Nothing), None, Codes::NoSuchFile),
    Reason(None, Some(Asks::Something), Codes::Failure),
    Reason(Some(Asks::Lost), None, Codes::NoSuchFile),
    Reason(None, Some(Asks::Lost), Codes::NoSuchFile),
    Reason(Some(Asks::Blocked), None, Codes::Either),
    Reason(None, Some(Asks::Blocked), Codes::Either),
];

/// Of a directory that would be moved into itself.
const RENAME_INSIDE: &[Reason] = &[
    Reason(Some(Asks::Nothing), None, Codes::NoSuchFile),
    Reason(Some(Asks::Directory), Some(Asks::Place), Codes::Failure),
    Reason(None, Some(Asks::Something), Codes::Failure),
    Reason(Some(Asks::Lost), None, Codes::NoSuchFile),
    Reason(None, Some(Asks::Lost), Codes::NoSuchFile),
    Reason(Some(Asks::Blocked), None, Codes::Either),
    Reason(None, Some(Asks::Blocked), Codes::Either),
];

const REPLACE: &[Reason] = &[
    Reason(Some(Asks::Nothing), None, Codes::NoSuchFile),
    Reason(
        Some(Asks::NoDirectory),
        Some(Asks::Directory),
        Codes::Failure,
    ),
    Reason(Some(Asks::Directory), Some(Asks::Full), Codes::Failure),
    Reason(
        Some(Asks::Directory),
        Some(Asks::NoDirectory),
        Codes::Either,
    ),
    Reason(Some(Asks::Lost), None, Codes::NoSuchFile),
    Reason(None, Some(Asks::Lost), Codes::NoSuchFile),
    Reason(Some(Asks::Blocked), None, Codes::Either),
    Reason(None, Some(Asks::Blocked), Codes::Either),
];

const REPLACE_INSIDE: &[Reason] = &[
    Reason(Some(Asks::Nothing), None, Codes::NoSuchFile),
    Reason(Some(Asks::Directory), Some(Asks::Place), Codes::Failure),
    Reason(
        Some(Asks::Directory),
        Some(Asks::NoDirectory),
        Codes::Either,
    ),
    Reason(Some(Asks::Lost), None, Codes::NoSuchFile),
    Reason(None, Some(Asks::Lost), Codes::NoSuchFile),
    Reason(Some(Asks::Blocked), None, Codes::Either),
    Reason(None, Some(Asks::Blocked), Codes::Either),
];

const HARDLINK: &[Reason] = &[
    Reason(Some(Asks::Nothing), None, Codes::NoSuchFile),
    Reason(None, Some(Asks::Something), Codes::Failure),
    Reason(Some(Asks::NoFile), None, Codes::Failure),
    Reason(Some(Asks::Lost), None, Codes::NoSuchFile),
    Reason(None, Some(Asks::Lost), Codes::NoSuchFile),
    Reason(Some(Asks::Blocked), None, Codes::Either),
    Reason(None, Some(Asks::Blocked), Codes::Either),
];

/// The paths of a request and the reasons to refuse it; `None` of a request without a path. `link_first` says which
/// path of SYMLINK is that of the link.
pub(crate) fn case_of(ask: &Ask, link_first: bool) -> Option<Case<'_>> {
    match ask {
        Ask::Open { path, pflags, .. } => Some(case_of_open(path.as_slice(), *pflags)),
        Ask::Opendir { path } => one(path.as_slice(), true, OPENDIR),
        Ask::Mkdir { path, .. } => one(path.as_slice(), false, MAKE),
        Ask::Symlink {
            targetpath,
            linkpath,
        } => {
            let path = if link_first { targetpath } else { linkpath };
            one(path.as_slice(), false, MAKE)
        }
        Ask::Rmdir { path } => one(path.as_slice(), false, RMDIR),
        // SET_SIZE asks for a directory, too
        Ask::Remove { path } => one(path.as_slice(), false, SET_SIZE),
        Ask::Setstat { path, attrs } => one(path.as_slice(), true, reasons_of_setstat(attrs.size)),
        Ask::Stat { path } => one(path.as_slice(), true, LOOK),
        Ask::Lstat { path } => one(path.as_slice(), false, LOOK),
        Ask::Realpath { path } => one(path.as_slice(), true, REALPATH),
        Ask::Readlink { path } => one(path.as_slice(), false, READLINK),
        other => case_of_two(other),
    }
}

fn one<'a>(old: &'a [u8], follows: bool, reasons: &'static [Reason]) -> Option<Case<'a>> {
    Some(Case {
        old,
        follows,
        new: None,
        reasons,
    })
}

fn two<'a>(old: &'a [u8], new: &'a [u8], reasons: &'static [Reason]) -> Option<Case<'a>> {
    Some(Case {
        old,
        follows: false,
        new: Some(new),
        reasons,
    })
}

/// The same of requests with two paths.
fn case_of_two(ask: &Ask) -> Option<Case<'_>> {
    match ask {
        Ask::Rename { oldpath, newpath } => {
            let (old, new) = (oldpath.as_slice(), newpath.as_slice());
            let reasons = if is_below(new, old) {
                RENAME_INSIDE
            } else {
                RENAME
            };
            two(old, new, reasons)
        }
        Ask::PosixRename { oldpath, newpath } => {
            let (old, new) = (oldpath.as_slice(), newpath.as_slice());
            let reasons = if is_below(new, old) {
                REPLACE_INSIDE
            } else {
                REPLACE
            };
            two(old, new, reasons)
        }
        Ask::Hardlink { oldpath, newpath } => {
            two(oldpath.as_slice(), newpath.as_slice(), HARDLINK)
        }
        _ => None,
    }
}

fn reasons_of_setstat(size: Option<u64>) -> &'static [Reason] {
    match size {
        Some(size) if size > FILE_LIMIT => SET_LARGE,
        Some(_) => SET_SIZE,
        None => LOOK,
    }
}

fn case_of_open(path: &[u8], flags: u32) -> Case<'_> {
    let flags = OpenFlags::from_bits_retain(flags);
    let makes = flags.contains(OpenFlags::CREAT);
    let is_new = makes && flags.contains(OpenFlags::EXCL);
    let reasons = if is_new {
        MAKE
    } else if makes {
        OPEN_MAKING
    } else {
        SET_SIZE
    };
    Case {
        old: path,
        follows: !is_new,
        new: None,
        reasons,
    }
}

/// Whether the flags of OPEN are themselves a reason to refuse it.
pub(crate) fn are_bad(flags: u32) -> bool {
    let set = OpenFlags::from_bits_retain(flags);
    let reads = set.contains(OpenFlags::READ);
    let writes = set.contains(OpenFlags::WRITE);
    let makes = set.contains(OpenFlags::CREAT);
    flags > 0x3f
        || !(reads || writes)
        || (!makes && (set.contains(OpenFlags::TRUNC) || set.contains(OpenFlags::EXCL)))
        || (!writes && (set.contains(OpenFlags::TRUNC) || set.contains(OpenFlags::APPEND)))
}

/// Whether no link may have this target.
pub(crate) fn is_bad_target(target: &[u8]) -> bool {
    target.is_empty() || !good_path(target)
}

/// Whether a path ends in a slash or in dots, or is empty.
pub(crate) fn has_loose_end(path: &[u8]) -> bool {
    match path.last() {
        Some(byte) => *byte == b'/' || *byte == b'.',
        None => true,
    }
}

/// Whether one path is another one with more behind it.
fn is_below(path: &[u8], top: &[u8]) -> bool {
    path.len() > top.len()
        && path.get(..top.len()) == Some(top)
        && path.get(top.len()) == Some(&b'/')
        && top.last() != Some(&b'/')
}

/// How often a walk is begun anew, since what it met was told on the way.
const WALKS: u32 = 8_192;

impl World {
    /// Has what is asked of a path be so, where that can be.
    pub(crate) fn grant(&mut self, path: &[u8], follows: bool, asks: Asks) -> Result<(), Stop> {
        for _ in 0..WALKS {
            let seen = self.see(path, follows)?;
            match self.cost_at(seen, asks) {
                Some(0) => return Ok(()),
                Some(_) => self.grant_step(path, follows, asks)?,
                None => return Ok(()),
            }
        }
        Ok(())
    }

    fn grant_step(&mut self, path: &[u8], follows: bool, asks: Asks) -> Result<(), Stop> {
        let found = self.look(path, follows)?;
        let done = self.grant_at(&found, asks);
        drop(found);
        done
    }

    fn grant_at(&mut self, found: &Found<'_>, asks: Asks) -> Result<(), Stop> {
        let spot = found.spot();
        match found.look {
            Look::Entry(at) => self.grant_of_entry(at, asks),
            Look::Unknown => self.grant_unknown(spot, asks),
            Look::UnknownWay => self.grant_way(spot, asks),
            Look::Unsure(at) => {
                self.set_sort(at, asks.sort_of_way());
                Ok(())
            }
            Look::Blind(at) => self.grant_target(at, asks),
            Look::Nothing(_) | Look::NoEntry(_) => done(self.retract(spot)),
            _ => Ok(()),
        }
    }

    /// Nothing is known of the name at the end.
    fn grant_unknown(&mut self, spot: Spot<'_>, asks: Asks) -> Result<(), Stop> {
        match asks {
            Asks::Nothing => self.tell_nothing(spot, true),
            Asks::Astray => {
                let at = self.tell(spot, Sort::Link)?;
                self.lead_astray(at)
            }
            Asks::Loops => {
                let at = self.tell(spot, Sort::Link)?;
                self.lead_looped(at)
            }
            _ => done(self.tell(spot, asks.sort())),
        }
    }

    /// The target of a link is not known.
    fn grant_target(&mut self, at: usize, asks: Asks) -> Result<(), Stop> {
        match asks {
            Asks::Astray | Asks::Lost => self.lead_astray(at),
            Asks::Loops => self.lead_looped(at),
            _ => self.invent_target(at),
        }
    }

    /// Nothing is known of a name on the way.
    fn grant_way(&mut self, spot: Spot<'_>, asks: Asks) -> Result<(), Stop> {
        match asks {
            Asks::Lost | Asks::Astray => self.tell_nothing(spot, true),
            _ => done(self.tell(spot, asks.sort_of_way())),
        }
    }

    fn grant_of_entry(&mut self, at: usize, asks: Asks) -> Result<(), Stop> {
        if self.sort(at) == Sort::Unknown {
            self.set_sort(at, asks.sort());
            return Ok(());
        }
        match asks {
            Asks::Full if self.has_entries(at).is_none() => self.invent_entry(at),
            _ => Ok(()),
        }
    }
}
