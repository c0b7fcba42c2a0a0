//! What a success tells.

use crate::attributes::sort_of;
use crate::errors::{Stop, What};
use crate::exchanges::Exchange;
use crate::handles::Opened;
use crate::nodes::{Node, Sort};
use crate::pieces::Piece;
use crate::reads::Shown;
use crate::reasons::has_loose_end;
use crate::snapshots::Listings;
use crate::world::World;
use sftp_wire::{Answer, Ask, Attrs, ByteString, Names, status};

/// Where the reply to LIMITS has the most bytes that one READ gives, and the most open handles, 8 bytes each.
const MOST_READ: usize = 8;

const MOST_HANDLES: usize = 24;

/// The number of 8 bytes at a place, the highest first.
fn number_at(bytes: &[u8], place: usize) -> u64 {
    let end = place.saturating_add(8);
    let mut number: u64 = 0;
    for byte in bytes.get(place..end).unwrap_or(&[]) {
        number = number.saturating_mul(256).saturating_add(u64::from(*byte));
    }
    number
}

/// The bytes that a record ends with, which ends at this place of the session.
fn piece_before(end: usize, bytes: &ByteString, told: u64) -> Piece {
    let len = bytes.as_slice().len();
    Piece {
        len: len as u64,
        from: end.saturating_sub(len),
        told,
    }
}

/// Whether a request follows a last link, or goes by a handle.
fn follows(ask: &Ask) -> bool {
    match ask {
        Ask::Stat { .. } | Ask::Opendir { .. } | Ask::Open { .. } | Ask::Setstat { .. } => true,
        Ask::Realpath { .. } | Ask::Fstat { .. } | Ask::Fsetstat { .. } => true,
        _ => false,
    }
}

/// What is open may have been changed, if it is open to be written.
fn blur_opened(nodes: &mut Vec<Node>, opened: Opened) {
    if opened.flags & 2 != 0 {
        if let Some(entry) = nodes.get_mut(opened.entry) {
            entry.file.is_blurred = true;
        }
    }
}

impl World {
    /// Takes an exchange of this session, of which these are the listings.
    pub(crate) fn take(
        &mut self,
        session: &[u8],
        listings: &Listings,
        exchange: Exchange<'_>,
    ) -> Result<(), Stop> {
        self.asked = exchange.asked;
        self.replied = exchange.replied;
        self.teller = match exchange.answer {
            Answer::Status { .. } | Answer::Handle(_) => exchange.asked,
            _ => exchange.replied,
        };
        self.work = self.work.saturating_add(1);
        self.follows = follows(exchange.ask);
        match exchange.answer {
            Answer::Status { code, .. } => self.take_status(exchange, *code),
            Answer::Handle(handle) => self.take_handle(session, listings, exchange.ask, handle),
            Answer::Data(bytes) => {
                let (end, told) = (exchange.answer_end, exchange.replied);
                let piece = piece_before(end, bytes, told);
                self.take_data(exchange.ask, session, piece)
            }
            Answer::Name(names) => self.take_names(exchange.ask, names),
            Answer::Attrs(attrs) => self.take_attrs(exchange.ask, attrs),
            Answer::Extended(bytes) => {
                self.take_limits(exchange.ask, bytes.as_slice());
                Ok(())
            }
        }
    }

    /// LIMITS told how many bytes one READ gives, and how many handles may be open.
    fn take_limits(&mut self, ask: &Ask, bytes: &[u8]) {
        if let Ask::Limits = ask {
            self.most_read = self.most_read.max(number_at(bytes, MOST_READ));
            self.most_handles = self.most_handles.max(number_at(bytes, MOST_HANDLES));
        }
    }

    fn take_status(&mut self, exchange: Exchange<'_>, code: u32) -> Result<(), Stop> {
        if code == status::OK {
            return self.take_done(exchange);
        }
        match exchange.ask {
            Ask::Read {
                handle,
                offset,
                len,
            } if code == status::EOF && (*len > 0 || self.settings.is_strict) => {
                match self.handle(handle) {
                    Some(opened) if !opened.is_listing => self.read_end(opened.entry, *offset),
                    _ => Ok(()),
                }
            }
            Ask::Readdir { handle } if code == status::EOF => match self.handle(handle) {
                Some(opened) if opened.is_listing && !self.settings.is_strict => {
                    self.list_end(opened)
                }
                _ => Ok(()),
            },
            ask => self.refuse(ask, code),
        }
    }

    /// What a handle leads to.
    pub(crate) fn handle(&self, handle: &ByteString) -> Option<Opened> {
        self.handles.get(handle.as_slice())
    }

    /// A request was done that changes something.
    fn take_done(&mut self, exchange: Exchange<'_>) -> Result<(), Stop> {
        match exchange.ask {
            Ask::Close { handle } => {
                self.handles.remove(handle.as_slice());
                Ok(())
            }
            Ask::Write {
                handle,
                offset,
                bytes,
            } => {
                let piece = piece_before(exchange.ask_end, bytes, exchange.asked);
                self.take_written(handle, *offset, piece)
            }
            Ask::Setstat { path, attrs } => self.take_set(path, attrs),
            Ask::Fsetstat { handle, attrs } => match self.handle(handle) {
                Some(opened) => self.set_attrs(opened.entry, attrs),
                None => Ok(()),
            },
            other => self.take_changed(other),
        }
    }

    /// A request was done that changes names.
    fn take_changed(&mut self, ask: &Ask) -> Result<(), Stop> {
        match ask {
            Ask::Remove { path } => self.remove(path.as_slice()),
            Ask::Rmdir { path } => self.rmdir(path.as_slice()),
            Ask::Mkdir { path, attrs } => self.mkdir(path.as_slice(), attrs),
            Ask::Rename { oldpath, newpath } => {
                self.rename(oldpath.as_slice(), newpath.as_slice())
            }
            Ask::PosixRename { oldpath, newpath } => {
                self.replace(oldpath.as_slice(), newpath.as_slice())
            }
            Ask::Hardlink { oldpath, newpath } => {
                self.hardlink(oldpath.as_slice(), newpath.as_slice())
            }
            Ask::Symlink {
                targetpath,
                linkpath,
            } if self.settings.link_first => {
                self.symlink(linkpath.as_slice(), targetpath.as_slice())
            }
            Ask::Symlink {
                targetpath,
                linkpath,
            } => { self.symlink(targetpath.as_slice(), linkpath.as_slice()) }
            Ask::Unknown { .. } => {
                self.blur();
                Ok(())
            }
            _ => Ok(()),
        }
    }

    /// An extension may have changed any file that is open to be written.
    fn blur(&mut self) {
        for opened in self.handles.others() {
            blur_opened(&mut self.nodes, *opened);
        }
        self.blur_few();
    }

    /// The same of the files whose handles are in the list.
    fn blur_few(&mut self) {
        for place in 0..self.handles.len() {
            if let Some(opened) = self.handles.opened(place) {
                blur_opened(&mut self.nodes, opened);
            }
        }
    }

    fn take_set(&mut self, path: &ByteString, attrs: &Attrs) -> Result<(), Stop> {
        if attrs.size.is_none()
            && attrs.owner.is_none()
            && attrs.permissions.is_none()
            && !self.settings.is_strict
        {
            return Ok(());
        }
        let at = self.reach_entry(path.as_slice(), true, Sort::Unknown)?;
        self.set_attrs(at, attrs)
    }

    fn take_written(&mut self, handle: &ByteString, offset: u64, piece: Piece) -> Result<(), Stop> {
        match self.handle(handle) {
            Some(opened) => {
                let appends = opened.flags & 4 != 0;
                self.write(opened.entry, offset, appends, piece)
            }
            None => Ok(()),
        }
    }

    fn take_data(&mut self, ask: &Ask, session: &[u8], piece: Piece) -> Result<(), Stop> {
        match ask {
            Ask::Read {
                handle,
                offset,
                len,
            } => match self.handle(handle) {
                Some(opened) => {
                    let offset = *offset;
                    let shown = Shown {
                        session,
                        offset,
                        piece,
                    };
                    self.read(opened.entry, u64::from(*len), shown)
                }
                None => Ok(()),
            },
            _ => Ok(()),
        }
    }

    fn take_attrs(&mut self, ask: &Ask, attrs: &Attrs) -> Result<(), Stop> {
        let sort = sort_of(attrs);
        let reached = match ask {
            Ask::Stat { path } => self.reach_entry(path.as_slice(), true, sort),
            Ask::Lstat { path } => {
                self.follows = self.shows_end(path.as_slice(), sort);
                self.reach_entry(path.as_slice(), self.follows, sort)
            }
            Ask::Fstat { handle } => match self.handle(handle) {
                Some(opened) => Ok(opened.entry),
                None => return Ok(()),
            },
            _ => return Ok(()),
        };
        self.tell_attrs(reached?, attrs)
    }

    /// Whether a reply to LSTAT that shows this kind shows what a link leads to, as a profile allows where a slash or
    /// dots are behind its name.
    fn shows_end(&self, path: &[u8], sort: Sort) -> bool {
        !self.settings.is_strict && has_loose_end(path) && sort != Sort::Link
    }

    fn take_names(&mut self, ask: &Ask, names: &Names) -> Result<(), Stop> {
        match ask {
            Ask::Readdir { handle } => match self.handle(handle) {
                Some(opened) if opened.is_listing && !self.settings.is_strict => {
                    self.list(opened, names)
                }
                _ => Ok(()),
            },
            Ask::Readlink { path } => match names.as_slice().first() {
                Some(item) => self.take_target(path.as_slice(), item.filename.as_slice()),
                None => Ok(()),
            },
            Ask::Realpath { path } => match names.as_slice().first() {
                Some(item) => self.take_real(path.as_slice(), item.filename.as_slice()),
                None => Ok(()),
            },
            _ => Ok(()),
        }
    }

    /// READLINK told a target.
    fn take_target(&mut self, path: &[u8], target: &[u8]) -> Result<(), Stop> {
        let at = self.reach_entry(path, false, Sort::Link)?;
        if self.sort(at) != Sort::Link {
            return self.refuse_target(at, target);
        }
        let is_known = match self.target(at) {
            Some(known) => Some(known == target),
            None => None,
        };
        match is_known {
            Some(true) => {
                self.cross(self.told(at));
                Ok(())
            }
            Some(false) => self.clash_target(at, target),
            None => self.set_target(at, target),
        }
    }

    /// Refuses the target of what is no link.
    fn refuse_target(&mut self, at: usize, target: &[u8]) -> Result<(), Stop> {
        if !self.is_shown(at) {
            self.propose_link_to(at, target);
        }
        let known = self.sort(at);
        Err(self.clash_of(at, What::Kind(known, Sort::Link)))
    }

    /// The contradiction of two targets of a link.
    fn clash_target(&mut self, at: usize, target: &[u8]) -> Result<(), Stop> {
        self.propose_link_to(at, target);
        let known = match self.target(at) {
            Some(known) => Vec::from_slice(self.alloc, known)?,
            None => Vec::new(self.alloc),
        };
        let stop = self.clash_of(at, What::Target);
        self.note_texts(known, target)?;
        Err(stop)
    }

    fn set_target(&mut self, at: usize, target: &[u8]) -> Result<(), Stop> {
        let text = Vec::from_slice(self.alloc, target)?;
        self.lead(at, text);
        self.entry_mut(at).is_shown = true;
        Ok(())
    }
}
