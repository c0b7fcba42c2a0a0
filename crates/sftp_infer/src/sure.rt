//! Contradictions that are sure: two records that no tree explains both, whatever the others say. They are about one
//! thing that nothing changed in between, and need no assumption about it.

use crate::attributes::sort_of;
use crate::exchanges::{Exchange, Exchanges};
use crate::nodes::Sort;
use crate::reads::bytes_at;
use crate::search::Search;
use bitflags::Flags;
use sftp_path::NoMemory;
use sftp_wire::{Answer, Ask, Attrs, OpenFlags, status};

/// What requests between the two did that could change what they are about.
#[derive(Clone, Copy)]
struct Between {
    /// Whether something was changed at all.
    changes: bool,
    /// Whether the bytes of a file may have been changed by another handle, or its size.
    changes_files: bool,
}

/// The bytes of a file from an offset on.
#[derive(Clone, Copy)]
struct Bytes<'s> {
    offset: u64,
    bytes: &'s [u8],
}

impl<'a> Search<'a> {
    /// Whether no tree explains both records of the contradiction that came last, whatever the other records say.
    /// `false` says nothing.
    ///
    /// # Errors
    ///
    /// `NoMemory` if memory runs out.
    pub fn is_sure(&self) -> Result<bool, NoMemory> {
        let Some(clash) = &self.clash else {
            return Ok(false);
        };
        if clash.told == 0 || !self.settings.is_strict {
            return Ok(false);
        }
        let mut first = Exchanges::new(self.alloc, self.session);
        let sure = self.is_sure_from(&mut first, clash.told, clash.found);
        drop(first);
        sure
    }

    /// The same by the exchange of one of these records that was asked first.
    fn is_sure_from(&self, first: &mut Exchanges, told: u64, found: u64) -> Result<bool, NoMemory> {
        for _ in 0..u64::MAX {
            match first.next(self.session)? {
                Some(exchange) if has(exchange, told) => {
                    return self.is_sure_between(exchange, found);
                }
                Some(exchange) if has(exchange, found) => {
                    return self.is_sure_between(exchange, told);
                }
                Some(_) => {}
                None => return Ok(false),
            }
        }
        Ok(false)
    }

    fn is_sure_between(&self, first: Exchange<'_>, other: u64) -> Result<bool, NoMemory> {
        let mut later = Exchanges::new(self.alloc, self.session);
        let sure = self.is_sure_with(first, &mut later, other);
        drop(later);
        sure
    }

    fn is_sure_with(
        &self,
        first: Exchange<'_>,
        later: &mut Exchanges,
        other: u64,
    ) -> Result<bool, NoMemory> {
        let mut between = Between {
            changes: changes(first.ask, first.answer),
            changes_files: false,
        };
        let mut appends = false;
        for _ in 0..u64::MAX {
            let Some(exchange) = later.next(self.session)? else {
                return Ok(false);
            };
            if exchange.asked < first.asked {
                appends = appends_after(appends, exchange, first.ask);
            } else if has(exchange, other) {
                return Ok(
                    are_at_odds(first, exchange, between)
                        || !appends && are_bytes_at_odds(first, exchange, between),
                );
            } else if exchange.asked > first.asked {
                between.add(exchange, first.ask);
            }
        }
        Ok(false)
    }
}

impl Between {
    /// Takes what a request did that comes between.
    fn add(&mut self, exchange: Exchange<'_>, first: &Ask) {
        self.changes = self.changes || changes(exchange.ask, exchange.answer);
        self.changes_files = self.changes_files
            || may_change_file(exchange.ask, exchange.answer)
            || closes(exchange.ask, first);
    }
}

/// Whether a record is the request or the reply of an exchange.
fn has(exchange: Exchange<'_>, number: u64) -> bool {
    exchange.asked == number || exchange.replied == number
}

/// Whether a request was done that may change something.
fn changes(ask: &Ask, answer: &Answer) -> bool {
    let is_done = match answer {
        Answer::Status { code, .. } => *code == status::OK,
        Answer::Handle(_) => true,
        _ => false,
    };
    is_done && !matches!(ask, Ask::Opendir { .. } | Ask::Fsync { .. })
}

/// Whether a request was done that may change the bytes of a file.
fn may_change_file(ask: &Ask, answer: &Answer) -> bool {
    let changes_some = match ask {
        Ask::Write { .. } | Ask::Unknown { .. } => true,
        Ask::Setstat { attrs, .. } | Ask::Fsetstat { attrs, .. } => attrs.size.is_some(),
        Ask::Open { pflags, .. } => {
            OpenFlags::from_bits_retain(*pflags).contains(OpenFlags::TRUNC)
        }
        _ => false,
    };
    changes_some && changes(ask, answer)
}

/// The handle of a READ or a WRITE.
fn handle_of(ask: &Ask) -> Option<&[u8]> {
    match ask {
        Ask::Read { handle, .. } => Some(handle.as_slice()),
        Ask::Write { handle, .. } => Some(handle.as_slice()),
        _ => None,
    }
}

/// Whether a request closes the handle of a READ or a WRITE.
fn closes(ask: &Ask, first: &Ask) -> bool {
    match (ask, handle_of(first)) {
        (Ask::Close { handle }, Some(used)) => handle.as_slice() == used,
        _ => false,
    }
}

/// Whether the handle of a WRITE appends, once this exchange is done.
fn appends_after(appends: bool, exchange: Exchange<'_>, first: &Ask) -> bool {
    match (exchange.ask, exchange.answer, handle_of(first)) {
        (Ask::Open { pflags, .. }, Answer::Handle(handle), Some(used))
            if handle.as_slice() == used => {
            OpenFlags::from_bits_retain(*pflags).contains(OpenFlags::APPEND)
        }
        _ => appends,
    }
}

/// Whether two replies cannot both be right, of which the second one answers the same question with nothing changed in
/// between.
fn are_at_odds(first: Exchange<'_>, second: Exchange<'_>, between: Between) -> bool {
    if between.changes {
        return false;
    }
    match (first.answer, second.answer) {
        (Answer::Attrs(one), Answer::Attrs(other)) => {
            let kinds = sort_of(one) == Sort::Link || sort_of(other) == Sort::Link;
            is_same_place(first.ask, second.ask, kinds) && differ(one, other)
        }
        (Answer::Attrs(one), Answer::Status { code, .. }) => {
            is_same_place(first.ask, second.ask, sort_of(one) == Sort::Link)
                && *code == status::NO_SUCH_FILE
        }
        (Answer::Status { code, .. }, Answer::Attrs(one)) => {
            is_same_place(first.ask, second.ask, sort_of(one) == Sort::Link)
                && *code == status::NO_SUCH_FILE
        }
        (Answer::Name(one), Answer::Name(other)) => {
            let texts = (one.as_slice().first(), other.as_slice().first());
            match texts {
                (Some(one), Some(other)) => {
                    is_same_text(first.ask, second.ask)
                        && one.filename.as_slice() != other.filename.as_slice()
                }
                _ => false,
            }
        }
        _ => false,
    }
}

/// Whether two requests ask for the attributes of one place. If a link is there, STAT and LSTAT show different things.
fn is_same_place(one: &Ask, other: &Ask, has_link: bool) -> bool {
    match (one, other) {
        (Ask::Stat { path }, Ask::Stat { path: like }) => path.as_slice() == like.as_slice(),
        (Ask::Lstat { path }, Ask::Lstat { path: like }) => path.as_slice() == like.as_slice(),
        (Ask::Lstat { path }, Ask::Stat { path: like }) => {
            !has_link && path.as_slice() == like.as_slice()
        }
        (Ask::Fstat { handle }, Ask::Fstat { handle: like }) => {
            handle.as_slice() == like.as_slice()
        }
        _ => false,
    }
}

/// Whether two requests ask for the target of one link, or for the place of one path.
fn is_same_text(one: &Ask, other: &Ask) -> bool {
    match (one, other) {
        (Ask::Readlink { path }, Ask::Readlink { path: like }) => {
            path.as_slice() == like.as_slice()
        }
        (Ask::Realpath { path }, Ask::Realpath { path: like }) => {
            path.as_slice() == like.as_slice()
        }
        _ => false,
    }
}

/// Whether attributes show something in two ways.
fn differ(one: &Attrs, other: &Attrs) -> bool {
    one.size != other.size || one.owner != other.owner || one.permissions != other.permissions
}

/// Whether two requests by one handle show or write another byte at one offset, with nothing in between that may change
/// it.
fn are_bytes_at_odds(first: Exchange<'_>, second: Exchange<'_>, between: Between) -> bool {
    let is_one = match (handle_of(first.ask), handle_of(second.ask)) {
        (Some(one), Some(other)) => one == other,
        _ => false,
    };
    if !is_one || between.changes_files {
        return false;
    }
    match (bytes_of(first), bytes_read(second)) {
        (Some(one), Some(other)) => is_at_odds(one, other),
        _ => false,
    }
}

/// The bytes that a READ gave, or that a WRITE wrote.
fn bytes_of(exchange: Exchange<'_>) -> Option<Bytes<'_>> {
    match (exchange.ask, exchange.answer) {
        (Ask::Write { offset, bytes, .. }, Answer::Status { code, .. }) if *code == status::OK => {
            let (offset, bytes) = (*offset, bytes.as_slice());
            Some(Bytes { offset, bytes })
        }
        _ => bytes_read(exchange),
    }
}

/// The bytes that a READ gave.
fn bytes_read(exchange: Exchange<'_>) -> Option<Bytes<'_>> {
    match (exchange.ask, exchange.answer) {
        (Ask::Read { offset, .. }, Answer::Data(bytes)) => {
            let (offset, bytes) = (*offset, bytes.as_slice());
            Some(Bytes { offset, bytes })
        }
        _ => None,
    }
}

/// Whether two runs of bytes have another byte at one offset.
fn is_at_odds(one: Bytes<'_>, other: Bytes<'_>) -> bool {
    let from = one.offset.max(other.offset);
    let (left, right) = (one.behind(from), other.behind(from));
    let len = left.len().min(right.len()) as u64;
    bytes_at(left, 0, len) != bytes_at(right, 0, len)
}

impl<'s> Bytes<'s> {
    /// Those from an offset on.
    fn behind(&self, from: u64) -> &'s [u8] {
        match usize::try_from(from.saturating_sub(self.offset)) {
            Ok(skipped) => self.bytes.get(skipped..).unwrap_or(&[]),
            Err(_) => &[],
        }
    }
}
