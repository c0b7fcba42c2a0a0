//! How many bytes a tree file takes, computed before memory is allocated. A count that does not fit a `usize` becomes
//! the largest that does.
use crate::files::{Kind, Row, TreeFile};
use crate::limits::Opening;
use crate::times::Times;
use crate::writing::is_long;
use sftp_strings::ByteString;

/// The opening, the uid, the gid, the count, and the owner of the root.
const HEAD: usize = 32;

/// Four limits.
const LIMITS: usize = 16;

/// Five limits, two of them long, and the letter of the root.
const WIDE_LIMITS: usize = 29;

/// Two times.
const TIMES: usize = 8;

/// A kind's letter, and an owner.
const OWNED: usize = 13;

fn string_size(text: &ByteString) -> usize {
    text.as_slice().len().saturating_add(4)
}

fn times_size(times: Times) -> usize {
    if times.are_known() { TIMES } else { 0 }
}

fn content_size(bytes: &ByteString) -> usize {
    let count = bytes.as_slice().len();
    let length = if is_long(count as u64) { 8 } else { 4 };
    count.saturating_add(length)
}

fn kind_size(kind: &Kind) -> usize {
    match kind {
        Kind::Dir(_) => OWNED,
        Kind::First(_, bytes) => content_size(bytes).saturating_add(OWNED),
        Kind::Further(_) => 5,
        Kind::Link(target) => string_size(target).saturating_add(1),
    }
}

fn row_size(row: &Row) -> usize {
    string_size(&row.path).saturating_add(kind_size(&row.kind))
}

fn limits_size(opening: Opening) -> usize {
    match opening {
        Opening::Usual => 0,
        Opening::Raised => LIMITS,
        Opening::Wide => WIDE_LIMITS,
    }
}

/// How many bytes a head takes without the times of the root; the home with its length takes so many of them.
pub fn head_size(opening: Opening, home: usize) -> usize {
    home.saturating_add(HEAD)
        .saturating_add(limits_size(opening))
}

/// How many bytes the file takes.
pub(crate) fn file_size(file: &TreeFile) -> usize {
    let mut size = head_size(file.opening(), string_size(&file.home));
    for row in file.rows.as_slice() {
        size = size.saturating_add(row_size(row));
    }
    for times in file.times.as_slice() {
        size = size.saturating_add(times_size(*times));
    }
    size
}
