//! The names of packets, codes and flags, and names that are close to a word.

use crate::kinds::{PacketKind, REPLIES, REQUESTS};

/// The codes of a STATUS with their names (draft, section 7).
const CODES: [(&str, u32); 9] = [
    ("OK", 0),
    ("EOF", 1),
    ("NO_SUCH_FILE", 2),
    ("PERMISSION_DENIED", 3),
    ("FAILURE", 4),
    ("BAD_MESSAGE", 5),
    ("NO_CONNECTION", 6),
    ("CONNECTION_LOST", 7),
    ("OP_UNSUPPORTED", 8),
];

/// The flags of OPEN with their names (draft, section 6.3).
const FLAGS: [(&str, u32); 6] = [
    ("READ", 0x01),
    ("WRITE", 0x02),
    ("APPEND", 0x04),
    ("CREAT", 0x08),
    ("TRUNC", 0x10),
    ("EXCL", 0x20),
];

/// The kind of request that a word names.
pub(crate) fn request_named(word: &str) -> Option<PacketKind> {
    found_in(REQUESTS.as_slice(), word)
}

/// The kind of reply that a word names.
pub(crate) fn reply_named(word: &str) -> Option<PacketKind> {
    found_in(REPLIES.as_slice(), word)
}

/// The code that a word names.
pub(crate) fn code_named(word: &str) -> Option<u32> {
    number_in(CODES.as_slice(), word)
}

/// The flag that a word names.
pub(crate) fn flag_named(word: &str) -> Option<u32> {
    number_in(FLAGS.as_slice(), word)
}

fn found_in(kinds: &[PacketKind], word: &str) -> Option<PacketKind> {
    for kind in kinds {
        if kind.name() == word {
            return Some(*kind);
        }
    }
    None
}

fn number_in(names: &[(&str, u32)], word: &str) -> Option<u32> {
    for (name, number) in names {
        if *name == word {
            return Some(*number);
        }
    }
    None
}

/// The name of a packet or a code that is close to a word, if there is one.
pub(crate) fn close_to(word: &str) -> Option<&'static str> {
    if let Some(name) = close_in(REQUESTS.as_slice(), word) {
        return Some(name);
    }
    if let Some(name) = close_in(REPLIES.as_slice(), word) {
        return Some(name);
    }
    close_to_number(CODES.as_slice(), word)
}

/// The name of a flag that is close to a word, if there is one.
pub(crate) fn flag_close_to(word: &str) -> Option<&'static str> {
    close_to_number(FLAGS.as_slice(), word)
}

fn close_in(kinds: &[PacketKind], word: &str) -> Option<&'static str> {
    for kind in kinds {
        if is_close(word, kind.name()) {
            return Some(kind.name());
        }
    }
    None
}

fn close_to_number(names: &'static [(&'static str, u32)], word: &str) -> Option<&'static str> {
    for (name, _) in names {
        if is_close(word, name) {
            return Some(*name);
        }
    }
    None
}

/// Whether a word is a name but for the case of its letters, or but for one character that is another one, too many or
/// missing, or two that changed places. Of a name of two characters no word is close but for the case.
pub(crate) fn is_close(word: &str, name: &str) -> bool {
    if word.eq_ignore_ascii_case(name) {
        return true;
    }
    if name.len() < 3 {
        return false;
    }
    let (word, name) = without_front(word.as_bytes(), name.as_bytes());
    let (word, name) = without_back(word, name);
    match (word, name) {
        ([a, b], [c, d]) => *a == *d && *b == *c,
        _ => word.len() <= 1 && name.len() <= 1,
    }
}

/// Two texts without the bytes with which both begin.
fn without_front<'w, 'n>(word: &'w [u8], name: &'n [u8]) -> (&'w [u8], &'n [u8]) {
    let mut count = 0_usize;
    for (a, b) in word.iter().zip(name.iter()) {
        if *a != *b {
            break;
        }
        count = count.saturating_add(1);
    }
    (
        word.get(count..).unwrap_or(&[]),
        name.get(count..).unwrap_or(&[]),
    )
}

/// Two texts without the bytes with which both end.
fn without_back<'w, 'n>(word: &'w [u8], name: &'n [u8]) -> (&'w [u8], &'n [u8]) {
    let mut count = 0_usize;
    for (a, b) in word.iter().rev().zip(name.iter().rev()) {
        if *a != *b {
            break;
        }
        count = count.saturating_add(1);
    }
    let word_end = word.len().saturating_sub(count);
    let name_end = name.len().saturating_sub(count);
    (
        word.get(..word_end).unwrap_or(&[]),
        name.get(..name_end).unwrap_or(&[]),
    )
}
