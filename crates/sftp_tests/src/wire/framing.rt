//! Streams that are written out by hand.
use sftp_wire::{FrameBuf, Side};
use std::alloc::Global;

/// INIT of version 3, with no extensions.
const INIT: &[u8] = b"\0\0\0\x05\x01\0\0\0\x03";

const INIT_WORDS: &str = "Ok(Some(Init { version: 3, extensions: Pairs { pairs: [] } }))";

/// MKDIR of "/a" with the id 1 and no attributes, and the first five bytes of what follows it.
const MKDIR_AND_MORE: &[u8] = b"\0\0\0\x0f\x0e\0\0\0\x01\0\0\0\x02/a\0\0\0\0\0\0\0\x05\x01";

const MKDIR: &[u8] = b"\0\0\0\x0f\x0e\0\0\0\x01\0\0\0\x02/a\0\0\0\0";

const MKDIR_WORDS: &str =
    "Ok(Some(Request(Request { id: 1, ask: Mkdir { path: ByteString { bytes: [47, 97] }, \
    attrs: Attrs { size: None, owner: None, permissions: None, times: None, extended: None } } })))";

const WAITING: &str = "Ok(None)";

/// A call of a buffer, and what it has to give.
#[derive(Clone, Copy)]
enum Call<'a> {
    /// So many of the bytes are taken.
    Push(&'a [u8], usize),
    /// Each of the bytes is taken by itself, and no packet comes.
    Bytes(&'a [u8]),
    /// The words of `{:?}`.
    Next(&'a str),
    Room(usize),
    Place(u64),
    Lent(Option<&'a [u8]>),
}

/// Whether what is taken out of the buffer has these words of `{:?}`.
fn gives(alloc: Global, frames: &mut FrameBuf, words: &str) -> bool {
    let given = frames.next(Side::Client);
    let text = format!(in alloc; "{given:?}");
    drop(given);
    match text {
        Ok(text) => text.as_str() == words,
        Err(_) => false,
    }
}

fn takes_bytes(alloc: Global, frames: &mut FrameBuf, bytes: &[u8]) -> bool {
    for byte in bytes {
        if frames.push(&[*byte]) != 1 || !gives(alloc, frames, WAITING) {
            return false;
        }
    }
    true
}

/// Whether a call gives what it has to.
fn holds(alloc: Global, frames: &mut FrameBuf, call: Call<'_>) -> bool {
    match call {
        Call::Push(bytes, taken) => frames.push(bytes) == taken,
        Call::Bytes(bytes) => takes_bytes(alloc, frames, bytes),
        Call::Next(words) => gives(alloc, frames, words),
        Call::Room(room) => frames.room() == room,
        Call::Place(place) => frames.place() == place,
        Call::Lent(bytes) => frames.lent() == bytes,
    }
}

/// The first of these calls that does not give what it has to.
fn first_wrong(alloc: Global, frames: &mut FrameBuf, calls: &[Call]) -> Option<usize> {
    for (index, call) in calls.iter().enumerate() {
        if !holds(alloc, frames, *call) {
            return Some(index);
        }
    }
    None
}

/// INIT comes byte by byte.
const BYTES: &[Call] = &[
    Call::Next(WAITING),
    Call::Room(262_144),
    Call::Bytes(b"\0\0\0\x05"),
    Call::Room(262_140),
    Call::Bytes(b"\x01\0\0\0"),
    Call::Lent(None),
    Call::Room(262_136),
    Call::Push(b"\x03", 1),
    Call::Lent(Some(INIT)),
    Call::Next(INIT_WORDS),
    Call::Next(WAITING),
    Call::Room(262_144),
];

const NO_LENGTH: &[Call] = &[
    Call::Push(b"\0\0\0\0", 4),
    Call::Lent(None),
    Call::Next("Err(Unreadable { fault: Length, place: 0 })"),
];

const LONGEST: &[Call] = &[
    Call::Push(b"\0\x03\xff\xfc", 4),
    Call::Lent(None),
    Call::Next(WAITING),
];

const LONGER: &[Call] = &[
    Call::Push(b"\0\x03\xff\xfd", 4),
    Call::Lent(None),
    Call::Next("Err(Unreadable { fault: Length, place: 0 })"),
];

const OPEN_WITHOUT_ITS_ID: &[Call] = &[
    Call::Push(b"\0\0\0\x01\x03", 5),
    Call::Lent(Some(b"\0\0\0\x01\x03")),
    Call::Next("Err(Unreadable { fault: Short, place: 0 })"),
    Call::Lent(None),
    Call::Room(0),
];

/// A whole packet and five bytes of the next one.
const MORE_THAN_A_PACKET: &[Call] = &[
    Call::Push(MKDIR_AND_MORE, 24),
    Call::Lent(Some(MKDIR)),
    Call::Next(MKDIR_WORDS),
    Call::Lent(None),
    Call::Next(WAITING),
    Call::Room(262_139),
];

/// A fault is permanent, and nothing more is taken.
const WRONG_TYPE_BEHIND_INIT: &[Call] = &[
    Call::Push(INIT, 9),
    Call::Push(b"\0\0\0\x01\x63", 5),
    Call::Next(INIT_WORDS),
    Call::Next("Err(Unreadable { fault: WrongType, place: 9 })"),
    Call::Next("Err(Unreadable { fault: WrongType, place: 9 })"),
    Call::Room(0),
    Call::Push(INIT, 0),
    Call::Lent(None),
    Call::Next("Err(Unreadable { fault: WrongType, place: 9 })"),
];

/// INIT, MKDIR, and then REMOVE of "/a" and one byte more, in two pieces.
const TRAILING_BEHIND_MKDIR: &[Call] = &[
    Call::Push(INIT, 9),
    Call::Push(MKDIR, 19),
    Call::Next(INIT_WORDS),
    Call::Next(MKDIR_WORDS),
    Call::Push(b"\0\0\0\x0c\x0d\0\0\0\x01\0\0\0\x02", 13),
    Call::Next(WAITING),
    Call::Push(b"/a\0", 3),
    Call::Next("Err(Unreadable { fault: Trailing, place: 28 })"),
    Call::Next("Err(Unreadable { fault: Trailing, place: 28 })"),
    Call::Room(0),
    Call::Lent(None),
];

/// The place is 0, then after the 19 bytes of MKDIR, and stays at the first byte of a packet of no known type.
const PLACES: &[Call] = &[
    Call::Place(0),
    Call::Push(MKDIR, 19),
    Call::Place(0),
    Call::Next(MKDIR_WORDS),
    Call::Place(19),
    Call::Push(b"\0\0\0\x01\x63", 5),
    Call::Place(19),
    Call::Next("Err(Unreadable { fault: WrongType, place: 19 })"),
    Call::Place(19),
];

const STREAMS: &[(&str, &[Call])] = &[
    ("bytes", BYTES),
    ("no length", NO_LENGTH),
    ("longest", LONGEST),
    ("longer", LONGER),
    ("OPEN without its id", OPEN_WITHOUT_ITS_ID),
    ("more than a packet", MORE_THAN_A_PACKET),
    ("wrong type", WRONG_TYPE_BEHIND_INIT),
    ("trailing", TRAILING_BEHIND_MKDIR),
    ("places", PLACES),
];

/// The first wrong call of a new buffer; the number of calls where there is no memory for one.
fn wrong_call(alloc: Global, calls: &[Call]) -> Option<usize> {
    match FrameBuf::new(alloc) {
        Ok(mut frames) => {
            let wrong = first_wrong(alloc, &mut frames, calls);
            drop(frames);
            wrong
        }
        Err(_) => Some(calls.len()),
    }
}

#[test]
fn streams_of_calls(rt: HostRuntime) {
    for (name, calls) in STREAMS {
        let wrong = wrong_call(rt.alloc(), calls);
        assert!(rt; wrong.is_none(), "{name}: {wrong:?}");
    }
}
