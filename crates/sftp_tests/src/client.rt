//! A client's session with a server: how many requests may be open, replies that come in another order, and each kind
//! of request with its reply. Which calls are refused, and why, is in the contracts.
use crate::memory::session;
use crate::scripts::request;
use crate::serving::VERSION as ALL_EXTENSIONS;
use crate::wire::{attributes, written};
use sftp_client::{ClientError, Pairing};
use sftp_handles::{Session, SlabTable};
use sftp_wire::{Answer, Ask, Packet, Reply, Request, Side, front};
use std::alloc::Global;
use std::test::Fail;

/// STAT `/`: as in all requests here, the byte of its type and what follows the id.
const STAT: &[u8] = b"\x11\0\0\0\x01/";

/// A request, by its type and its fields.
fn ask_of(alloc: Global, asked: &[u8]) -> Option<Ask> {
    match request(alloc, 0, asked) {
        Ok(request) => Some(request.ask),
        Err(_) => None,
    }
}

/// The id that a session gives to a request, or why it is not sent.
fn sent(alloc: Global, pairing: &mut Pairing, asked: &[u8]) -> Result<u32, ClientError> {
    match ask_of(alloc, asked) {
        Some(ask) => {
            let sent = pairing.send(ask);
            let id = id_of(&sent);
            drop(sent);
            id
        }
        None => Err(ClientError::NoMemory),
    }
}

fn id_of(sent: &Result<Request, ClientError>) -> Result<u32, ClientError> {
    match sent {
        Ok(request) => Ok(request.id),
        Err(error) => Err(*error),
    }
}

/// Whether a session pairs attributes with the request of this id.
fn is_shown(pairing: &mut Pairing, id: u32) -> bool {
    let answer = Answer::Attrs(attributes(None));
    is_paired(pairing, Reply { id, answer }, b'a')
}

/// Whether the client's first packet is INIT 3 without extensions.
fn starts_with_init(alloc: Global, pairing: &Pairing) -> bool {
    let (said, bytes) = written(Vec::new(alloc), pairing.start());
    said == Ok(()) && bytes.as_slice() == b"\0\0\0\x05\x01\0\0\0\x03".as_slice()
}

/// Whether a session begins by the VERSION with all extensions.
fn starts(alloc: Global, pairing: &mut Pairing) -> bool {
    let front = front(alloc, ALL_EXTENSIONS, Side::Server);
    let started = match &front {
        Ok(Some((packet, _))) => pairing.on_version(packet).is_ok(),
        _ => false,
    };
    drop(front);
    started
}

/// Whether so many requests are sent, with ids from 0 on.
fn sends(alloc: Global, pairing: &mut Pairing, count: u32) -> bool {
    for id in 0..count {
        if sent(alloc, pairing, STAT) != Ok(id) {
            return false;
        }
    }
    true
}

/// Whether the window is full after 1,024 requests, until one of them is answered.
fn is_full(alloc: Global, pairing: &mut Pairing) -> bool {
    starts(alloc, pairing)
        && sends(alloc, pairing, 1_024)
        && sent(alloc, pairing, STAT) == Err(ClientError::Full)
        && is_shown(pairing, 700)
        && sent(alloc, pairing, STAT) == Ok(1_024)
}

#[test]
fn at_most_1024_are_open(rt: HostRuntime) -> Result<(), Fail> {
    let mut pairing = Pairing::new(rt.alloc())?;
    let full = is_full(rt.alloc(), &mut pairing);
    drop(pairing);
    assert!(rt; full);
    Ok(())
}

/// MKDIR of `/a`, STAT of `/a`, and STAT of `/b`.
const ASKED: [&[u8]; 3] = [
    b"\x0e\0\0\0\x02/a\0\0\0\0",
    b"\x11\0\0\0\x02/a",
    b"\x11\0\0\0\x02/b",
];

/// The same requests as packets, with the ids from 0 on, the last one first, each with its reply: there is no `/b`, and
/// `/a` was made. On the blank tree these are status 2, ATTRS, and status 0.
const PAIRS: &[(&[u8], &[u8])] = &[
    (
        b"\0\0\0\x0b\x11\0\0\0\x02\0\0\0\x02/b",
        b"\0\0\0\x11\x65\0\0\0\x02\0\0\0\x02\0\0\0\0\0\0\0\0",
    ),
    (
        b"\0\0\0\x0b\x11\0\0\0\x01\0\0\0\x02/a",
        b"\0\0\0\x1d\x69\0\0\0\x01\0\0\0\x07\0\0\0\0\0\0\0\0\0\0\0\0\0\0\0\0\0\0\x41\xed",
    ),
    (
        b"\0\0\0\x0f\x0e\0\0\0\0\0\0\0\x02/a\0\0\0\0",
        b"\0\0\0\x11\x65\0\0\0\0\0\0\0\0\0\0\0\0\0\0\0\0",
    ),
];

/// Whether a session gives the three requests the ids 0 to 2.
fn sends_three(alloc: Global, pairing: &mut Pairing) -> bool {
    let [first, second, third] = ASKED;
    sent(alloc, pairing, first) == Ok(0)
        && sent(alloc, pairing, second) == Ok(1)
        && sent(alloc, pairing, third) == Ok(2)
}

/// The reply of these bytes.
pub(crate) fn reply_of(alloc: Global, bytes: &[u8]) -> Option<Reply> {
    match front(alloc, bytes, Side::Server) {
        Ok(Some((Packet::Reply(reply), _))) => Some(reply),
        other => {
            drop(other);
            None
        }
    }
}

/// Whether a packet has these bytes.
fn is_packet(alloc: Global, packet: Packet, bytes: &[u8]) -> bool {
    let (said, out) = written(Vec::new(alloc), packet);
    said == Ok(()) && out.as_slice() == bytes
}

/// Whether a session pairs a reply, and the request and the reply have these bytes.
fn pairs(alloc: Global, pairing: &mut Pairing, reply: Reply, pair: (&[u8], &[u8])) -> bool {
    match pairing.on_reply(reply) {
        Ok((request, reply)) => {
            let is_request = is_packet(alloc, Packet::Request(request), pair.0);
            let is_reply = is_packet(alloc, Packet::Reply(reply), pair.1);
            is_request && is_reply
        }
        Err(_) => false,
    }
}

/// Whether a session pairs the reply of these bytes with the request of these.
fn gives_pair(alloc: Global, pairing: &mut Pairing, asked: &[u8], replied: &[u8]) -> bool {
    match reply_of(alloc, replied) {
        Some(reply) => pairs(alloc, pairing, reply, (asked, replied)),
        None => false,
    }
}

/// Whether the replies, from the last to the first, are paired so.
fn pairs_backwards(alloc: Global, pairing: &mut Pairing) -> bool {
    for (asked, replied) in PAIRS {
        if !gives_pair(alloc, pairing, asked, replied) {
            return false;
        }
    }
    true
}

#[test]
fn replies_out_of_order(rt: HostRuntime) -> Result<(), Fail> {
    let mut pairing = Pairing::new(rt.alloc())?;
    let started = starts(rt.alloc(), &mut pairing);
    let sent = sends_three(rt.alloc(), &mut pairing);
    let paired = pairs_backwards(rt.alloc(), &mut pairing);
    drop(pairing);
    assert!(rt; started && sent && paired);
    Ok(())
}

const WRITE: &[u8] = b"\x06\0\0\0\x0c\0\0\0\0\0\0\0\0\0\0\0\0\0\0\0\0\0\0\0\0\0\0\0\x03abc";

const READ: &[u8] = b"\x05\0\0\0\x0c\0\0\0\0\0\0\0\0\0\0\0\0\0\0\0\0\0\0\0\0\0\0\0\x0a";

const FSETSTAT: &[u8] = b"\x0a\0\0\0\x0c\0\0\0\0\0\0\0\0\0\0\0\0\0\0\0\0";

const FSYNC: &[u8] = b"\xc8\0\0\0\x11fsync@openssh.com\0\0\0\x0c\0\0\0\0\0\0\0\0\0\0\0\0";

const HARDLINK: &[u8] = b"\xc8\0\0\0\x14hardlink@openssh.com\0\0\0\x01f\0\0\0\x01g";

const POSIX_RENAME: &[u8] = b"\xc8\0\0\0\x18posix-rename@openssh.com\0\0\0\x01k\0\0\0\x01f";

const READDIR: &[u8] = b"\x0c\0\0\0\x0c\0\0\0\0\0\0\0\x01\0\0\0\x01";

/// Every request, with its name and the letter of the kind of its reply in this session on the blank tree. A handle is
/// a slot and how many were opened before.
const SESSION: &[(&str, &[u8], u8)] = &[
    ("mkdir", b"\x0e\0\0\0\x02/d\0\0\0\0", b's'),
    ("open", b"\x03\0\0\0\x01f\0\0\0\x0b\0\0\0\0", b'h'),
    ("write", WRITE, b's'),
    ("read", READ, b'd'),
    ("fstat", b"\x08\0\0\0\x0c\0\0\0\0\0\0\0\0\0\0\0\0", b'a'),
    ("fsetstat", FSETSTAT, b's'),
    ("fsync", FSYNC, b's'),
    ("stat", b"\x11\0\0\0\x01f", b'a'),
    ("lstat", b"\x07\0\0\0\x01f", b'a'),
    ("setstat", b"\x09\0\0\0\x01f\0\0\0\0", b's'),
    ("symlink", b"\x14\0\0\0\x01f\0\0\0\x01l", b's'),
    ("readlink", b"\x13\0\0\0\x01l", b'n'),
    ("realpath", b"\x10\0\0\0\x01l", b'n'),
    ("hardlink", HARDLINK, b's'),
    ("rename", b"\x12\0\0\0\x01g\0\0\0\x01k", b's'),
    ("posix rename", POSIX_RENAME, b's'),
    ("opendir", b"\x0b\0\0\0\x01/", b'h'),
    ("readdir", READDIR, b'n'),
    ("close", b"\x04\0\0\0\x0c\0\0\0\0\0\0\0\0\0\0\0\0", b's'),
    ("remove", b"\x0d\0\0\0\x01l", b's'),
    ("rmdir", b"\x0f\0\0\0\x02/d", b's'),
    ("limits", b"\xc8\0\0\0\x12limits@sftpv3.test", b'x'),
    ("unknown", b"\xc8\0\0\0\x01x", b's'),
];

/// What a server answers to a request, as the session sends it.
fn exchanged(
    alloc: Global,
    pairing: &mut Pairing,
    session: &mut Session<SlabTable>,
    asked: &[u8],
) -> Option<Reply> {
    match ask_of(alloc, asked) {
        Some(ask) => {
            let sent = pairing.send(ask);
            let reply = answered(session, &sent);
            drop(sent);
            reply
        }
        None => None,
    }
}

fn answered(
    session: &mut Session<SlabTable>,
    sent: &Result<Request, ClientError>,
) -> Option<Reply> {
    match sent {
        Ok(request) => session.answer(request).ok(),
        Err(_) => None,
    }
}

/// The letter of an answer's kind.
fn kind_of(answer: &Answer) -> u8 {
    match answer {
        Answer::Status { .. } => b's',
        Answer::Handle(_) => b'h',
        Answer::Data(_) => b'd',
        Answer::Name(_) => b'n',
        Answer::Attrs(_) => b'a',
        Answer::Extended(_) => b'x',
    }
}

/// Whether a session pairs a reply, which is of this kind.
fn is_paired(pairing: &mut Pairing, reply: Reply, kind: u8) -> bool {
    let is_kind = kind_of(&reply.answer) == kind;
    match pairing.on_reply(reply) {
        Ok((request, reply)) => {
            drop(request);
            drop(reply);
            is_kind
        }
        Err(_) => false,
    }
}

/// Whether a request gets a reply of this kind, which the session pairs.
fn is_exchanged(
    alloc: Global,
    pairing: &mut Pairing,
    session: &mut Session<SlabTable>,
    asked: &[u8],
    kind: u8,
) -> bool {
    match exchanged(alloc, pairing, session, asked) {
        Some(reply) => is_paired(pairing, reply, kind),
        None => false,
    }
}

/// The name of the first request whose reply is not of its kind, or is not paired.
fn first_wrong(
    alloc: Global,
    pairing: &mut Pairing,
    session: &mut Session<SlabTable>,
) -> Option<&'static str> {
    for (name, asked, kind) in SESSION {
        if !is_exchanged(alloc, pairing, session, asked, *kind) {
            return Some(*name);
        }
    }
    None
}

/// The same of a server's new session.
fn wrong_in_session(alloc: Global, pairing: &mut Pairing) -> Option<&'static str> {
    match session(alloc) {
        Ok(mut session) => {
            let wrong = first_wrong(alloc, pairing, &mut session);
            drop(session);
            wrong
        }
        Err(_) => Some("no session"),
    }
}

#[test]
fn session_of_every_request(rt: HostRuntime) -> Result<(), Fail> {
    let mut pairing = Pairing::new(rt.alloc())?;
    let greeted = starts_with_init(rt.alloc(), &pairing);
    let started = starts(rt.alloc(), &mut pairing);
    let wrong = wrong_in_session(rt.alloc(), &mut pairing);
    drop(pairing);
    assert!(rt; greeted && started && wrong.is_none(), "{wrong:?}");
    Ok(())
}
