//! The packets of both sides, their limits, and which reply a request may get (draft, sections 3 to 7). Requests are in
//! `requests.rt`, replies in `replies.rt`.
ghost use Rattle.std.specs.Prelude.{◌≡◌, ◌<◌, ◌↔◌, IsTrue, length, option_copied};
ghost use Rattle.std.specs.Option.{IsSomeAnd};
ghost use Rattle.sftp_packets.specs.Spelling.{handle_limit};
ghost use Rattle.sftp_packets.specs.Packets.{may_get, handle_of, hides_extension};

use crate::pairs::Pairs;
use crate::replies::{Answer, STATUS, answered_handle, answered_type};
use crate::requests::{Ask, asked_handle, asks_known, reply_type};

/// The most bytes of a whole packet, its length field included. This profile's own.
pub const PACKET_LIMIT: usize = 262_144;

/// The most bytes of a handle (draft, section 7).
pub const HANDLE_LIMIT: usize = 256;

// The types of the first packets (draft, section 4).
pub const INIT: u8 = 1;

pub const VERSION: u8 = 2;

/// Who sends a packet.
#[derive(Clone, Copy, Debug, PartialEq, Eq)]
pub enum Side {
    Client,
    Server,
}

/// A request, with the id that its reply must have (draft, section 6.1).
#[derive(Debug, Drop)]
pub struct Request {
    pub id: u32,
    pub ask: Ask,
}

/// A reply, with the id of its request.
#[derive(Debug, Drop)]
pub struct Reply {
    pub id: u32,
    pub answer: Answer,
}

/// A packet of either side.
#[derive(Debug, Drop)]
pub enum Packet {
    /// The client's first packet: the highest version that it supports, and extensions (draft, section 4).
    Init { version: u32, extensions: Pairs },
    /// The server's first packet: the version of the session, and extensions (draft, section 4).
    Version { version: u32, extensions: Pairs },
    Request(Request),
    Reply(Reply),
}

/// Whether an answer of this type may be the reply to a request: each may get a STATUS, and some one other type (draft,
/// sections 6 and 7).
pub fn may_get(ask: &Ask, answer: &Answer) -> bool
    ensures { result ≡ may_get ask.now answer.now }
{
    let kind = answered_type(answer);
    kind == STATUS || kind == reply_type(ask)
}

/// The handle that a packet has.
fn handle(packet: &Packet) -> Option<&[u8]>
    ensures { option_copied result ≡ handle_of packet.now }
{
    match packet {
        Packet::Request(request) => asked_handle(&request.ask),
        Packet::Reply(reply) => answered_handle(&reply.answer),
        Packet::Init { .. } | Packet::Version { .. } => None,
    }
}

/// Whether the handle of a packet has more bytes than a handle may have (draft, section 7).
pub fn has_long_handle(packet: &Packet) -> bool
    ensures { IsTrue result ↔ IsSomeAnd (handle_of packet.now) (λ handle. handle_limit < length handle) }
{
    match handle(packet) {
        Some(handle) => handle.len() > HANDLE_LIMIT,
        None => false,
    }
}

/// Whether a packet is an `Unknown` with the name of an extension that has a request of its own.
pub fn hides_extension(packet: &Packet) -> bool
    ensures { result ≡ hides_extension packet.now }
{
    match packet {
        Packet::Request(request) => asks_known(&request.ask),
        Packet::Init { .. } | Packet::Version { .. } | Packet::Reply(_) => false,
    }
}
