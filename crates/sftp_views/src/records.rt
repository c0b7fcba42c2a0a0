//! A record, and what is shown of it.

use sftp_wire::{Packet, Reply, Request, Side};

/// A record of a transcript.
#[derive(Drop)]
pub(crate) struct Recorded {
    /// Its number, from 1.
    pub(crate) number: u64,
    pub(crate) side: Side,
    pub(crate) packet: Packet,
    /// How many bytes the packet has, its length field included.
    pub(crate) length: usize,
    /// When it was there, in nanoseconds from the start on, if that is known.
    pub(crate) time: Option<u64>,
    /// Whether it is a request to the file that is followed.
    pub(crate) is_followed: bool,
}

impl Recorded {
    /// The request that the record is, if it is one.
    pub(crate) fn request(&self) -> Option<&Request> {
        match &self.packet {
            Packet::Request(request) => Some(request),
            _ => None,
        }
    }

    /// The reply that the record is, if it is one.
    pub(crate) fn reply(&self) -> Option<&Reply> {
        match &self.packet {
            Packet::Reply(reply) => Some(reply),
            _ => None,
        }
    }
}

/// What is shown of a reply beside its packet.
#[derive(Clone, Copy)]
pub(crate) struct Answered {
    /// The number of its request's record.
    pub(crate) request: u64,
    /// How many nanoseconds the request took, if that is known.
    pub(crate) took: Option<u64>,
    /// The number of the oldest request that was asked before, and is not answered yet.
    pub(crate) overtook: Option<u64>,
}

/// What a reply answers: its request, and the oldest request that is not answered yet.
pub(crate) fn reply_of(reply: &Recorded, asked: &Recorded, oldest: Option<u64>) -> Answered {
    Answered {
        request: asked.number,
        took: between(asked.time, reply.time),
        overtook: oldest.filter(|number| *number < asked.number),
    }
}

/// How many nanoseconds are between two times that are known.
fn between(start: Option<u64>, end: Option<u64>) -> Option<u64> {
    Some(end?.saturating_sub(start?))
}
