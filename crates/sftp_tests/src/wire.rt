//! What tests of packets by value share, and replies that no session writes: they are read, and written again as the
//! same bytes.
//!
//! A packet is let go by `drop` alone: where it goes at the end of its block, all of its kinds are taken apart there
//! anew, which is slow to prove.
use sftp_wire::{
    Answer, Ask, Attrs, ByteString, Packet, Reply, Request, Side, WireError, encode, front,
};
use std::alloc::{AllocError, Global};

mod framing;
mod refusals;

/// What writing a packet after these bytes says, and the bytes then.
pub(crate) fn written(mut out: Vec<u8>, packet: Packet) -> (Result<(), WireError>, Vec<u8>) {
    let said = encode(&packet, &mut out);
    drop(packet);
    (said, out)
}

/// A byte string of so many bytes.
fn long(alloc: Global, length: usize) -> Result<ByteString, AllocError> {
    Ok(ByteString::new(vec![in alloc; b'h'; length]?))
}

pub(crate) fn attributes(size: Option<u64>) -> Attrs {
    Attrs {
        size,
        owner: None,
        permissions: None,
        times: None,
        extended: None,
    }
}

fn request(id: u32, ask: Ask) -> Packet {
    Packet::Request(Request { id, ask })
}

fn reply(id: u32, answer: Answer) -> Packet {
    Packet::Reply(Reply { id, answer })
}

const REPLIES: &[&[u8]] = &[
    b"\0\0\0\x13\x65\0\0\0\x10\xff\xff\xff\xff\0\0\0\0\0\0\0\x02\xc3\xa9",
    b"\0\0\0\x3d\x68\0\0\0\x13\0\0\0\x02\0\0\0\x01a\0\0\0\x05-rw a\
    \0\0\0\x07\0\0\0\0\0\0\0\x2a\0\0\x03\xe8\0\0\0\x64\0\0\x81\xa4\0\0\0\x02\xc3\xa9\0\0\0\0\0\0\0\0",
    b"\0\0\0\x09\x68\0\0\0\x01\0\0\0\0",
    b"\0\0\0\x33\x69\0\0\0\x14\x80\0\0\x0f\x80\0\0\0\0\0\0\x01\0\0\0\x01\0\0\0\x02\0\0\x41\xed\
    \xff\xff\xff\xff\0\0\0\x03\0\0\0\x01\0\0\0\x01t\0\0\0\x01d",
    b"\0\0\0\x0d\x69\0\0\0\x01\x80\0\0\0\0\0\0\0",
    b"\0\0\0\x08\xc9\0\0\0\x18\0\xc8\xff",
    b"\0\0\0\x05\xc9\0\0\0\x19",
];

/// Whether a packet was read, and is written as these bytes.
fn is_again(
    alloc: Global,
    front: &Result<Option<(Packet, usize)>, WireError>,
    bytes: &[u8],
) -> bool {
    match front {
        Ok(Some((packet, _))) => {
            let mut out = Vec::new(alloc);
            let said = encode(packet, &mut out);
            let is_same = out.as_slice() == bytes;
            drop(out);
            said == Ok(()) && is_same
        }
        _ => false,
    }
}

/// Whether a reply comes again, with the first bytes of a further packet behind it.
fn comes_again(alloc: Global, bytes: &[u8]) -> bool {
    let mut stream = Vec::new(alloc);
    let is_whole = stream.extend_from_slice(bytes).is_ok()
        && stream.extend_from_slice(b"\0\0\0\x05\x01").is_ok();
    let front = front(alloc, stream.as_slice(), Side::Server);
    drop(stream);
    let is_again = is_again(alloc, &front, bytes);
    drop(front);
    is_whole && is_again
}

#[test]
fn replies(rt: HostRuntime) {
    for bytes in REPLIES {
        assert!(rt; comes_again(rt.alloc(), bytes), "{bytes:?}");
    }
}
