//! Packets that are not written, packets after other bytes, and the texts of errors.
use super::{attributes, long, reply, request, written};
use crate::scripts::request as request_of;
use sftp_wire::{Answer, Ask, ByteString, Fault, Packet, WireError, encode};
use std::alloc::Global;

/// The bytes in front of which a refused packet leaves nothing.
const KEPT: &[u8] = b"kept";

/// Whether a packet is refused with that error, and the bytes stay as they were.
fn is_refused(alloc: Global, packet: Packet, expected: WireError) -> bool {
    let mut out = Vec::new(alloc);
    let is_kept = out.extend_from_slice(KEPT).is_ok();
    let said = encode(&packet, &mut out);
    drop(packet);
    is_kept && said == Err(expected) && out.as_slice() == KEPT
}

/// A request on a handle: `c` CLOSE, `r` READ, `w` WRITE, `t` FSTAT, `s` FSETSTAT, `d` READDIR, and else fsync.
fn on_handle(alloc: Global, kind: u8, handle: ByteString) -> Ask {
    let (offset, len) = (0, 0);
    match kind {
        b'c' => Ask::Close { handle },
        b'r' => Ask::Read {
            handle,
            offset,
            len,
        },
        b'w' => Ask::Write {
            handle,
            offset,
            bytes: ByteString::new(Vec::new(alloc)),
        },
        b't' => Ask::Fstat { handle },
        b's' => Ask::Fsetstat {
            handle,
            attrs: attributes(None),
        },
        b'd' => Ask::Readdir { handle },
        _ => Ask::Fsync { handle },
    }
}

/// A packet with these bytes: `h` HANDLE, `b` DATA, and else a request on that handle.
fn packet_with(alloc: Global, kind: u8, bytes: ByteString) -> Packet {
    match kind {
        b'h' => reply(1, Answer::Handle(bytes)),
        b'b' => reply(1, Answer::Data(bytes)),
        _ => request(1, on_handle(alloc, kind, bytes)),
    }
}

/// Whether a packet of that kind with so many bytes is too long.
fn is_too_long(alloc: Global, kind: u8, length: usize) -> bool {
    match long(alloc, length) {
        Ok(bytes) => is_refused(alloc, packet_with(alloc, kind, bytes), WireError::TooLong),
        Err(_) => false,
    }
}

/// Handles of 257 bytes, and a packet of 262,145.
const TOO_LONG: &[(u8, usize)] = &[
    (b'c', 257),
    (b'r', 257),
    (b'w', 257),
    (b't', 257),
    (b's', 257),
    (b'd', 257),
    (b'f', 257),
    (b'h', 257),
    (b'b', 262_132),
];

#[test]
fn too_long(rt: HostRuntime) {
    for (kind, length) in TOO_LONG {
        assert!(rt; is_too_long(rt.alloc(), *kind, *length), "{kind}");
    }
}

/// A request for the extension of that name, as if it were not known, with so many bytes after it.
fn hidden(alloc: Global, name: ByteString, length: usize) -> Option<Packet> {
    match long(alloc, length) {
        Ok(rest) => Some(request(1, Ask::Unknown { name, rest })),
        Err(_) => {
            drop(name);
            None
        }
    }
}

/// Whether it is refused with that error.
fn is_hidden(alloc: Global, name: &[u8], length: usize, expected: WireError) -> bool {
    let packet = match ByteString::from_slice(alloc, name) {
        Ok(name) => hidden(alloc, name, length),
        Err(_) => None,
    };
    match packet {
        Some(packet) => is_refused(alloc, packet, expected),
        None => false,
    }
}

/// Names of known extensions, so many bytes after them, and the error. As an unknown one such a packet is not
/// canonical, up to the longest packet. One byte more is too long first.
const HIDDEN: &[(&[u8], usize, WireError)] = &[
    (b"posix-rename@openssh.com", 5, WireError::NotCanonical),
    (b"hardlink@openssh.com", 5, WireError::NotCanonical),
    (b"fsync@openssh.com", 5, WireError::NotCanonical),
    (b"limits@sftpv3.test", 0, WireError::NotCanonical),
    (b"fsync@openssh.com", 262_114, WireError::NotCanonical),
    (b"fsync@openssh.com", 262_115, WireError::TooLong),
];

#[test]
fn known_extensions_as_unknown_ones(rt: HostRuntime) {
    for (name, length, expected) in HIDDEN {
        assert!(rt;
            is_hidden(rt.alloc(), name, *length, *expected),
            "{length}: {name:?}"
        );
    }
}

/// Errors that no session shows, and their texts.
const TEXTS: &[(WireError, &str)] = &[
    (
        WireError::Unreadable {
            fault: Fault::HandleTooLong,
            place: 18_446_744_073_709_551_615,
        },
        "HandleTooLong at 18446744073709551615",
    ),
    (WireError::TooLong, "TooLong"),
    (WireError::NotCanonical, "NotCanonical"),
    (WireError::NoMemory, "NoMemory"),
];

/// Whether an error has this text.
fn says(alloc: Global, error: WireError, expected: &str) -> bool {
    match format!(in alloc; "{error}") {
        Ok(text) => text.as_str() == expected,
        Err(_) => false,
    }
}

#[test]
fn texts(rt: HostRuntime) {
    for (error, expected) in TEXTS {
        assert!(rt; says(rt.alloc(), *error, expected), "{expected}");
    }
}

/// RMDIR of `/a`, and its packet behind other bytes.
const RMDIR: &[u8] = b"\x0f\0\0\0\x02/a";

const RMDIR_BEHIND: &[u8] = b"kept\0\0\0\x0b\x0f\0\0\0\x01\0\0\0\x02/a";

/// Whether a packet is written behind other bytes as these.
fn is_behind(alloc: Global, packet: Packet, bytes: &[u8]) -> bool {
    let mut before = Vec::new(alloc);
    let is_kept = before.extend_from_slice(KEPT).is_ok();
    let (said, out) = written(before, packet);
    is_kept && said == Ok(()) && out.as_slice() == bytes
}

fn writes_behind(alloc: Global) -> bool {
    match request_of(alloc, 1, RMDIR) {
        Ok(asked) => is_behind(alloc, Packet::Request(asked), RMDIR_BEHIND),
        Err(_) => false,
    }
}

/// Cases have packets of each kind and of the greatest length.
#[test]
fn packets_that_are_written(rt: HostRuntime) {
    assert!(rt; writes_behind(rt.alloc()));
}
