//! What a line says of a packet, beside its name: its id or version, and its paths (draft, sections 3 to 8).

use crate::quoted::Quoted;
use sftp_tree::{new_path_of, path_of};
use sftp_wire::{Answer, Ask, Packet};
use std::fmt;

/// The id of a request or a reply, or the version of an INIT or a VERSION.
pub(crate) fn number(packet: &Packet) -> u32 {
    match packet {
        Packet::Init { version, .. } => *version,
        Packet::Version { version, .. } => *version,
        Packet::Request(request) => request.id,
        Packet::Reply(reply) => reply.id,
    }
}

/// Writes the code of a status, or the paths of a request, each with a space before it.
pub(crate) fn put_details<W: fmt::Write>(
    packet: &Packet,
    f: &mut fmt::Formatter<W>,
) -> fmt::Result {
    match packet {
        Packet::Request(request) => put_paths(&request.ask, f),
        Packet::Reply(reply) => put_code(&reply.answer, f),
        Packet::Init { .. } | Packet::Version { .. } => Ok(()),
    }
}

fn put_code<W: fmt::Write>(answer: &Answer, f: &mut fmt::Formatter<W>) -> fmt::Result {
    match answer {
        Answer::Status { code, .. } => write!(f, " code {code}"),
        _ => Ok(()),
    }
}

/// The paths in the packet's order. The target of SYMLINK, which is not walked, comes first.
fn put_paths<W: fmt::Write>(ask: &Ask, f: &mut fmt::Formatter<W>) -> fmt::Result {
    if let Ask::Symlink { targetpath, .. } = ask {
        put_path(targetpath.as_slice(), f)?;
    }
    for path in [path_of(ask), new_path_of(ask)] {
        if let Some(path) = path {
            put_path(path, f)?;
        }
    }
    Ok(())
}

fn put_path<W: fmt::Write>(path: &[u8], f: &mut fmt::Formatter<W>) -> fmt::Result {
    let path = Quoted(path);
    write!(f, " {path}")
}
