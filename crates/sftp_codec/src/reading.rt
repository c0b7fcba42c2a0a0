//! Readers of packets (draft, sections 3 to 8): each reads from left to right, up to the first fault.
ghost use Rattle.sftp_packets.specs.declared.packets.Packet.{Packet};
ghost use Rattle.sftp_packets.specs.Reading.{Reads, two, uint32_at, pairs_at};
ghost use Rattle.sftp_packets.specs.Packets.{client_packet_at, server_packet_at, packet_at};

use crate::fields::{number, pairs_to_end};
use crate::replies::reply_packet;
use crate::requests::request_packet;
use sftp_packets::packets::{INIT, VERSION};
use sftp_packets::{Packet, ReadError, Side};
use std::alloc::Global;

fn init(alloc: Global, body: &mut &[u8]) -> Result<Packet, ReadError>
    ensures { Reads result body.new.now (two uint32_at pairs_at Packet.Init body.old.now) }
{
    let version = number(body)?;
    let extensions = pairs_to_end(alloc, body)?;
    Ok(Packet::Init {
        version,
        extensions,
    })
}

fn version(alloc: Global, body: &mut &[u8]) -> Result<Packet, ReadError>
    ensures { Reads result body.new.now (two uint32_at pairs_at Packet.Version body.old.now) }
{
    let version = number(body)?;
    let extensions = pairs_to_end(alloc, body)?;
    Ok(Packet::Version {
        version,
        extensions,
    })
}

/// The fields after the type of a client's packet. Inlined, it would have each caller above it copy the packet field
/// by field.
#[tactic(auto, unfolding(sftp_packets::specs::Packets::client_packet_at))]
#[inline(never)]
fn client_packet(alloc: Global, kind: u8, body: &mut &[u8]) -> Result<Packet, ReadError>
    ensures { Reads result body.new.now (client_packet_at kind body.old.now) }
{
    match kind {
        INIT => init(alloc, body),
        _ => request_packet(alloc, kind, body),
    }
}

/// The fields after the type of a server's packet. It is not inlined either.
#[tactic(auto, unfolding(sftp_packets::specs::Packets::server_packet_at))]
#[inline(never)]
fn server_packet(alloc: Global, kind: u8, body: &mut &[u8]) -> Result<Packet, ReadError>
    ensures { Reads result body.new.now (server_packet_at kind body.old.now) }
{
    match kind {
        VERSION => version(alloc, body),
        _ => reply_packet(alloc, kind, body),
    }
}

/// Reads the fields of a packet, which follow its type `kind`, from the front of `body`, and leaves what follows them.
///
/// # Errors
///
/// `Fault` with the first fault from the left; `body` is then what was not yet read. `NoMemory` if memory runs out.
#[inline(always)]
pub fn read_fields(
    alloc: Global,
    side: Side,
    kind: u8,
    body: &mut &[u8],
) -> Result<Packet, ReadError>
    ensures { Reads result body.new.now (packet_at side kind body.old.now) }
{
    match side {
        Side::Client => client_packet(alloc, kind, body),
        Side::Server => server_packet(alloc, kind, body),
    }
}
