//! The packet in front of the bytes of a stream (draft, section 3): its length, its type, its fields, and nothing else.
ghost use Rattle.std.specs.Prelude.{◌≡◌, ◌⊎◌, List, ℕ, ◌++◌, length, IfOk, IfSome};
ghost use Rattle.sftp_packets.specs.declared.packets.Packet.{Packet};
ghost use Rattle.sftp_packets.specs.Packets.{HasSpelling, side_of, spelling, packet_of};
ghost use Rattle.sftp_packets.specs.Reading.{Gives};
ghost use Rattle.sftp_wire.specs.Fronts.{IsReading, StandsInFront, front_of};

use sftp_codec::read_fields;
use sftp_packets::{Fault, PACKET_LIMIT, Packet, ReadError, Side, WireError, take_number};
use std::alloc::Global;

/// The packet after a length.
#[tactic(auto, unfolding(sftp_packets::specs::Packets::packet_of))]
#[inline(always)]
fn whole_packet(alloc: Global, side: Side, bytes: &[u8]) -> Result<Packet, ReadError>
    ensures { Gives result (packet_of side bytes.now) }
{
    let [kind, rest @ ..] = bytes else {
        return Err(ReadError::Fault(Fault::Short));
    };
    let mut body = rest;
    match read_fields(alloc, side, *kind, &mut body) {
        Ok(packet) => {
            if body.is_empty() {
                return Ok(packet);
            }
            drop(packet);
            Err(ReadError::Fault(Fault::Trailing))
        }
        Err(error) => Err(error),
    }
}

/// The packet in front, and how many bytes it takes.
#[tactic(auto, unfolding(crate::specs::Fronts::front_of))]
#[inline(always)]
fn read_front(alloc: Global, bytes: &[u8], side: Side) -> Result<Option<(Packet, usize)>, ReadError>
    ensures { Gives result (front_of side bytes.now) }
{
    let Some((size, rest)) = take_number(bytes) else {
        return Ok(None);
    };
    let size = size as usize;
    let taken = size + 4;
    if size == 0 || taken > PACKET_LIMIT {
        return Err(ReadError::Fault(Fault::Length));
    }
    if bytes.len() < taken {
        return Ok(None);
    }
    match whole_packet(alloc, side, &rest[..size]) {
        Ok(packet) => Ok(Some((packet, taken))),
        Err(error) => Err(error),
    }
}

/// The same, with the place of a fault. Called, and not inlined, each level above `client_packet` copies the packet.
#[inline(always)]
fn placed_front(
    alloc: Global,
    bytes: &[u8],
    side: Side,
) -> Result<Option<(Packet, usize)>, WireError>
    ensures { IsReading result (front_of side bytes.now) }
{
    match read_front(alloc, bytes, side) {
        Ok(front) => Ok(front),
        Err(ReadError::NoMemory) => Err(WireError::NoMemory),
        Err(ReadError::Fault(fault)) => Err(WireError::Unreadable { fault, place: 0 }),
    }
}

/// The packet in front of `bytes`, of that side, and how many bytes it takes; `None` where not all of them have come.
///
/// # Errors
///
/// `Unreadable` with the first fault from the left, at place 0: a length field out of range as soon as its four bytes
/// have come, any other fault once the whole packet has. `NoMemory` if memory runs out. It returns no other error.
#[inline(always)]
pub fn front(alloc: Global, bytes: &[u8], side: Side) -> Result<Option<(Packet, usize)>, WireError>
    // It returns what reading from left to right gives: the packet, or the first fault.
    ensures exact { IsReading result (front_of side bytes.now) }
    // A packet that it returns is spelled in front.
    ensures found { IfOk result
        (λ front. IfSome front (λ f. StandsInFront side bytes.now f.0 f.1)) }
    // It returns the packet that is spelled in front, or memory runs out.
    ensures only { (packet : Packet) (rest : List ℕ) → HasSpelling packet → side_of packet ≡ side
        → bytes.now ≡ spelling packet ++ rest
        → (result ≡ Ok (Some (packet, length (spelling packet)))) ⊎ (result ≡ Err WireError.NoMemory) }
{
    placed_front(alloc, bytes, side)
}
