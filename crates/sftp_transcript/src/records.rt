//! The records of transcript files, read from the bytes held. This profile's own; the packets in them are those of
//! draft-ietf-secsh-filexfer-02, section 4 on.
ghost use Rattle.std.specs.Prelude.{◌≡◌, ℕ, List, ◌++◌, ◌<◌, length, IfOk, IfErr, OnOk, OnErr, IsTrue, false};
ghost use Rattle.sftp_packets.specs.Packets.{spelling, HasSpelling, side_of};
ghost use Rattle.sftp_transcript.specs.declared.events.Event.{Event};
ghost use Rattle.sftp_transcript.specs.Transcript.{transcript_opening, IsRecord};
ghost use Rattle.sftp_transcript.specs.Transcript.{side_of_direction, read_fault, Begins};
ghost use Rattle.sftp_transcript.specs.Transcript.{IsInit, IsVersion};
ghost use Rattle.sftp_transcript.specs.Transcript.{PacketFault, RecordFault, KindFault, IsEventPacket};
ghost use Rattle.sftp_transcript.specs.Packets.{MayCome, event_from};

use crate::errors::TranscriptError;
use crate::events::Event;
use crate::stage::Stage;
use sftp_wire::{Fault, Packet, Side, WireError, front};
use std::alloc::Global;

/// What a transcript file begins with.
pub const OPENING: [u8; 8] = *b"SFTPTR01";

/// The version of the protocol (draft, section 4).
const PROTOCOL_VERSION: u32 = 3;

/// The bytes after the opening.
pub(crate) fn take_opening(bytes: &[u8]) -> Result<&[u8], TranscriptError>
    ensures found { IfOk result (λ rest. bytes.now ≡ transcript_opening ++ rest.now) }
    ensures refused { IfErr result (λ error. error ≡ TranscriptError.Magic 0) }
    ensures none { OnErr result ((rest : List ℕ) → bytes.now ≡ transcript_opening ++ rest → ⊥) }
{
    bytes
        .strip_prefix(&OPENING)
        .ok_or(TranscriptError::Magic { record: 0 })
}

/// The packet of the record in front, if it may come at this stage, and the bytes after it. `Start` if no byte is left
/// or the packet may not come.
#[inline(always)]
pub(crate) fn take_next(
    alloc: Global,
    bytes: &[u8],
    stage: Stage,
    number: u64,
) -> Result<(Packet, &[u8]), TranscriptError>
    ensures found { IfOk result (λ taken. MayCome stage taken.0 × Begins bytes.now taken.0 taken.1.now) }
    ensures shorter { IfOk result (λ taken. length taken.1.now < length bytes.now) }
    ensures refused { IfErr result (KindFault (MayCome stage) number bytes.now) }
{
    match take_record(alloc, bytes, number) {
        Ok((packet, rest)) => {
            if may_come(&packet, stage) {
                return Ok((packet, rest));
            }
            drop(packet);
            Err(TranscriptError::Start { record: number })
        }
        Err(error) => Err(error),
    }
}

/// Whether the packet may come at this stage.
#[inline(always)]
fn may_come(packet: &Packet, stage: Stage) -> bool
    ensures yes { IsTrue result → MayCome stage packet.now }
    ensures no { result ≡ false → MayCome stage packet.now → ⊥ }
{
    match stage {
        Stage::Opening => is_init(packet),
        Stage::Init => is_init(packet),
        Stage::Version => is_version(packet),
        Stage::Events => is_event(packet),
    }
}

/// Whether the packet is an INIT of version 3 or more.
fn is_init(packet: &Packet) -> bool
    ensures yes { IsTrue result → IsInit packet.now }
    ensures no { result ≡ false → IsInit packet.now → ⊥ }
{
    match packet {
        Packet::Init { version, .. } => *version >= PROTOCOL_VERSION,
        Packet::Version { .. } | Packet::Request(_) | Packet::Reply(_) => false,
    }
}

/// Whether the packet is a VERSION 3.
fn is_version(packet: &Packet) -> bool
    ensures yes { IsTrue result → IsVersion packet.now }
    ensures no { result ≡ false → IsVersion packet.now → ⊥ }
{
    match packet {
        Packet::Version { version, .. } => *version == PROTOCOL_VERSION,
        Packet::Init { .. } | Packet::Request(_) | Packet::Reply(_) => false,
    }
}

/// Whether the packet is a request or a reply.
#[inline(always)]
fn is_event(packet: &Packet) -> bool
    ensures yes { IsTrue result → IsEventPacket packet.now }
    ensures no { result ≡ false → IsEventPacket packet.now → ⊥ }
{
    match packet {
        Packet::Request(_) => true,
        Packet::Reply(_) => true,
        Packet::Init { .. } => false,
        Packet::Version { .. } => false,
    }
}

/// The event of a packet; none if the packet is an INIT or a VERSION.
#[inline(always)]
pub(crate) fn event_of(packet: Packet) -> Option<Event>
    ensures { result ≡ event_from packet }
{
    match packet {
        Packet::Request(request) => Some(Event::Asked(request)),
        Packet::Reply(reply) => Some(Event::Replied(reply)),
        Packet::Init { .. } => None,
        Packet::Version { .. } => None,
    }
}

/// The packet of the record in front, and the bytes after it. `Start` if no byte is left.
#[inline(always)]
fn take_record(alloc: Global, bytes: &[u8], number: u64) -> Result<(Packet, &[u8]), TranscriptError>
    ensures found { IfOk result (λ taken. Begins bytes.now taken.0 taken.1.now) }
    ensures refused { IfErr result (RecordFault number bytes.now) }
{
    match bytes {
        [] => Err(TranscriptError::Start { record: number }),
        [direction, spelled @ ..] => match side_of_direction(*direction) {
            Some(side) => take_packet(alloc, spelled, side, number),
            None => Err(TranscriptError::Direction { record: number }),
        },
    }
}

/// The side that sent the packet that follows this byte.
fn side_of_direction(direction: u8) -> Option<Side>
    ensures { result ≡ side_of_direction direction }
{
    match direction {
        b'C' => Some(Side::Client),
        b'S' => Some(Side::Server),
        _ => None,
    }
}

/// The packet in front, and the bytes after it.
#[inline(always)]
fn take_packet(
    alloc: Global,
    bytes: &[u8],
    side: Side,
    number: u64,
) -> Result<(Packet, &[u8]), TranscriptError>
    ensures found { IfOk result (λ taken. HasSpelling taken.0 × (side_of taken.0 ≡ side)
        × (bytes.now ≡ spelling taken.0 ++ taken.1.now)) }
    ensures refused { IfErr result (PacketFault number side bytes.now) }
{
    match front(alloc, bytes, side) {
        Ok(Some((packet, length))) => Ok((packet, &bytes[length..])),
        Ok(None) => Err(TranscriptError::Truncated { record: number }),
        Err(error) => Err(read_fault(error, number)),
    }
}

/// The fault of a record whose packet cannot be read or written. A packet that is too long, or has a handle that is, is
/// a fault of its length, and one that hides an extension a fault of its type: `front` returns neither.
pub(crate) fn read_fault(error: WireError, number: u64) -> TranscriptError
    ensures { result ≡ read_fault number error }
{
    match error {
        WireError::NoMemory => TranscriptError::NoMemory,
        WireError::TooLong => TranscriptError::Wire {
            fault: Fault::Length,
            record: number,
        },
        WireError::NotCanonical => TranscriptError::Wire {
            fault: Fault::WrongType,
            record: number,
        },
        WireError::Unreadable { fault, .. } => TranscriptError::Wire {
            fault,
            record: number,
        },
    }
}

/// Bytes record one list of events at most. The function does nothing; the promise is in the contract.
pub fn records_are_one()
    ensures { (events others : List Event) (bytes : List ℕ) →
        IsRecord events bytes → IsRecord others bytes → events ≡ others }
{}
