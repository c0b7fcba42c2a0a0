//! The data of extensions, as they are read (draft, sections 3 and 8).
ghost use Rattle.std.specs.Prelude.{◌≡◌, IfOk};
ghost use Rattle.sftp_packets.specs.Reading.{Reads, string_at, uint64_at};
ghost use Rattle.sftp_profile.specs.Replaced.{ask_in};
ghost use Rattle.sftp_profile.specs.Replaced.{setstat_in};

use bytes::Buf;
use sftp_codec::read_fields;
use sftp_packets::{Fault, ReadError};
use sftp_tree::NoMemory;
use sftp_wire::{Ask, ByteString, Packet, Request, Side};
use std::alloc::Global;

/// The type of SETSTAT (draft, section 6.9).
const SETSTAT: u8 = 9;

/// The SETSTAT of the path and the attributes that these bytes spell; `None` if they do not, or go on behind them. The
/// fields of a packet begin with an id, so they are read behind one.
///
/// # Errors
///
/// `NoMemory` if memory runs out.
pub(crate) fn setstat_in(alloc: Global, rest: &[u8]) -> Result<Option<Ask>, NoMemory>
    ensures { IfOk result (λ ask. ask ≡ setstat_in rest.now) }
{
    let mut body = Vec::from_slice(alloc, &[0, 0, 0, 0])?;
    body.extend_from_slice(rest)?;
    let mut left = body.as_slice();
    match read_fields(alloc, Side::Client, SETSTAT, &mut left) {
        Ok(packet) => Ok(ask_in(packet, left.is_empty())),
        Err(ReadError::Fault(_)) => Ok(None),
        Err(ReadError::NoMemory) => Err(NoMemory),
    }
}

/// What a packet asks for, if it is a request and nothing is left behind it.
fn ask_in(packet: Packet, is_whole: bool) -> Option<Ask>
    ensures { result ≡ ask_in packet is_whole }
{
    match packet {
        Packet::Request(Request { ask, .. }) if is_whole => Some(ask),
        other => {
            drop(other);
            None
        }
    }
}

/// A uint64 in front of the data, which it moves past.
#[tactic(auto, unfolding(sftp_packets::specs::Reading::uint64_at))]
pub(crate) fn long_number(rest: &mut &[u8]) -> Result<u64, ReadError>
    ensures { Reads result rest.new.now (uint64_at rest.old.now) }
{
    Ok(rest.try_get_u64()?)
}

/// A string in front of the data, which it moves past.
#[tactic(auto, unfolding(sftp_packets::specs::Reading::string_at, sftp_packets::specs::Reading::uint32_at))]
pub(crate) fn string(alloc: Global, rest: &mut &[u8]) -> Result<ByteString, ReadError>
    ensures { Reads result rest.new.now (string_at rest.old.now) }
{
    let length = rest.try_get_u32()? as usize;
    if rest.len() < length {
        return Err(ReadError::Fault(Fault::Short));
    }
    let (front, behind) = rest.split_at(length);
    *rest = behind;
    Ok(ByteString::from_slice(alloc, front)?)
}
