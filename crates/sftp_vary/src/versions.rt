//! What is free in VERSION: the pairs of names and data that it announces.
ghost use Rattle.std.specs.Prelude.{IfSome};
ghost use Rattle.sftp_packets.specs.Packets.{HasSpelling};
ghost use Rattle.sftp_transcript.specs.Transcript.{IsVersion};

use crate::dice::Dice;
use crate::freedoms::{Freedom, Variation};
use crate::spelled::is_spelled;
use crate::texts::any_bytes;
use sftp_tree::NoMemory;
use sftp_wire::{ByteString, KNOWN_EXTENSIONS, Packet, Pairs};
use std::alloc::Global;

/// The version of the protocol.
const VERSION: u32 = 3;

/// How many bytes the data of a long pair has at most, so that the packet has no more than the 34,000 that each client
/// should take (section 3).
const LONG: usize = 30_000;

/// A VERSION of any pairs, which the seed fixes, if they are free: none; those of this program in any order, with other
/// data, twice, or among others; many, or a long one. `None` stands for the usual one: the pairs are not free, or
/// memory ran out.
pub fn any_version(alloc: Global, variation: Option<Variation>) -> Option<Packet>
    ensures version { IfSome result IsVersion }
    ensures spelled { IfSome result HasSpelling }
{
    let Some(variation) = variation else {
        return None;
    };
    if !variation.freedoms.has(Freedom::Versions) {
        return None;
    }
    let mut dice = Dice::new(variation.seed, Freedom::Versions.number());
    match any_pairs(&mut dice, alloc) {
        Ok(pairs) => announced(alloc, pairs),
        Err(NoMemory) => None,
    }
}

/// The VERSION of these pairs, if it can be encoded, and there is memory to see that.
fn announced(alloc: Global, pairs: Vec<(ByteString, ByteString)>) -> Option<Packet>
    ensures version { IfSome result IsVersion }
    ensures spelled { IfSome result HasSpelling }
{
    let packet = Packet::Version {
        version: VERSION,
        extensions: Pairs::new(pairs),
    };
    if is_spelled(alloc, &packet) {
        Some(packet)
    } else {
        drop(packet);
        None
    }
}

/// Pairs of one of eight kinds.
fn any_pairs(dice: &mut Dice, alloc: Global) -> Result<Vec<(ByteString, ByteString)>, NoMemory> {
    let mut pairs = Vec::new(alloc);
    match put_any(&mut pairs, dice, alloc) {
        Ok(()) => Ok(pairs),
        Err(error) => {
            drop(pairs);
            Err(error)
        }
    }
}

/// Adds pairs of one of eight kinds.
fn put_any(
    pairs: &mut Vec<(ByteString, ByteString)>,
    dice: &mut Dice,
    alloc: Global,
) -> Result<(), NoMemory> {
    match dice.below(8) {
        0 => Ok(()),
        1 => put_known(pairs, dice, b"1", alloc),
        2 => put_known(pairs, dice, b"", alloc),
        3 => put_known(pairs, dice, b"1,2\xff", alloc),
        4 => {
            put_others(pairs, dice, 3, alloc)?;
            put_known(pairs, dice, b"1", alloc)
        }
        5 => put_others(pairs, dice, 200, alloc),
        6 => {
            put_known(pairs, dice, b"1", alloc)?;
            put_long(pairs, dice, alloc)
        }
        _ => {
            put_known(pairs, dice, b"1", alloc)?;
            put_known(pairs, dice, b"2", alloc)
        }
    }
}

/// Adds the names that this program announces, from any one on, with these data.
fn put_known(
    pairs: &mut Vec<(ByteString, ByteString)>,
    dice: &mut Dice,
    data: &[u8],
    alloc: Global,
) -> Result<(), NoMemory> {
    let count = KNOWN_EXTENSIONS.len();
    let first = dice.below(count);
    for step in 0..count {
        let name = KNOWN_EXTENSIONS[(first + step) % count];
        put(pairs, name, data, alloc)?;
    }
    Ok(())
}

/// Adds so many names that nobody knows, with data of any bytes.
fn put_others(
    pairs: &mut Vec<(ByteString, ByteString)>,
    dice: &mut Dice,
    count: usize,
    alloc: Global,
) -> Result<(), NoMemory> {
    for _ in 0..count {
        let name = format!(in alloc; "vary-{}@sftpv3.test", dice.number())?;
        let length = dice.below(64);
        let data = any_bytes(dice, length, alloc)?;
        put(pairs, name.as_bytes(), data.as_slice(), alloc)?;
    }
    Ok(())
}

/// Adds a pair of long data.
fn put_long(
    pairs: &mut Vec<(ByteString, ByteString)>,
    dice: &mut Dice,
    alloc: Global,
) -> Result<(), NoMemory> {
    let length = dice.below(LONG);
    let data = any_bytes(dice, length, alloc)?;
    put(pairs, b"vary@sftpv3.test", data.as_slice(), alloc)
}

/// Adds a pair.
fn put(
    pairs: &mut Vec<(ByteString, ByteString)>,
    name: &[u8],
    data: &[u8],
    alloc: Global,
) -> Result<(), NoMemory> {
    let name = ByteString::from_slice(alloc, name)?;
    match ByteString::from_slice(alloc, data) {
        Ok(data) => {
            pairs.push((name, data))?;
            Ok(())
        }
        Err(_) => {
            drop(name);
            Err(NoMemory)
        }
    }
}
