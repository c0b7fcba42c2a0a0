//! Readers of the fields of packets (draft, sections 3 to 5). Each reader moves `body` past what it read. After an
//! error `body` may begin anywhere.
ghost use Rattle.sftp_packets.specs.Reading.{Reads, optional_at, uint32_at, uint64_at, two_uint32_at, bytes_at};
ghost use Rattle.sftp_packets.specs.Reading.{string_at, handle_at, rest_at, name_item_at, names_at, pair_at, pairs_at};
ghost use Rattle.sftp_packets.specs.Reading.{many_at, counted_pairs_at, attribute_fields_at, attributes_at};

use bitflags::Flags;
use bytes::Buf;
use sftp_packets::{
    AttrFlags, Attrs, ByteString, Fault, HANDLE_LIMIT, NameItem, Names, Pairs, ReadError,
};
use std::alloc::Global;

/// A uint32.
#[tactic(auto, unfolding(sftp_packets::specs::Reading::uint32_at))]
pub(crate) fn number(body: &mut &[u8]) -> Result<u32, ReadError>
    ensures { Reads result body.new.now (uint32_at body.old.now) }
{
    Ok(body.try_get_u32()?)
}

/// A uint64.
#[tactic(auto, unfolding(sftp_packets::specs::Reading::uint64_at))]
pub(crate) fn long_number(body: &mut &[u8]) -> Result<u64, ReadError>
    ensures { Reads result body.new.now (uint64_at body.old.now) }
{
    Ok(body.try_get_u64()?)
}

/// Two uint32, as of a user and a group.
#[tactic(auto, unfolding(sftp_packets::specs::Reading::two_uint32_at))]
fn two_numbers(body: &mut &[u8]) -> Result<(u32, u32), ReadError>
    ensures { Reads result body.new.now (two_uint32_at body.old.now) }
{
    let first = number(body)?;
    let second = number(body)?;
    Ok((first, second))
}

/// `length` bytes.
fn bytes(alloc: Global, length: usize, body: &mut &[u8]) -> Result<ByteString, ReadError>
    ensures { Reads result body.new.now (bytes_at length body.old.now) }
{
    if body.len() < length {
        return Err(ReadError::Fault(Fault::Short));
    }
    let (front, rest) = body.split_at(length);
    *body = rest;
    Ok(ByteString::from_slice(alloc, front)?)
}

/// A string.
#[tactic(auto, unfolding(sftp_packets::specs::Reading::string_at))]
pub(crate) fn string(alloc: Global, body: &mut &[u8]) -> Result<ByteString, ReadError>
    ensures { Reads result body.new.now (string_at body.old.now) }
{
    let length = number(body)?;
    bytes(alloc, length as usize, body)
}

/// A handle. Its length is checked before its bytes.
#[tactic(auto, unfolding(sftp_packets::specs::Reading::handle_at))]
pub(crate) fn handle(alloc: Global, body: &mut &[u8]) -> Result<ByteString, ReadError>
    ensures { Reads result body.new.now (handle_at body.old.now) }
{
    let length = number(body)? as usize;
    if length > HANDLE_LIMIT {
        return Err(ReadError::Fault(Fault::HandleTooLong));
    }
    bytes(alloc, length, body)
}

/// All bytes that are left.
pub(crate) fn rest(alloc: Global, body: &mut &[u8]) -> Result<ByteString, ReadError>
    ensures { Reads result body.new.now (rest_at body.old.now) }
{
    let bytes = ByteString::from_slice(alloc, body)?;
    *body = &[];
    Ok(bytes)
}

/// A name and its data.
#[tactic(auto, unfolding(sftp_packets::specs::Reading::pair_at))]
fn pair(alloc: Global, body: &mut &[u8]) -> Result<(ByteString, ByteString), ReadError>
    ensures { Reads result body.new.now (pair_at body.old.now) }
{
    let name = string(alloc, body)?;
    let text = string(alloc, body)?;
    Ok((name, text))
}

/// The pairs up to the end of the body.
pub(crate) fn pairs_to_end(alloc: Global, body: &mut &[u8]) -> Result<Pairs, ReadError>
    ensures { Reads result body.new.now (pairs_at body.old.now) }
{
    let mut pairs = Vec::new(alloc);
    'pairs: while !body.is_empty() {
        let next = pair(alloc, body)?;
        pairs.push(next)?;
    }
    Ok(Pairs::new(pairs))
}

/// `count` pairs.
fn pairs(alloc: Global, count: u32, body: &mut &[u8]) -> Result<Pairs, ReadError>
    ensures { Reads result body.new.now (many_at pair_at count body.old.now) }
{
    let mut pairs = Vec::new(alloc);
    'pairs: for _ in 0..count {
        let next = pair(alloc, body)?;
        pairs.push(next)?;
    }
    Ok(Pairs::new(pairs))
}

/// Pairs after their count.
#[tactic(auto, unfolding(sftp_packets::specs::Reading::counted_pairs_at))]
fn counted_pairs(alloc: Global, body: &mut &[u8]) -> Result<Pairs, ReadError>
    ensures { Reads result body.new.now (counted_pairs_at body.old.now) }
{
    let count = number(body)?;
    pairs(alloc, count, body)
}

/// An optional uint32.
fn optional_number(there: bool, body: &mut &[u8]) -> Result<Option<u32>, ReadError>
    ensures { Reads result body.new.now (optional_at there uint32_at body.old.now) }
{
    if !there {
        return Ok(None);
    }
    Ok(Some(number(body)?))
}

/// An optional uint64.
fn optional_long_number(there: bool, body: &mut &[u8]) -> Result<Option<u64>, ReadError>
    ensures { Reads result body.new.now (optional_at there uint64_at body.old.now) }
{
    if !there {
        return Ok(None);
    }
    Ok(Some(long_number(body)?))
}

/// Two optional uint32.
fn optional_two_numbers(there: bool, body: &mut &[u8]) -> Result<Option<(u32, u32)>, ReadError>
    ensures { Reads result body.new.now (optional_at there two_uint32_at body.old.now) }
{
    if !there {
        return Ok(None);
    }
    Ok(Some(two_numbers(body)?))
}

/// Optional pairs after their count.
fn optional_counted_pairs(
    alloc: Global,
    there: bool,
    body: &mut &[u8],
) -> Result<Option<Pairs>, ReadError>
    ensures { Reads result body.new.now (optional_at there counted_pairs_at body.old.now) }
{
    if !there {
        return Ok(None);
    }
    Ok(Some(counted_pairs(alloc, body)?))
}

/// The fields that the flags name.
// Slow to prove, with five reads that may fail; fewer would need a definition for each part.
#[tactic(auto, unfolding(sftp_packets::specs::Reading::attribute_fields_at))]
fn attribute_fields(alloc: Global, flags: AttrFlags, body: &mut &[u8]) -> Result<Attrs, ReadError>
    ensures { Reads result body.new.now (attribute_fields_at flags.0 body.old.now) }
{
    let size = optional_long_number(flags.contains(AttrFlags::SIZE), body)?;
    let owner = optional_two_numbers(flags.contains(AttrFlags::OWNER), body)?;
    let permissions = optional_number(flags.contains(AttrFlags::PERMISSIONS), body)?;
    let times = optional_two_numbers(flags.contains(AttrFlags::TIMES), body)?;
    let extended = optional_counted_pairs(alloc, flags.contains(AttrFlags::EXTENDED), body)?;
    Ok(Attrs {
        size,
        owner,
        permissions,
        times,
        extended,
    })
}

/// Attributes: the flags, which must all be known, and the fields that they name.
#[tactic(auto, unfolding(sftp_packets::specs::Reading::attributes_at, bitflags::proofs::OnLiterals::bitflags_on_literals))]
pub(crate) fn attributes(alloc: Global, body: &mut &[u8]) -> Result<Attrs, ReadError>
    ensures { Reads result body.new.now (attributes_at body.old.now) }
{
    let bits = number(body)?;
    match AttrFlags::from_bits(bits) {
        Some(flags) => attribute_fields(alloc, flags, body),
        None => Err(ReadError::Fault(Fault::Flags)),
    }
}

/// One name of a directory.
#[tactic(auto, unfolding(sftp_packets::specs::Reading::name_item_at))]
fn name_item(alloc: Global, body: &mut &[u8]) -> Result<NameItem, ReadError>
    ensures { Reads result body.new.now (name_item_at body.old.now) }
{
    let filename = string(alloc, body)?;
    let longname = string(alloc, body)?;
    let attrs = attributes(alloc, body)?;
    Ok(NameItem {
        filename,
        longname,
        attrs,
    })
}

/// `count` names.
fn name_items(alloc: Global, count: u32, body: &mut &[u8]) -> Result<Names, ReadError>
    ensures { Reads result body.new.now (many_at name_item_at count body.old.now) }
{
    let mut items = Vec::new(alloc);
    'items: for _ in 0..count {
        let next = name_item(alloc, body)?;
        items.push(next)?;
    }
    Ok(Names::new(items))
}

/// Names after their count.
#[tactic(auto, unfolding(sftp_packets::specs::Reading::names_at))]
pub(crate) fn names(alloc: Global, body: &mut &[u8]) -> Result<Names, ReadError>
    ensures { Reads result body.new.now (names_at body.old.now) }
{
    let count = number(body)?;
    name_items(alloc, count, body)
}
