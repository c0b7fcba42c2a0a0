//! Packets as bytes (draft, sections 3 to 8). After an error a private function may leave part of what it wrote:
//! `encode` removes it.
ghost use Rattle.std.specs.Prelude.{◌≡◌, ◌∷◌, ◌++◌, ◌<◌, ◌^◌, ◌↔◌, ◌⊎◌, length, OnOk, OnErr, IfErr, IsErrOf};
ghost use Rattle.std.specs.List.{flat_map};
ghost use Rattle.sftp_packets.specs.Spelling.{uint32, uint64, two_uint32, string, pair, pairs, counted_pairs, optional};
ghost use Rattle.sftp_packets.specs.Spelling.{attribute_flags, attribute_fields, attributes, name_item, names, with_id};
ghost use Rattle.sftp_packets.specs.Spelling.{field_bytes, fields_bytes};
ghost use Rattle.sftp_packets.specs.Requests.{ask_parts};
ghost use Rattle.sftp_packets.specs.Requests.{answer_parts};
ghost use Rattle.sftp_packets.specs.Packets.{contents, spelling, HasSpelling};
ghost use Rattle.sftp_codec.specs.Lent.{seen, all_seen};
ghost use Rattle.sftp_packets.specs.Layouts.{Extends, IsTooLong, IsNotCanonical};

use crate::lent_fields::Field::{Attributes, ExtensionName, Items, LongNumber, Number, Rest, Text};
use crate::lent_fields::Fields::{One, Three, Two};
use crate::lent_fields::{Field, Fields, with_answered, with_asked};
use crate::measuring::contents_length;
use bitflags::Flags;
use bytes::BufMut;
use sftp_packets::packets::{INIT, VERSION, has_long_handle, hides_extension};
use sftp_packets::replies::answered_type;
use sftp_packets::requests::asked_type;
use sftp_packets::{
    Answer, Ask, AttrFlags, Attrs, ByteString, NameItem, Names, PACKET_LIMIT, Packet, Pairs,
    WireError,
};
use std::alloc::AllocError;

/// A length or a count in four bytes: its low ones, which are all that it has within the limit of a packet. So only
/// `encode`, which judges the whole packet first, has to know how long it is.
fn put_length(out: &mut Vec<u8>, length: usize) -> Result<(), AllocError>
    ensures ok { OnOk result (out.new.items ≡ out.old.items ++ uint32 length) }
    ensures err { OnErr result (Extends out.old.items out.new.items) }
{
    out.put_uint(length as u64, 4)?;
    Ok(())
}

/// The length of a string, and its bytes.
fn put_bytes(out: &mut Vec<u8>, bytes: &[u8]) -> Result<(), AllocError>
    ensures ok { OnOk result (out.new.items ≡ out.old.items ++ string bytes.now) }
    ensures err { OnErr result (Extends out.old.items out.new.items) }
{
    put_length(out, bytes.len())?;
    // A copy of no bytes would still be a call.
    if !bytes.is_empty() {
        out.put_slice(bytes)?;
    }
    Ok(())
}

fn put_string(out: &mut Vec<u8>, text: &ByteString) -> Result<(), AllocError>
    ensures ok { OnOk result (out.new.items ≡ out.old.items ++ string text.now) }
    ensures err { OnErr result (Extends out.old.items out.new.items) }
{
    put_bytes(out, text.as_slice())
}

fn put_two_strings(
    out: &mut Vec<u8>,
    first: &ByteString,
    second: &ByteString,
) -> Result<(), AllocError>
    ensures ok { OnOk result (out.new.items ≡ out.old.items ++ pair (first.now, second.now)) }
    ensures err { OnErr result (Extends out.old.items out.new.items) }
{
    put_string(out, first)?;
    put_string(out, second)
}

fn put_pairs(out: &mut Vec<u8>, extensions: &Pairs) -> Result<(), AllocError>
    ensures ok { OnOk result (out.new.items ≡ out.old.items ++ pairs extensions.now) }
    ensures err { OnErr result (Extends out.old.items out.new.items) }
{
    for (name, value) in extensions.as_slice() {
        put_two_strings(out, name, value)?;
    }
    Ok(())
}

fn put_counted_pairs(out: &mut Vec<u8>, extended: &Pairs) -> Result<(), AllocError>
    ensures ok { OnOk result (out.new.items ≡ out.old.items ++ counted_pairs extended.now) }
    ensures err { OnErr result (Extends out.old.items out.new.items) }
{
    put_length(out, extended.as_slice().len())?;
    put_pairs(out, extended)
}

fn put_number(out: &mut Vec<u8>, number: u32) -> Result<(), AllocError>
    ensures ok { OnOk result (out.new.items ≡ out.old.items ++ uint32 number) }
    ensures err { OnErr result (Extends out.old.items out.new.items) }
{
    out.put_u32(number)?;
    Ok(())
}

fn put_long_number(out: &mut Vec<u8>, number: u64) -> Result<(), AllocError>
    ensures ok { OnOk result (out.new.items ≡ out.old.items ++ uint64 number) }
    ensures err { OnErr result (Extends out.old.items out.new.items) }
{
    out.put_u64(number)?;
    Ok(())
}

fn put_two(out: &mut Vec<u8>, numbers: (u32, u32)) -> Result<(), AllocError>
    ensures ok { OnOk result (out.new.items ≡ out.old.items ++ two_uint32 numbers) }
    ensures err { OnErr result (Extends out.old.items out.new.items) }
{
    // One write of eight bytes, where two would each look for room.
    out.put_u64(numbers.0 as u64 * 0x1_0000_0000 + numbers.1 as u64)?;
    Ok(())
}

fn put_size(out: &mut Vec<u8>, size: Option<u64>) -> Result<(), AllocError>
    ensures ok { OnOk result (out.new.items ≡ out.old.items ++ optional uint64 size) }
    ensures err { OnErr result (Extends out.old.items out.new.items) }
{
    match size {
        Some(size) => put_long_number(out, size),
        None => Ok(()),
    }
}

fn put_permissions(out: &mut Vec<u8>, permissions: Option<u32>) -> Result<(), AllocError>
    ensures ok { OnOk result (out.new.items ≡ out.old.items ++ optional uint32 permissions) }
    ensures err { OnErr result (Extends out.old.items out.new.items) }
{
    match permissions {
        Some(permissions) => put_number(out, permissions),
        None => Ok(()),
    }
}

fn put_optional_two(out: &mut Vec<u8>, numbers: Option<(u32, u32)>) -> Result<(), AllocError>
    ensures ok { OnOk result (out.new.items ≡ out.old.items ++ optional two_uint32 numbers) }
    ensures err { OnErr result (Extends out.old.items out.new.items) }
{
    match numbers {
        Some(numbers) => put_two(out, numbers),
        None => Ok(()),
    }
}

fn put_extended(out: &mut Vec<u8>, extended: &Option<Pairs>) -> Result<(), AllocError>
    ensures ok { OnOk result (out.new.items ≡ out.old.items ++ optional counted_pairs extended.now) }
    ensures err { OnErr result (Extends out.old.items out.new.items) }
{
    match extended {
        Some(extended) => put_counted_pairs(out, extended),
        None => Ok(()),
    }
}

fn flag_bits(attrs: &Attrs) -> u32
    ensures { result ≡ attribute_flags attrs.now }
{
    let mut flags = AttrFlags::empty();
    flags.set(AttrFlags::SIZE, attrs.size.is_some());
    flags.set(AttrFlags::OWNER, attrs.owner.is_some());
    flags.set(AttrFlags::PERMISSIONS, attrs.permissions.is_some());
    flags.set(AttrFlags::TIMES, attrs.times.is_some());
    flags.set(AttrFlags::EXTENDED, attrs.extended.is_some());
    flags.bits()
}

fn put_size_and_owner(out: &mut Vec<u8>, attrs: &Attrs) -> Result<(), AllocError>
    ensures ok { OnOk result (out.new.items
        ≡ out.old.items ++ (optional uint64 attrs.now.size ++ optional two_uint32 attrs.now.owner)) }
    ensures err { OnErr result (Extends out.old.items out.new.items) }
{
    put_size(out, attrs.size)?;
    put_optional_two(out, attrs.owner)
}

fn put_permissions_and_times(out: &mut Vec<u8>, attrs: &Attrs) -> Result<(), AllocError>
    ensures ok { OnOk result (out.new.items
        ≡ out.old.items ++ (optional uint32 attrs.now.permissions ++ optional two_uint32 attrs.now.times)) }
    ensures err { OnErr result (Extends out.old.items out.new.items) }
{
    put_permissions(out, attrs.permissions)?;
    put_optional_two(out, attrs.times)
}

fn put_attribute_fields(out: &mut Vec<u8>, attrs: &Attrs) -> Result<(), AllocError>
    ensures ok { OnOk result (out.new.items ≡ out.old.items ++ attribute_fields attrs.now) }
    ensures err { OnErr result (Extends out.old.items out.new.items) }
{
    put_size_and_owner(out, attrs)?;
    put_permissions_and_times(out, attrs)?;
    put_extended(out, &attrs.extended)
}

fn put_attributes(out: &mut Vec<u8>, attrs: &Attrs) -> Result<(), AllocError>
    ensures ok { OnOk result (out.new.items ≡ out.old.items ++ attributes attrs.now) }
    ensures err { OnErr result (Extends out.old.items out.new.items) }
{
    out.put_u32(flag_bits(attrs))?;
    put_attribute_fields(out, attrs)
}

fn put_name_item(out: &mut Vec<u8>, item: &NameItem) -> Result<(), AllocError>
    ensures ok { OnOk result (out.new.items ≡ out.old.items ++ name_item item.now) }
    ensures err { OnErr result (Extends out.old.items out.new.items) }
{
    put_string(out, &item.filename)?;
    put_string(out, &item.longname)?;
    put_attributes(out, &item.attrs)
}

fn put_name_items(out: &mut Vec<u8>, items: &Names) -> Result<(), AllocError>
    ensures ok { OnOk result (out.new.items ≡ out.old.items ++ flat_map name_item items.now) }
    ensures err { OnErr result (Extends out.old.items out.new.items) }
{
    for item in items.as_slice() {
        put_name_item(out, item)?;
    }
    Ok(())
}

fn put_names(out: &mut Vec<u8>, items: &Names) -> Result<(), AllocError>
    ensures ok { OnOk result (out.new.items ≡ out.old.items ++ names items.now) }
    ensures err { OnErr result (Extends out.old.items out.new.items) }
{
    put_length(out, items.as_slice().len())?;
    put_name_items(out, items)
}

/// Bytes without their length.
fn put_rest(out: &mut Vec<u8>, bytes: &ByteString) -> Result<(), AllocError>
    ensures ok { OnOk result (out.new.items ≡ out.old.items ++ bytes.now) }
    ensures err { OnErr result (Extends out.old.items out.new.items) }
{
    out.put_slice(bytes.as_slice())?;
    Ok(())
}

/// A field. Inlined, since most callers name its kind.
#[inline(always)]
fn put_field(out: &mut Vec<u8>, field: &Field<'_>) -> Result<(), AllocError>
    ensures ok { OnOk result (out.new.items ≡ out.old.items ++ field_bytes (seen field.now)) }
    ensures err { OnErr result (Extends out.old.items out.new.items) }
{
    match field {
        Number(number) => put_number(out, *number),
        LongNumber(number) => put_long_number(out, *number),
        Text(text) => put_string(out, text),
        ExtensionName(name) => put_bytes(out, name),
        Rest(bytes) => put_rest(out, bytes),
        Attributes(attrs) => put_attributes(out, attrs),
        Items(items) => put_names(out, items),
    }
}

/// The fields after an id. Inlined, since callers name their kinds.
#[inline(always)]
fn put_fields(out: &mut Vec<u8>, fields: &Fields<'_>) -> Result<(), AllocError>
    ensures ok { OnOk result (out.new.items ≡ out.old.items ++ fields_bytes (all_seen fields.now)) }
    ensures err { OnErr result (Extends out.old.items out.new.items) }
{
    match fields {
        One(field) => put_field(out, field),
        Two(first, second) => {
            put_field(out, first)?;
            put_field(out, second)
        }
        Three(first, second, third) => {
            put_field(out, first)?;
            put_field(out, second)?;
            put_field(out, third)
        }
    }
}

/// The type of a packet, and the number after it: a version or an id.
fn put_type_and_number(out: &mut Vec<u8>, kind: u8, number: u32) -> Result<(), AllocError>
    ensures ok { OnOk result (out.new.items ≡ out.old.items ++ (kind ∷ uint32 number)) }
    ensures err { OnErr result (Extends out.old.items out.new.items) }
{
    out.put_u8(kind)?;
    out.put_u32(number)?;
    Ok(())
}

/// INIT or VERSION.
fn put_first_packet(
    out: &mut Vec<u8>,
    kind: u8,
    version: u32,
    extensions: &Pairs,
) -> Result<(), AllocError>
    ensures ok { OnOk result (out.new.items
        ≡ out.old.items ++ (kind ∷ uint32 version ++ pairs extensions.now)) }
    ensures err { OnErr result (Extends out.old.items out.new.items) }
{
    put_type_and_number(out, kind, version)?;
    put_pairs(out, extensions)
}

/// The fields after the id of a request.
// Slow to prove: `with_asked!` has an arm for each shape of a request.
fn put_ask_fields(out: &mut Vec<u8>, ask: &Ask) -> Result<(), AllocError>
    ensures ok { OnOk result (out.new.items ≡ out.old.items ++ (ask_parts ask.now).1) }
    ensures err { OnErr result (Extends out.old.items out.new.items) }
{
    with_asked!(ask, fields => put_fields(out, &fields))
}

fn put_asked(out: &mut Vec<u8>, id: u32, ask: &Ask) -> Result<(), AllocError>
    ensures ok { OnOk result (out.new.items ≡ out.old.items ++ with_id id (ask_parts ask.now)) }
    ensures err { OnErr result (Extends out.old.items out.new.items) }
{
    put_type_and_number(out, asked_type(ask), id)?;
    put_ask_fields(out, ask)
}

/// The fields after the id of a reply.
fn put_answer_fields(out: &mut Vec<u8>, answer: &Answer) -> Result<(), AllocError>
    ensures ok { OnOk result (out.new.items ≡ out.old.items ++ (answer_parts answer.now).1) }
    ensures err { OnErr result (Extends out.old.items out.new.items) }
{
    with_answered!(answer, fields => put_fields(out, &fields))
}

fn put_answered(out: &mut Vec<u8>, id: u32, answer: &Answer) -> Result<(), AllocError>
    ensures ok { OnOk result (out.new.items ≡ out.old.items ++ with_id id (answer_parts answer.now)) }
    ensures err { OnErr result (Extends out.old.items out.new.items) }
{
    put_type_and_number(out, answered_type(answer), id)?;
    put_answer_fields(out, answer)
}

fn put_contents(out: &mut Vec<u8>, packet: &Packet) -> Result<(), AllocError>
    ensures ok { OnOk result (out.new.items ≡ out.old.items ++ contents packet.now) }
    ensures err { OnErr result (Extends out.old.items out.new.items) }
{
    match packet {
        Packet::Init {
            version,
            extensions,
        } => put_first_packet(out, INIT, *version, extensions),
        Packet::Version {
            version,
            extensions,
        } => put_first_packet(out, VERSION, *version, extensions),
        Packet::Request(request) => put_asked(out, request.id, &request.ask),
        Packet::Reply(reply) => put_answered(out, reply.id, &reply.answer),
    }
}

#[tactic(auto, unfolding(sftp_packets::specs::Packets::spelling))]
fn put_packet(out: &mut Vec<u8>, size: u32, packet: &Packet) -> Result<(), AllocError>
    requires { size ≡ length (contents packet.now) }
    ensures ok { OnOk result (out.new.items ≡ out.old.items ++ spelling packet.now) }
    ensures err { OnErr result (Extends out.old.items out.new.items) }
{
    out.put_u32(size)?;
    put_contents(out, packet)
}

/// Appends the packet's one encoding (draft, sections 3 to 8). On error `out` is unchanged.
///
/// # Errors
///
/// In this order: `TooLong` exactly where the whole packet would have more than `PACKET_LIMIT` bytes or its handle has
/// more than `HANDLE_LIMIT`; `NotCanonical` exactly where an `Unknown` has the name of an extension that has a request
/// of its own; `NoMemory` if memory runs out. The first two are checked before memory is allocated, so `NoMemory`
/// comes only for a packet that has an encoding.
#[tactic(auto, unfolding(sftp_packets::specs::Packets::spelling))]
pub fn encode(packet: &Packet, out: &mut Vec<u8>) -> Result<(), WireError>
    ensures ok { OnOk result (out.new.items ≡ out.old.items ++ spelling packet.now) }
    ensures spelled { OnOk result (HasSpelling packet.now) }
    ensures too_long { IsErrOf result WireError.TooLong ↔ IsTooLong packet.now }
    ensures not_canonical { IsErrOf result WireError.NotCanonical ↔ IsNotCanonical packet.now }
    ensures no_memory { IsErrOf result WireError.NoMemory → HasSpelling packet.now }
    ensures err { OnErr result (out.new.items ≡ out.old.items) }
    ensures kinds { IfErr result (λ e. (e ≡ WireError.TooLong) ⊎ (e ≡ WireError.NotCanonical)
        ⊎ (e ≡ WireError.NoMemory)) }
{
    let size = contents_length(packet);
    if size > PACKET_LIMIT - 4 || has_long_handle(packet) {
        return Err(WireError::TooLong);
    }
    if hides_extension(packet) {
        return Err(WireError::NotCanonical);
    }
    let before = out.len();
    match put_packet(out, size as u32, packet) {
        Ok(()) => Ok(()),
        Err(error) => {
            out.truncate(before);
            Err(WireError::from(error))
        }
    }
}
