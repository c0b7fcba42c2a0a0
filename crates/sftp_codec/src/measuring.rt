//! How many bytes packets take (draft, sections 3 to 8), counted before any memory is taken. A count that does not fit
//! is the largest that does. A packet whose length fits can be written: its numbers are in range by their types, and
//! its lengths because the whole is.
ghost use Rattle.std.specs.Prelude.{◌≡◌, ◌-◌, ◌^◌, ◌<◌, ◌++◌, length, min, IfSome};
ghost use Rattle.std.specs.List.{flat_map, AllByRecursion};
ghost use Rattle.sftp_packets.specs.Spelling.{uint32, uint64, two_uint32, string, pair, pairs, counted_pairs, optional};
ghost use Rattle.sftp_packets.specs.Spelling.{attributes, name_item, names, AreBytes, FitsString, FitsTwo, FitsPair};
ghost use Rattle.sftp_packets.specs.Spelling.{FitsPairs, FitsCounted, FitsAttrs, FitsNameItem, FitsNames, field_bytes};
ghost use Rattle.sftp_packets.specs.Spelling.{fields_bytes, FitsField, Fit};
ghost use Rattle.sftp_packets.specs.Requests.{ask_parts, FitsAsk};
ghost use Rattle.sftp_packets.specs.Requests.{answer_parts, FitsAnswer};
ghost use Rattle.sftp_packets.specs.Packets.{contents, FitsFields};
ghost use Rattle.sftp_codec.specs.Lent.{seen, all_seen};

use crate::lent_fields::Field::{Attributes, ExtensionName, Items, LongNumber, Number, Rest, Text};
use crate::lent_fields::Fields::{One, Three, Two};
use crate::lent_fields::{Field, Fields, with_answered, with_asked};
use sftp_packets::{Answer, Ask, Attrs, ByteString, NameItem, Names, Packet, Pairs};

/// The bytes of a uint32.
fn number_length(number: u32) -> usize
    ensures exact { result ≡ 4 }
    ensures fits { number < 2 ^ 32 }
{
    number.to_be_bytes().len()
}

/// The bytes of a uint64.
fn long_number_length(number: u64) -> usize
    ensures exact { result ≡ 8 }
    ensures fits { number < 2 ^ 64 }
{
    number.to_be_bytes().len()
}

/// The bytes of a string without its length.
fn text_length(text: &ByteString) -> usize
    ensures exact { result ≡ min (length text.now) (2 ^ 64 - 1) }
    ensures fits { AreBytes text.now }
{
    let bytes = text.as_slice();
    bytes.len()
}

/// The bytes of a string.
fn bytes_length(bytes: &[u8]) -> usize
    ensures exact { result ≡ min (length (string bytes.now)) (2 ^ 64 - 1) }
    ensures fits { length (string bytes.now) < 2 ^ 32 → FitsString bytes.now }
{
    bytes.len().saturating_add(4)
}

fn string_length(text: &ByteString) -> usize
    ensures exact { result ≡ min (length (string text.now)) (2 ^ 64 - 1) }
    ensures fits { length (string text.now) < 2 ^ 32 → FitsString text.now }
{
    bytes_length(text.as_slice())
}

fn two_strings_length(first: &ByteString, second: &ByteString) -> usize
    ensures exact { result ≡ min (length (pair (first.now, second.now))) (2 ^ 64 - 1) }
    ensures fits { length (pair (first.now, second.now)) < 2 ^ 32 → FitsPair (first.now, second.now) }
{
    string_length(first).saturating_add(string_length(second))
}

fn pairs_length(extensions: &Pairs) -> usize
    ensures exact { result ≡ min (length (pairs extensions.now)) (2 ^ 64 - 1) }
    ensures fits { length (pairs extensions.now) < 2 ^ 32 → FitsPairs extensions.now }
{
    let mut total = 0_usize;
    for (name, data) in extensions.as_slice() {
        total = total.saturating_add(two_strings_length(name, data));
    }
    total
}

#[tactic(auto, using(sftp_packets::proofs::FieldLaws::length_pairs))]
fn counted_pairs_length(extensions: &Pairs) -> usize
    ensures exact { result ≡ min (length (counted_pairs extensions.now)) (2 ^ 64 - 1) }
    ensures fits { length (counted_pairs extensions.now) < 2 ^ 32 → FitsCounted extensions.now }
{
    pairs_length(extensions).saturating_add(4)
}

fn size_length(size: Option<u64>) -> usize
    ensures exact { result ≡ length (optional uint64 size) }
    ensures fits { IfSome size (λ n. n < 2 ^ 64) }
{
    match size {
        None => 0,
        Some(size) => long_number_length(size),
    }
}

fn two_numbers_length(numbers: Option<(u32, u32)>) -> usize
    ensures exact { result ≡ length (optional two_uint32 numbers) }
    ensures fits { IfSome numbers FitsTwo }
{
    match numbers {
        None => 0,
        Some((first, second)) => number_length(first) + number_length(second),
    }
}

fn permissions_length(permissions: Option<u32>) -> usize
    ensures exact { result ≡ length (optional uint32 permissions) }
    ensures fits { IfSome permissions (λ n. n < 2 ^ 32) }
{
    match permissions {
        None => 0,
        Some(permissions) => number_length(permissions),
    }
}

fn extended_length(extended: &Option<Pairs>) -> usize
    ensures exact { result ≡ min (length (optional counted_pairs extended.now)) (2 ^ 64 - 1) }
    ensures fits { length (optional counted_pairs extended.now) < 2 ^ 32 → IfSome extended.now FitsCounted }
{
    match extended {
        None => 0,
        Some(extensions) => counted_pairs_length(extensions),
    }
}

fn attributes_length(attrs: &Attrs) -> usize
    ensures exact { result ≡ min (length (attributes attrs.now)) (2 ^ 64 - 1) }
    ensures fits { length (attributes attrs.now) < 2 ^ 32 → FitsAttrs attrs.now }
{
    extended_length(&attrs.extended)
        .saturating_add(size_length(attrs.size))
        .saturating_add(two_numbers_length(attrs.owner))
        .saturating_add(permissions_length(attrs.permissions))
        .saturating_add(two_numbers_length(attrs.times))
        .saturating_add(4)
}

fn string_and_attributes_length(text: &ByteString, attrs: &Attrs) -> usize
    ensures exact { result ≡ min (length (string text.now ++ attributes attrs.now)) (2 ^ 64 - 1) }
    ensures fits { length (string text.now ++ attributes attrs.now) < 2 ^ 32
        → FitsString text.now × FitsAttrs attrs.now }
{
    string_length(text).saturating_add(attributes_length(attrs))
}

fn name_item_length(item: &NameItem) -> usize
    ensures exact { result ≡ min (length (name_item item.now)) (2 ^ 64 - 1) }
    ensures fits { length (name_item item.now) < 2 ^ 32 → FitsNameItem item.now }
{
    string_length(&item.filename).saturating_add(string_and_attributes_length(
        &item.longname,
        &item.attrs,
    ))
}

fn name_items_length(items: &Names) -> usize
    ensures exact { result ≡ min (length (flat_map name_item items.now)) (2 ^ 64 - 1) }
    ensures fits { length (flat_map name_item items.now) < 2 ^ 32 → AllByRecursion FitsNameItem items.now }
{
    let mut total = 0_usize;
    for item in items.as_slice() {
        total = total.saturating_add(name_item_length(item));
    }
    total
}

#[tactic(auto, using(sftp_packets::proofs::FieldLaws::length_names))]
fn names_length(items: &Names) -> usize
    ensures exact { result ≡ min (length (names items.now)) (2 ^ 64 - 1) }
    ensures fits { length (names items.now) < 2 ^ 32 → FitsNames items.now }
{
    name_items_length(items).saturating_add(4)
}

/// The bytes of a field. Inlined, since most callers name its kind.
#[inline(always)]
fn field_length(field: &Field<'_>) -> usize
    ensures exact { result ≡ min (length (field_bytes (seen field.now))) (2 ^ 64 - 1) }
    ensures fits { length (field_bytes (seen field.now)) < 2 ^ 32 → FitsField (seen field.now) }
{
    match field {
        Number(number) => number_length(*number),
        LongNumber(number) => long_number_length(*number),
        Text(text) => string_length(text),
        ExtensionName(name) => bytes_length(name),
        Rest(bytes) => text_length(bytes),
        Attributes(attrs) => attributes_length(attrs),
        Items(items) => names_length(items),
    }
}

/// The bytes of the fields after an id. Inlined, since callers name their kinds.
#[inline(always)]
fn fields_length(fields: &Fields<'_>) -> usize
    ensures exact { result ≡ min (length (fields_bytes (all_seen fields.now))) (2 ^ 64 - 1) }
    ensures fits { length (fields_bytes (all_seen fields.now)) < 2 ^ 32 → Fit (all_seen fields.now) }
{
    match fields {
        One(field) => field_length(field),
        Two(first, second) => field_length(first).saturating_add(field_length(second)),
        Three(first, second, third) => field_length(first)
            .saturating_add(field_length(second))
            .saturating_add(field_length(third)),
    }
}

/// The bytes of the fields after the id of a request.
// Slow to prove: `with_asked!` has an arm for each shape of a request.
fn asked_length(ask: &Ask) -> usize
    ensures exact { result ≡ min (length ((ask_parts ask.now).1)) (2 ^ 64 - 1) }
    ensures fits { length ((ask_parts ask.now).1) < 2 ^ 32 → FitsAsk ask.now }
{
    with_asked!(ask, fields => fields_length(&fields))
}

/// The bytes of the fields after the id of a reply.
fn answered_length(answer: &Answer) -> usize
    ensures exact { result ≡ min (length ((answer_parts answer.now).1)) (2 ^ 64 - 1) }
    ensures fits { length ((answer_parts answer.now).1) < 2 ^ 32 → FitsAnswer answer.now }
{
    with_answered!(answer, fields => fields_length(&fields))
}

/// The bytes after the packet's length.
pub(crate) fn contents_length(packet: &Packet) -> usize
    ensures exact { result ≡ min (length (contents packet.now)) (2 ^ 64 - 1) }
    ensures fits { length (contents packet.now) < 2 ^ 32 → FitsFields packet.now }
{
    match packet {
        Packet::Init {
            version,
            extensions,
        }
        | Packet::Version {
            version,
            extensions,
        } => pairs_length(extensions).saturating_add(1 + number_length(*version)),
        Packet::Request(request) => {
            asked_length(&request.ask).saturating_add(1 + number_length(request.id))
        }
        Packet::Reply(reply) => {
            answered_length(&reply.answer).saturating_add(1 + number_length(reply.id))
        }
    }
}
