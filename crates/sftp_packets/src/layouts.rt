//! The layouts of packets: what each consists of, without its values, for a reader that goes over a packet's bytes
//! field by field (draft, sections 3 to 8; OpenSSH's PROTOCOL, section 4). The tables are in `requests.rt` and
//! `replies.rt`.
ghost use Rattle.std.specs.Prelude.{◌≡◌, drop, find, map, nat_eq};
ghost use Rattle.std.specs.List.{starts_with};
ghost use Rattle.std.specs.Option.{option_map};
ghost use Rattle.sftp_packets.specs.Layouts as table;
ghost use Rattle.sftp_packets.specs.Layouts.{shape, shapes, layout_of_bytes, is_of_type, name_in, type_name};

use crate::packets::{INIT, Packet, Side, VERSION};
use crate::replies::{SERVER_LAYOUTS, answered_type};
use crate::requests::{CLIENT_LAYOUTS, asked_type};

/// A field of a packet.
#[derive(Clone, Copy)]
pub enum FieldKind {
    /// A uint32.
    Number,
    /// A uint64.
    LongNumber,
    /// The flags of OPEN.
    Flags,
    /// A string.
    Text,
    /// A string that is a handle.
    Handle,
}

/// What comes after the fields.
#[derive(Clone, Copy)]
pub enum Tail {
    Nothing,
    /// File attributes.
    Attributes,
    /// Pairs up to the end.
    Pairs,
    /// Names of a directory after their count.
    Items,
    /// A message for people and the tag of its language.
    Message,
    /// Any bytes up to the end.
    Rest,
}

/// The layout of a packet.
#[derive(Clone, Copy)]
pub struct Layout {
    /// The packet's type.
    pub kind: u8,
    /// Whether an id comes after the type.
    pub has_id: bool,
    /// The name of the type, or of an extension that has a request of its own.
    pub name: &'static str,
    /// The name of a known extension as a string, which follows the id; empty in every other layout.
    pub mark: &'static [u8],
    /// What messages call the fields: one name for each of `fields`.
    pub field_names: &'static [&'static str],
    /// The fields after the id and the mark, in order.
    pub fields: &'static [FieldKind],
    /// What follows the fields.
    pub tail: Tail,
}

/// Whether these bytes are what comes after the first `count` of a packet.
fn comes_after(count: usize, word: &[u8], bytes: &[u8]) -> bool
    ensures { result ≡ starts_with nat_eq (drop count bytes.now) word.now }
{
    match bytes.split_at_checked(count) {
        Some((_, rest)) => rest.starts_with(word),
        None => word.is_empty(),
    }
}

/// Whether the bytes of a packet have the layout's type and mark.
fn may_have(layout: &Layout, bytes: &[u8]) -> bool
    ensures { result ≡ table.may_have bytes.now (shape layout.now) }
{
    comes_after(4, &[layout.kind], bytes) && comes_after(9, layout.mark, bytes)
}

/// The first of these layouts that a packet may have.
fn first_fit(layouts: &[Layout], bytes: &[u8]) -> Option<Layout>
    ensures { option_map shape result ≡ find (table.may_have bytes.now) (map shape layouts.now) }
{
    let mut left = layouts;
    'layouts: while let Some((layout, rest)) = left.split_first() {
        if may_have(layout, bytes) {
            return Some(*layout);
        }
        left = rest;
    }
    None
}

/// The layout of a packet that a side sent, by its type at byte 4 and the name of an extension at byte 9. The bytes
/// begin with the packet's length, and are not judged any further. `None` if no layout of this side fits.
#[tactic(auto, unfolding(crate::specs::Layouts::layout_of_bytes))]
pub fn layout_of(side: Side, bytes: &[u8]) -> Option<Layout>
    ensures { option_map shape result ≡ layout_of_bytes side bytes.now }
{
    first_fit(layouts_of(side), bytes)
}

/// The name of a type among layouts; empty if none of them has the type, which no packet gets.
fn name_of(kind: u8, layouts: &[Layout]) -> &'static str
    ensures { result.now ≡ name_in (find (is_of_type kind) (map shape layouts.now)) }
{
    let mut left = layouts;
    'layouts: while let Some((layout, rest)) = left.split_first() {
        if layout.kind == kind && layout.mark.is_empty() {
            return layout.name;
        }
        left = rest;
    }
    ""
}

/// The name of a packet's type (draft, section 3): all extensions are EXTENDED.
pub fn packet_name(packet: &Packet) -> &'static str
    ensures { result.now ≡ type_name packet.now }
{
    match packet {
        Packet::Init { .. } => name_of(INIT, layouts_of(Side::Client)),
        Packet::Version { .. } => name_of(VERSION, layouts_of(Side::Server)),
        Packet::Request(request) => name_of(asked_type(&request.ask), layouts_of(Side::Client)),
        Packet::Reply(reply) => name_of(answered_type(&reply.answer), layouts_of(Side::Server)),
    }
}

/// The layouts of what a side sends. Those of the known extensions come before that of any other.
#[tactic(auto, unfolding(crate::specs::Layouts::shapes))]
pub fn layouts_of(side: Side) -> &'static [Layout]
    ensures { map shape result.now ≡ shapes side }
{
    match side {
        Side::Client => CLIENT_LAYOUTS,
        Side::Server => SERVER_LAYOUTS,
    }
}

/// INIT or VERSION.
macro_rules! first_packet {
    ($kind:expr, $name:expr) => {
        crate::layouts::Layout {
            kind: $kind,
            has_id: false,
            name: $name,
            mark: b"",
            field_names: &["version"],
            fields: &[crate::layouts::FieldKind::Number],
            tail: crate::layouts::Tail::Pairs,
        }
    };
}

/// A request or a reply.
macro_rules! plain {
    ($kind:expr, $name:expr, [$($field:literal : $field_kind:ident),*], $tail:ident) => {
        crate::layouts::Layout {
            kind: $kind,
            has_id: true,
            name: $name,
            mark: b"",
            field_names: &[$($field),*],
            fields: &[$(crate::layouts::FieldKind::$field_kind),*],
            tail: crate::layouts::Tail::$tail,
        }
    };
}

/// A request of an extension that has one of its own.
macro_rules! extension {
    ($name:expr, $mark:expr, [$($field:literal : $field_kind:ident),*], $tail:ident) => {
        crate::layouts::Layout {
            kind: crate::requests::EXTENDED,
            has_id: true,
            name: $name,
            mark: $mark,
            field_names: &[$($field),*],
            fields: &[$(crate::layouts::FieldKind::$field_kind),*],
            tail: crate::layouts::Tail::$tail,
        }
    };
}

pub(crate) use extension;
pub(crate) use first_packet;
pub(crate) use plain;
