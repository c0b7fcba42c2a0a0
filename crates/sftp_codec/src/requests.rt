//! Requests are read field by field, from left to right and up to the first fault, as the table of requests says
//! (draft, sections 6 and 8).
ghost use Rattle.std.specs.Prelude.{◌≡◌};
ghost use Rattle.sftp_packets.specs.Reading.{Reads, one, rest_at};
ghost use Rattle.sftp_packets.specs.Requests.{extension_data_at, extension_at, is_request, request_fields_at};
ghost use Rattle.sftp_packets.specs.Requests.{request_packet_at};

use crate::fields::{attributes, handle, long_number, number, rest, string};
// the table names the type or the name of each request
use sftp_packets::requests::*;
use sftp_packets::{ByteString, Fault, Packet, ReadError, Request, with_requests};
use std::alloc::Global;

/// Reads a field of this kind.
macro_rules! read_field {
    (Number, $alloc:ident, $body:ident) => { number($body)? };
    (LongNumber, $alloc:ident, $body:ident) => { long_number($body)? };
    (Flags, $alloc:ident, $body:ident) => { number($body)? };
    (Text, $alloc:ident, $body:ident) => { string($alloc, $body)? };
    (Handle, $alloc:ident, $body:ident) => { handle($alloc, $body)? };
    (Attributes, $alloc:ident, $body:ident) => { attributes($alloc, $body)? };
}

/// Reads the data of the extension of this name, by the table.
macro_rules! read_extension {
    (
        ($alloc:ident, $name:ident, $body:ident)
        [$($type:ident => $variant:ident { $($field:ident: $kind:ident),* },)*]
        [$($known:ident => $extension:ident { $($part:ident: $part_kind:ident),* },)*]
    ) => {{
        $(if $name.as_slice() == $known {
            drop($name);
            $(let $part = read_field!($part_kind, $alloc, $body);)*
            return Ok(Ask::$extension { $($part),* });
        })*
        unknown($alloc, $name, $body)
    }};
}

/// Whether a type is that of a request, by the table.
macro_rules! is_type {
    (
        ($kind:ident)
        [$($type:ident => $variant:ident { $($field:ident: $field_kind:ident),* },)*]
        [$($known:ident => $extension:ident { $($part:ident: $part_kind:ident),* },)*]
    ) => {
        match $kind {
            $($type => true,)*
            EXTENDED => true,
            _ => false,
        }
    };
}

/// Reads the fields after the id of a request, by the table.
macro_rules! read_request {
    (
        ($alloc:ident, $kind:ident, $body:ident)
        [$($type:ident => $variant:ident { $($field:ident: $field_kind:ident),* },)*]
        [$($known:ident => $extension:ident { $($part:ident: $part_kind:ident),* },)*]
    ) => {
        match $kind {
            $($type => {
                $(let $field = read_field!($field_kind, $alloc, $body);)*
                Ok(Ask::$variant { $($field),* })
            })*
            EXTENDED => extended($alloc, $body),
            _ => Err(ReadError::Fault(Fault::WrongType)),
        }
    };
}

fn unknown(alloc: Global, name: ByteString, body: &mut &[u8]) -> Result<Ask, ReadError>
    ensures { Reads result body.new.now (one rest_at (Ask.Unknown name) body.old.now) }
{
    let rest = rest(alloc, body)?;
    Ok(Ask::Unknown { name, rest })
}

/// The data of the extension of that name.
#[tactic(auto, unfolding(sftp_packets::specs::Requests::extension_data_at))]
fn extension_data(alloc: Global, name: ByteString, body: &mut &[u8]) -> Result<Ask, ReadError>
    ensures { Reads result body.new.now (extension_data_at name body.old.now) }
{
    with_requests!(read_extension!(alloc, name, body))
}

/// An extension: its name, and then its data.
#[tactic(auto, unfolding(sftp_packets::specs::Requests::extension_at))]
fn extended(alloc: Global, body: &mut &[u8]) -> Result<Ask, ReadError>
    ensures { Reads result body.new.now (extension_at body.old.now) }
{
    let name = string(alloc, body)?;
    extension_data(alloc, name, body)
}

/// Whether it is the type of a request.
fn is_request(kind: u8) -> bool
    ensures { result ≡ is_request kind }
{
    with_requests!(is_type!(kind))
}

/// The fields after the id of a request.
// Slow to prove, with an arm for each type of a request.
fn request_fields(alloc: Global, kind: u8, body: &mut &[u8]) -> Result<Ask, ReadError>
    ensures { Reads result body.new.now (request_fields_at kind body.old.now) }
{
    with_requests!(read_request!(alloc, kind, body))
}

/// The fields after the type of a request. Inlined into `client_packet`, so that the packet is not copied again.
#[inline(always)]
pub(crate) fn request_packet(alloc: Global, kind: u8, body: &mut &[u8]) -> Result<Packet, ReadError>
    ensures { Reads result body.new.now (request_packet_at kind body.old.now) }
{
    if !is_request(kind) {
        return Err(ReadError::Fault(Fault::WrongType));
    }
    let id = number(body)?;
    let ask = request_fields(alloc, kind, body)?;
    Ok(Packet::Request(Request { id, ask }))
}
