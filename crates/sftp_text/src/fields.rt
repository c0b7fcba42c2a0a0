//! The fields of packets, both ways.
ghost use Rattle.std.specs.Prelude.{◌≡◌, codes};
ghost use Rattle.sftp_text.specs.Formats.{◌then◌, word};
ghost use Rattle.sftp_text.specs.Fields.{field_text, fields_text, tail_text};
ghost use Rattle.sftp_text.specs.Digits.{rest_text};
ghost use Rattle.sftp_text.specs.Trees.{Moves};

use crate::attributes::{put_attributes, read_attributes};
use crate::errors::{Expected, Stop};
use crate::flags::{put_flags, read_flags};
use crate::lists::{
    Name, put_counted, put_message, put_pairs, read_counted, read_message, read_pairs,
};
use crate::numbers::{put_long, put_number, read_long, read_number};
use crate::quoted::{put_rest, put_string, read_quoted, read_string};
use crate::words::read_word;
use sftp_wire::{FieldKind, Tail};

#[tactic(auto, unfolding(crate::specs::Fields::field_text))]
fn put_field(field: FieldKind, bytes: &mut &[u8], text: &mut Vec<u8>) -> Result<(), Stop>
    ensures { Moves result text.new.items bytes.new.now ((field_text field).show text.old.items bytes.old.now) }
{
    match field {
        FieldKind::Number => put_number(bytes, text),
        FieldKind::LongNumber => put_long(bytes, text),
        FieldKind::Flags => put_flags(bytes, text),
        FieldKind::Text | FieldKind::Handle => put_string(bytes, text),
    }
}

#[tactic(auto, unfolding(crate::specs::Fields::field_text))]
fn read_field(field: FieldKind, line: &mut &[u8], bytes: &mut Vec<u8>) -> Result<(), Stop>
    ensures { Moves result bytes.new.items line.new.now ((field_text field).read bytes.old.items line.old.now) }
{
    match field {
        FieldKind::Number => read_number(line, bytes),
        FieldKind::LongNumber => read_long(line, bytes),
        FieldKind::Flags => read_flags(line, bytes),
        FieldKind::Text | FieldKind::Handle => read_string(line, bytes),
    }
}

/// Shows these fields, each after a space.
pub(crate) fn put_fields(
    fields: &[FieldKind],
    bytes: &mut &[u8],
    text: &mut Vec<u8>,
) -> Result<(), Stop>
    ensures { Moves result text.new.items bytes.new.now ((fields_text fields.now).show text.old.items bytes.old.now) }
{
    let mut left = fields;
    'fields: while let Some((field, rest)) = left.split_first() {
        text.push(b' ')?;
        put_field(*field, bytes, text)?;
        left = rest;
    }
    Ok(())
}

/// Reads these fields, each after a space.
pub(crate) fn read_fields(
    fields: &[FieldKind],
    line: &mut &[u8],
    bytes: &mut Vec<u8>,
) -> Result<(), Stop>
    ensures { Moves result bytes.new.items line.new.now ((fields_text fields.now).read bytes.old.items line.old.now) }
{
    let mut left = fields;
    'fields: while let Some((field, rest)) = left.split_first() {
        read_word(b" ", Expected::Space, line)?;
        read_field(*field, line, bytes)?;
        left = rest;
    }
    Ok(())
}

/// Shows any bytes up to the end, as a text in quotes after a space.
fn put_any(bytes: &mut &[u8], text: &mut Vec<u8>) -> Result<(), Stop>
    ensures { Moves result text.new.items bytes.new.now
        ((word (codes " ") then rest_text).show text.old.items bytes.old.now) }
{
    text.push(b' ')?;
    put_rest(bytes, text)
}

#[tactic(auto, unfolding(crate::specs::Digits::rest_text))]
fn read_any(line: &mut &[u8], bytes: &mut Vec<u8>) -> Result<(), Stop>
    ensures { Moves result bytes.new.items line.new.now
        ((word (codes " ") then rest_text).read bytes.old.items line.old.now) }
{
    read_word(b" ", Expected::Space, line)?;
    read_quoted(line, bytes)
}

/// Shows what comes after the fields.
#[tactic(auto, unfolding(crate::specs::Fields::tail_text, crate::specs::Fields::names))]
pub(crate) fn put_tail(tail: Tail, bytes: &mut &[u8], text: &mut Vec<u8>) -> Result<(), Stop>
    ensures { Moves result text.new.items bytes.new.now ((tail_text tail).show text.old.items bytes.old.now) }
{
    match tail {
        Tail::Nothing => Ok(()),
        Tail::Attributes => put_attributes(bytes, text),
        Tail::Pairs => put_pairs(bytes, text),
        Tail::Items => put_counted::<Name>(b';', bytes, text),
        Tail::Message => put_message(bytes, text),
        Tail::Rest => put_any(bytes, text),
    }
}

/// Reads what comes after the fields.
#[tactic(auto, unfolding(crate::specs::Fields::tail_text, crate::specs::Fields::names))]
pub(crate) fn read_tail(tail: Tail, line: &mut &[u8], bytes: &mut Vec<u8>) -> Result<(), Stop>
    ensures { Moves result bytes.new.items line.new.now ((tail_text tail).read bytes.old.items line.old.now) }
{
    match tail {
        Tail::Nothing => Ok(()),
        Tail::Attributes => read_attributes(line, bytes),
        Tail::Pairs => read_pairs(line, bytes),
        Tail::Items => read_counted::<Name>(b' ', b';', line, bytes),
        Tail::Message => read_message(line, bytes),
        Tail::Rest => read_any(line, bytes),
    }
}
