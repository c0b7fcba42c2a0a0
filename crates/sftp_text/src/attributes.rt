//! Attributes (draft, section 5): each field that there is, with its label, in the order of the bytes.
ghost use Rattle.std.specs.Prelude.{◌≡◌, ◌≤◌, IfOk};
ghost use Rattle.sftp_text.specs.Fields.{two_numbers, counted_pairs, part, show_part, show_parts, read_parts};
ghost use Rattle.sftp_text.specs.Fields.{attribute_parts, later_parts};
ghost use Rattle.sftp_text.specs.Fields as fields;
ghost use Rattle.sftp_text.specs.Trees.{Moves, Counts, value_text};

use crate::errors::{Expected, Stop};
use crate::lists::{Pair, put_counted, read_counted};
use crate::numbers::{put_long, put_number, put_octal, read_long, read_number, read_octal};
use crate::quoted::append_numbered;
use crate::words::{read_label, read_word};
use bytes::Buf;

const SIZE: u32 = 0x0000_0001;

const OWNER: u32 = 0x0000_0002;

const PERMISSIONS: u32 = 0x0000_0004;

const TIMES: u32 = 0x0000_0008;

const EXTENDED: u32 = 0x8000_0000;

const KNOWN: u32 = 0x8000_000f;

/// Shows two uint32 with a comma between.
#[tactic(auto, unfolding(crate::specs::Fields::two_numbers))]
fn put_two(bytes: &mut &[u8], text: &mut Vec<u8>) -> Result<(), Stop>
    ensures { Moves result text.new.items bytes.new.now (two_numbers.show text.old.items bytes.old.now) }
{
    put_number(bytes, text)?;
    text.push(b',')?;
    put_number(bytes, text)
}

/// What an attribute says behind its label.
#[derive(Clone, Copy)]
pub(crate) enum Value {
    Long,
    TwoNumbers,
    Octal,
    Pairs,
}

#[tactic(auto, unfolding(crate::specs::Fields::counted_pairs))]
fn put_value(value: Value, bytes: &mut &[u8], text: &mut Vec<u8>) -> Result<(), Stop>
    ensures { Moves result text.new.items bytes.new.now ((value_text value).show text.old.items bytes.old.now) }
{
    match value {
        Value::Long => put_long(bytes, text),
        Value::TwoNumbers => put_two(bytes, text),
        Value::Octal => put_octal(bytes, text),
        Value::Pairs => put_counted::<Pair>(b',', bytes, text),
    }
}

/// Shows an attribute with its label, if its flag is among these.
fn put_part(
    flag: u32,
    label: &[u8],
    value: Value,
    flags: u32,
    bytes: &mut &[u8],
    text: &mut Vec<u8>,
) -> Result<(), Stop>
    ensures { Moves result text.new.items bytes.new.now
        (show_part (part flag label.now (value_text value)) flags text.old.items bytes.old.now) }
{
    if flags & flag != flag {
        return Ok(());
    }
    text.extend_from_slice(label)?;
    put_value(value, bytes, text)
}

/// Shows the permissions, the times and the extended attributes.
fn put_later_parts(flags: u32, bytes: &mut &[u8], text: &mut Vec<u8>) -> Result<(), Stop>
    ensures { Moves result text.new.items bytes.new.now
        (show_parts later_parts flags text.old.items bytes.old.now) }
{
    put_part(
        PERMISSIONS,
        b" permissions=",
        Value::Octal,
        flags,
        bytes,
        text,
    )?;
    put_part(TIMES, b" times=", Value::TwoNumbers, flags, bytes, text)?;
    put_part(EXTENDED, b" extended=", Value::Pairs, flags, bytes, text)
}

#[tactic(auto, unfolding(crate::specs::Fields::attribute_parts))]
fn put_parts(flags: u32, bytes: &mut &[u8], text: &mut Vec<u8>) -> Result<(), Stop>
    ensures { Moves result text.new.items bytes.new.now
        (show_parts attribute_parts flags text.old.items bytes.old.now) }
{
    put_part(SIZE, b" size=", Value::Long, flags, bytes, text)?;
    put_part(OWNER, b" owner=", Value::TwoNumbers, flags, bytes, text)?;
    put_later_parts(flags, bytes, text)
}

/// Shows attributes. Those with an unknown flag have no text.
#[tactic(auto, unfolding(crate::specs::Fields::attributes))]
pub(crate) fn put_attributes(bytes: &mut &[u8], text: &mut Vec<u8>) -> Result<(), Stop>
    ensures { Moves result text.new.items bytes.new.now (fields.attributes.show text.old.items bytes.old.now) }
{
    let flags = bytes.try_get_u32()?;
    if flags & KNOWN != flags {
        return Err(Stop::Unfit(Expected::Flags));
    }
    put_parts(flags, bytes, text)
}

/// Reads two uint32 with a comma between.
#[tactic(auto, unfolding(crate::specs::Fields::two_numbers))]
fn read_two(line: &mut &[u8], bytes: &mut Vec<u8>) -> Result<(), Stop>
    ensures { Moves result bytes.new.items line.new.now (two_numbers.read bytes.old.items line.old.now) }
{
    read_number(line, bytes)?;
    read_word(b",", Expected::Comma, line)?;
    read_number(line, bytes)
}

#[tactic(auto, unfolding(crate::specs::Fields::counted_pairs))]
fn read_value(value: Value, line: &mut &[u8], bytes: &mut Vec<u8>) -> Result<(), Stop>
    ensures { Moves result bytes.new.items line.new.now ((value_text value).read bytes.old.items line.old.now) }
{
    match value {
        Value::Long => read_long(line, bytes),
        Value::TwoNumbers => read_two(line, bytes),
        Value::Octal => read_octal(line, bytes),
        Value::Pairs => read_counted::<Pair>(b'"', b',', line, bytes),
    }
}

/// Reads an attribute, if its label is in front. Returns its flag, or 0.
fn read_part(
    flag: u32,
    label: &[u8],
    value: Value,
    line: &mut &[u8],
    bytes: &mut Vec<u8>,
) -> Result<u32, Stop>
    ensures found { Counts result bytes.new.items line.new.now
        (fields.read_part (part flag label.now (value_text value)) bytes.old.items line.old.now) }
    ensures small { IfOk result (λ found. found ≤ flag) }
{
    if !read_label(label, line) {
        return Ok(0);
    }
    read_value(value, line, bytes)?;
    Ok(flag)
}

/// Reads the permissions, the times and the extended attributes. Returns their flags.
fn read_later_parts(line: &mut &[u8], bytes: &mut Vec<u8>) -> Result<u32, Stop>
    ensures found { Counts result bytes.new.items line.new.now (read_parts later_parts bytes.old.items line.old.now) }
    ensures small { IfOk result (λ flags. flags ≤ 0x8000000c) }
{
    let permissions = read_part(PERMISSIONS, b" permissions=", Value::Octal, line, bytes)?;
    let times = read_part(TIMES, b" times=", Value::TwoNumbers, line, bytes)?;
    let extended = read_part(EXTENDED, b" extended=", Value::Pairs, line, bytes)?;
    Ok(permissions + (times + extended))
}

/// Reads the fields of attributes without their flags, which it returns.
#[tactic(auto, unfolding(crate::specs::Fields::attribute_parts))]
fn read_fields(line: &mut &[u8], bytes: &mut Vec<u8>) -> Result<u32, Stop>
    ensures { Counts result bytes.new.items line.new.now (read_parts attribute_parts bytes.old.items line.old.now) }
{
    let size = read_part(SIZE, b" size=", Value::Long, line, bytes)?;
    let owner = read_part(OWNER, b" owner=", Value::TwoNumbers, line, bytes)?;
    let later = read_later_parts(line, bytes)?;
    Ok(size + (owner + later))
}

/// Reads attributes.
#[tactic(auto, unfolding(crate::specs::Fields::attributes))]
pub(crate) fn read_attributes(line: &mut &[u8], bytes: &mut Vec<u8>) -> Result<(), Stop>
    ensures { Moves result bytes.new.items line.new.now (fields.attributes.read bytes.old.items line.old.now) }
{
    let mut parts = Vec::new(*bytes.allocator());
    let flags = read_fields(line, &mut parts)?;
    append_numbered(flags, parts.as_slice(), bytes)?;
    Ok(())
}
