//! The line of a record: its side, its id if it has one, its packet's name and its fields, or `raw` and its bytes in
//! hexadecimal.
ghost use Rattle.std.specs.Prelude.{◌≡◌, [], ◌∷◌, ◌++◌, OnOk, option_and_then};
ghost use Rattle.sftp_packets.specs.Layouts.{shape};
ghost use Rattle.sftp_text.specs.Formats.{◌then◌, mark, word, skip, strip};
ghost use Rattle.sftp_text.specs.Fields.{fields_text, tail_text};
ghost use Rattle.sftp_text.specs.Fields.{id_text, packet_text};
ghost use Rattle.sftp_text.specs.Lines.{side_letter, side_of_letter, named_line, raw_text, digits_read};
ghost use Rattle.sftp_text.specs.Lines.{raw_read, whole, with_length, bytes_of_text, line_of, line_read};
ghost use Rattle.sftp_text.specs.Trees.{Moves, MovesOver, Makes};
ghost use Rattle.sftp_text.specs.Texts.{ReadsLine, GivesRecord, show_with};

use crate::errors::{Expected, Fault, Stop};
use crate::fields::{put_fields, put_tail, read_fields, read_tail};
use crate::names::{behind, from_name, layout_named};
use crate::numbers::{put_number, read_number};
use crate::octets::{put_octets, read_octets};
use crate::quoted::append_numbered;
use crate::words::{after_word, read_end, read_word};
use bytes::Buf;
use sftp_wire::{Layout, Side, layout_of};
use std::alloc::AllocError;

/// How lines and transcripts name a side.
pub(crate) fn letter(side: Side) -> u8
    ensures { result ≡ side_letter side }
{
    match side {
        Side::Client => b'C',
        Side::Server => b'S',
    }
}

/// Shows the id, if there is one, after a space.
fn put_id(has_id: bool, bytes: &mut &[u8], text: &mut Vec<u8>) -> Result<(), Stop>
    ensures { Moves result text.new.items bytes.new.now ((id_text has_id).show text.old.items bytes.old.now) }
{
    if !has_id {
        return Ok(());
    }
    text.push(b' ')?;
    put_number(bytes, text)
}

/// Shows the name, after a space, and takes the mark.
fn put_name(layout: &Layout, bytes: &mut &[u8], text: &mut Vec<u8>) -> Result<(), Stop>
    ensures { Moves result text.new.items bytes.new.now
        (skip layout.now.mark.now (text.old.items ++ (32 ∷ layout.now.name.now)) bytes.old.now) }
{
    text.push(b' ')?;
    text.extend_from_slice(layout.name.as_bytes())?;
    read_word(layout.mark, Expected::Name, bytes)
}

/// Shows the fields and what comes after them.
fn put_parts(layout: &Layout, bytes: &mut &[u8], text: &mut Vec<u8>) -> Result<(), Stop>
    ensures { Moves result text.new.items bytes.new.now
        ((fields_text layout.now.fields.now then tail_text layout.now.tail).show text.old.items bytes.old.now) }
{
    put_fields(layout.fields, bytes, text)?;
    put_tail(layout.tail, bytes, text)
}

/// Shows a packet after its length.
fn put_contents(layout: &Layout, bytes: &mut &[u8], text: &mut Vec<u8>) -> Result<(), Stop>
    ensures { Moves result text.new.items bytes.new.now
        ((packet_text (shape layout.now)).show text.old.items bytes.old.now) }
{
    read_word(&[layout.kind], Expected::Name, bytes)?;
    put_id(layout.has_id, bytes, text)?;
    put_name(layout, bytes, text)?;
    put_parts(layout, bytes, text)
}

/// Shows a packet after its length, which has to be all of these bytes.
fn put_whole(layout: &Layout, bytes: &[u8], text: &mut Vec<u8>) -> Result<(), Stop>
    ensures { Makes result text.new.items (whole ((packet_text (shape layout.now)).show text.old.items bytes.now)) }
{
    let mut rest = bytes;
    put_contents(layout, &mut rest, text)?;
    read_end(rest)
}

/// Shows a packet with a layout.
fn put_packet(layout: &Layout, bytes: &[u8], text: &mut Vec<u8>) -> Result<(), Stop>
    ensures { Makes result text.new.items (show_with (packet_text (shape layout.now)) text.old.items bytes.now) }
{
    let mut rest = bytes;
    let length = rest.try_get_u32()?;
    if length as usize != rest.len() {
        return Err(Stop::Unfit(Expected::Fewer));
    }
    put_whole(layout, rest, text)
}

/// Shows the bytes of a record by their layout, after the letter of its side.
#[tactic(auto, unfolding(crate::specs::Lines::named_line))]
fn put_named(side: Side, bytes: &[u8], text: &mut Vec<u8>) -> Result<(), Stop>
    requires { text.old.items ≡ side_letter side ∷ [] }
    ensures { Makes result text.new.items (named_line side bytes.now) }
{
    match layout_of(side, bytes) {
        Some(layout) => put_packet(&layout, bytes, text),
        None => Err(Stop::Unfit(Expected::Name)),
    }
}

/// Writes bytes in hexadecimal, after `raw`.
fn put_raw(bytes: &[u8], text: &mut Vec<u8>) -> Result<(), AllocError>
    ensures { OnOk result (text.new.items ≡ text.old.items ++ raw_text bytes.now) }
{
    text.extend_from_slice(b" raw")?;
    if bytes.is_empty() {
        return Ok(());
    }
    text.push(b' ')?;
    put_octets(bytes, text)
}

/// Writes the letter of a side in place of what `text` has.
fn put_side(side: Side, text: &mut Vec<u8>) -> Result<(), AllocError>
    ensures { OnOk result (text.new.items ≡ side_letter side ∷ []) }
{
    text.clear();
    text.push(letter(side))?;
    Ok(())
}

/// Writes the line of a record with these bytes, without a line feed, in place of what `text` has. Bytes that are not
/// one whole packet of that side in one of the layouts are written as `raw` and their hexadecimal digits. `read_record`
/// gives the side and the bytes back.
///
/// # Errors
///
/// `AllocError` if memory runs out. `text` then has any bytes.
#[tactic(auto, unfolding(crate::specs::Lines::line_of))]
pub fn put_record(side: Side, bytes: &[u8], text: &mut Vec<u8>) -> Result<(), AllocError>
    ensures { OnOk result (text.new.items ≡ line_of side bytes.now) }
{
    put_side(side, text)?;
    match put_named(side, bytes, text) {
        Ok(()) => Ok(()),
        Err(Stop::NoMemory) => Err(AllocError),
        Err(Stop::Unfit(_)) => {
            put_side(side, text)?;
            put_raw(bytes, text)
        }
    }
}

/// Reads the id, if there is one, after a space.
fn read_id(has_id: bool, line: &mut &[u8], bytes: &mut Vec<u8>) -> Result<(), Stop>
    ensures { Moves result bytes.new.items line.new.now ((id_text has_id).read bytes.old.items line.old.now) }
{
    if !has_id {
        return Ok(());
    }
    read_word(b" ", Expected::Space, line)?;
    read_number(line, bytes)
}

/// Reads the name, after a space, and writes the mark.
fn read_name(layout: &Layout, line: &mut &[u8], bytes: &mut Vec<u8>) -> Result<(), Stop>
    ensures { Moves result bytes.new.items line.new.now
        ((word (32 ∷ layout.now.name.now) then mark layout.now.mark.now).read bytes.old.items line.old.now) }
{
    read_spaced(layout.name.as_bytes(), line)?;
    bytes.extend_from_slice(layout.mark)?;
    Ok(())
}

/// Takes a space and a word from the front of a line.
fn read_spaced(name: &[u8], line: &mut &[u8]) -> Result<(), Stop>
    ensures { MovesOver result line.new.now (strip (32 ∷ name.now) line.old.now) }
{
    read_word(b" ", Expected::Space, line)?;
    read_word(name, Expected::Name, line)
}

/// Reads the fields and what comes after them.
fn read_parts(layout: &Layout, line: &mut &[u8], bytes: &mut Vec<u8>) -> Result<(), Stop>
    ensures { Moves result bytes.new.items line.new.now
        ((fields_text layout.now.fields.now then tail_text layout.now.tail).read bytes.old.items line.old.now) }
{
    read_fields(layout.fields, line, bytes)?;
    read_tail(layout.tail, line, bytes)
}

/// Reads a packet without its length.
fn read_contents(layout: &Layout, line: &mut &[u8], bytes: &mut Vec<u8>) -> Result<(), Stop>
    ensures { Moves result bytes.new.items line.new.now
        ((packet_text (shape layout.now)).read bytes.old.items line.old.now) }
{
    bytes.push(layout.kind)?;
    read_id(layout.has_id, line, bytes)?;
    read_name(layout, line, bytes)?;
    read_parts(layout, line, bytes)
}

/// Reads a packet without its length, up to the end of the line.
fn read_whole(layout: &Layout, line: &mut &[u8], bytes: &mut Vec<u8>) -> Result<(), Stop>
    requires { bytes.old.items ≡ [] }
    ensures { Makes result bytes.new.items (whole ((packet_text (shape layout.now)).read [] line.old.now)) }
{
    read_contents(layout, line, bytes)?;
    read_end(line)
}

/// Writes the bytes of a packet after their length.
fn append_packet(packet: &[u8], bytes: &mut Vec<u8>) -> Result<(), Stop>
    requires { bytes.old.items ≡ [] }
    ensures { Makes result bytes.new.items (with_length packet.now) }
{
    let Ok(length) = u32::try_from(packet.len()) else {
        return Err(Stop::Unfit(Expected::Fewer));
    };
    append_numbered(length, packet, bytes)?;
    Ok(())
}

/// Reads a packet with its length.
fn read_packet(layout: &Layout, line: &mut &[u8], bytes: &mut Vec<u8>) -> Result<(), Stop>
    requires { bytes.old.items ≡ [] }
    ensures { Makes result bytes.new.items (option_and_then with_length
        (whole ((packet_text (shape layout.now)).read [] line.old.now))) }
{
    let mut packet = Vec::new(*bytes.allocator());
    read_whole(layout, line, &mut packet)?;
    append_packet(packet.as_slice(), bytes)
}

/// Reads what follows `raw`.
fn read_digits(line: &mut &[u8], bytes: &mut Vec<u8>) -> Result<(), Stop>
    requires { bytes.old.items ≡ [] }
    ensures { Makes result bytes.new.items (digits_read line.old.now) }
{
    if line.is_empty() {
        return Ok(());
    }
    read_word(b" ", Expected::Space, line)?;
    read_octets(line, bytes)
}

/// Reads bytes in hexadecimal, after `raw`.
fn read_raw(line: &mut &[u8], bytes: &mut Vec<u8>) -> Result<(), Stop>
    requires { bytes.old.items ≡ [] }
    ensures { Makes result bytes.new.items (raw_read line.old.now) }
{
    let Some(rest) = after_word(b" raw", line) else {
        *line = from_name(behind(1, line));
        return Err(Stop::Unfit(Expected::Name));
    };
    *line = rest;
    read_digits(line, bytes)
}

/// Reads a line after its side.
#[tactic(auto, unfolding(crate::specs::Lines::bytes_of_text))]
fn read_any(side: Side, line: &mut &[u8], bytes: &mut Vec<u8>) -> Result<(), Stop>
    requires { bytes.old.items ≡ [] }
    ensures { Makes result bytes.new.items (bytes_of_text side line.old.now) }
{
    match layout_named(side, line) {
        Some(layout) => read_packet(&layout, line, bytes),
        None => read_raw(line, bytes),
    }
}

/// The side that a letter names.
pub(crate) fn side_of(letter: u8) -> Option<Side>
    ensures { result ≡ side_of_letter letter }
{
    match letter {
        b'C' => Some(Side::Client),
        b'S' => Some(Side::Server),
        _ => None,
    }
}

/// Reads a line from its side on.
#[tactic(auto, unfolding(crate::specs::Lines::line_read))]
fn read_line(line: &mut &[u8], bytes: &mut Vec<u8>) -> Result<Side, Stop>
    requires { bytes.old.items ≡ [] }
    ensures { ReadsLine result bytes.new.items (line_read line.old.now) }
{
    let Some((first, rest)) = line.split_first() else {
        return Err(Stop::Unfit(Expected::Side));
    };
    let Some(side) = side_of(*first) else {
        return Err(Stop::Unfit(Expected::Side));
    };
    *line = rest;
    read_any(side, line, bytes)?;
    Ok(side)
}

/// Reads the line of a record, without a line feed, in any way of writing that the grammar allows. Returns the side of
/// the record, and puts its bytes in place of what `bytes` has.
///
/// # Errors
///
/// `Unread` with the column where the line differs from the grammar, and what was expected there; `NoMemory` if memory
/// runs out. `bytes` then has any bytes.
pub fn read_record(line: &[u8], bytes: &mut Vec<u8>) -> Result<Side, Fault>
    ensures { GivesRecord result bytes.new.items (line_read line.now) }
{
    let mut rest = line;
    bytes.clear();
    match read_line(&mut rest, bytes) {
        Ok(side) => Ok(side),
        Err(stop) => Err(stop.in_line(line.len(), rest.len())),
    }
}
