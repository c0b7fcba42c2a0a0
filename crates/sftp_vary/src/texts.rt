//! What is free in texts, which are messages, language tags and long names, and in attributes.

use crate::dice::Dice;
use sftp_tree::NoMemory;
use sftp_wire::{Attrs, ByteString, Pairs};
use std::alloc::Global;

/// Messages that the draft allows: empty, short, longer, in other letters, of two lines, in the words of others.
const MESSAGES: [&[u8]; 8] = [
    b"",
    b"Failure",
    b"OK",
    b"Nicht m\xc3\xb6glich",
    b"\xe3\x81\xaf\xe3\x81\x84",
    b"The server says so, and has nothing to add.\r\nIt says it in two lines.",
    b"100% of %s and %n",
    b"\"quoted\", 'quoted' & <b>marked</b>; $(echo no) `echo no` \\n",
];

/// Language tags of RFC 1766, and none.
const TAGS: [&[u8]; 6] = [b"", b"en", b"en-US", b"de", b"i-navajo", b"x-klingon"];

/// A message.
pub(crate) fn message(dice: &mut Dice, wild: bool, alloc: Global) -> Result<ByteString, NoMemory> {
    if wild && dice.one_in(2) {
        return wild_text(dice, alloc);
    }
    if dice.one_in(32) {
        return repeated(alloc, b"A long message. ", 500);
    }
    chosen(dice, &MESSAGES, alloc)
}

/// A language tag.
pub(crate) fn tag(dice: &mut Dice, wild: bool, alloc: Global) -> Result<ByteString, NoMemory> {
    if wild && dice.one_in(2) {
        return wild_text(dice, alloc);
    }
    chosen(dice, &TAGS, alloc)
}

/// A long name for a name: a line in one of several layouts.
pub(crate) fn longname(
    dice: &mut Dice,
    wild: bool,
    alloc: Global,
    name: &[u8],
) -> Result<ByteString, NoMemory> {
    if wild && dice.one_in(2) {
        return wild_text(dice, alloc);
    }
    match dice.below(5) {
        0 => line(alloc, b"", name, b""),
        1 => line(
            alloc,
            b"-rw-r--r--   1 root     root            0 Jan  1  1970 ",
            name,
            b"",
        ),
        2 => line(
            alloc,
            b"drwxrwxrwx 999 nobody nogroup 18446744073709551615 Dec 31 23:59 ",
            name,
            b"",
        ),
        3 => line(alloc, b"01-01-70  12:00AM       <DIR>          ", name, b""),
        _ => line(alloc, b"[", name, b"] (a file, or not)"),
    }
}

/// One of these texts.
fn chosen(dice: &mut Dice, texts: &[&[u8]], alloc: Global) -> Result<ByteString, NoMemory> {
    if texts.is_empty() {
        return Ok(ByteString::new(Vec::new(alloc)));
    }
    let copy = ByteString::from_slice(alloc, texts[dice.below(texts.len())])?;
    Ok(copy)
}

/// Up to 64 bytes of any values.
fn wild_text(dice: &mut Dice, alloc: Global) -> Result<ByteString, NoMemory> {
    let count = dice.below(65);
    let bytes = any_bytes(dice, count, alloc)?;
    Ok(ByteString::new(bytes))
}

/// This many bytes of any values.
pub(crate) fn any_bytes(dice: &mut Dice, count: usize, alloc: Global) -> Result<Vec<u8>, NoMemory> {
    let mut bytes = Vec::new(alloc);
    for _ in 0..count {
        bytes.push(dice.byte())?;
    }
    Ok(bytes)
}

/// A text, this many times.
fn repeated(alloc: Global, text: &[u8], count: usize) -> Result<ByteString, NoMemory> {
    let mut bytes = Vec::new(alloc);
    for _ in 0..count {
        bytes.extend_from_slice(text)?;
    }
    Ok(ByteString::new(bytes))
}

/// A name between two texts.
fn line(alloc: Global, before: &[u8], name: &[u8], after: &[u8]) -> Result<ByteString, NoMemory> {
    let mut bytes = Vec::new(alloc);
    bytes.extend_from_slice(before)?;
    bytes.extend_from_slice(name)?;
    bytes.extend_from_slice(after)?;
    Ok(ByteString::new(bytes))
}

/// Times: none, or of any values, early and late ones too.
pub(crate) fn any_times(dice: &mut Dice) -> Option<(u32, u32)> {
    match dice.below(6) {
        0 | 1 => None,
        2 => Some((0, 0)),
        3 => Some((u32::MAX, u32::MAX)),
        _ => Some((dice.number(), dice.number())),
    }
}

/// Extended pairs: none, no pairs, or some of any bytes.
pub(crate) fn any_pairs(dice: &mut Dice, alloc: Global) -> Result<Option<Pairs>, NoMemory> {
    if dice.one_in(2) {
        return Ok(None);
    }
    let mut pairs = Vec::new(alloc);
    for _ in 0..dice.below(4) {
        let pair = any_pair(dice, alloc)?;
        pairs.push(pair)?;
    }
    Ok(Some(Pairs::new(pairs)))
}

/// A type in the form of a name, and data of any bytes.
fn any_pair(dice: &mut Dice, alloc: Global) -> Result<(ByteString, ByteString), NoMemory> {
    let kind = ByteString::from_slice(alloc, b"vary@sftpv3.test")?;
    let count = dice.below(16);
    match any_bytes(dice, count, alloc) {
        Ok(data) => Ok((kind, ByteString::new(data))),
        Err(error) => Err(error),
    }
}

/// Attributes that mean nothing, without times and pairs.
pub(crate) fn dummy(dice: &mut Dice) -> Attrs {
    Attrs {
        size: dummy_size(dice),
        owner: if dice.one_in(2) {
            None
        } else {
            Some((dice.number(), dice.number()))
        },
        permissions: dummy_permissions(dice),
        times: None,
        extended: None,
    }
}

fn dummy_size(dice: &mut Dice) -> Option<u64> {
    match dice.below(4) {
        0 => None,
        1 => Some(u64::MAX),
        _ => Some(u64::from(dice.number())),
    }
}

/// Permissions with the type bits of a file, a directory, a link, a socket, of none, or of any value.
fn dummy_permissions(dice: &mut Dice) -> Option<u32> {
    match dice.below(7) {
        0 => None,
        1 => Some(0o100_644),
        2 => Some(0o040_755),
        3 => Some(0o120_777),
        4 => Some(0o140_000),
        5 => Some(0),
        _ => Some(dice.number()),
    }
}
