//! The flags of OPEN (draft, section 6.3): their names from the lowest bit on with `|` between, or their number.
ghost use Rattle.std.specs.Prelude.{◌≡◌, [], ◌++◌, ◌<◌, OnOk};
ghost use Rattle.sftp_text.specs.Digits as digits;
ghost use Rattle.sftp_text.specs.Digits.{flags_text, flag_names, flags_from, flags_in};
ghost use Rattle.sftp_text.specs.Trees.{Moves, Finds, FindsUpTo, flag_part, lower_flags, higher_flags};
ghost use Rattle.sftp_text.specs.Trees as moves;

use crate::errors::{Expected, Stop};
use crate::numbers::{digit_of, put_decimal, read_decimal};
use bytes::{Buf, BufMut};
use std::alloc::{AllocError, Global};

const READ: u32 = 0x01;

const WRITE: u32 = 0x02;

const APPEND: u32 = 0x04;

const CREAT: u32 = 0x08;

const TRUNC: u32 = 0x10;

const EXCL: u32 = 0x20;

/// The first number that is not the sum of flags with names.
const UNNAMED: u32 = 0x40;

/// Writes the name of a flag if it is set, after `|` if a lower one is.
fn put_flag(n: u32, flag: u32, name: &[u8], text: &mut Vec<u8>) -> Result<(), AllocError>
    requires { 0 < flag }
    ensures { OnOk result (text.new.items ≡ text.old.items ++ flag_part n (flag, name.now)) }
{
    if n & flag == 0 {
        return Ok(());
    }
    if n % flag != 0 {
        text.push(b'|')?;
    }
    text.extend_from_slice(name)
}

fn put_lower_flags(n: u32, text: &mut Vec<u8>) -> Result<(), AllocError>
    ensures { OnOk result (text.new.items ≡ text.old.items ++ lower_flags n) }
{
    put_flag(n, READ, b"READ", text)?;
    put_flag(n, WRITE, b"WRITE", text)?;
    put_flag(n, APPEND, b"APPEND", text)
}

fn put_higher_flags(n: u32, text: &mut Vec<u8>) -> Result<(), AllocError>
    ensures { OnOk result (text.new.items ≡ text.old.items ++ higher_flags n) }
{
    put_flag(n, CREAT, b"CREAT", text)?;
    put_flag(n, TRUNC, b"TRUNC", text)?;
    put_flag(n, EXCL, b"EXCL", text)
}

/// Writes flags that have names.
fn put_named_flags(n: u32, text: &mut Vec<u8>) -> Result<(), AllocError>
    ensures { OnOk result (text.new.items ≡ text.old.items ++ (lower_flags n ++ higher_flags n)) }
{
    put_lower_flags(n, text)?;
    put_higher_flags(n, text)
}

/// Writes flags.
fn put_flags_text(n: u32, text: &mut Vec<u8>) -> Result<(), AllocError>
    ensures { OnOk result (text.new.items ≡ text.old.items ++ flags_text n) }
{
    if n == 0 || n >= UNNAMED {
        return put_decimal(u64::from(n), text);
    }
    put_named_flags(n, text)
}

/// Shows the flags of OPEN.
#[tactic(auto, unfolding(crate::specs::Digits::flags))]
pub(crate) fn put_flags(bytes: &mut &[u8], text: &mut Vec<u8>) -> Result<(), Stop>
    ensures { Moves result text.new.items bytes.new.now (digits.flags.show text.old.items bytes.old.now) }
{
    let n = bytes.try_get_u32()?;
    put_flags_text(n, text)?;
    Ok(())
}

/// Flags with one more, unless that is set.
fn added(flags: u32, flag: u32) -> Option<u32>
    ensures { result ≡ moves.added flags flag }
{
    if flags & flag == 0 {
        Some(flags | flag)
    } else {
        None
    }
}

/// Flags with the one of this name, unless there is none or it is set.
fn with_flag(flags: u32, name: &[u8]) -> Option<u32>
    ensures { result ≡ digits.with_flag flags name.now flag_names }
{
    if name == b"READ".as_slice() {
        added(flags, READ)
    } else if name == b"WRITE".as_slice() {
        added(flags, WRITE)
    } else if name == b"APPEND".as_slice() {
        added(flags, APPEND)
    } else if name == b"CREAT".as_slice() {
        added(flags, CREAT)
    } else if name == b"TRUNC".as_slice() {
        added(flags, TRUNC)
    } else if name == b"EXCL".as_slice() {
        added(flags, EXCL)
    } else {
        None
    }
}

/// Whether a character may be in a flag's name.
fn is_letter(character: u8) -> bool
    ensures { result ≡ digits.is_letter character }
{
    character >= b'A' && character <= b'Z'
}

/// Takes names of flags, in any order but none twice, from the front of a line.
fn read_flag_names(alloc: Global, line: &mut &[u8]) -> Result<u32, Stop>
    ensures { Finds result line.new.now (flags_from 0 [] line.old.now) }
{
    let mut flags: u32 = 0;
    let mut name: Vec<u8> = Vec::new(alloc);
    'characters: loop {
        let Some((first, rest)) = line.split_first() else {
            return with_flag(flags, name.as_slice()).ok_or(Stop::Unfit(Expected::Flags));
        };
        if is_letter(*first) {
            name.push(*first)?;
            *line = rest;
        } else {
            let Some(more) = with_flag(flags, name.as_slice()) else {
                return Err(Stop::Unfit(Expected::Flags));
            };
            if *first != b'|' {
                return Ok(more);
            }
            flags = more;
            name.clear();
            *line = rest;
        }
    }
}

/// Takes flags from the front of a line.
fn find_flags(alloc: Global, line: &mut &[u8]) -> Result<u32, Stop>
    ensures { FindsUpTo 0xffffffff result line.new.now (flags_in line.old.now) }
{
    let Some((first, _)) = line.split_first() else {
        return Err(Stop::Unfit(Expected::Flags));
    };
    if digit_of(10, *first).is_some() {
        read_decimal(line)
    } else {
        read_flag_names(alloc, line)
    }
}

/// Reads the flags of OPEN.
#[tactic(auto, unfolding(crate::specs::Digits::flags))]
pub(crate) fn read_flags(line: &mut &[u8], bytes: &mut Vec<u8>) -> Result<(), Stop>
    ensures { Moves result bytes.new.items line.new.now (digits.flags.read bytes.old.items line.old.now) }
{
    let n = find_flags(*bytes.allocator(), line)?;
    bytes.put_u32(n)?;
    Ok(())
}
