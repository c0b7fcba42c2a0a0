//! Numbers: big-endian in bytes, decimal or octal in text.
ghost use Rattle.std.specs.Prelude.{◌≡◌, ◌∷◌, ◌++◌, ◌+◌, ◌-◌, ◌*◌, ◌<◌, ◌≤◌, ◌^◌, ℕ, true, false, decimal};
ghost use Rattle.std.specs.Prelude.{OnOk, MatchOption};
ghost use Rattle.std.specs.Fmt.{digits};
ghost use Rattle.sftp_text.specs.Digits.{is_digit, digits_from, number_in, decimal_in, octal_in, number, long, octal};
ghost use Rattle.sftp_text.specs.Trees.{Moves, FindsUpTo};

use crate::errors::{Expected, Stop};
use bytes::{Buf, BufMut};
use itoa::Buffer;
use std::alloc::AllocError;

/// Writes a number in decimal.
pub(crate) fn put_decimal(n: u64, text: &mut Vec<u8>) -> Result<(), AllocError>
    ensures { OnOk result (text.new.items ≡ text.old.items ++ decimal n) }
{
    let mut buffer = Buffer::new();
    text.extend_from_slice(buffer.format(n).as_bytes())
}

/// Writes a number in octal.
fn put_octal_digits(n: u32, text: &mut Vec<u8>) -> Result<(), AllocError>
    ensures { OnOk result (text.new.items ≡ text.old.items ++ digits 8 false n) }
{
    let digits = format!(in *text.allocator(); "{n:o}")?;
    text.extend_from_slice(digits.as_bytes())
}

/// Shows a uint32 in decimal.
#[tactic(auto, unfolding(crate::specs::Digits::number))]
pub(crate) fn put_number(bytes: &mut &[u8], text: &mut Vec<u8>) -> Result<(), Stop>
    ensures { Moves result text.new.items bytes.new.now (number.show text.old.items bytes.old.now) }
{
    let n = bytes.try_get_u32()?;
    put_decimal(u64::from(n), text)?;
    Ok(())
}

/// Shows a uint64 in decimal.
#[tactic(auto, unfolding(crate::specs::Digits::long))]
pub(crate) fn put_long(bytes: &mut &[u8], text: &mut Vec<u8>) -> Result<(), Stop>
    ensures { Moves result text.new.items bytes.new.now (long.show text.old.items bytes.old.now) }
{
    let n = bytes.try_get_u64()?;
    put_decimal(n, text)?;
    Ok(())
}

/// Shows a uint32 as `0` and its octal digits.
#[tactic(auto, unfolding(crate::specs::Digits::octal))]
pub(crate) fn put_octal(bytes: &mut &[u8], text: &mut Vec<u8>) -> Result<(), Stop>
    ensures { Moves result text.new.items bytes.new.now (octal.show text.old.items bytes.old.now) }
{
    let n = bytes.try_get_u32()?;
    text.push(b'0')?;
    put_octal_digits(n, text)?;
    Ok(())
}

/// The value of a digit in this base, which is at most ten.
pub(crate) fn digit_of(base: u8, byte: u8) -> Option<u64>
    requires { base ≤ 10 }
    ensures { MatchOption result (is_digit base byte ≡ false) (λ d. (is_digit base byte ≡ true) × (d ≡ byte - 48)) }
{
    if byte >= b'0' && byte < b'0' + base {
        Some(u64::from(byte - b'0'))
    } else {
        None
    }
}

/// A number and one more digit, if that is at most `most`.
fn with_digit(base: u8, most: u64, before: u64, digit: u64) -> Option<u64>
    ensures { MatchOption result (most < before * base + digit) (λ n. (n ≡ before * base + digit) × (n ≤ most)) }
{
    let product = before.checked_mul(u64::from(base))?;
    let sum = product.checked_add(digit)?;
    if sum <= most { Some(sum) } else { None }
}

/// Takes digits from the front of a line, up to the first byte that is none, and returns the number that they and the
/// number before them write.
fn read_more(
    base: u8,
    most: u64,
    before: u64,
    expected: Expected,
    line: &mut &[u8],
) -> Result<u64, Stop>
    requires base { (1 ≤ base) × (base ≤ 10) }
    requires before { before ≤ most }
    ensures { FindsUpTo most result line.new.now (Some (digits_from base before line.old.now)) }
{
    let mut n = before;
    'digits: loop {
        let Some((first, rest)) = line.split_first() else {
            return Ok(n);
        };
        let Some(digit) = digit_of(base, *first) else {
            return Ok(n);
        };
        let Some(more) = with_digit(base, most, n, digit) else {
            return Err(Stop::Unfit(expected));
        };
        n = more;
        *line = rest;
    }
}

/// Takes one digit or more from the front of a line, and returns the number that they write, which is at most `most`.
fn read_digits(base: u8, most: u64, expected: Expected, line: &mut &[u8]) -> Result<u64, Stop>
    requires base { (1 ≤ base) × (base ≤ 10) }
    requires most { 10 ≤ most }
    ensures { FindsUpTo most result line.new.now (number_in base line.old.now) }
{
    let Some((first, rest)) = line.split_first() else {
        return Err(Stop::Unfit(expected));
    };
    let Some(digit) = digit_of(base, *first) else {
        return Err(Stop::Unfit(expected));
    };
    *line = rest;
    read_more(base, most, digit, expected, line)
}

/// Reads a number in decimal, below 2^32.
pub(crate) fn read_decimal(line: &mut &[u8]) -> Result<u32, Stop>
    ensures { FindsUpTo 0xffffffff result line.new.now (decimal_in line.old.now) }
{
    let n = read_digits(10, 0xffff_ffff, Expected::Number, line)?;
    Ok(n as u32)
}

/// Reads a uint32 in decimal.
#[tactic(auto, unfolding(crate::specs::Digits::number), using(crate::proofs::ListLaws::above))]
pub(crate) fn read_number(line: &mut &[u8], bytes: &mut Vec<u8>) -> Result<(), Stop>
    ensures { Moves result bytes.new.items line.new.now (number.read bytes.old.items line.old.now) }
{
    let n = read_decimal(line)?;
    bytes.put_u32(n)?;
    Ok(())
}

/// Reads a uint64 in decimal.
#[tactic(auto, unfolding(crate::specs::Digits::long))]
pub(crate) fn read_long(line: &mut &[u8], bytes: &mut Vec<u8>) -> Result<(), Stop>
    ensures { Moves result bytes.new.items line.new.now (long.read bytes.old.items line.old.now) }
{
    let n = read_digits(10, u64::MAX, Expected::Long, line)?;
    bytes.put_u64(n)?;
    Ok(())
}

/// Takes `0` and octal digits from the front of a line.
fn read_octal_digits(line: &mut &[u8]) -> Result<u32, Stop>
    ensures { FindsUpTo 0xffffffff result line.new.now (octal_in line.old.now) }
{
    let Some((first, rest)) = line.split_first() else {
        return Err(Stop::Unfit(Expected::Octal));
    };
    if *first != b'0' {
        return Err(Stop::Unfit(Expected::Octal));
    }
    *line = rest;
    let n = read_digits(8, 0xffff_ffff, Expected::Octal, line)?;
    Ok(n as u32)
}

/// Reads a uint32 from `0` and octal digits.
#[tactic(auto, unfolding(crate::specs::Digits::octal))]
pub(crate) fn read_octal(line: &mut &[u8], bytes: &mut Vec<u8>) -> Result<(), Stop>
    ensures { Moves result bytes.new.items line.new.now (octal.read bytes.old.items line.old.now) }
{
    let n = read_octal_digits(line)?;
    bytes.put_u32(n)?;
    Ok(())
}
