//! Bytes as two hexadecimal digits each.
ghost use Rattle.std.specs.Prelude.{◌≡◌, ◌++◌, ◌<◌, None, Some, OnOk, MatchOption};
ghost use Rattle.sftp_text.specs.Digits.{hex_digit, hex_byte, hex_text, hex_value, hex_onto};
ghost use Rattle.sftp_text.specs.Trees.{Makes, octet_in};

use crate::errors::{Expected, Stop};
use std::alloc::AllocError;

/// The digit of a value below 16, in lower case.
fn digit(value: u8) -> u8
    requires { value < 16 }
    ensures { result ≡ hex_digit value }
{
    if value < 10 { b'0' + value } else { 87 + value }
}

/// Writes a byte as two hexadecimal digits.
pub(crate) fn put_octet(byte: u8, text: &mut Vec<u8>) -> Result<(), AllocError>
    ensures { OnOk result (text.new.items ≡ text.old.items ++ hex_byte byte) }
{
    text.push(digit(byte / 16))?;
    text.push(digit(byte % 16))?;
    Ok(())
}

/// Writes bytes as two hexadecimal digits each.
#[tactic(auto, unfolding(crate::specs::Digits::hex_text))]
pub(crate) fn put_octets(bytes: &[u8], text: &mut Vec<u8>) -> Result<(), AllocError>
    ensures { OnOk result (text.new.items ≡ text.old.items ++ hex_text bytes.now) }
{
    'bytes: for byte in bytes {
        put_octet(*byte, text)?;
    }
    Ok(())
}

/// The value of a hexadecimal digit in lower case.
fn value_of(digit: u8) -> Option<u8>
    ensures value { result ≡ hex_value digit }
    ensures small { MatchOption result (hex_value digit ≡ None) (λ v. v < 16) }
{
    if digit >= b'0' && digit < 58 {
        Some(digit - b'0')
    } else if digit >= b'a' && digit < 103 {
        Some(digit - 87)
    } else {
        None
    }
}

/// Takes a byte as two hexadecimal digits from the front of a line.
pub(crate) fn take_octet(line: &[u8]) -> Option<(u8, &[u8])>
    ensures { MatchOption result (octet_in line.now ≡ None) (λ t. octet_in line.now ≡ Some (t.0, t.1.now)) }
{
    let (first, rest) = line.split_first()?;
    let (second, rest) = rest.split_first()?;
    let high = value_of(*first)?;
    let low = value_of(*second)?;
    Some((16 * high + low, rest))
}

/// Reads bytes as two hexadecimal digits each, up to the end of a line.
pub(crate) fn read_octets(line: &mut &[u8], bytes: &mut Vec<u8>) -> Result<(), Stop>
    ensures { Makes result bytes.new.items (hex_onto bytes.old.items line.old.now) }
{
    'octets: while !line.is_empty() {
        let Some((byte, rest)) = take_octet(line) else {
            return Err(Stop::Unfit(Expected::Hexadecimal));
        };
        bytes.push(byte)?;
        *line = rest;
    }
    Ok(())
}
