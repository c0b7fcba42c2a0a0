//! The parts of an expression's text.

use crate::errors::Fault;
use crate::tokens::{Operator, Sign, Token};
use std::alloc::Global;

/// A fault, and at which byte of the text it is.
pub(crate) type Placed<'t> = (usize, Fault<'t>);

/// The parts of a text, in order.
pub(crate) fn tokens_of<'t>(alloc: Global, text: &'t str) -> Result<Vec<Token<'t>>, Placed<'t>> {
    let mut tokens = Vec::new(alloc);
    let mut next = 0_usize;
    for place in 0..text.len() {
        if place >= next {
            next = place.saturating_add(take_part(text, place, &mut tokens)?);
        }
    }
    Ok(tokens)
}

/// Adds the part that begins at this byte, and returns how many bytes it has. A space is no part.
fn take_part<'t>(
    text: &'t str,
    place: usize,
    tokens: &mut Vec<Token<'t>>,
) -> Result<usize, Placed<'t>> {
    let rest = text.get(place..).unwrap_or("");
    if rest.starts_with(' ') {
        return Ok(1);
    }
    match part_of(rest) {
        Ok((sign, length)) => match tokens.push(Token { sign, place }) {
            Ok(()) => Ok(length),
            Err(_no_memory) => Err((place, Fault::NoMemory)),
        },
        Err(fault) => Err((place, fault)),
    }
}

/// The part that a text begins with, and how many bytes it has.
fn part_of(text: &str) -> Result<(Sign<'_>, usize), Fault<'_>> {
    if let Some(found) = sign_of(text.as_bytes()) {
        return Ok(found);
    }
    match text.as_bytes().first() {
        Some(b'"') => quoted(text),
        Some(byte) if byte.is_ascii_digit() => numbered(word_of(text)),
        Some(byte) if is_of_word(*byte) => {
            let word = word_of(text);
            Ok((Sign::Word(word), word.len()))
        }
        _ => Err(Fault::Character),
    }
}

/// The sign that bytes begin with, if they do.
fn sign_of<'t>(text: &[u8]) -> Option<(Sign<'t>, usize)> {
    match text {
        [b'&', b'&', ..] => Some((Sign::And, 2)),
        [b'|', b'|', ..] => Some((Sign::Or, 2)),
        [b'=', b'=', ..] => Some((Sign::Operator(Operator::Equal), 2)),
        [b'!', b'=', ..] => Some((Sign::Operator(Operator::Unequal), 2)),
        [b'<', b'=', ..] => Some((Sign::Operator(Operator::AtMost), 2)),
        [b'>', b'=', ..] => Some((Sign::Operator(Operator::AtLeast), 2)),
        [byte, ..] => short_sign(*byte),
        [] => None,
    }
}

/// The sign that a byte is, if it is one.
fn short_sign<'t>(byte: u8) -> Option<(Sign<'t>, usize)> {
    match byte {
        b'(' => Some((Sign::Opening, 1)),
        b')' => Some((Sign::Closing, 1)),
        b'!' => Some((Sign::Not, 1)),
        b'<' => Some((Sign::Operator(Operator::Below), 1)),
        b'>' => Some((Sign::Operator(Operator::Above), 1)),
        b'~' => Some((Sign::Operator(Operator::Contains), 1)),
        _ => None,
    }
}

/// Whether a byte may be in a word.
fn is_of_word(byte: u8) -> bool {
    byte.is_ascii_alphanumeric() || byte == b'_' || byte == b'.' || byte == b'-'
}

/// The word that a text begins with.
fn word_of(text: &str) -> &str {
    let mut length = 0_usize;
    for byte in text.as_bytes() {
        if !is_of_word(*byte) {
            break;
        }
        length = length.saturating_add(1);
    }
    text.get(..length).unwrap_or("")
}

/// The text in quotes with which a text begins.
fn quoted(text: &str) -> Result<(Sign<'_>, usize), Fault<'_>> {
    let inside = text.get(1..).unwrap_or("");
    match inside.split_once('"') {
        Some((quoted, _)) => Ok((Sign::Text(quoted), quoted.len().saturating_add(2))),
        None => Err(Fault::OpenText),
    }
}

/// The number that a word is.
fn numbered(word: &str) -> Result<(Sign<'_>, usize), Fault<'_>> {
    match number_of(word) {
        Some(number) => Ok((Sign::Number(number), word.len())),
        None => Err(Fault::Number),
    }
}

/// The number of a word: decimal; `0x` and hexadecimal digits; `0` and octal digits; or with `e` and how many zeros
/// follow.
fn number_of(word: &str) -> Option<u64> {
    if let Some(digits) = word.strip_prefix("0x") {
        return u64::from_str_radix(digits, 16).ok();
    }
    if let Some((digits, zeros)) = word.split_once('e') {
        return with_zeros(digits.parse().ok()?, zeros.parse().ok()?);
    }
    match word.strip_prefix("0") {
        Some(digits) if !digits.is_empty() => u64::from_str_radix(digits, 8).ok(),
        _ => word.parse().ok(),
    }
}

/// A number with so many zeros behind it.
fn with_zeros(number: u64, zeros: u32) -> Option<u64> {
    number.checked_mul(10_u64.checked_pow(zeros)?)
}
