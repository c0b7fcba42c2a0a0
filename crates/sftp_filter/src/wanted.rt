//! What a field may be compared with, and how.

use crate::errors::Fault;
use crate::expressions::Wanted;
use crate::fields::Kind;
use crate::tokens::{Operator, Sign};
use crate::words;
use std::alloc::Global;

/// Lets a field of this kind be compared so.
pub(crate) fn check_operator<'t>(kind: Kind, operator: Operator) -> Result<(), Fault<'t>> {
    match (kind, operator) {
        (Kind::Number | Kind::Code, Operator::Contains) => Err(Fault::Operator(
            "'~' compares texts and flags, not numbers",
        )),
        (Kind::Number | Kind::Code, _) => Ok(()),
        (Kind::Flags, Operator::Contains) => Ok(()),
        (Kind::Flags, _) => Err(Fault::Operator("flags are compared by '~' alone")),
        (_, Operator::Equal | Operator::Unequal) => Ok(()),
        (Kind::Text, Operator::Contains) => Ok(()),
        (Kind::Text, _) => Err(Fault::Operator("a text is compared by '==', '!=' or '~'")),
        (_, _) => Err(Fault::Operator("a packet or a code is compared by '==' or '!='")),
    }
}

/// What a field of this kind is compared with by this sign.
pub(crate) fn wanted_by<'t>(
    alloc: Global,
    kind: Kind,
    sign: Sign<'t>,
) -> Result<Wanted, Fault<'t>> {
    match (kind, sign) {
        (Kind::Number | Kind::Code, Sign::Number(number)) => Ok(Wanted::Number(number)),
        (Kind::Text, Sign::Text(text)) => Ok(Wanted::Text(bytes_of(alloc, text)?)),
        (_, Sign::Word(word)) => wanted_word(kind, word),
        (kind, _) => Err(Fault::Wanted(wanted_at(kind))),
    }
}

/// What a field of this kind is compared with by a word.
fn wanted_word<'t>(kind: Kind, word: &'t str) -> Result<Wanted, Fault<'t>> {
    match kind {
        Kind::Code => code_of(word),
        Kind::Packet => packet_of(word),
        Kind::Reply => match words::code_named(word) {
            Some(code) => Ok(Wanted::Code(code)),
            None => packet_of(word),
        },
        Kind::Flags => flag_of(word),
        Kind::Number | Kind::Text => Err(Fault::Wanted(wanted_at(kind))),
    }
}

/// What has to stand behind the operator of a field of this kind.
pub(crate) fn wanted_at(kind: Kind) -> &'static str {
    match kind {
        Kind::Number => "a number",
        Kind::Code => "a number or the name of a code",
        Kind::Text => "a text in quotes",
        Kind::Packet => "the name of a packet",
        Kind::Reply => "the name of a reply or of a code",
        Kind::Flags => "the name of a flag",
    }
}

fn code_of(word: &str) -> Result<Wanted, Fault<'_>> {
    match words::code_named(word) {
        Some(code) => Ok(Wanted::Number(u64::from(code))),
        None => Err(unknown(word)),
    }
}

fn packet_of(word: &str) -> Result<Wanted, Fault<'_>> {
    if let Some(kind) = words::request_named(word) {
        return Ok(Wanted::Packet(kind));
    }
    match words::reply_named(word) {
        Some(kind) => Ok(Wanted::Packet(kind)),
        None => Err(unknown(word)),
    }
}

fn flag_of(word: &str) -> Result<Wanted, Fault<'_>> {
    match words::flag_named(word) {
        Some(flag) => Ok(Wanted::Flag(flag)),
        None => Err(Fault::Flag(word, words::flag_close_to(word))),
    }
}

/// That no packet and no code has this name.
pub(crate) fn unknown(word: &str) -> Fault<'_> {
    Fault::Word(word, words::close_to(word))
}

/// The bytes that a text stands for, in which `\x` and two hexadecimal digits are one byte.
fn bytes_of<'t>(alloc: Global, text: &str) -> Result<Vec<u8>, Fault<'t>> {
    let text = text.as_bytes();
    let mut bytes = Vec::new(alloc);
    let mut next = 0_usize;
    for place in 0..text.len() {
        if place >= next {
            let (byte, length) = byte_of(text.get(place..).unwrap_or(&[]))?;
            push(&mut bytes, byte)?;
            next = place.saturating_add(length);
        }
    }
    Ok(bytes)
}

fn push<'t>(bytes: &mut Vec<u8>, byte: u8) -> Result<(), Fault<'t>> {
    match bytes.push(byte) {
        Ok(()) => Ok(()),
        Err(_no_memory) => Err(Fault::NoMemory),
    }
}

/// The byte that a text begins with, and how many bytes it is written with.
fn byte_of<'t>(text: &[u8]) -> Result<(u8, usize), Fault<'t>> {
    match text {
        [b'\\', b'x', high, low, ..] => match (digit(*high), digit(*low)) {
            (Some(high), Some(low)) => Ok((high.saturating_mul(16).saturating_add(low), 4)),
            _ => Err(Fault::Escape),
        },
        [b'\\', ..] => Err(Fault::Escape),
        [byte, ..] => Ok((*byte, 1)),
        [] => Err(Fault::Escape),
    }
}

/// The value of a hexadecimal digit.
fn digit(character: u8) -> Option<u8> {
    match character {
        b'0'..=b'9' => Some(character - b'0'),
        b'a'..=b'f' => Some(character - b'a' + 10),
        b'A'..=b'F' => Some(character - b'A' + 10),
        _ => None,
    }
}
