//! The words of a text that messages show.

use sftp_text::Expected;

/// The word at which a line could not be read, and its place in the line, from 0. `place` is where the line begins to
/// differ from what was expected there.
///
/// Of flags and of numbers the word begins before that; a flag ends with its name. At a space in place of the end of
/// the line, the next word is meant.
pub(crate) fn word_at(line: &[u8], place: usize, expected: Expected) -> (usize, &[u8]) {
    match expected {
        Expected::Flags => flag_at(line, place),
        Expected::Number | Expected::Long | Expected::Octal => {
            let start = back_over(line, place, Part::Digit);
            (start, up_to_space(line, start))
        }
        Expected::End => {
            let start = behind_space(line, place);
            (start, up_to_space(line, start))
        }
        _ => (place, up_to_space(line, place)),
    }
}

/// Of what a word consists.
#[derive(Clone, Copy)]
enum Part {
    /// The characters of a flag's name.
    Letter,
    Digit,
    /// All but spaces.
    Any,
}

impl Part {
    fn has(self, byte: u8) -> bool {
        match self {
            Part::Letter => (b'A'..=b'Z').contains(&byte),
            Part::Digit => (b'0'..=b'9').contains(&byte),
            Part::Any => byte != b' ',
        }
    }
}

/// The name of a flag at a place, or the whole word there if there is no name.
fn flag_at(line: &[u8], place: usize) -> (usize, &[u8]) {
    let start = back_over(line, place, Part::Letter);
    let name = up_to_bar(up_to_space(line, start));
    if name.is_empty() {
        let start = back_over(line, place, Part::Any);
        (start, up_to_space(line, start))
    } else {
        (start, name)
    }
}

/// Where the characters of this kind begin that end before a place.
fn back_over(line: &[u8], place: usize, part: Part) -> usize {
    let mut start = place;
    for byte in line.get(..place).unwrap_or(&[]).iter().rev() {
        if !part.has(*byte) {
            return start;
        }
        start = start.saturating_sub(1);
    }
    start
}

/// The place behind a space, if there is one at this place.
fn behind_space(line: &[u8], place: usize) -> usize {
    match line.get(place) {
        Some(byte) if *byte == b' ' => place.saturating_add(1),
        _ => place,
    }
}

/// The bytes from a place up to the next space.
fn up_to_space(line: &[u8], place: usize) -> &[u8] {
    let word = line.get(place..).unwrap_or(&[]);
    match word.iter().position(|byte| *byte == b' ') {
        Some(end) => word.get(..end).unwrap_or(word),
        None => word,
    }
}

/// The bytes up to the next `|`.
fn up_to_bar(word: &[u8]) -> &[u8] {
    match word.iter().position(|byte| *byte == b'|') {
        Some(end) => word.get(..end).unwrap_or(word),
        None => word,
    }
}
