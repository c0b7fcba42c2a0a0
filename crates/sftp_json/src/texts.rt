//! What of a text is written as it is.
ghost use Rattle.std.specs.Prelude.{◌≡◌, ◌++◌, ◌<◌, length, IfSome};

/// Whether a byte of UTF-8 stands for itself in a JSON string. Control characters of ASCII, `"` and `\` do not.
fn is_plain(byte: u8) -> bool {
    byte >= b' ' && byte != b'"' && byte != b'\\' && byte != 0x7f
}

/// How many bytes the character in front of UTF-8 has, if it is escaped; else 0. Those that are no byte of ASCII are
/// control characters (U+0080 to U+009F), marks of direction (U+061C, U+200E, U+200F, U+202A to U+202E, U+2066 to
/// U+2069), and separators of lines and paragraphs (U+2028, U+2029): a terminal would obey them.
fn escape_length(text: &[u8]) -> usize {
    match text {
        [byte, ..] if !is_plain(*byte) => 1,
        [0xc2, 0x80..=0x9f, ..] => 2,
        [0xd8, 0x9c, ..] => 2,
        [0xe2, 0x80, 0x8e..=0x8f, ..] => 3,
        [0xe2, 0x80, 0xa8..=0xae, ..] => 3,
        [0xe2, 0x81, 0xa6..=0xa9, ..] => 3,
        _ => 0,
    }
}

/// Where the first character that is escaped begins, and how many bytes it has.
fn first_escape(text: &[u8]) -> Option<(usize, usize)>
    ensures { IfSome result (λ found. 0 < found.1) }
{
    let mut rest = text;
    let mut place = 0_usize;
    'bytes: while let Some((_, behind)) = rest.split_first() {
        let length = escape_length(rest);
        if length > 0 {
            return Some((place, length));
        }
        place = place.saturating_add(1);
        rest = behind;
    }
    None
}

/// The bytes before the first character that is escaped, those of that character, and those after it.
pub(crate) fn split_at_escape(text: &[u8]) -> Option<(&[u8], &[u8], &[u8])>
    ensures whole { IfSome result (λ parts. parts.0.now ++ parts.1.now ++ parts.2.now ≡ text.now) }
    ensures shorter { IfSome result (λ parts. length parts.2.now < length text.now) }
{
    let (place, length) = first_escape(text)?;
    let (front, rest) = text.split_at_checked(place)?;
    let (escaped, behind) = rest.split_at_checked(length)?;
    Some((front, escaped, behind))
}

/// The characters that the first `limit` bytes of a text have whole.
pub(crate) fn first_characters(text: &str, limit: usize) -> &[u8] {
    let end = text.floor_char_boundary(limit);
    let bytes = text.as_bytes();
    bytes.get(..end).unwrap_or(bytes)
}

/// The number of the one character that these bytes of UTF-8 are.
pub(crate) fn code_point(bytes: &[u8]) -> u32 {
    match str::from_utf8(bytes) {
        Ok(text) => text.chars().next().map_or(0, |character| character as u32),
        Err(_) => 0,
    }
}
