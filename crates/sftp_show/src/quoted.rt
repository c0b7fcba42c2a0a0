//! Texts in quotes.

use std::fmt;
use std::fmt::Write;

/// Bytes as a text in quotes. Printable ASCII stands for itself, but for `"` and `\`; every other byte is `\x` and two
/// lower-case hexadecimal digits.
#[derive(Clone, Copy)]
pub struct Quoted<'a>(pub &'a [u8]);

/// Whether a byte stands for itself.
fn is_plain(byte: u8) -> bool {
    (b' '..=b'~').contains(&byte) && byte != b'"' && byte != b'\\'
}

fn put<W: fmt::Write>(byte: u8, f: &mut fmt::Formatter<W>) -> fmt::Result {
    if is_plain(byte) {
        f.write_char(char::from(byte))
    } else {
        write!(f, "\\x{byte:02x}")
    }
}

impl fmt::Display for Quoted<'_> {
    fn fmt<W: fmt::Write>(&self, f: &mut fmt::Formatter<W>) -> fmt::Result {
        f.write_char('"')?;
        for byte in self.0 {
            put(*byte, f)?;
        }
        f.write_char('"')
    }
}
