//! Names of files in messages.
use std::fmt;
use std::fmt::Write;

/// The name of a file on a line. Printable ASCII stands for itself, but for `\`; every other byte is `\x` and two
/// lower-case hexadecimal digits. So no name ends a line, or changes what a terminal shows.
#[derive(Clone, Copy)]
pub struct Named<'a>(pub &'a str);

/// Whether a byte stands for itself.
fn is_plain(byte: u8) -> bool {
    (b' '..=b'~').contains(&byte) && byte != b'\\'
}

fn put<W: fmt::Write>(byte: u8, f: &mut fmt::Formatter<W>) -> fmt::Result {
    if is_plain(byte) {
        f.write_char(char::from(byte))
    } else {
        write!(f, "\\x{byte:02x}")
    }
}

impl fmt::Display for Named<'_> {
    fn fmt<W: fmt::Write>(&self, f: &mut fmt::Formatter<W>) -> fmt::Result {
        for byte in self.0.as_bytes() {
            put(*byte, f)?;
        }
        Ok(())
    }
}
