//! A writer of JSON objects.

use crate::texts::{code_point, first_characters, split_at_escape};
use std::io;
use std::io::Write;

/// Writes JSON objects, one a line. Once a write fails it writes no more, and `finish` returns the failure.
///
/// Names of members are plain: letters, digits and `_`. Each object and list is closed before the line ends.
#[derive(Drop)]
pub struct JsonLines<'a, O> {
    output: &'a mut O,
    /// How many bytes of each text are written.
    limit: usize,
    /// Whether nothing is written yet in the innermost object or list that is open, or in the line.
    is_empty: bool,
    /// Why a write failed, if one did.
    error: Option<io::Error>,
}

impl<'a, O: Write> JsonLines<'a, O> {
    /// A writer of lines in which texts of more than `limit` bytes are cut.
    pub fn new(output: &'a mut O, limit: usize) -> JsonLines<'a, O> {
        JsonLines {
            output,
            limit,
            is_empty: true,
            error: None,
        }
    }

    /// Opens an object: the one of a line, or an item of the list that is open.
    pub fn open(&mut self) {
        self.separate();
        self.put(b"{");
        self.is_empty = true;
    }

    /// Opens an object that is a member.
    pub fn open_member(&mut self, name: &str) {
        self.put_name(name, "");
        self.put(b"{");
        self.is_empty = true;
    }

    /// Closes an object that is an item or a member.
    pub fn close(&mut self) {
        self.put(b"}");
        self.is_empty = false;
    }

    /// Closes the object of a line, and ends the line.
    pub fn end_line(&mut self) {
        self.put(b"}\n");
        self.is_empty = true;
    }

    /// Opens a list that is a member.
    pub fn open_list(&mut self, name: &str) {
        self.put_name(name, "");
        self.put(b"[");
        self.is_empty = true;
    }

    /// Closes a list.
    pub fn close_list(&mut self) {
        self.put(b"]");
        self.is_empty = false;
    }

    /// Writes a member that is a number.
    pub fn number(&mut self, name: &str, value: u64) {
        self.put_name(name, "");
        self.put_number(value);
    }

    /// Writes a member that is a text: a `0`, and the octal digits of a number.
    pub fn octal(&mut self, name: &str, value: u32) {
        self.put_name(name, "");
        if self.error.is_none() {
            self.error = write!(self.output, "\"0{value:o}\"").err();
        }
    }

    /// Writes a member that is `true` or `false`.
    pub fn flag(&mut self, name: &str, value: bool) {
        self.put_name(name, "");
        self.put(if value { b"true" } else { b"false" });
    }

    /// Writes a member that is a whole text.
    pub fn word(&mut self, name: &str, text: &str) {
        self.put_name(name, "");
        self.put_string(text.as_bytes());
    }

    /// Writes an item of the list that is open: a whole text.
    pub fn item(&mut self, text: &str) {
        self.separate();
        self.put_string(text.as_bytes());
    }

    /// Writes a member that is bytes: `NAME` with a string if they are UTF-8, else `NAME_hex` with two lower-case
    /// hexadecimal digits a byte. If there are more bytes than the limit, the member has the first of them, of a string
    /// only whole characters, and `NAME_length` says how many there are.
    pub fn bytes(&mut self, name: &str, bytes: &[u8]) {
        match str::from_utf8(bytes) {
            Ok(text) => self.put_text(name, text),
            Err(_) => self.put_hex(name, bytes),
        }
        if bytes.len() > self.limit {
            self.put_name(name, "_length");
            self.put_number(bytes.len() as u64);
        }
    }

    /// Flushes the output, and says whether everything was written.
    ///
    /// # Errors
    ///
    /// The first failure of the output.
    pub fn finish(&mut self) -> io::Result<()> {
        match self.error.take() {
            None => self.output.flush(),
            Some(error) => Err(error),
        }
    }

    /// Whether a write failed, so that no more is written.
    pub fn has_failed(&self) -> bool {
        self.error.is_some()
    }

    /// Writes a text up to the limit.
    fn put_text(&mut self, name: &str, text: &str) {
        self.put_name(name, "");
        self.put_string(first_characters(text, self.limit));
    }

    /// Writes the digits of bytes up to the limit.
    fn put_hex(&mut self, name: &str, bytes: &[u8]) {
        self.put_name(name, "_hex");
        self.put(b"\"");
        self.put_digits(bytes.get(..self.limit).unwrap_or(bytes));
        self.put(b"\"");
    }

    fn put_digits(&mut self, bytes: &[u8]) {
        for byte in bytes {
            self.put_octet(*byte);
        }
    }

    /// Writes the comma that comes before all but the first.
    fn separate(&mut self) {
        if !self.is_empty {
            self.put(b",");
        }
        self.is_empty = false;
    }

    /// Writes the name of a member, which has two parts.
    fn put_name(&mut self, name: &str, end: &str) {
        self.separate();
        self.put(b"\"");
        self.put(name.as_bytes());
        self.put(end.as_bytes());
        self.put(b"\":");
    }

    /// Writes UTF-8 as a string.
    fn put_string(&mut self, text: &[u8]) {
        self.put(b"\"");
        self.put_characters(text);
        self.put(b"\"");
    }

    fn put_characters(&mut self, text: &[u8]) {
        let mut rest = text;
        'escapes: while let Some((front, escaped, behind)) = split_at_escape(rest) {
            self.put(front);
            self.put_escape(escaped);
            rest = behind;
        }
        self.put(rest);
    }

    /// Writes a character that does not stand for itself.
    fn put_escape(&mut self, character: &[u8]) {
        match character {
            [byte @ (b'"' | b'\\')] => self.put(&[b'\\', *byte]),
            _ => {
                let [_, _, high, low] = code_point(character).to_be_bytes();
                self.put(b"\\u");
                self.put_octet(high);
                self.put_octet(low);
            }
        }
    }

    fn put_octet(&mut self, byte: u8) {
        self.put(&[digit(byte >> 4), digit(byte & 15)]);
    }

    fn put_number(&mut self, value: u64) {
        if self.error.is_none() {
            self.error = write!(self.output, "{value}").err();
        }
    }

    /// Writes bytes as they are.
    fn put(&mut self, bytes: &[u8]) {
        if self.error.is_none() {
            self.error = self.output.write_all(bytes).err();
        }
    }
}

/// The hexadecimal digit of a number below 16.
fn digit(value: u8) -> u8 {
    match b"0123456789abcdef".get(value as usize) {
        Some(digit) => *digit,
        None => b'0',
    }
}
