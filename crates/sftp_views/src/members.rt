//! How the members of a packet are written: as those of a JSON object, or as words of a line.

use sftp_json::JsonLines;
use sftp_show::Quoted;
use std::io;
use std::io::Write;

/// What the members of packets are written to.
pub(crate) trait Members {
    /// Whether lists and empty texts are summed up.
    fn is_brief(&self) -> bool;

    /// Writes a member that is a number.
    fn number(&mut self, name: &str, value: u64);

    /// Writes a member that is a number of octal digits.
    fn octal(&mut self, name: &str, value: u32);

    /// Writes a member that is a word.
    fn word(&mut self, name: &str, text: &str);

    /// Writes a member that is bytes.
    fn bytes(&mut self, name: &str, bytes: &[u8]);

    /// Begins an item of a list that has members.
    fn open(&mut self);

    /// Begins a member that has members.
    fn open_member(&mut self, name: &'static str);

    /// Ends an item or a member that has members.
    fn close(&mut self);

    /// Begins a member that is a list.
    fn open_list(&mut self, name: &str);

    /// Writes an item of a list of words.
    fn item(&mut self, text: &str);

    /// Ends a list.
    fn close_list(&mut self);
}

impl<O: Write> Members for JsonLines<'_, O> {
    fn is_brief(&self) -> bool {
        false
    }

    fn number(&mut self, name: &str, value: u64) {
        JsonLines::number(self, name, value);
    }

    fn octal(&mut self, name: &str, value: u32) {
        JsonLines::octal(self, name, value);
    }

    fn word(&mut self, name: &str, text: &str) {
        JsonLines::word(self, name, text);
    }

    fn bytes(&mut self, name: &str, bytes: &[u8]) {
        JsonLines::bytes(self, name, bytes);
    }

    fn open(&mut self) {
        JsonLines::open(self);
    }

    fn open_member(&mut self, name: &'static str) {
        JsonLines::open_member(self, name);
    }

    fn close(&mut self) {
        JsonLines::close(self);
    }

    fn open_list(&mut self, name: &str) {
        JsonLines::open_list(self, name);
    }

    fn item(&mut self, text: &str) {
        JsonLines::item(self, text);
    }

    fn close_list(&mut self) {
        JsonLines::close_list(self);
    }
}

/// Writes members as words of a line, `NAME=VALUE` with a space before each. A member of a member has the names of
/// both, with `.` between them. Once a write fails it writes no more.
#[derive(Drop)]
pub(crate) struct Words<'o, O> {
    output: &'o mut O,
    /// How many bytes of each text are written.
    limit: usize,
    /// The name of the member whose members are written.
    around: Option<&'static str>,
    /// Whether an item of the list was written.
    has_item: bool,
    /// Why a write failed, if one did.
    error: Option<io::Error>,
}

impl<'o, O: Write> Words<'o, O> {
    /// Nothing is written yet. Texts of more than `limit` bytes are cut.
    pub(crate) fn new(output: &'o mut O, limit: usize) -> Words<'o, O> {
        Words {
            output,
            limit,
            around: None,
            has_item: false,
            error: None,
        }
    }

    /// Why a write failed, if one did.
    pub(crate) fn take_error(&mut self) -> Option<io::Error> {
        self.error.take()
    }

    /// Writes a text as it is.
    pub(crate) fn put(&mut self, text: &str) {
        if self.error.is_none() {
            self.error = self.output.write_all(text.as_bytes()).err();
        }
    }

    /// Writes a number as it is.
    pub(crate) fn put_number(&mut self, number: u64) {
        if self.error.is_none() {
            self.error = write!(self.output, "{number}").err();
        }
    }

    fn put_name(&mut self, name: &str) {
        self.put(" ");
        if let Some(around) = self.around {
            self.put(around);
            self.put(".");
        }
        self.put(name);
        self.put("=");
    }

    /// Writes bytes in quotes, and how many were left out.
    fn put_bytes(&mut self, bytes: &[u8]) {
        let shown = Quoted(bytes.get(..self.limit).unwrap_or(bytes));
        if self.error.is_none() {
            self.error = write!(self.output, "{shown}").err();
        }
        let left = bytes.len().saturating_sub(self.limit);
        if left > 0 {
            self.put("...");
            self.put_number(left as u64);
            self.put(" more");
        }
    }
}

impl<O: Write> Members for Words<'_, O> {
    fn is_brief(&self) -> bool {
        true
    }

    fn number(&mut self, name: &str, value: u64) {
        self.put_name(name);
        self.put_number(value);
    }

    fn octal(&mut self, name: &str, value: u32) {
        self.put_name(name);
        if self.error.is_none() {
            self.error = write!(self.output, "0{value:o}").err();
        }
    }

    fn word(&mut self, name: &str, text: &str) {
        self.put_name(name);
        self.put(text);
    }

    fn bytes(&mut self, name: &str, bytes: &[u8]) {
        self.put_name(name);
        self.put_bytes(bytes);
    }

    fn open(&mut self) {}

    fn open_member(&mut self, name: &'static str) {
        self.around = Some(name);
    }

    fn close(&mut self) {
        self.around = None;
    }

    fn open_list(&mut self, name: &str) {
        self.put_name(name);
        self.has_item = false;
    }

    fn item(&mut self, text: &str) {
        if self.has_item {
            self.put("|");
        }
        self.put(text);
        self.has_item = true;
    }

    fn close_list(&mut self) {
        if !self.has_item {
            self.put("none");
        }
        self.has_item = false;
    }
}
