//! A line for each record that is shown: of text, with its time and what a reply has beside its packet, or a JSON
//! object.

use crate::exchanges::Pair;
use crate::figures::Figures;
use crate::members::{Members, Words};
use crate::packets::{name_of, put_fields, put_packet};
use crate::records::{Answered, Recorded};
use crate::tables::{put_objects, put_table};
use sftp_json::JsonLines;
use sftp_show::RecordLine;
use std::io::Write;
use std::{fmt, io};

/// In which form records are shown.
#[derive(Clone, Copy)]
pub enum Form {
    /// The lines that `show` prints; those of exchanges have at most so many bytes of each text.
    Text(usize),
    /// JSON objects, with at most so many bytes of each text.
    Json(usize),
}

/// A writer of lines. Once a write fails it writes no more.
#[derive(Drop)]
pub(crate) enum Lines<'a, O> {
    Text(TextLines<'a, O>),
    Json(JsonLines<'a, O>),
}

impl<'a, O: Write> Lines<'a, O> {
    /// A writer of lines in this form, of which those of text have a column with the times if there are any.
    pub(crate) fn new(form: Form, has_times: bool, output: &'a mut O) -> Lines<'a, O> {
        match form {
            Form::Text(limit) => Lines::Text(TextLines {
                output,
                has_times,
                limit,
                error: None,
            }),
            Form::Json(limit) => Lines::Json(JsonLines::new(output, limit)),
        }
    }

    /// Writes the line of a record.
    pub(crate) fn put(&mut self, record: &Recorded, answered: Option<Answered>) {
        match self {
            Lines::Text(text) => text.put(record, answered),
            Lines::Json(json) => put_object(record, answered, json),
        }
    }

    /// Writes the line of an exchange.
    pub(crate) fn put_exchange(&mut self, pair: Pair<'_>) {
        match self {
            Lines::Text(text) => text.put_exchange(pair),
            Lines::Json(json) => put_exchange_object(pair, json),
        }
    }

    /// Writes figures, whose rows are sorted. `all` is how long all requests took.
    pub(crate) fn put_figures(&mut self, figures: &Figures, all: &[u64]) -> io::Result<()> {
        match self {
            Lines::Text(text) => put_table(figures, all, text.has_times, text.output),
            Lines::Json(json) => {
                put_objects(figures, all, json);
                Ok(())
            }
        }
    }

    /// Whether a write failed.
    pub(crate) fn has_failed(&self) -> bool {
        match self {
            Lines::Text(text) => text.error.is_some(),
            Lines::Json(json) => json.has_failed(),
        }
    }

    /// Flushes the output, and says whether everything was written.
    pub(crate) fn finish(&mut self) -> io::Result<()> {
        match self {
            Lines::Text(text) => text.finish(),
            Lines::Json(json) => json.finish(),
        }
    }
}

/// A writer of lines of text. Once a write fails it writes no more.
#[derive(Drop)]
pub(crate) struct TextLines<'a, O> {
    output: &'a mut O,
    /// Whether lines begin with a time.
    has_times: bool,
    /// How many bytes of each text the lines of exchanges have.
    limit: usize,
    /// Why a write failed, if one did.
    error: Option<io::Error>,
}

impl<O: Write> TextLines<'_, O> {
    fn put(&mut self, record: &Recorded, answered: Option<Answered>) {
        let line = TextLine {
            record,
            answered,
            has_times: self.has_times,
        };
        if self.error.is_none() {
            self.error = writeln!(self.output, "{line}").err();
        }
    }

    /// Writes the line of an exchange: the request, its reply, and what that has beside its packet.
    fn put_exchange(&mut self, pair: Pair<'_>) {
        let start = LineStart {
            time: time_of(pair),
            has_times: self.has_times,
        };
        let end = LineEnd(pair.answered);
        if self.error.is_none() {
            self.error = write!(self.output, "{start}").err();
        }
        self.put_halves(pair);
        if self.error.is_none() {
            self.error = writeln!(self.output, "{end}").err();
        }
    }

    fn put_halves(&mut self, pair: Pair<'_>) {
        if self.error.is_some() {
            return;
        }
        let mut words = Words::new(self.output, self.limit);
        put_half(pair.asked, true, &mut words);
        words.put(" -> ");
        put_half(pair.reply, pair.asked.is_none(), &mut words);
        let error = words.take_error();
        drop(words);
        self.error = error;
    }

    fn finish(&mut self) -> io::Result<()> {
        match self.error.take() {
            None => self.output.flush(),
            Some(error) => Err(error),
        }
    }
}

/// Writes a request or a reply of an exchange: the number of its record, its packet's name, its id unless that is known
/// already, and its fields.
fn put_half<O: Write>(record: Option<&Recorded>, has_id: bool, words: &mut Words<'_, O>) {
    let Some(record) = record else {
        words.put("none");
        return;
    };
    words.put_number(record.number);
    words.put(" ");
    words.put(name_of(&record.packet));
    if has_id {
        put_id(record, words);
    }
    put_fields(&record.packet, words);
}

fn put_id<O: Write>(record: &Recorded, words: &mut Words<'_, O>) {
    if let Some(request) = record.request() {
        words.number("id", u64::from(request.id));
    }
    if let Some(reply) = record.reply() {
        words.number("id", u64::from(reply.id));
    }
}

/// When an exchange began, if that is known.
fn time_of(pair: Pair<'_>) -> Option<u64> {
    match pair.asked {
        Some(asked) => asked.time,
        None => pair.reply?.time,
    }
}

/// What the line of an exchange begins with.
#[derive(Clone, Copy)]
struct LineStart {
    time: Option<u64>,
    has_times: bool,
}

impl fmt::Display for LineStart {
    fn fmt<W: fmt::Write>(&self, f: &mut fmt::Formatter<W>) -> fmt::Result {
        if self.has_times {
            put_time(self.time, f)
        } else {
            Ok(())
        }
    }
}

/// What the line of an exchange ends with.
#[derive(Clone, Copy)]
struct LineEnd(Option<Answered>);

impl fmt::Display for LineEnd {
    fn fmt<W: fmt::Write>(&self, f: &mut fmt::Formatter<W>) -> fmt::Result {
        match self.0 {
            Some(answered) => put_answered(answered, f),
            None => Ok(()),
        }
    }
}

/// Writes the object of an exchange.
fn put_exchange_object<O: Write>(pair: Pair<'_>, json: &mut JsonLines<'_, O>) {
    json.open();
    if let Some(asked) = pair.asked {
        json.open_member("request");
        put_record_members(asked, None, json);
        json.close();
    }
    if let Some(reply) = pair.reply {
        json.open_member("reply");
        put_record_members(reply, pair.answered, json);
        json.close();
    }
    json.end_line();
}

/// Writes the object of a record.
fn put_object<O: Write>(
    record: &Recorded,
    answered: Option<Answered>,
    json: &mut JsonLines<'_, O>,
) {
    json.open();
    put_record_members(record, answered, json);
    json.end_line();
}

fn put_record_members<O: Write>(
    record: &Recorded,
    answered: Option<Answered>,
    json: &mut JsonLines<'_, O>,
) {
    json.number("record", record.number);
    if let Some(time) = record.time {
        json.number("time_ns", time);
    }
    put_packet(record.side, &record.packet, record.length, json);
    if let Some(answered) = answered {
        put_members(answered, json);
    }
}

/// Writes the members that a reply has beside its packet.
fn put_members<O: Write>(answered: Answered, json: &mut JsonLines<'_, O>) {
    json.number("request", answered.request);
    if let Some(took) = answered.took {
        json.number("took_ns", took);
    }
    if let Some(number) = answered.overtook {
        json.number("overtook", number);
    }
}

/// A record as text, without a line feed: its time in a column, if there is one; the line that `show` prints; and of a
/// reply how long its request took, and which request it overtook.
#[derive(Clone, Copy)]
pub(crate) struct TextLine<'a> {
    pub(crate) record: &'a Recorded,
    pub(crate) answered: Option<Answered>,
    pub(crate) has_times: bool,
}

impl fmt::Display for TextLine<'_> {
    fn fmt<W: fmt::Write>(&self, f: &mut fmt::Formatter<W>) -> fmt::Result {
        if self.has_times {
            put_time(self.record.time, f)?;
        }
        put_record(self.record, f)?;
        match self.answered {
            Some(answered) => put_answered(answered, f),
            None => Ok(()),
        }
    }
}

fn put_record<W: fmt::Write>(record: &Recorded, f: &mut fmt::Formatter<W>) -> fmt::Result {
    let line = RecordLine {
        number: record.number,
        side: record.side,
        packet: &record.packet,
        length: record.length,
    };
    write!(f, "{line}")
}

/// Writes how long a request took, if that is known, and which request the reply overtook, if it did.
fn put_answered<W: fmt::Write>(answered: Answered, f: &mut fmt::Formatter<W>) -> fmt::Result {
    if let Some(took) = answered.took {
        let (seconds, micros) = parts(took);
        write!(f, " took {seconds}.{micros:06}")?;
    }
    match answered.overtook {
        Some(number) => write!(f, " overtook {number}"),
        None => Ok(()),
    }
}

/// Writes a time in a column, and a space.
fn put_time<W: fmt::Write>(time: Option<u64>, f: &mut fmt::Formatter<W>) -> fmt::Result {
    match time {
        Some(time) => {
            let (seconds, micros) = parts(time);
            write!(f, "{seconds:5}.{micros:06} ")
        }
        None => f.write_str("           - "),
    }
}

/// The whole seconds of so many nanoseconds, and the whole microseconds beside them.
fn parts(nanoseconds: u64) -> (u64, u64) {
    let micros = nanoseconds / 1_000;
    (micros / 1_000_000, micros % 1_000_000)
}
