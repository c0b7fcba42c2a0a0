//! What is wrong with the text of an expression.

use crate::parsing::DEEPEST;
use std::alloc::AllocError;
use std::fmt;

/// A mistake in the text of an expression, and where it is.
#[derive(Clone, Copy)]
pub struct Mistake<'t> {
    /// At which byte of the text it is, from 0.
    pub place: usize,
    /// In which column of the text it is, in characters from 1.
    pub column: usize,
    pub fault: Fault<'t>,
}

/// What is wrong.
#[derive(Clone, Copy)]
pub enum Fault<'t> {
    /// No part of an expression begins so.
    Character,
    /// A text has no closing quote.
    OpenText,
    /// A text has a `\` that is none of its escapes.
    Escape,
    /// No number below 2^64 is written so.
    Number,
    /// There is no field of this name; perhaps this one is meant.
    Field(&'t str, Option<&'static str>),
    /// There is no packet and no code of this name; perhaps this one is meant.
    Word(&'t str, Option<&'static str>),
    /// There is no flag of this name; perhaps this one is meant.
    Flag(&'t str, Option<&'static str>),
    /// A condition has to stand here.
    Condition,
    /// The conditions before and behind this are not joined.
    Joint,
    /// Something else has to stand here.
    Wanted(&'static str),
    /// The field cannot be compared in this way.
    Operator(&'static str),
    /// A parenthesis that is never closed.
    Unclosed,
    /// A parenthesis that closes none.
    Unopened,
    /// Too many parentheses are open.
    Depth,
    /// Memory ran out.
    NoMemory,
}

impl From<AllocError> for Fault<'_> {
    fn from(_error: AllocError) -> Self {
        Fault::NoMemory
    }
}

impl fmt::Display for Fault<'_> {
    fn fmt<W: fmt::Write>(&self, f: &mut fmt::Formatter<W>) -> fmt::Result {
        match self {
            Fault::Field(word, close) => put_unknown(f, "field", word, *close),
            Fault::Word(word, close) => put_unknown(f, "packet or code", word, *close),
            Fault::Flag(word, close) => put_unknown(f, "flag", word, *close),
            Fault::Wanted(what) => write!(f, "{what} has to stand here"),
            Fault::Operator(text) => f.write_str(text),
            Fault::Depth => write!(f, "more than {DEEPEST} parentheses are open"),
            other => f.write_str(other.text()),
        }
    }
}

impl Fault<'_> {
    /// What a fault says that is always the same.
    fn text(&self) -> &'static str {
        match self {
            Fault::Character => "no part of an expression begins with this character",
            Fault::OpenText => "this text has no closing quote",
            Fault::Escape => "a '\\' without 'x' and two hexadecimal digits",
            Fault::Number => "this is no number below 2^64",
            Fault::Condition => {
                "a field, the name of a packet or of a code, '!' or '(' has to stand here"
            }
            Fault::Joint => "'&&' or '||' has to stand here",
            Fault::Unclosed => "this '(' is not closed",
            Fault::Unopened => "this ')' closes nothing",
            _ => "out of memory",
        }
    }
}

/// Writes that nothing has a name, and the name that is close to it if there is one.
fn put_unknown<W: fmt::Write>(
    f: &mut fmt::Formatter<W>,
    what: &str,
    word: &str,
    close: Option<&str>,
) -> fmt::Result {
    write!(f, "there is no {what} '{word}'")?;
    match close {
        Some(name) => write!(f, "; a similar one exists: '{name}'"),
        None => Ok(()),
    }
}

impl fmt::Display for Mistake<'_> {
    fn fmt<W: fmt::Write>(&self, f: &mut fmt::Formatter<W>) -> fmt::Result {
        let column = self.column;
        let fault = self.fault;
        write!(f, "column {column}: {fault}")
    }
}
