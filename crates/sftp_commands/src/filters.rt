//! The expression that exchanges have to meet, as the command line gives it.

use sftp_files::{Failure, MORE, Named};
use sftp_filter::{Expression, Fault, Mistake, parse};
use std::alloc::{AllocError, Global};
use std::fmt;
use std::fmt::Write;

/// The expression that an option gives.
///
/// # Errors
///
/// `Usage` if the text is no expression, and `OutOfMemory`.
pub(crate) fn filter_of<'a>(
    alloc: Global,
    text: Option<&str>,
) -> Result<Option<Expression>, Failure<'a>> {
    let Some(text) = text else {
        return Ok(None);
    };
    match parse(alloc, text) {
        Ok(expression) => Ok(Some(expression)),
        Err(mistake) => Err(failure_of(alloc, text, mistake)),
    }
}

fn failure_of<'a>(alloc: Global, text: &str, mistake: Mistake<'_>) -> Failure<'a> {
    match mistake.fault {
        Fault::NoMemory => Failure::OutOfMemory,
        _ => Failure::of_usage(message_of(alloc, text, mistake)),
    }
}

/// The message for a mistake: the text, and below it a mark at the column.
fn message_of(alloc: Global, text: &str, mistake: Mistake<'_>) -> Result<String, AllocError> {
    let before = text.get(..mistake.place).unwrap_or(text);
    let indent = Indent(before);
    let text = Named(text);
    format!(in alloc; "error: '--where', {mistake}\n\n  {text}\n  {indent}^\n{MORE}")
}

/// As many spaces as a text takes on a line.
#[derive(Clone, Copy)]
struct Indent<'t>(&'t str);

impl fmt::Display for Indent<'_> {
    fn fmt<W: fmt::Write>(&self, f: &mut fmt::Formatter<W>) -> fmt::Result {
        for byte in self.0.as_bytes() {
            put_spaces(*byte, f)?;
        }
        Ok(())
    }
}

/// Writes as many spaces as `Named` writes characters for a byte.
fn put_spaces<W: fmt::Write>(byte: u8, f: &mut fmt::Formatter<W>) -> fmt::Result {
    if (b' '..=b'~').contains(&byte) && byte != b'\\' {
        f.write_char(' ')
    } else {
        f.write_str("    ")
    }
}
