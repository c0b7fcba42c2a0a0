//! Why a reply is not allowed, and which one is.

use crate::refusals::ExplainError;
use crate::refusals::answers::{AnswerText, put_first};
use crate::refusals::causes::{AllowedCodes, CauseList};
use crate::refusals::differences::{first_difference, first_wrong_name};
use sftp_handles::{HandleTable, Listing, Session};
use sftp_tree::Causes;
use sftp_wire::{Answer, Ask, ByteString, Names};
use std::alloc::Global;
use std::fmt;
use std::fmt::Write as _;
use std::io::Write;

/// Writes why the session does not allow an answer to a request, and what it allows instead: at most three lines, each
/// with a line feed. The first has the causes that refuse the request, with the status codes that they allow.
///
/// # Errors
///
/// `Output` if a line cannot be written, and `NoMemory` if memory runs out.
pub fn explain_reply<T: HandleTable, O: Write>(
    alloc: Global,
    session: &Session<T>,
    ask: &Ask,
    answer: &Answer,
    output: &mut O,
) -> Result<(), ExplainError> {
    let causes = session.causes(ask)?;
    if causes.has_any() {
        explain_causes(causes, output)
    } else {
        put_line("causes: none", output)?;
        put_allowed(alloc, session, ask, answer, output)
    }
}

/// Writes the causes that refuse a request, and the status codes that they allow: two lines, each with a line feed.
///
/// # Errors
///
/// `Output` if a line cannot be written.
pub fn explain_causes<O: Write>(causes: Causes, output: &mut O) -> Result<(), ExplainError> {
    let list = CauseList(causes);
    let codes = AllowedCodes(causes);
    put_line(
        format_args!("causes: {list}\nexpected: STATUS with code {codes}"),
        output,
    )
}

/// Writes a text, and a line feed.
fn put_line<D: fmt::Display + Drop, O: Write>(text: D, output: &mut O) -> Result<(), ExplainError> {
    match writeln!(output, "{text}") {
        Ok(()) => Ok(()),
        Err(error) => Err(ExplainError::from(error)),
    }
}

/// Writes what answer the session allows to a request that no cause refuses, and how the given one differs.
fn put_allowed<T: HandleTable, O: Write>(
    alloc: Global,
    session: &Session<T>,
    ask: &Ask,
    answer: &Answer,
    output: &mut O,
) -> Result<(), ExplainError> {
    match ask {
        Ask::Open { .. } | Ask::Opendir { .. } => {
            put_line("expected: HANDLE with a handle that is not open", output)
        }
        Ask::Readdir { handle } => put_listing(alloc, session, handle.as_slice(), answer, output),
        other => put_exact(session, other, answer, output),
    }
}

/// Writes the answer to any other request, of which only one is allowed.
fn put_exact<T: HandleTable, O: Write>(
    session: &Session<T>,
    ask: &Ask,
    answer: &Answer,
    output: &mut O,
) -> Result<(), ExplainError> {
    match session.unchanging_answer(ask) {
        Some(Ok(expected)) => {
            let put = put_expected(ask, &expected, answer, output);
            drop(expected);
            put
        }
        Some(Err(_)) => Err(ExplainError::NoMemory),
        None => put_line("expected: STATUS with code 0 (OK)", output),
    }
}

/// Writes the answer that is allowed, and how the given one differs.
fn put_expected<O: Write>(
    ask: &Ask,
    expected: &Answer,
    answer: &Answer,
    output: &mut O,
) -> Result<(), ExplainError> {
    put_allowed_answer(ask, expected, output)?;
    put_found(expected, answer, output)
}

fn put_allowed_answer<O: Write>(
    ask: &Ask,
    expected: &Answer,
    output: &mut O,
) -> Result<(), ExplainError> {
    let text = AnswerText(expected);
    match (ask, expected) {
        (Ask::Read { offset, .. }, Answer::Data(_)) => put_line(
            format_args!("expected: {text} from offset {offset}"),
            output,
        ),
        _ => put_line(format_args!("expected: {text}"), output),
    }
}

/// Writes the answer that was given, and the first byte in which it differs.
fn put_found<O: Write>(
    expected: &Answer,
    answer: &Answer,
    output: &mut O,
) -> Result<(), ExplainError> {
    let given = AnswerText(answer);
    match (expected, answer) {
        (Answer::Data(wanted), Answer::Data(bytes)) => {
            let difference = first_difference(bytes.as_slice(), wanted.as_slice());
            put_line(format_args!("found: {given}; {difference}"), output)
        }
        _ => put_line(format_args!("found: {given}"), output),
    }
}

/// Writes the remaining entries of a handle's listing, and the first name of the answer that is wrong.
fn put_listing<T: HandleTable, O: Write>(
    alloc: Global,
    session: &Session<T>,
    handle: &[u8],
    answer: &Answer,
    output: &mut O,
) -> Result<(), ExplainError> {
    match session.listing(handle) {
        Some(left) => put_left(alloc, session, handle, left, answer, output),
        None => Ok(()),
    }
}

fn put_left<T: HandleTable, O: Write>(
    alloc: Global,
    session: &Session<T>,
    handle: &[u8],
    left: &Listing,
    answer: &Answer,
    output: &mut O,
) -> Result<(), ExplainError> {
    let count = left.len();
    if count == 0 {
        return put_line("expected: STATUS with code 1 (EOF)", output);
    }
    put_names_left(session, handle, count, output)?;
    match answer {
        Answer::Name(names) => put_wrong_name(alloc, left, names, output),
        _ => Ok(()),
    }
}

/// Writes the first of the `count` remaining entries of a listing.
fn put_names_left<T: HandleTable, O: Write>(
    session: &Session<T>,
    handle: &[u8],
    count: usize,
    output: &mut O,
) -> Result<(), ExplainError> {
    match session.first_names(handle) {
        Ok(names) => {
            let put = put_first_names(names.as_slice(), count, output);
            drop(names);
            put
        }
        Err(_) => Err(ExplainError::NoMemory),
    }
}

fn put_first_names<O: Write>(
    names: &[ByteString],
    count: usize,
    output: &mut O,
) -> Result<(), ExplainError> {
    let names = NamesLeft { names, count };
    put_line(format_args!("expected: {names}"), output)
}

/// The first of the remaining entries of a listing, and how many all are.
#[derive(Clone, Copy)]
struct NamesLeft<'a> {
    names: &'a [ByteString],
    count: usize,
}

impl fmt::Display for NamesLeft<'_> {
    fn fmt<W: fmt::Write>(&self, f: &mut fmt::Formatter<W>) -> fmt::Result {
        let count = self.count;
        f.write_str("NAME with some of the names left:")?;
        put_first(self.names, f)?;
        write!(f, " ({count} in all)")
    }
}

/// Writes why the first wrong name of an answer is wrong, if one is.
fn put_wrong_name<O: Write>(
    alloc: Global,
    left: &Listing,
    names: &Names,
    output: &mut O,
) -> Result<(), ExplainError> {
    match first_wrong_name(alloc, left, names.as_slice())? {
        Some(difference) => put_line(format_args!("found: {difference}"), output),
        None => put_line("found: NAME with no names", output),
    }
}
