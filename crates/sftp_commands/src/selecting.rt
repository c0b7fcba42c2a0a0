//! Which records the command line selects.
ghost use Rattle.std.specs.Prelude.{◌<◌, length, IfSome};

use crate::filters::filter_of;
use sftp_files::{Failure, MORE, Named, ShowOptions};
use sftp_filter::Expression;
use sftp_views::Selection;
use std::alloc::{AllocError, Global};

/// What the options of a selection ask for.
#[derive(Drop)]
pub(crate) struct Wanted {
    id: Option<u32>,
    path: Option<Vec<u8>>,
    handle: Option<Vec<u8>>,
    range: Range,
    followed: Option<Vec<u8>>,
    filter: Option<Expression>,
}

impl Wanted {
    /// The selection of the records.
    pub(crate) fn selection(&self) -> Selection<'_> {
        Selection {
            id: self.id,
            path: bytes_of(&self.path),
            handle: bytes_of(&self.handle),
            first: self.range.first,
            last: self.range.last,
        }
    }

    /// The path of the file that is followed through its handles.
    pub(crate) fn followed(&self) -> Option<&[u8]> {
        bytes_of(&self.followed)
    }

    /// What exchanges have to meet.
    pub(crate) fn filter(&self) -> Option<&Expression> {
        self.filter.as_ref()
    }
}

fn bytes_of(text: &Option<Vec<u8>>) -> Option<&[u8]> {
    match text {
        Some(bytes) => Some(bytes.as_slice()),
        None => None,
    }
}

/// What options ask for.
///
/// # Errors
///
/// `Usage` if a value has not its form, and `OutOfMemory`.
pub(crate) fn read_wanted<'a>(
    alloc: Global,
    options: &ShowOptions<'_>,
) -> Result<Wanted, Failure<'a>> {
    let id = id_of(alloc, options.id)?;
    let range = range_of(alloc, options.records)?;
    let mut wanted = Wanted {
        id,
        path: None,
        handle: None,
        range,
        followed: None,
        filter: None,
    };
    match read_texts(alloc, options, &mut wanted) {
        Ok(()) => Ok(wanted),
        Err(failure) => {
            drop(wanted);
            Err(failure)
        }
    }
}

/// Reads the options that are texts.
fn read_texts<'a>(
    alloc: Global,
    options: &ShowOptions<'_>,
    wanted: &mut Wanted,
) -> Result<(), Failure<'a>> {
    wanted.path = text_of(alloc, "path <PATH>", options.path)?;
    wanted.handle = text_of(alloc, "handle <HANDLE>", options.handle)?;
    wanted.followed = text_of(alloc, "handle-of <PATH>", options.handle_of)?;
    wanted.filter = filter_of(alloc, options.filter)?;
    Ok(())
}

/// The id that an option names.
fn id_of<'a>(alloc: Global, id: Option<u64>) -> Result<Option<u32>, Failure<'a>> {
    let Some(id) = id else {
        return Ok(None);
    };
    match u32::try_from(id) {
        Ok(id) => Ok(Some(id)),
        Err(_) => Err(Failure::of_usage(format!(in alloc;
            "error: invalid value '{id}' for '--id <N>': an id is below 2^32\n{MORE}"
        ))),
    }
}

/// Numbers of records, from the first to the last.
#[derive(Clone, Copy)]
struct Range {
    first: u64,
    last: u64,
}

/// The records that an option names; all without it.
fn range_of<'a>(alloc: Global, text: Option<&str>) -> Result<Range, Failure<'a>> {
    let Some(text) = text else {
        return Ok(Range {
            first: 1,
            last: u64::MAX,
        });
    };
    match range_in(text) {
        Some(range) => Ok(range),
        None => Err(Failure::of_usage(bad_range(alloc, text))),
    }
}

/// The records of `A-B`, if A is at most B, of `A-`, `-B` or `A`.
fn range_in(text: &str) -> Option<Range> {
    match text.split_once('-') {
        Some((first, last)) => rising(number_or(first, 1)?, number_or(last, u64::MAX)?),
        None => {
            let number: u64 = text.parse().ok()?;
            Some(Range {
                first: number,
                last: number,
            })
        }
    }
}

/// The range of these numbers, unless the first is above the last.
fn rising(first: u64, last: u64) -> Option<Range> {
    if first <= last {
        Some(Range { first, last })
    } else {
        None
    }
}

/// The number of this text, or another without a text.
fn number_or(text: &str, without: u64) -> Option<u64> {
    if text.is_empty() {
        Some(without)
    } else {
        text.parse().ok()
    }
}

fn bad_range(alloc: Global, text: &str) -> Result<String, AllocError> {
    let text = Named(text);
    format!(in alloc;
        "error: invalid value '{text}' for '--records <A-B>': neither a number, nor A-B with A at most B\n{MORE}"
    )
}

/// The bytes that an option's text stands for. The option's name ends in that of its value.
fn text_of<'a>(
    alloc: Global,
    option: &str,
    text: Option<&str>,
) -> Result<Option<Vec<u8>>, Failure<'a>> {
    let Some(text) = text else {
        return Ok(None);
    };
    let mut bytes = Vec::new(alloc);
    match put_bytes(text.as_bytes(), &mut bytes) {
        Ok(true) => Ok(Some(bytes)),
        Ok(false) => {
            drop(bytes);
            Err(Failure::of_usage(bad_text(alloc, option, text)))
        }
        Err(_) => {
            drop(bytes);
            Err(Failure::OutOfMemory)
        }
    }
}

fn bad_text(alloc: Global, option: &str, text: &str) -> Result<String, AllocError> {
    let text = Named(text);
    format!(in alloc;
        "error: invalid value '{text}' for '--{option}': a '\\' without 'x' and two hexadecimal digits\n{MORE}"
    )
}

/// Appends the bytes that a text stands for, in which `\x` and two hexadecimal digits are one byte. Returns whether the
/// text has this form.
fn put_bytes(text: &[u8], bytes: &mut Vec<u8>) -> Result<bool, AllocError> {
    let mut rest = text;
    'bytes: while let Some((first, behind)) = rest.split_first() {
        if *first != b'\\' {
            bytes.push(*first)?;
            rest = behind;
        } else if let Some((byte, behind)) = escaped(behind) {
            bytes.push(byte)?;
            rest = behind;
        } else {
            return Ok(false);
        }
    }
    Ok(true)
}

/// The byte of an escape behind its `\`, and what follows it.
fn escaped(text: &[u8]) -> Option<(u8, &[u8])>
    ensures { IfSome result (λ found. length found.1.now < length text.now) }
{
    let digits = text.strip_prefix(b"x")?;
    let (high, rest) = digits.split_first()?;
    let (low, rest) = rest.split_first()?;
    Some((digit(*high)? * 16 + digit(*low)?, rest))
}

/// The value of a hexadecimal digit.
fn digit(character: u8) -> Option<u8>
    ensures { IfSome result (λ value. value < 16) }
{
    match character {
        b'0'..=b'9' => Some(character - b'0'),
        b'a'..=b'f' => Some(character - b'a' + 10),
        b'A'..=b'F' => Some(character - b'A' + 10),
        _ => None,
    }
}
