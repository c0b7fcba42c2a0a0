//! A number or a text, each behind a label.
ghost use Rattle.sftp_text.specs.Formats.{◌then◌, word};
ghost use Rattle.sftp_text.specs.Digits.{number, long, string_text};
ghost use Rattle.sftp_text.specs.Trees.{Moves};

use crate::errors::{Expected, Stop};
use crate::numbers::{put_long, put_number, read_long, read_number};
use crate::quoted::{put_string, read_string};
use crate::words::{read_key, read_word};

/// Shows a uint32 after a label.
pub(crate) fn put_labelled(label: &[u8], bytes: &mut &[u8], text: &mut Vec<u8>) -> Result<(), Stop>
    ensures { Moves result text.new.items bytes.new.now
        ((word label.now then number).show text.old.items bytes.old.now) }
{
    text.extend_from_slice(label)?;
    put_number(bytes, text)
}

pub(crate) fn read_labelled(
    label: &[u8],
    expected: Expected,
    line: &mut &[u8],
    bytes: &mut Vec<u8>,
) -> Result<(), Stop>
    ensures { Moves result bytes.new.items line.new.now
        ((word label.now then number).read bytes.old.items line.old.now) }
{
    read_key(label, expected, line)?;
    read_number(line, bytes)
}

/// Shows two uint32, each after a label.
pub(crate) fn put_two_labelled(
    first: &[u8],
    second: &[u8],
    bytes: &mut &[u8],
    text: &mut Vec<u8>,
) -> Result<(), Stop>
    ensures { Moves result text.new.items bytes.new.now
        ((word first.now then number then word second.now then number).show text.old.items bytes.old.now) }
{
    put_labelled(first, bytes, text)?;
    put_labelled(second, bytes, text)
}

pub(crate) fn read_two_labelled(
    first: &[u8],
    second: &[u8],
    expected: Expected,
    line: &mut &[u8],
    bytes: &mut Vec<u8>,
) -> Result<(), Stop>
    ensures { Moves result bytes.new.items line.new.now
        ((word first.now then number then word second.now then number).read bytes.old.items line.old.now) }
{
    read_labelled(first, expected, line, bytes)?;
    read_labelled(second, expected, line, bytes)
}

/// Shows a text after a label.
pub(crate) fn put_text(label: &[u8], bytes: &mut &[u8], text: &mut Vec<u8>) -> Result<(), Stop>
    ensures { Moves result text.new.items bytes.new.now
        ((word label.now then string_text).show text.old.items bytes.old.now) }
{
    text.extend_from_slice(label)?;
    put_string(bytes, text)
}

pub(crate) fn read_text(
    label: &[u8],
    expected: Expected,
    line: &mut &[u8],
    bytes: &mut Vec<u8>,
) -> Result<(), Stop>
    ensures { Moves result bytes.new.items line.new.now
        ((word label.now then string_text).read bytes.old.items line.old.now) }
{
    read_word(label, expected, line)?;
    read_string(line, bytes)
}

/// Shows a uint64 after a label.
pub(crate) fn put_long_labelled(
    label: &[u8],
    bytes: &mut &[u8],
    text: &mut Vec<u8>,
) -> Result<(), Stop>
    ensures { Moves result text.new.items bytes.new.now
        ((word label.now then long).show text.old.items bytes.old.now) }
{
    text.extend_from_slice(label)?;
    put_long(bytes, text)
}

pub(crate) fn read_long_labelled(
    label: &[u8],
    line: &mut &[u8],
    bytes: &mut Vec<u8>,
) -> Result<(), Stop>
    ensures { Moves result bytes.new.items line.new.now
        ((word label.now then long).read bytes.old.items line.old.now) }
{
    read_word(label, Expected::Space, line)?;
    read_long(line, bytes)
}
