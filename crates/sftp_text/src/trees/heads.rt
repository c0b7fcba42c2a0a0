//! The head of a tree file as a line: the home, user and group, the limits and the count of entries.
ghost use Rattle.std.specs.Prelude.{◌≡◌};
ghost use Rattle.sftp_text.specs.Trees.{Moves, TellsOpening};
ghost use Rattle.sftp_text.specs.Trees as trees;

use crate::errors::{Expected, Stop};
use crate::labels::{
    put_labelled, put_long_labelled, put_text, put_two_labelled, read_labelled, read_long_labelled,
    read_text, read_two_labelled,
};
use crate::openings::Opening;
use crate::words::{after_word, read_word};
use std::alloc::Global;

/// The opening of a tree file.
fn opening(opening: Opening) -> &'static [u8]
    ensures { result.now ≡ trees.opening opening }
{
    match opening {
        Opening::Usual => b"SFTREE01",
        Opening::Raised => b"SFTREE02",
        Opening::Wide => b"SFTREE03",
    }
}

/// The opening that bytes begin with; the first where they begin with none.
fn opening_of(bytes: &[u8]) -> Opening
    ensures { result ≡ trees.opening_of bytes.now }
{
    if begins_wide(bytes) {
        return Opening::Wide;
    }
    if after_word(opening(Opening::Raised), bytes).is_some() {
        return Opening::Raised;
    }
    Opening::Usual
}

/// Whether bytes begin with the opening of a tree file that may have times, and files of any length.
pub(super) fn begins_wide(bytes: &[u8]) -> bool
    ensures { result ≡ trees.begins_wide bytes.now }
{
    after_word(opening(Opening::Wide), bytes).is_some()
}

/// Shows the home, the user and the group.
fn put_front(bytes: &mut &[u8], text: &mut Vec<u8>) -> Result<(), Stop>
    ensures { Moves result text.new.items bytes.new.now (trees.front_text.show text.old.items bytes.old.now) }
{
    put_text(b"home ", bytes, text)?;
    put_two_labelled(b" uid ", b" gid ", bytes, text)
}

/// Reads the home, the user and the group.
fn read_front(line: &mut &[u8], bytes: &mut Vec<u8>) -> Result<(), Stop>
    ensures { Moves result bytes.new.items line.new.now (trees.front_text.read bytes.old.items line.old.now) }
{
    read_text(b"home ", Expected::Head, line, bytes)?;
    read_two_labelled(b" uid ", b" gid ", Expected::Head, line, bytes)
}

/// Shows the four limits of the second opening.
fn put_four_limits(bytes: &mut &[u8], text: &mut Vec<u8>) -> Result<(), Stop>
    ensures { Moves result text.new.items bytes.new.now (trees.four_limits.show text.old.items bytes.old.now) }
{
    put_two_labelled(b" limits ", b" ", bytes, text)?;
    put_two_labelled(b" ", b" ", bytes, text)
}

fn read_four_limits(line: &mut &[u8], bytes: &mut Vec<u8>) -> Result<(), Stop>
    ensures { Moves result bytes.new.items line.new.now (trees.four_limits.read bytes.old.items line.old.now) }
{
    read_labelled(b" limits ", Expected::Head, line, bytes)?;
    read_labelled(b" ", Expected::Space, line, bytes)?;
    read_two_labelled(b" ", b" ", Expected::Space, line, bytes)
}

/// Shows the five limits of the third opening.
fn put_five_limits(bytes: &mut &[u8], text: &mut Vec<u8>) -> Result<(), Stop>
    ensures { Moves result text.new.items bytes.new.now (trees.five_limits.show text.old.items bytes.old.now) }
{
    put_labelled(b" limits ", bytes, text)?;
    put_long_labelled(b" ", bytes, text)?;
    put_two_labelled(b" ", b" ", bytes, text)?;
    put_long_labelled(b" ", bytes, text)
}

fn read_five_limits(line: &mut &[u8], bytes: &mut Vec<u8>) -> Result<(), Stop>
    ensures { Moves result bytes.new.items line.new.now (trees.five_limits.read bytes.old.items line.old.now) }
{
    read_labelled(b" limits ", Expected::Head, line, bytes)?;
    read_long_labelled(b" ", line, bytes)?;
    read_two_labelled(b" ", b" ", Expected::Space, line, bytes)?;
    read_long_labelled(b" ", line, bytes)
}

/// Shows the limits that a tree file with this opening has.
fn put_limits(opening: Opening, bytes: &mut &[u8], text: &mut Vec<u8>) -> Result<(), Stop>
    ensures { Moves result text.new.items bytes.new.now
        ((trees.limits_text opening).show text.old.items bytes.old.now) }
{
    match opening {
        Opening::Usual => Ok(()),
        Opening::Raised => put_four_limits(bytes, text),
        Opening::Wide => put_five_limits(bytes, text),
    }
}

fn read_limits(opening: Opening, line: &mut &[u8], bytes: &mut Vec<u8>) -> Result<(), Stop>
    ensures { Moves result bytes.new.items line.new.now
        ((trees.limits_text opening).read bytes.old.items line.old.now) }
{
    match opening {
        Opening::Usual => Ok(()),
        Opening::Raised => read_four_limits(line, bytes),
        Opening::Wide => read_five_limits(line, bytes),
    }
}

/// Shows the limits, if there are some, and the number of entries.
fn put_behind_front(opening: Opening, bytes: &mut &[u8], text: &mut Vec<u8>) -> Result<(), Stop>
    ensures { Moves result text.new.items bytes.new.now
        ((trees.behind_front opening).show text.old.items bytes.old.now) }
{
    put_limits(opening, bytes, text)?;
    put_labelled(b" entries ", bytes, text)
}

/// What should follow the limits where the number of entries does not: behind four of them, another.
fn behind_limits(opening: Opening, line: &[u8]) -> Expected {
    if after_word(b" entries", line).is_some() {
        return Expected::Head;
    }
    match opening {
        Opening::Raised => Expected::Long,
        Opening::Usual | Opening::Wide => Expected::Head,
    }
}

/// Reads the limits, if there are to be some, and the number of entries.
fn read_behind_front(opening: Opening, line: &mut &[u8], bytes: &mut Vec<u8>) -> Result<(), Stop>
    ensures { Moves result bytes.new.items line.new.now
        ((trees.behind_front opening).read bytes.old.items line.old.now) }
{
    read_limits(opening, line, bytes)?;
    let expected = behind_limits(opening, line);
    read_labelled(b" entries ", expected, line, bytes)
}

/// Shows the head of a tree file, from its opening up to its count of entries, as `home "/" uid 0 gid 0 entries 2`.
#[tactic(auto, unfolding(crate::specs::Trees::head_text))]
pub(super) fn put_head_parts(bytes: &mut &[u8], text: &mut Vec<u8>) -> Result<(), Stop>
    ensures { Moves result text.new.items bytes.new.now (trees.head_text.show text.old.items bytes.old.now) }
{
    let begins = opening_of(bytes);
    read_word(opening(begins), Expected::Head, bytes)?;
    put_front(bytes, text)?;
    put_behind_front(begins, bytes, text)
}

/// Reads the head of a tree file with this opening.
fn read_head_of(begins: Opening, line: &mut &[u8], bytes: &mut Vec<u8>) -> Result<(), Stop>
    ensures { Moves result bytes.new.items line.new.now ((trees.head_of begins).read bytes.old.items line.old.now) }
{
    bytes.extend_from_slice(opening(begins))?;
    read_front(line, bytes)?;
    read_behind_front(begins, line, bytes)
}

/// The opening of the tree file whose head is this line: five limits follow the home, the user and the group, or there
/// are limits, or there are none.
///
/// # Errors
///
/// `NoMemory` if memory runs out.
#[tactic(auto, unfolding(crate::specs::Trees::opening_named))]
fn opening_named(alloc: Global, line: &[u8]) -> Result<Opening, Stop>
    ensures { TellsOpening result (trees.opening_named line.now) }
{
    let mut rest = line;
    let mut bytes = Vec::new(alloc);
    match read_front(&mut rest, &mut bytes) {
        Ok(()) => opening_by_limits(alloc, rest),
        Err(Stop::Unfit(_)) => Ok(Opening::Usual),
        Err(Stop::NoMemory) => Err(Stop::NoMemory),
    }
}

/// The opening by what follows the group in a line.
fn opening_by_limits(alloc: Global, line: &[u8]) -> Result<Opening, Stop>
    ensures { TellsOpening result (trees.opening_by_limits line.now) }
{
    if after_word(b" limits ", line).is_none() {
        return Ok(Opening::Usual);
    }
    let mut rest = line;
    let mut bytes = Vec::new(alloc);
    match read_five_limits(&mut rest, &mut bytes) {
        Ok(()) => Ok(Opening::Wide),
        Err(Stop::Unfit(_)) => Ok(Opening::Raised),
        Err(Stop::NoMemory) => Err(Stop::NoMemory),
    }
}

/// What the head that begins at `start` should have had where it stops being one, which is where `line` begins, or
/// further on if it is taken for one with five limits.
fn further<'a>(
    alloc: Global,
    start: &'a [u8],
    expected: Expected,
    line: &mut &'a [u8],
) -> Expected {
    let mut rest = start;
    let mut bytes = Vec::new(alloc);
    match read_head_of(Opening::Wide, &mut rest, &mut bytes) {
        Err(Stop::Unfit(other)) => {
            if rest.len() < line.len() {
                *line = rest;
                return other;
            }
            expected
        }
        Ok(()) | Err(Stop::NoMemory) => expected,
    }
}

#[tactic(auto, unfolding(crate::specs::Trees::head_text))]
pub(super) fn read_head_parts(line: &mut &[u8], bytes: &mut Vec<u8>) -> Result<(), Stop>
    ensures { Moves result bytes.new.items line.new.now (trees.head_text.read bytes.old.items line.old.now) }
{
    let alloc = *bytes.allocator();
    let start = *line;
    let begins = opening_named(alloc, start)?;
    match read_head_of(begins, line, bytes) {
        Ok(()) => Ok(()),
        Err(Stop::NoMemory) => Err(Stop::NoMemory),
        Err(Stop::Unfit(expected)) => Err(Stop::Unfit(further(alloc, start, expected, line))),
    }
}
