//! The root of a tree file as a line.
ghost use Rattle.std.specs.Prelude.{◌≡◌};
ghost use Rattle.sftp_text.specs.Trees.{Moves};
ghost use Rattle.sftp_text.specs.Trees as trees;

use crate::errors::{Expected, Stop};
use crate::trees::owners::{put_timed_owner, read_timed_owner};
use crate::words::read_word;

/// Whether the root in front has times, by its letter.
fn is_timed_root(front: &[u8]) -> bool
    ensures { result ≡ trees.is_timed_root front.now }
{
    match front.first() {
        Some(letter) => *letter == b'd',
        None => false,
    }
}

/// The letter of a root with times or without.
fn letter_of_root(has_times: bool) -> u8
    ensures { result ≡ trees.letter_of_root has_times }
{
    if has_times { b'd' } else { b'D' }
}

/// What the line of a root with times or without begins with.
fn word_of_root(has_times: bool) -> &'static [u8]
    ensures { result.now ≡ trees.word_of_root has_times }
{
    if has_times { b"d \"/\"" } else { b"D \"/\"" }
}

/// Shows the line of a root, as `d "/" 0 0 0755 1 2` with times, and as `D "/" 0 0 0755` without.
fn put_root_line(has_times: bool, bytes: &mut &[u8], text: &mut Vec<u8>) -> Result<(), Stop>
    ensures { Moves result text.new.items bytes.new.now
        ((trees.root_line has_times).show text.old.items bytes.old.now) }
{
    text.extend_from_slice(word_of_root(has_times))?;
    put_timed_owner(has_times, bytes, text)
}

fn read_root_line(
    has_times: bool,
    expected: Expected,
    line: &mut &[u8],
    bytes: &mut Vec<u8>,
) -> Result<(), Stop>
    ensures { Moves result bytes.new.items line.new.now
        ((trees.root_line has_times).read bytes.old.items line.old.now) }
{
    read_word(word_of_root(has_times), expected, line)?;
    read_timed_owner(has_times, line, bytes)
}

/// Shows the root with times or without, whose letter is in its bytes.
fn put_root_with(has_times: bool, bytes: &mut &[u8], text: &mut Vec<u8>) -> Result<(), Stop>
    ensures { Moves result text.new.items bytes.new.now
        ((trees.root_with has_times).show text.old.items bytes.old.now) }
{
    read_word(&[letter_of_root(has_times)], Expected::Root, bytes)?;
    put_root_line(has_times, bytes, text)
}

fn read_root_with(has_times: bool, line: &mut &[u8], bytes: &mut Vec<u8>) -> Result<(), Stop>
    ensures { Moves result bytes.new.items line.new.now
        ((trees.root_with has_times).read bytes.old.items line.old.now) }
{
    bytes.push(letter_of_root(has_times))?;
    read_root_line(has_times, Expected::AnyRoot, line, bytes)
}

/// Shows the root of a tree file after the third opening.
fn put_lettered_root(bytes: &mut &[u8], text: &mut Vec<u8>) -> Result<(), Stop>
    ensures { Moves result text.new.items bytes.new.now (trees.lettered_root.show text.old.items bytes.old.now) }
{
    put_root_with(is_timed_root(bytes), bytes, text)
}

fn read_lettered_root(line: &mut &[u8], bytes: &mut Vec<u8>) -> Result<(), Stop>
    ensures { Moves result bytes.new.items line.new.now (trees.lettered_root.read bytes.old.items line.old.now) }
{
    read_root_with(is_timed_root(line), line, bytes)
}

/// Shows the root.
#[tactic(auto, unfolding(crate::specs::Trees::root_text))]
pub(super) fn put_root_parts(
    is_wide: bool,
    bytes: &mut &[u8],
    text: &mut Vec<u8>,
) -> Result<(), Stop>
    ensures { Moves result text.new.items bytes.new.now ((trees.root_text is_wide).show text.old.items bytes.old.now) }
{
    if is_wide {
        put_lettered_root(bytes, text)
    } else {
        put_root_line(false, bytes, text)
    }
}

#[tactic(auto, unfolding(crate::specs::Trees::root_text))]
pub(super) fn read_root_parts(
    is_wide: bool,
    line: &mut &[u8],
    bytes: &mut Vec<u8>,
) -> Result<(), Stop>
    ensures { Moves result bytes.new.items line.new.now ((trees.root_text is_wide).read bytes.old.items line.old.now) }
{
    if is_wide {
        read_lettered_root(line, bytes)
    } else {
        read_root_line(false, Expected::Root, line, bytes)
    }
}
