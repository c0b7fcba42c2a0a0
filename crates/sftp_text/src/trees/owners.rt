//! An owner as text, with the times behind it.
ghost use Rattle.sftp_text.specs.Trees.{Moves};
ghost use Rattle.sftp_text.specs.Trees as trees;

use crate::errors::{Expected, Stop};
use crate::labels::{put_two_labelled, read_two_labelled};
use crate::numbers::{put_octal, read_octal};
use crate::words::read_word;

/// Shows an owner: user and group in decimal, permissions in octal, each after a space.
#[tactic(auto, unfolding(crate::specs::Trees::owner_text))]
fn put_owner(bytes: &mut &[u8], text: &mut Vec<u8>) -> Result<(), Stop>
    ensures { Moves result text.new.items bytes.new.now (trees.owner_text.show text.old.items bytes.old.now) }
{
    put_two_labelled(b" ", b" ", bytes, text)?;
    text.push(b' ')?;
    put_octal(bytes, text)
}

#[tactic(auto, unfolding(crate::specs::Trees::owner_text))]
fn read_owner(line: &mut &[u8], bytes: &mut Vec<u8>) -> Result<(), Stop>
    ensures { Moves result bytes.new.items line.new.now (trees.owner_text.read bytes.old.items line.old.now) }
{
    read_two_labelled(b" ", b" ", Expected::Space, line, bytes)?;
    read_word(b" ", Expected::Space, line)?;
    read_octal(line, bytes)
}

/// Shows an owner, and the times behind it if there are to be some.
pub(super) fn put_timed_owner(
    has_times: bool,
    bytes: &mut &[u8],
    text: &mut Vec<u8>,
) -> Result<(), Stop>
    ensures { Moves result text.new.items bytes.new.now
        ((trees.timed_owner has_times).show text.old.items bytes.old.now) }
{
    if !has_times {
        return put_owner(bytes, text);
    }
    put_owner(bytes, text)?;
    put_two_labelled(b" ", b" ", bytes, text)
}

pub(super) fn read_timed_owner(
    has_times: bool,
    line: &mut &[u8],
    bytes: &mut Vec<u8>,
) -> Result<(), Stop>
    ensures { Moves result bytes.new.items line.new.now
        ((trees.timed_owner has_times).read bytes.old.items line.old.now) }
{
    if !has_times {
        return read_owner(line, bytes);
    }
    read_owner(line, bytes)?;
    read_two_labelled(b" ", b" ", Expected::Space, line, bytes)
}
