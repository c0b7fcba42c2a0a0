//! Tree files as text: a line for the head, one for the root, and one an entry.
ghost use Rattle.std.specs.Prelude.{◌≡◌, ℕ, List, [], OnOk, Option, Some};
ghost use Rattle.sftp_text.specs.Formats.{repeat_to_end};
ghost use Rattle.sftp_text.specs.Lines.{whole};
ghost use Rattle.sftp_text.specs.Texts.{ShowsAs, ShowsWhole, ReadsAs, GivesLine, GivesText, onto, form_of};
ghost use Rattle.sftp_text.specs.Texts.{due_after, lines_from};
ghost use Rattle.sftp_text.specs.Trees.{Moves, entry_line, first_lines};
ghost use Rattle.sftp_text.specs.Trees as trees;

mod entries;
mod heads;
mod owners;
mod roots;

use crate::due::Due;
use crate::errors::{Expected, Fault, ShowFault, Stop, TextFault};
use crate::lines::{is_blank, take_line};
use crate::trees::entries::{put_entry_parts, read_entry_parts};
use crate::trees::heads::{begins_wide, put_head_parts, read_head_parts};
use crate::trees::roots::{put_root_parts, read_root_parts};
use crate::words::read_end;

/// Takes the head of a tree file from the front of its bytes, from the opening up to the count of the entries, and
/// appends its line without a line feed: `home "/" uid 0 gid 0 entries 2`, with the limits before `entries` in a tree
/// file that has them.
///
/// # Errors
///
/// `Unfit` if the bytes do not begin with a head; `NoMemory` if memory runs out. `bytes` may then begin anywhere, and
/// `text` have any bytes.
pub fn put_head(bytes: &mut &[u8], text: &mut Vec<u8>) -> Result<(), ShowFault>
    ensures { ShowsAs result text.new.items bytes.new.now (trees.head_text.show text.old.items bytes.old.now) }
{
    put_head_parts(bytes, text)?;
    Ok(())
}

/// Takes what is said of the root from the front of the bytes, and appends its line without a line feed: `D "/" 0 0
/// 0755`. After the third opening the bytes have its letter, and may have its times: `d "/" 0 0 0755 1 2`.
///
/// # Errors
///
/// Those of `put_head`.
pub fn put_root(is_wide: bool, bytes: &mut &[u8], text: &mut Vec<u8>) -> Result<(), ShowFault>
    ensures { ShowsAs result text.new.items bytes.new.now
        ((trees.root_text is_wide).show text.old.items bytes.old.now) }
{
    put_root_parts(is_wide, bytes, text)?;
    Ok(())
}

/// Takes an entry from the front of the bytes, and appends its line without a line feed. It may have times, or a file
/// of 2^32 bytes or more, after the third opening alone.
///
/// # Errors
///
/// Those of `put_head`.
pub fn put_entry(is_wide: bool, bytes: &mut &[u8], text: &mut Vec<u8>) -> Result<(), ShowFault>
    ensures { ShowsAs result text.new.items bytes.new.now
        ((trees.entry_text is_wide).show text.old.items bytes.old.now) }
{
    put_entry_parts(is_wide, bytes, text)?;
    Ok(())
}

/// Shows an entry and a line feed.
fn put_entry_line(is_wide: bool, bytes: &mut &[u8], text: &mut Vec<u8>) -> Result<(), Stop>
    ensures { Moves result text.new.items bytes.new.now ((entry_line is_wide).show text.old.items bytes.old.now) }
{
    put_entry_parts(is_wide, bytes, text)?;
    text.push(b'\n')?;
    Ok(())
}

/// Shows entries up to the end, each with a line feed. There are at most as many as bytes.
#[tactic(auto, using(crate::proofs::ListLaws::repeat_steps))]
fn put_entries(is_wide: bool, bytes: &mut &[u8], text: &mut Vec<u8>) -> Result<(), Stop>
    ensures { Moves result text.new.items bytes.new.now
        (repeat_to_end (entry_line is_wide).show text.old.items bytes.old.now) }
{
    let mut most = bytes.len();
    'entries: while most > 0 {
        if bytes.is_empty() {
            return Ok(());
        }
        put_entry_line(is_wide, bytes, text)?;
        most -= 1;
    }
    Ok(())
}

/// Shows the head and the root, each with a line feed.
fn put_first_lines(is_wide: bool, bytes: &mut &[u8], text: &mut Vec<u8>) -> Result<(), Stop>
    ensures { Moves result text.new.items bytes.new.now ((first_lines is_wide).show text.old.items bytes.old.now) }
{
    put_head_parts(bytes, text)?;
    text.push(b'\n')?;
    put_root_parts(is_wide, bytes, text)?;
    text.push(b'\n')?;
    Ok(())
}

/// Shows the lines of a tree file.
#[tactic(auto, unfolding(crate::specs::Trees::show_tree))]
fn put_lines(bytes: &mut &[u8], text: &mut Vec<u8>) -> Result<(), Stop>
    ensures { Moves result text.new.items bytes.new.now (trees.show_tree text.old.items bytes.old.now) }
{
    let is_wide = begins_wide(bytes);
    put_first_lines(is_wide, bytes, text)?;
    put_entries(is_wide, bytes, text)
}

/// Appends the lines of a tree file to a text, each with a line feed. The count in the head may differ from the
/// number of entries that follow.
///
/// # Errors
///
/// `Unfit` if the bytes are not a head, a root and entries; `NoMemory` if memory runs out.
pub fn put_tree(bytes: &[u8], text: &mut Vec<u8>) -> Result<(), ShowFault>
    ensures { ShowsWhole result text.new.items (trees.show_tree text.old.items bytes.now) }
{
    let mut rest = bytes;
    put_lines(&mut rest, text)?;
    read_end(rest)?;
    Ok(())
}

/// What comes of a line that was read up to `rest`, of which nothing may be left.
fn ended(read: Result<(), Stop>, line: &[u8], rest: &[u8]) -> Result<(), Fault>
    ensures { (bytes : List ℕ) (step : Option (List ℕ × List ℕ)) → Moves read bytes rest.now step
        → ReadsAs result bytes step }
{
    match read {
        Ok(()) if rest.is_empty() => Ok(()),
        Ok(()) => Err(Stop::Unfit(Expected::End).in_line(line.len(), rest.len())),
        Err(stop) => Err(stop.in_line(line.len(), rest.len())),
    }
}

/// Reads a line of a head, and appends its bytes: the opening, the home, the user, the group, the limits if there are
/// some, and the count of entries. The opening is the first without limits, the second with four, and the third with
/// five.
///
/// # Errors
///
/// `Unread` with the column where the line differs from the grammar, and what was expected there; `NoMemory` if memory
/// runs out. `bytes` then has any bytes.
pub fn read_head(line: &[u8], bytes: &mut Vec<u8>) -> Result<(), Fault>
    ensures { ReadsAs result bytes.new.items (trees.head_text.read bytes.old.items line.now) }
{
    let mut rest = line;
    let read = read_head_parts(&mut rest, bytes);
    ended(read, line, rest)
}

/// Reads the line of the root, and appends its bytes.
///
/// # Errors
///
/// Those of `read_head`.
pub fn read_root(is_wide: bool, line: &[u8], bytes: &mut Vec<u8>) -> Result<(), Fault>
    ensures { ReadsAs result bytes.new.items ((trees.root_text is_wide).read bytes.old.items line.now) }
{
    let mut rest = line;
    let read = read_root_parts(is_wide, &mut rest, bytes);
    ended(read, line, rest)
}

/// Reads the line of an entry, and appends its bytes.
///
/// # Errors
///
/// Those of `read_head`.
pub fn read_entry(is_wide: bool, line: &[u8], bytes: &mut Vec<u8>) -> Result<(), Fault>
    ensures { ReadsAs result bytes.new.items ((trees.entry_text is_wide).read bytes.old.items line.now) }
{
    let mut rest = line;
    let read = read_entry_parts(is_wide, &mut rest, bytes);
    ended(read, line, rest)
}

/// Reads a line in the form that is due, and appends its bytes.
fn read_due(due: Due, line: &[u8], bytes: &mut Vec<u8>) -> Result<(), Fault>
    ensures { ReadsAs result bytes.new.items ((form_of due).read bytes.old.items line.now) }
{
    match due {
        Due::Head => read_head(line, bytes),
        Due::Root(is_wide) => read_root(is_wide, line, bytes),
        Due::Entry(is_wide) => read_entry(is_wide, line, bytes),
    }
}

/// Which line is due after one that has these bytes.
fn due_after(due: Due, bytes: &[u8]) -> Due
    ensures { result ≡ due_after due bytes.now }
{
    match due {
        Due::Head => Due::Root(begins_wide(bytes)),
        Due::Root(is_wide) => Due::Entry(is_wide),
        Due::Entry(is_wide) => Due::Entry(is_wide),
    }
}

/// Reads a line in the form that is due, and appends its bytes, which `part` is left with, to those of other lines.
fn read_next(due: Due, line: &[u8], part: &mut Vec<u8>, bytes: &mut Vec<u8>) -> Result<(), Fault>
    ensures gives { GivesLine result bytes.new.items
        (onto bytes.old.items (whole ((form_of due).read [] line.now))) }
    ensures part { OnOk result (whole ((form_of due).read [] line.now) ≡ Some part.new.items) }
{
    part.clear();
    read_due(due, line, part)?;
    match bytes.extend_from_slice(part.as_slice()) {
        Ok(()) => Ok(()),
        Err(_) => Err(Fault::NoMemory),
    }
}

/// Reads lines of a head, a root and entries as a tree file, and appends its bytes. Blank lines, and lines whose first
/// byte but spaces is `#`, say nothing. The file's values are not judged.
///
/// # Errors
///
/// `Unread` with the line and the column where a line differs from the grammar; where the head or the root is missing,
/// the number of the line after the last. `NoMemory` if memory runs out.
#[tactic(auto, unfolding(crate::specs::Trees::tree_read), using(crate::proofs::TextLaws::tree_steps))]
pub fn read_tree(text: &[u8], bytes: &mut Vec<u8>) -> Result<(), TextFault>
    ensures { GivesText result bytes.new.items (onto bytes.old.items (trees.tree_read text.now)) }
{
    let mut rest = text;
    let mut number: u64 = 0;
    let mut due = Due::Head;
    let mut part = Vec::new(*bytes.allocator());
    'lines: while let Some(line) = take_line(&mut rest) {
        number = number.saturating_add(1);
        if !is_blank(line) {
            match read_next(due, line, &mut part, bytes) {
                Ok(()) => due = due_after(due, part.as_slice()),
                Err(fault) => return Err(fault.at_line(number)),
            }
        }
    }
    complete(due, number.saturating_add(1))
}

/// What a line should have been that is not the root's.
fn any_root(is_wide: bool) -> Expected {
    if is_wide {
        Expected::AnyRoot
    } else {
        Expected::Root
    }
}

/// Succeeds where no line of a tree file's text is missing at its end, before the line of this number.
fn complete(due: Due, line: u64) -> Result<(), TextFault>
    ensures { GivesText result [] (lines_from due []) }
{
    let expected = match due {
        Due::Head => Expected::Head,
        Due::Root(is_wide) => any_root(is_wide),
        Due::Entry(_) => return Ok(()),
    };
    Err(TextFault::Unread {
        line,
        column: 1,
        expected,
    })
}
