//! An entry of a tree file as a line: a directory, a file, a further name or a link.
ghost use Rattle.std.specs.Prelude.{◌≡◌, is_some, None};
ghost use Rattle.sftp_text.specs.Trees.{Moves, FindsKind, behind, behind_path, entry_of, kind_text};
ghost use Rattle.sftp_text.specs.Trees as trees;

use crate::errors::{Expected, Stop};
use crate::labels::{put_labelled, put_text, read_labelled, read_text};
use crate::quoted::{put_long_string, put_string, read_long_string, read_string};
use crate::trees::owners::{put_timed_owner, read_timed_owner};
use crate::words::read_word;
use bytes::Buf;

/// The kind of an entry: the byte after its path.
#[tactic(auto, unfolding(crate::specs::Trees::kind_behind))]
fn kind_of(bytes: &[u8]) -> Result<u8, Stop>
    ensures { FindsKind result (trees.kind_behind bytes.now) }
{
    let mut rest = bytes;
    let length = rest.try_get_u32()?;
    match rest.get(length as usize) {
        Some(kind) => Ok(*kind),
        None => Err(Stop::Unfit(Expected::Kind)),
    }
}

/// What a letter says of the entry of a directory or of a file.
#[derive(Clone, Copy)]
struct Letter {
    is_file: bool,
    /// Whether two times follow the permissions.
    has_times: bool,
    /// Whether the length of the file is a uint64.
    is_long: bool,
}

/// What a letter says.
fn letter_made(is_file: bool, has_times: bool, is_long: bool) -> Letter
    ensures { result ≡ trees.letter_made is_file has_times is_long }
{
    Letter {
        is_file,
        has_times,
        is_long,
    }
}

/// What a letter says that comes after the third opening alone.
fn wide_letter(is_wide: bool, letter: Letter) -> Option<Letter>
    ensures { result ≡ trees.wide_letter is_wide letter }
{
    if is_wide { Some(letter) } else { None }
}

/// What this letter says, if it is that of a directory or of a file; small letters and `G` only after the third
/// opening.
#[tactic(auto, unfolding(crate::specs::Trees::letter_of))]
fn letter_of(is_wide: bool, kind: u8) -> Option<Letter>
    ensures { result ≡ trees.letter_of is_wide kind }
{
    if kind == b'D' {
        return Some(letter_made(false, false, false));
    }
    if kind == b'F' {
        return Some(letter_made(true, false, false));
    }
    if kind == b'd' {
        return wide_letter(is_wide, letter_made(false, true, false));
    }
    if kind == b'f' {
        return wide_letter(is_wide, letter_made(true, true, false));
    }
    if kind == b'G' {
        return wide_letter(is_wide, letter_made(true, false, true));
    }
    if kind == b'g' {
        return wide_letter(is_wide, letter_made(true, true, true));
    }
    None
}

/// Shows the bytes of a file.
fn put_content(is_long: bool, bytes: &mut &[u8], text: &mut Vec<u8>) -> Result<(), Stop>
    ensures { Moves result text.new.items bytes.new.now
        ((trees.content_text is_long).show text.old.items bytes.old.now) }
{
    if is_long {
        put_long_string(bytes, text)
    } else {
        put_string(bytes, text)
    }
}

fn read_content(is_long: bool, line: &mut &[u8], bytes: &mut Vec<u8>) -> Result<(), Stop>
    ensures { Moves result bytes.new.items line.new.now
        ((trees.content_text is_long).read bytes.old.items line.old.now) }
{
    if is_long {
        read_long_string(line, bytes)
    } else {
        read_string(line, bytes)
    }
}

/// Shows what the entry of a directory or of a file says behind its path.
fn put_owned(letter: Letter, bytes: &mut &[u8], text: &mut Vec<u8>) -> Result<(), Stop>
    ensures { Moves result text.new.items bytes.new.now ((trees.owned_text letter).show text.old.items bytes.old.now) }
{
    if !letter.is_file {
        return put_timed_owner(letter.has_times, bytes, text);
    }
    put_timed_owner(letter.has_times, bytes, text)?;
    text.push(b' ')?;
    put_content(letter.is_long, bytes, text)
}

/// Shows what an entry says behind its path whose letter is none of a directory's or a file's.
fn put_other(kind: u8, bytes: &mut &[u8], text: &mut Vec<u8>) -> Result<(), Stop>
    ensures { Moves result text.new.items bytes.new.now
        ((behind (trees.other_text kind None)).show text.old.items bytes.old.now) }
{
    if kind == b'H' {
        put_labelled(b" ", bytes, text)
    } else if kind == b'L' {
        put_text(b" ", bytes, text)
    } else {
        Err(Stop::Unfit(Expected::Kind))
    }
}

/// Shows what an entry of a kind says behind its path.
#[tactic(auto, unfolding(crate::specs::Trees::kind_text))]
fn put_behind_path(
    is_wide: bool,
    kind: u8,
    bytes: &mut &[u8],
    text: &mut Vec<u8>,
) -> Result<(), Stop>
    ensures { Moves result text.new.items bytes.new.now ((behind_path is_wide kind).show text.old.items bytes.old.now) }
{
    match letter_of(is_wide, kind) {
        Some(letter) => put_owned(letter, bytes, text),
        None => put_other(kind, bytes, text),
    }
}

/// Shows an entry of a kind.
fn put_kind(is_wide: bool, kind: u8, bytes: &mut &[u8], text: &mut Vec<u8>) -> Result<(), Stop>
    ensures { Moves result text.new.items bytes.new.now
        ((entry_of kind (behind_path is_wide kind)).show text.old.items bytes.old.now) }
{
    put_text(&[kind, b' '], bytes, text)?;
    read_word(&[kind], Expected::Kind, bytes)?;
    put_behind_path(is_wide, kind, bytes, text)
}

/// Shows an entry: its kind, its path, and by its kind its owner, its owner and bytes, the number of the entry that
/// is its file's first name, or its target.
#[tactic(auto, unfolding(crate::specs::Trees::entry_text), using(crate::proofs::ListLaws::kind_is_shown))]
pub(super) fn put_entry_parts(
    is_wide: bool,
    bytes: &mut &[u8],
    text: &mut Vec<u8>,
) -> Result<(), Stop>
    ensures { Moves result text.new.items bytes.new.now
        ((trees.entry_text is_wide).show text.old.items bytes.old.now) }
{
    let kind = kind_of(bytes)?;
    put_kind(is_wide, kind, bytes, text)
}

/// Reads what the entry of a directory or of a file says behind its path.
fn read_owned(letter: Letter, line: &mut &[u8], bytes: &mut Vec<u8>) -> Result<(), Stop>
    ensures { Moves result bytes.new.items line.new.now ((trees.owned_text letter).read bytes.old.items line.old.now) }
{
    if !letter.is_file {
        return read_timed_owner(letter.has_times, line, bytes);
    }
    read_timed_owner(letter.has_times, line, bytes)?;
    read_word(b" ", Expected::Space, line)?;
    read_content(letter.is_long, line, bytes)
}

/// Reads what an entry says behind its path whose letter is none of a directory's or a file's.
fn read_other(kind: u8, line: &mut &[u8], bytes: &mut Vec<u8>) -> Result<(), Stop>
    ensures { Moves result bytes.new.items line.new.now
        ((behind (trees.other_text kind None)).read bytes.old.items line.old.now) }
{
    if kind == b'H' {
        read_labelled(b" ", Expected::Space, line, bytes)
    } else if kind == b'L' {
        read_text(b" ", Expected::Space, line, bytes)
    } else {
        Err(Stop::Unfit(Expected::Kind))
    }
}

/// Reads what an entry of a kind says behind its path.
#[tactic(auto, unfolding(crate::specs::Trees::kind_text))]
fn read_behind_path(
    is_wide: bool,
    kind: u8,
    line: &mut &[u8],
    bytes: &mut Vec<u8>,
) -> Result<(), Stop>
    ensures { Moves result bytes.new.items line.new.now ((behind_path is_wide kind).read bytes.old.items line.old.now) }
{
    match letter_of(is_wide, kind) {
        Some(letter) => read_owned(letter, line, bytes),
        None => read_other(kind, line, bytes),
    }
}

/// Whether a letter is that of a further name or of a link.
fn is_other(letter: u8) -> bool
    ensures { result ≡ is_some (trees.other_text letter None) }
{
    letter == b'H' || letter == b'L'
}

/// Whether a letter is that of a kind.
#[tactic(auto, unfolding(crate::specs::Trees::kind_text))]
fn is_kind(is_wide: bool, letter: u8) -> bool
    ensures { result ≡ is_some (kind_text is_wide letter) }
{
    match letter_of(is_wide, letter) {
        Some(_) => true,
        None => is_other(letter),
    }
}

/// What a line should begin with that does not begin with the letter of a kind.
fn any_kind(is_wide: bool) -> Expected {
    if is_wide {
        Expected::AnyKind
    } else {
        Expected::Kind
    }
}

/// Reads an entry of a kind.
fn read_kind(is_wide: bool, kind: u8, line: &mut &[u8], bytes: &mut Vec<u8>) -> Result<(), Stop>
    ensures { Moves result bytes.new.items line.new.now
        ((entry_of kind (behind_path is_wide kind)).read bytes.old.items line.old.now) }
{
    read_text(&[kind, b' '], Expected::Space, line, bytes)?;
    bytes.push(kind)?;
    read_behind_path(is_wide, kind, line, bytes)
}

/// Reads an entry.
#[tactic(auto, unfolding(crate::specs::Trees::entry_text), using(crate::proofs::ListLaws::kind_steps))]
pub(super) fn read_entry_parts(
    is_wide: bool,
    line: &mut &[u8],
    bytes: &mut Vec<u8>,
) -> Result<(), Stop>
    ensures { Moves result bytes.new.items line.new.now
        ((trees.entry_text is_wide).read bytes.old.items line.old.now) }
{
    let Some(kind) = line.first() else {
        return Err(Stop::Unfit(any_kind(is_wide)));
    };
    let kind = *kind;
    if !is_kind(is_wide, kind) {
        return Err(Stop::Unfit(any_kind(is_wide)));
    }
    read_kind(is_wide, kind, line, bytes)
}
