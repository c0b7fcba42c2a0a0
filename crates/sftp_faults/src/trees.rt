//! Where the fault of a tree file is.

use crate::fields::{Fields, Spot};
use crate::pages::{Pages, Stop};
use sftp_path::{DEPTH_LIMIT, good_path, place_of_text};
use sftp_streams::Source;
use sftp_treefile::{
    Opening, TreeError, TreeLimits, highest_limits, least_limits, most_limits, usual_limits,
};
use std::alloc::Global;

/// All the bits of permissions.
const PERMISSIONS: u32 = 0o7777;

/// The length of an opening.
const OPENING: usize = 8;

/// What a tree file begins with that has four limits.
const OPENING_WITH_LIMITS: &[u8] = b"SFTREE02";

/// What a tree file begins with that has five limits.
const OPENING_WIDE: &[u8] = b"SFTREE03";

/// The least length of the bytes of a file that is a uint64.
const LONG: u64 = 1 << 32;

/// The first field.
const START: Spot = Spot {
    field: "opening",
    place: 0,
};

/// What is said of a file before one of its entries.
#[derive(Clone, Copy)]
struct Before {
    opening: Opening,
    limits: TreeLimits,
    /// How many bytes all files may yet have.
    room: u64,
}

/// What a letter says of the entry of a directory or of a file.
#[derive(Clone, Copy)]
struct Letter {
    /// Whether it is a file.
    is_file: bool,
    /// Whether two times follow the permissions.
    has_times: bool,
    /// Whether the length of the file is a uint64.
    is_long: bool,
}

/// The bytes of a file.
#[derive(Clone, Copy)]
struct Contents {
    /// The field that has the fault if there are fewer.
    spot: Spot,
    length: u64,
}

/// The field in which a tree file has this fault, which is its first one. Held of the file are a window, and of each
/// entry before the fault whether it is the first name of a file. `None` if memory runs out or the source fails.
pub fn spot_in_tree<R: Source>(alloc: Global, source: R, error: TreeError) -> Option<Spot>
where
    R: Drop,
{
    let found = match Pages::new(alloc, source) {
        Ok(mut pages) => {
            let found = spot_in_pages(alloc, &mut pages, error);
            drop(pages);
            found
        }
        Err(stop) => Err(stop),
    };
    match found {
        Ok(spot) | Err(Stop::At(spot)) => Some(spot),
        Err(Stop::Unread) => None,
    }
}

fn spot_in_pages<R: Source>(
    alloc: Global,
    pages: &mut Pages<R>,
    error: TreeError,
) -> Result<Spot, Stop> {
    let mut firsts = Vec::new(alloc);
    let found = spot_behind(alloc, pages, &mut firsts, error);
    drop(firsts);
    found
}

/// Where the fault is. No entry is passed yet.
fn spot_behind<R: Source>(
    alloc: Global,
    pages: &mut Pages<R>,
    firsts: &mut Vec<bool>,
    error: TreeError,
) -> Result<Spot, Stop> {
    match error {
        TreeError::NoMemory | TreeError::Io { .. } => Err(Stop::Unread),
        TreeError::Magic { .. } => Ok(START),
        TreeError::Order { entry } | TreeError::Parent { entry } => {
            pass_before(pages, firsts, entry)?;
            Ok(pages.fields().spot("path"))
        }
        TreeError::Trailing { entry } => {
            // The number is one more than the last entry's.
            pass_before(pages, firsts, entry)?;
            Ok(pages.fields().spot("the end of the entries"))
        }
        TreeError::Short { entry } => {
            judge(alloc, pages, firsts, entry)?;
            Err(Stop::Unread)
        }
        TreeError::Value { entry } => {
            // Where each value of the entry is in its range, another opening holds the file.
            judge(alloc, pages, firsts, entry)?;
            Ok(START)
        }
    }
}

/// Passes the head and the entries before this one.
fn pass_before<R: Source>(
    pages: &mut Pages<R>,
    firsts: &mut Vec<bool>,
    entry: u32,
) -> Result<Before, Stop> {
    let mut before = pass_head(pages)?;
    for _ in 1..entry {
        let length = pass_entry(pages, firsts)?;
        before.room = before.room.saturating_sub(length);
    }
    Ok(before)
}

fn pass_head<R: Source>(pages: &mut Pages<R>) -> Result<Before, Stop> {
    pages.fill()?;
    let mut fields = pages.fields();
    let before = pass_settings(&mut fields)?;
    let left = fields.rest().len();
    pages.leave(left);
    Ok(before)
}

/// Passes an entry, and returns how many bytes a file has that comes with it.
fn pass_entry<R: Source>(pages: &mut Pages<R>, firsts: &mut Vec<bool>) -> Result<u64, Stop> {
    pages.fill()?;
    let mut fields = pages.fields();
    let contents = pass_named(&mut fields)?;
    let left = fields.rest().len();
    pages.leave(left);
    firsts.push(contents.is_some())?;
    pass_contents(pages, contents)
}

/// Passes the bytes of a file, if there is one, and returns how many they are.
fn pass_contents<R: Source>(pages: &mut Pages<R>, contents: Option<Contents>) -> Result<u64, Stop> {
    let Some(contents) = contents else {
        return Ok(0);
    };
    if pages.pass(contents.length)? {
        Ok(contents.length)
    } else {
        Err(Stop::At(contents.spot))
    }
}

fn pass_settings(fields: &mut Fields<'_>) -> Result<Before, Spot> {
    let opening = pass_opening(fields)?;
    fields.text("home")?;
    let limits = judge_settings(fields, opening)?;
    fields.number("number of entries")?;
    pass_root(fields, opening)?;
    Ok(Before {
        opening,
        limits,
        room: limits.total_bytes,
    })
}

/// Passes who owns the root, and after the third opening its letter and its times.
fn pass_root(fields: &mut Fields<'_>, opening: Opening) -> Result<(), Spot> {
    let has_times = opening.is_wide() && fields.byte("kind")? == b'd';
    pass_owner(fields, has_times)
}

/// Passes an owner, and the times behind it if there are some.
fn pass_owner(fields: &mut Fields<'_>, has_times: bool) -> Result<(), Spot> {
    fields.numbers(&["uid", "gid", "permissions"])?;
    if has_times {
        fields.numbers(&["times", "times"])?;
    }
    Ok(())
}

/// Passes the opening, and returns which it is.
fn pass_opening(fields: &mut Fields<'_>) -> Result<Opening, Spot> {
    let opening = opening_of(fields.rest());
    fields.pass(OPENING, "opening")?;
    Ok(opening)
}

/// The opening of a file that begins with one.
fn opening_of(bytes: &[u8]) -> Opening {
    if bytes.starts_with(OPENING_WIDE) {
        Opening::Wide
    } else if bytes.starts_with(OPENING_WITH_LIMITS) {
        Opening::Raised
    } else {
        Opening::Usual
    }
}

/// Passes who owns what is made, and returns the limits of the tree: the usual ones, unless it has its own, which are
/// judged.
fn judge_settings(fields: &mut Fields<'_>, opening: Opening) -> Result<TreeLimits, Spot> {
    fields.numbers(&["uid", "gid"])?;
    match opening {
        Opening::Usual => Ok(usual_limits()),
        Opening::Raised => judge_limits(fields),
        Opening::Wide => judge_wide_limits(fields),
    }
}

fn judge_limits(fields: &mut Fields<'_>) -> Result<TreeLimits, Spot> {
    // Slow to prove: each of the four may be out of its range.
    let (lowest, highest) = (usual_limits(), highest_limits());
    let first = fields.spot("limits");
    let entries = judge_limit(fields, lowest.entries, highest.entries)?;
    let file_bytes = judge_limit(fields, lowest.file_bytes as u32, highest.file_bytes as u32)?;
    let limits = TreeLimits {
        entries,
        file_bytes: u64::from(file_bytes),
        read_bytes: judge_limit(fields, lowest.read_bytes, highest.read_bytes)?,
        open_handles: judge_limit(fields, lowest.open_handles, highest.open_handles)?,
        ..lowest
    };
    if limits.are_own() {
        Ok(limits)
    } else {
        Err(first)
    }
}

fn judge_wide_limits(fields: &mut Fields<'_>) -> Result<TreeLimits, Spot> {
    // Slow to prove: each of the five may be out of its range.
    let (lowest, most) = (least_limits(), most_limits());
    Ok(TreeLimits {
        entries: judge_limit(fields, lowest.entries, most.entries)?,
        file_bytes: judge_long_limit(fields, lowest.file_bytes, most.file_bytes)?,
        read_bytes: judge_limit(fields, lowest.read_bytes, most.read_bytes)?,
        open_handles: judge_limit(fields, lowest.open_handles, most.open_handles)?,
        total_bytes: judge_long_limit(fields, lowest.total_bytes, most.total_bytes)?,
    })
}

fn judge_limit(fields: &mut Fields<'_>, lowest: u32, highest: u32) -> Result<u32, Spot> {
    let spot = fields.spot("limits");
    let limit = fields.number("limits")?;
    if limit < lowest || limit > highest {
        return Err(spot);
    }
    Ok(limit)
}

fn judge_long_limit(fields: &mut Fields<'_>, lowest: u64, highest: u64) -> Result<u64, Spot> {
    let spot = fields.spot("limits");
    let limit = fields.long_number("limits")?;
    if limit < lowest || limit > highest {
        return Err(spot);
    }
    Ok(limit)
}

/// What this letter says, if it is that of a directory or of a file after this opening.
fn letter_of(opening: Opening, kind: u8) -> Option<Letter> {
    let (is_file, has_times, is_long) = match kind {
        b'D' => (false, false, false),
        b'd' => (false, true, false),
        b'F' => (true, false, false),
        b'f' => (true, true, false),
        b'G' => (true, false, true),
        b'g' => (true, true, true),
        _ => return None,
    };
    if (has_times || is_long) && !opening.is_wide() {
        return None;
    }
    Some(Letter {
        is_file,
        has_times,
        is_long,
    })
}

/// Passes an entry up to the bytes of its file. Returns these if it is the first name of a file.
fn pass_named(fields: &mut Fields<'_>) -> Result<Option<Contents>, Spot> {
    fields.text("path")?;
    let kind = fields.byte("kind")?;
    match letter_of(Opening::Wide, kind) {
        Some(letter) => pass_owned(fields, letter),
        None if kind == b'H' => {
            fields.number("number of the first name")?;
            Ok(None)
        }
        None => {
            fields.text("target")?;
            Ok(None)
        }
    }
}

/// Passes what the entry of a directory or of a file says behind its letter.
fn pass_owned(fields: &mut Fields<'_>, letter: Letter) -> Result<Option<Contents>, Spot> {
    pass_owner(fields, letter.has_times)?;
    if !letter.is_file {
        return Ok(None);
    }
    let length = length_at(fields, letter.is_long)?;
    Ok(Some(Contents {
        spot: fields.spot("bytes"),
        length,
    }))
}

/// Reads the number of the bytes of a file.
fn length_at(fields: &mut Fields<'_>, is_long: bool) -> Result<u64, Spot> {
    if is_long {
        fields.long_number("bytes")
    } else {
        Ok(u64::from(fields.number("bytes")?))
    }
}

/// The first field of the entry, or of the head for 0, that is not whole or out of its range.
fn judge<R: Source>(
    alloc: Global,
    pages: &mut Pages<R>,
    firsts: &mut Vec<bool>,
    entry: u32,
) -> Result<(), Stop> {
    if entry == 0 {
        pages.fill()?;
        return judge_head(alloc, &mut pages.fields());
    }
    let before = pass_before(pages, firsts, entry)?;
    judge_entry(alloc, pages, firsts.as_slice(), before)
}

/// Judges the entry after those that were passed.
fn judge_entry<R: Source>(
    alloc: Global,
    pages: &mut Pages<R>,
    firsts: &[bool],
    before: Before,
) -> Result<(), Stop> {
    pages.fill()?;
    let mut fields = pages.fields();
    let contents = judge_named(alloc, before, firsts, &mut fields)?;
    let left = fields.rest().len();
    pages.leave(left);
    pass_contents(pages, contents)?;
    Ok(())
}

fn judge_head(alloc: Global, fields: &mut Fields<'_>) -> Result<(), Stop> {
    let opening = pass_opening(fields)?;
    judge_place(alloc, fields, "home", 0)?;
    let limits = judge_settings(fields, opening)?;
    judge_count(limits, fields)?;
    judge_root(opening, fields)?;
    Ok(())
}

fn judge_count(limits: TreeLimits, fields: &mut Fields<'_>) -> Result<(), Spot> {
    let spot = fields.spot("number of entries");
    let count = fields.number("number of entries")?;
    if count > limits.entries {
        return Err(spot);
    }
    Ok(())
}

/// Judges what is said of the root, after the third opening with its letter.
fn judge_root(opening: Opening, fields: &mut Fields<'_>) -> Result<(), Spot> {
    if !opening.is_wide() {
        return judge_owner(fields, false);
    }
    let spot = fields.spot("kind");
    match fields.byte("kind")? {
        b'D' => judge_owner(fields, false),
        b'd' => judge_owner(fields, true),
        _ => Err(spot),
    }
}

/// Judges an owner, and the times behind it if there are some.
fn judge_owner(fields: &mut Fields<'_>, has_times: bool) -> Result<(), Spot> {
    fields.numbers(&["uid", "gid"])?;
    let spot = fields.spot("permissions");
    let permissions = fields.number("permissions")?;
    if permissions > PERMISSIONS {
        return Err(spot);
    }
    if has_times {
        return judge_times(fields);
    }
    Ok(())
}

fn judge_times(fields: &mut Fields<'_>) -> Result<(), Spot> {
    let spot = fields.spot("times");
    let accessed = fields.number("times")?;
    let modified = fields.number("times")?;
    if accessed == 0 && modified == 0 {
        return Err(spot);
    }
    Ok(())
}

/// Judges an entry up to the bytes of its file, and how many these are. Returns them if it is the first name of a file.
fn judge_named(
    alloc: Global,
    before: Before,
    firsts: &[bool],
    fields: &mut Fields<'_>,
) -> Result<Option<Contents>, Stop> {
    judge_place(alloc, fields, "path", 1)?;
    let contents = judge_kind(before, firsts, fields)?;
    Ok(contents)
}

/// Judges what an entry says behind its path.
fn judge_kind(
    before: Before,
    firsts: &[bool],
    fields: &mut Fields<'_>,
) -> Result<Option<Contents>, Spot> {
    let spot = fields.spot("kind");
    let kind = fields.byte("kind")?;
    match letter_of(before.opening, kind) {
        Some(letter) => judge_owned(before, letter, fields),
        None if kind == b'H' => judge_first(firsts, fields),
        None if kind == b'L' => judge_target(fields),
        None => Err(spot),
    }
}

/// Judges what the entry of a directory or of a file says behind its letter.
fn judge_owned(
    before: Before,
    letter: Letter,
    fields: &mut Fields<'_>,
) -> Result<Option<Contents>, Spot> {
    judge_owner(fields, letter.has_times)?;
    if letter.is_file {
        return judge_length(before, letter.is_long, fields);
    }
    Ok(None)
}

/// Judges the number of the entry that is the first name of a file.
fn judge_first(firsts: &[bool], fields: &mut Fields<'_>) -> Result<Option<Contents>, Spot> {
    let spot = fields.spot("number of the first name");
    let number = fields.number("number of the first name")?;
    if is_first(firsts, number) {
        Ok(None)
    } else {
        Err(spot)
    }
}

/// Whether the entry of this number, from 1, is the first name of a file.
fn is_first(firsts: &[bool], number: u32) -> bool {
    match number.checked_sub(1) {
        Some(place) => firsts.get(place as usize).is_some_and(|is_first| *is_first),
        None => false,
    }
}

/// Judges the text of a place that has at least so many names.
fn judge_place(
    alloc: Global,
    fields: &mut Fields<'_>,
    field: &'static str,
    least: usize,
) -> Result<(), Stop> {
    let spot = fields.spot(field);
    let text = fields.text(field)?;
    match place_of_text(alloc, text) {
        Ok(Some(place)) => {
            let depth = place.depth();
            drop(place);
            if depth < least || depth > DEPTH_LIMIT {
                return Err(Stop::At(spot));
            }
            Ok(())
        }
        Ok(None) => Err(Stop::At(spot)),
        Err(_) => Err(Stop::Unread),
    }
}

/// Judges the number of the bytes of a file: one of eight bytes is 2^32 or more. Returns the bytes, whose fault is that
/// of the number.
fn judge_length(
    before: Before,
    is_long: bool,
    fields: &mut Fields<'_>,
) -> Result<Option<Contents>, Spot> {
    let spot = fields.spot("bytes");
    let length = length_at(fields, is_long)?;
    if is_long && length < LONG {
        return Err(spot);
    }
    if length > before.limits.file_bytes.min(before.room) {
        return Err(spot);
    }
    Ok(Some(Contents { spot, length }))
}

fn judge_target(fields: &mut Fields<'_>) -> Result<Option<Contents>, Spot> {
    let spot = fields.spot("target");
    let target = fields.text("target")?;
    if target.is_empty() || !good_path(target) {
        return Err(spot);
    }
    Ok(None)
}
