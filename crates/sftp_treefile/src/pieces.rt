//! What a reader of tree files takes from its input, piece by piece: heads, paths and kinds.
ghost use Rattle.std.specs.Prelude.{◌≡◌, ◌+◌, ◌<◌, ◌≤◌, ℕ, List, Bool, ◌∷◌, length, max};
ghost use Rattle.std.specs.Prelude.{IfOk, IfErr, IfSome, IfNone, OnOk, IsTrue};
ghost use Rattle.std.specs.Prelude.{false};
ghost use Rattle.std.specs.Vec.{vec_capacity};
ghost use Rattle.sftp_strings.specs.Strings.{uint32, string};
ghost use Rattle.sftp_treefile.specs.TreeFile.{place_of, timed_text, are_bytes, letter_for, file_letter};
ghost use Rattle.sftp_treefile.specs.TreeFileParts.{Reads, ReadsNone, IsAt, Follows, IsLast, IsHead, IsKnownIn};
ghost use Rattle.sftp_treefile.specs.TreeFileParts.{head_bytes, IsTimedKind};
ghost use Rattle.sftp_treefile.specs.Streamed.{ExcuseOr, IsExcuse, IsIn, IsSame, HoldsWindow, Takes, Lacks, AreCounted};
ghost use Rattle.sftp_treefile.specs.Streamed.{plain, TakesSome, IsFileStart, file_start_text, IsNothing};
ghost use Rattle.sftp_treefile.specs.Streamed.{IsFile, file_text, is_file_letter};

use crate::entries::{Entries, path_at};
use crate::errors::TreeError;
use crate::fields::{given_owner_at, kind_at, length_at, letter_at};
use crate::files::{Kind, Owner, Row};
use crate::heads::{Head, head_at};
use crate::input::{Input, WINDOW};
use crate::limits::TreeLimits;
use crate::times::Times;
use sftp_path::Place;
use sftp_streams::Source;
use sftp_strings::{ByteString, take_number};
use std::alloc::{AllocError, Global};

/// The bytes of an opening, after which the home's length is.
const OPENING_LENGTH: usize = 8;

/// The bytes of a letter, after which the length of a target is.
const LETTER: usize = 1;

/// How much memory the bytes of a file get before they are there, at most. Longer ones get more as they come, each time
/// as much as is there, and never more than they take.
const AT_ONCE: usize = 67_108_864;

/// Takes the head.
fn take_head<R: Source>(alloc: Global, input: &mut Input<R>) -> Result<Head, TreeError>
    ensures found { IfOk result (λ head. Takes IsHead head_bytes input.old head input.new) }
    ensures none { IfErr result (λ error. ExcuseOr error (Lacks IsHead head_bytes input.old)) }
    ensures number { IfErr result (IsIn R.may_fail 0) }
{
    input.fill(0)?;
    let (head, rest) = head_at(alloc, input.held())?;
    let left = rest.len();
    let taken = input.held().len() - left;
    input.take(taken);
    Ok(head)
}

/// Takes the path of an entry that may come next. Returns the path and its place.
pub(crate) fn take_path<R: Source>(
    alloc: Global,
    input: &mut Input<R>,
    entry: u32,
    entries: &Entries,
) -> Result<(ByteString, Place), TreeError>
    requires { IsLast entries.now.rows.items entries.now.last entries.now.is_dir }
    ensures found { IfOk result
        (λ taken. Takes (Follows entries.now.rows.items) string input.old taken.0 input.new) }
    ensures place { IfOk result (λ taken. taken.1 ≡ place_of taken.0) }
    ensures none { IfErr result
        (λ error. ExcuseOr error (Lacks (Follows entries.now.rows.items) string input.old)) }
    ensures number { IfErr result (IsIn R.may_fail entry) }
{
    input.fill(entry)?;
    let (text, place, rest) = path_at(alloc, entry, entries, input.held())?;
    let path = ByteString::from_slice(alloc, text)?;
    let left = rest.len();
    let taken = input.held().len() - left;
    input.take(taken);
    Ok((path, place))
}

/// Whether this letter of the first name of a file says that there are times, and whether it says that the file is
/// long; `None` if it is not one that the opening knows.
fn letter_of_file(is_wide: bool, letter: u8) -> Option<(bool, bool)>
    ensures some { IfSome result (λ form. IsKnownIn is_wide form.0 × IsKnownIn is_wide form.1
        × (letter ≡ letter_for form.0 (file_letter form.1))) }
    ensures none { IfNone result ((timed long : Bool) → IsKnownIn is_wide timed → IsKnownIn is_wide long
        → letter ≡ letter_for timed (file_letter long) → ⊥) }
{
    if letter == b'F' {
        return Some((false, false));
    }
    if !is_wide {
        return None;
    }
    match letter {
        b'f' => Some((true, false)),
        b'G' => Some((false, true)),
        b'g' => Some((true, true)),
        _ => None,
    }
}

/// Reads what the entry of a file says before the file's bytes. Returns the owner, the times, the number of the bytes,
/// and the bytes after it.
fn file_start_at(
    entry: u32,
    is_wide: bool,
    bytes: &[u8],
) -> Result<(Owner, Times, u64, &[u8]), TreeError>
    ensures found { IfOk result (λ taken. Reads (IsFileStart is_wide) file_start_text bytes.now
        (taken.0, (taken.1, taken.2)) taken.3.now) }
    ensures none { IfErr result (λ _. ReadsNone (IsFileStart is_wide) file_start_text bytes.now) }
    ensures number { IfErr result (IsAt entry) }
{
    let (letter, rest) = letter_at(entry, bytes)?;
    let Some((has_times, is_long)) = letter_of_file(is_wide, letter) else {
        return Err(TreeError::Value { entry });
    };
    let (owner, times, rest) = given_owner_at(entry, has_times, rest)?;
    let (count, rest) = length_at(entry, is_long, rest)?;
    Ok((owner, times, count, rest))
}

/// Takes what the entry of a file says before the file's bytes: the owner, the times, and the number of the bytes.
fn take_file_start<R: Source>(
    input: &mut Input<R>,
    entry: u32,
    is_wide: bool,
) -> Result<(Owner, Times, u64), TreeError>
    ensures found { IfOk result (λ taken. Takes (IsFileStart is_wide) file_start_text input.old
        (taken.0, (taken.1, taken.2)) input.new) }
    ensures none { IfErr result (λ error. ExcuseOr error (Lacks (IsFileStart is_wide) file_start_text input.old)) }
    ensures number { IfErr result (IsIn R.may_fail entry) }
{
    input.fill(entry)?;
    let (owner, times, count, rest) = file_start_at(entry, is_wide, input.held())?;
    let left = rest.len();
    let taken = input.held().len() - left;
    input.take(taken);
    Ok((owner, times, count))
}

/// Reads once if no bytes are held: `Short` if there are no more.
fn hold_some<R: Source>(input: &mut Input<R>, entry: u32) -> Result<(), TreeError>
    ensures same { IsSame input.old input.new }
    ensures some { OnOk result (0 < length input.new.held) }
    ensures none { IfErr result (λ error. ExcuseOr error (IsNothing input.old)) }
    ensures number { IfErr result (IsIn R.may_fail entry) }
{
    if !input.held().is_empty() {
        return Ok(());
    }
    let count = input.refill(entry)?;
    if count == 0 {
        return Err(TreeError::Short { entry });
    }
    Ok(())
}

/// Takes bytes that nobody asks for, at least one and at most so many. Returns how many.
fn skip_some<R: Source>(
    input: &mut Input<R>,
    entry: u32,
    missing: usize,
) -> Result<usize, TreeError>
    requires { 0 < missing }
    ensures some { IfOk result (λ count. (0 < count) × (count ≤ missing)) }
    ensures number { IfErr result (IsIn R.may_fail entry) }
{
    hold_some(input, entry)?;
    let count = input.held().len().min(missing);
    input.take(count);
    Ok(count)
}

/// The fault of a field that is longer than any that fits, and ends after so many bytes. It is read whole before it is
/// judged.
fn overlong<R: Source>(input: &mut Input<R>, entry: u32, count: usize) -> TreeError
    ensures { IsIn R.may_fail entry result }
{
    let mut missing = count;
    'skip: while missing > 0 {
        match skip_some(input, entry, missing) {
            Ok(skipped) => missing -= skipped,
            Err(error) => return error,
        }
    }
    TreeError::Value { entry }
}

/// Where the string ends whose length is so many bytes after the front.
fn string_end(bytes: &[u8], place: usize) -> usize {
    match take_number(bytes.get(place..).unwrap_or(&[])) {
        Some((length, _)) => (length as usize).saturating_add(4).saturating_add(place),
        None => usize::MAX,
    }
}

/// The fault of what was not taken. Where it is `Short` though the window is held, the string whose length is so many
/// bytes after the front is longer than any that fits.
pub(crate) fn settle<R: Source>(
    input: &mut Input<R>,
    entry: u32,
    place: usize,
    error: TreeError,
) -> TreeError
    requires { IsIn R.may_fail entry error }
    ensures excused { IsExcuse error → IsExcuse result }
    ensures number { IsIn R.may_fail entry result }
{
    let is_short = matches!(error, TreeError::Short { .. });
    if !is_short || input.held().len() < WINDOW {
        return error;
    }
    let end = string_end(input.held(), place);
    overlong(input, entry, end)
}

/// Gives the bytes memory for so many more, of those that are missing. If that takes more memory, it is for as many as
/// they are, or for all that are missing if these are fewer.
fn make_room(bytes: &mut Vec<u8>, count: usize, missing: usize) -> Result<(), AllocError>
    requires { count ≤ missing }
    ensures same { bytes.new.items ≡ bytes.old.items }
    ensures room { OnOk result (length bytes.old.items + count ≤ vec_capacity bytes.new) }
    ensures within { vec_capacity bytes.new ≤ max (vec_capacity bytes.old) (length bytes.old.items + missing) }
    ensures twice { vec_capacity bytes.new
        ≤ max (vec_capacity bytes.old) (length bytes.old.items + max (length bytes.old.items) count) }
{
    if bytes.capacity() - bytes.len() < count {
        bytes.reserve_exact(bytes.len().max(count).min(missing))?;
    }
    Ok(())
}

/// Takes bytes, at least one and at most so many, and appends them.
fn take_some<R: Source>(
    input: &mut Input<R>,
    entry: u32,
    missing: usize,
    bytes: &mut Vec<u8>,
) -> Result<(), TreeError>
    requires { 0 < missing }
    ensures found { OnOk result (TakesSome missing input.old bytes.old.items input.new bytes.new.items) }
    ensures none { IfErr result (λ error. ExcuseOr error (IsNothing input.old)) }
    ensures number { IfErr result (IsIn R.may_fail entry) }
{
    hold_some(input, entry)?;
    let held = input.held();
    let count = held.len().min(missing);
    make_room(bytes, count, missing)?;
    bytes.extend_from_slice(&held[..count])?;
    input.take(count);
    Ok(())
}

/// Each of the bytes is less than 256.
fn are_octets(bytes: &[u8])
    ensures { IsTrue (are_bytes bytes.now) }
{}

/// Takes so many bytes. Up to `AT_ONCE` they get the memory that they take, and no more, at once. Longer ones get more
/// as they come, so that a length alone takes no more than that.
fn take_bytes<R: Source>(
    alloc: Global,
    input: &mut Input<R>,
    entry: u32,
    count: u64,
) -> Result<ByteString, TreeError>
    ensures found { IfOk result (λ bytes. Takes (AreCounted count) plain input.old bytes input.new) }
    ensures none { IfErr result (λ error. ExcuseOr error (Lacks (AreCounted count) plain input.old)) }
    ensures number { IfErr result (IsIn R.may_fail entry) }
{
    let size = count as usize;
    let mut bytes = Vec::with_capacity(alloc, size.min(AT_ONCE))?;
    'more: while bytes.len() < size {
        let missing = size - bytes.len();
        take_some(input, entry, missing, &mut bytes)?;
    }
    are_octets(bytes.as_slice());
    Ok(ByteString::new(bytes))
}

/// Takes what the entry of a file says after its path.
fn take_file<R: Source>(
    alloc: Global,
    input: &mut Input<R>,
    is_wide: bool,
    limits: TreeLimits,
    entry: u32,
) -> Result<(Owner, Times, ByteString), TreeError>
    ensures found { IfOk result
        (λ taken. Takes (IsFile is_wide limits) file_text input.old (taken.0, (taken.1, taken.2)) input.new) }
    ensures none { IfErr result (λ error. ExcuseOr error (Lacks (IsFile is_wide limits) file_text input.old)) }
    ensures number { IfErr result (IsIn R.may_fail entry) }
{
    let (owner, times, count) = take_file_start(input, entry, is_wide)?;
    if count > limits.file_bytes {
        return Err(overlong(input, entry, count as usize));
    }
    let bytes = take_bytes(alloc, input, entry, count)?;
    Ok((owner, times, bytes))
}

/// Whether the bytes start with a letter of the first name of a file.
fn starts_file(bytes: &[u8]) -> bool
    ensures yes { IsTrue result
        → (letter : ℕ) × (rest : List ℕ) × (bytes.now ≡ letter ∷ rest) × IsTrue (is_file_letter letter) }
    ensures no { result ≡ false
        → (letter : ℕ) (rest : List ℕ) → bytes.now ≡ letter ∷ rest → is_file_letter letter ≡ false }
{
    match bytes.split_first() {
        Some((letter, _)) => is_letter_of_file(*letter),
        None => false,
    }
}

/// Whether this is the letter of the first name of a file, after any opening.
fn is_letter_of_file(letter: u8) -> bool
    ensures { result ≡ is_file_letter letter }
{
    letter == b'F' || (letter == b'f' || (letter == b'G' || letter == b'g'))
}

/// Takes what an entry is that is no file. The window is held.
fn take_other_kind<R: Source>(
    alloc: Global,
    input: &mut Input<R>,
    is_wide: bool,
    limits: TreeLimits,
    entry: u32,
    rows: &[Row],
) -> Result<(Kind, Times), TreeError>
    requires held { HoldsWindow input.old }
    requires no_file { (letter : ℕ) (rest : List ℕ) → input.old.held ≡ letter ∷ rest → is_file_letter letter ≡ false }
    ensures found { IfOk result
        (λ taken. Takes (IsTimedKind is_wide limits rows.now) timed_text input.old (taken.0, taken.1) input.new) }
    ensures none { IfErr result
        (λ error. ExcuseOr error (Lacks (IsTimedKind is_wide limits rows.now) timed_text input.old)) }
    ensures number { IfErr result (IsIn R.may_fail entry) }
{
    let (kind, times, rest) = kind_at(alloc, is_wide, limits, entry, rows, input.held())?;
    let left = rest.len();
    let taken = input.held().len() - left;
    input.take(taken);
    Ok((kind, times))
}

/// Takes what an entry after these rows is, and its times.
pub(crate) fn take_kind<R: Source>(
    alloc: Global,
    input: &mut Input<R>,
    is_wide: bool,
    limits: TreeLimits,
    entry: u32,
    rows: &[Row],
) -> Result<(Kind, Times), TreeError>
    ensures found { IfOk result
        (λ taken. Takes (IsTimedKind is_wide limits rows.now) timed_text input.old (taken.0, taken.1) input.new) }
    ensures none { IfErr result
        (λ error. ExcuseOr error (Lacks (IsTimedKind is_wide limits rows.now) timed_text input.old)) }
    ensures number { IfErr result (IsIn R.may_fail entry) }
{
    input.fill(entry)?;
    if !starts_file(input.held()) {
        return match take_other_kind(alloc, input, is_wide, limits, entry, rows) {
            Ok(taken) => Ok(taken),
            Err(error) => Err(settle(input, entry, LETTER, error)),
        };
    }
    let (owner, times, bytes) = take_file(alloc, input, is_wide, limits, entry)?;
    Ok((Kind::First(owner, bytes), times))
}

/// Takes the head, and reads a home that is too long to its end.
pub(crate) fn whole_head<R: Source>(alloc: Global, input: &mut Input<R>) -> Result<Head, TreeError>
    ensures found { IfOk result (λ head. Takes IsHead head_bytes input.old head input.new) }
    ensures none { IfErr result (λ error. ExcuseOr error (Lacks IsHead head_bytes input.old)) }
    ensures number { IfErr result (IsIn R.may_fail 0) }
{
    match take_head(alloc, input) {
        Ok(head) => Ok(head),
        Err(error) => Err(settle(input, 0, OPENING_LENGTH, error)),
    }
}
