//! The fields of tree files, read one by one. Each function reads what the bytes start with, and returns it and the
//! bytes after it.
ghost use Rattle.std.specs.Prelude.{◌≡◌, ◌<◌, ◌++◌, ℕ, Bool, List, true, false, [], ◌∷◌, length};
ghost use Rattle.std.specs.Prelude.{IfOk, IfErr, IfSome, IfNone, IsTrue};
ghost use Rattle.sftp_strings.specs.Strings.{uint32, uint64, string};
ghost use Rattle.sftp_treefile.specs.TreeFile.{place_of, owner_text, are_bytes, times_text, length_text, timed_text};
ghost use Rattle.sftp_treefile.specs.TreeFile.{is_first_row, entry_at, IsPlaceText, IsOwner, letter_for};
ghost use Rattle.sftp_treefile.specs.TreeFile as spec;
ghost use Rattle.sftp_treefile.specs.TreeFileParts.{Reads, ReadsNone, OutOfMemoryOr, IsAt, IsNumber, IsPermissions};
ghost use Rattle.sftp_treefile.specs.TreeFileParts.{IsTarget, IsFirstAmong, IsLongNumber, AreGiven, IsGivenOwner};
ghost use Rattle.sftp_treefile.specs.TreeFileParts.{given_owner_text, IsGivenLength, IsOwnedIn, directory_text};
ghost use Rattle.sftp_treefile.specs.TreeFileParts.{IsKnownIn, IsTimedKind};
ghost use Rattle.sftp_treefile.specs.Streamed.{is_file_letter};

use crate::errors::TreeError;
use crate::files::{Kind, Owner, Row};
use crate::limits::TreeLimits;
use crate::times::{NO_TIMES, Times};
use byteorder::{BigEndian, ByteOrder};
use sftp_path::{DEPTH_LIMIT, Place, good_path, place_of_text};
use sftp_strings::{ByteString, take_number, take_string};
use std::alloc::{AllocError, Global};

/// All the bits of permissions.
const PERMISSIONS: u32 = 0o7777;

/// The fewest bytes of a file whose length is no uint32.
const LEAST_LONG: u64 = 4_294_967_296;

/// Reads a number.
pub(crate) fn number_at(entry: u32, bytes: &[u8]) -> Result<(u32, &[u8]), TreeError>
    ensures found { IfOk result (λ taken. Reads IsNumber uint32 bytes.now taken.0 taken.1.now) }
    ensures none { IfErr result (λ _. ReadsNone IsNumber uint32 bytes.now) }
    ensures number { IfErr result (IsAt entry) }
{
    take_number(bytes).ok_or(TreeError::Short { entry })
}

/// The uint64 in front of a slice, and what follows it. `None` where the slice has fewer than eight bytes.
fn take_long_number(bytes: &[u8]) -> Option<(u64, &[u8])>
    ensures found { IfSome result (λ taken. bytes.now ≡ uint64 taken.0 ++ taken.1.now) }
    ensures none { IfNone result (length bytes.now < 8) }
{
    let (front, rest) = bytes.split_at_checked(8)?;
    Some((BigEndian::read_u64(front), rest))
}

/// Reads a long number.
pub(crate) fn long_number_at(entry: u32, bytes: &[u8]) -> Result<(u64, &[u8]), TreeError>
    ensures found { IfOk result (λ taken. Reads IsLongNumber uint64 bytes.now taken.0 taken.1.now) }
    ensures none { IfErr result (λ _. ReadsNone IsLongNumber uint64 bytes.now) }
    ensures number { IfErr result (IsAt entry) }
{
    take_long_number(bytes).ok_or(TreeError::Short { entry })
}

/// Reads permissions.
fn permissions_at(entry: u32, bytes: &[u8]) -> Result<(u32, &[u8]), TreeError>
    ensures found { IfOk result (λ taken. Reads IsPermissions uint32 bytes.now taken.0 taken.1.now) }
    ensures none { IfErr result (λ _. ReadsNone IsPermissions uint32 bytes.now) }
    ensures number { IfErr result (IsAt entry) }
{
    let (permissions, rest) = number_at(entry, bytes)?;
    if permissions > PERMISSIONS {
        return Err(TreeError::Value { entry });
    }
    Ok((permissions, rest))
}

/// Reads an owner.
pub(crate) fn owner_at(entry: u32, bytes: &[u8]) -> Result<(Owner, &[u8]), TreeError>
    ensures found { IfOk result (λ taken. Reads IsOwner owner_text bytes.now taken.0 taken.1.now) }
    ensures none { IfErr result (λ _. ReadsNone IsOwner owner_text bytes.now) }
    ensures number { IfErr result (IsAt entry) }
{
    let (uid, rest) = number_at(entry, bytes)?;
    let (gid, rest) = number_at(entry, rest)?;
    let (permissions, rest) = permissions_at(entry, rest)?;
    let owner = Owner {
        uid,
        gid,
        permissions,
    };
    Ok((owner, rest))
}

/// Reads a string that is the absolute text of a place. Returns that place too.
pub(crate) fn place_at<'a>(
    alloc: Global,
    entry: u32,
    bytes: &'a [u8],
) -> Result<(&'a [u8], Place, &'a [u8]), TreeError>
    ensures found { IfOk result (λ taken. Reads IsPlaceText string bytes.now taken.0.now taken.2.now) }
    ensures place { IfOk result (λ taken. taken.1 ≡ place_of taken.0.now) }
    ensures none { IfErr result (λ error. OutOfMemoryOr error (ReadsNone IsPlaceText string bytes.now)) }
    ensures number { IfErr result (IsAt entry) }
{
    let Some((text, rest)) = take_string(bytes) else {
        return Err(TreeError::Short { entry });
    };
    let Some(place) = place_of_text(alloc, text)? else {
        return Err(TreeError::Value { entry });
    };
    if place.depth() > DEPTH_LIMIT {
        return Err(TreeError::Value { entry });
    }
    Ok((text, place, rest))
}

/// A copy of these bytes, each of which is less than 256.
fn copy_of(alloc: Global, bytes: &[u8]) -> Result<ByteString, AllocError>
    ensures copy { IfOk result (λ copy. copy ≡ bytes.now) }
    ensures bytes { IsTrue (are_bytes bytes.now) }
{
    ByteString::from_slice(alloc, bytes)
}

/// Reads the target of a link.
fn target_at(alloc: Global, entry: u32, bytes: &[u8]) -> Result<(ByteString, &[u8]), TreeError>
    ensures found { IfOk result (λ taken. Reads IsTarget string bytes.now taken.0 taken.1.now) }
    ensures none { IfErr result (λ error. OutOfMemoryOr error (ReadsNone IsTarget string bytes.now)) }
    ensures number { IfErr result (IsAt entry) }
{
    let Some((target, rest)) = take_string(bytes) else {
        return Err(TreeError::Short { entry });
    };
    if target.is_empty() || !good_path(target) {
        return Err(TreeError::Value { entry });
    }
    Ok((copy_of(alloc, target)?, rest))
}

/// Reads two times, not both of which are 0.
fn known_times_at(entry: u32, bytes: &[u8]) -> Result<(Times, &[u8]), TreeError>
    ensures found { IfOk result (λ taken. Reads (AreGiven true) (times_text true) bytes.now taken.0 taken.1.now) }
    ensures none { IfErr result (λ _. ReadsNone (AreGiven true) (times_text true) bytes.now) }
    ensures number { IfErr result (IsAt entry) }
{
    let (accessed, rest) = number_at(entry, bytes)?;
    let (modified, rest) = number_at(entry, rest)?;
    let times = Times { accessed, modified };
    if !times.are_known() {
        return Err(TreeError::Value { entry });
    }
    Ok((times, rest))
}

/// Reads the times of an entry that has some, or nothing of one that has none.
fn times_at(entry: u32, has_times: bool, bytes: &[u8]) -> Result<(Times, &[u8]), TreeError>
    ensures found { IfOk result
        (λ taken. Reads (AreGiven has_times) (times_text has_times) bytes.now taken.0 taken.1.now) }
    ensures none { IfErr result (λ _. ReadsNone (AreGiven has_times) (times_text has_times) bytes.now) }
    ensures number { IfErr result (IsAt entry) }
{
    if has_times {
        known_times_at(entry, bytes)
    } else {
        Ok((NO_TIMES, bytes))
    }
}

/// Reads an owner, and the times behind it if there are some.
pub(crate) fn given_owner_at(
    entry: u32,
    has_times: bool,
    bytes: &[u8],
) -> Result<(Owner, Times, &[u8]), TreeError>
    ensures found { IfOk result
        (λ taken. Reads (IsGivenOwner has_times) (given_owner_text has_times) bytes.now (taken.0, taken.1)
        taken.2.now) }
    ensures none { IfErr result (λ _. ReadsNone (IsGivenOwner has_times) (given_owner_text has_times) bytes.now) }
    ensures number { IfErr result (IsAt entry) }
{
    let (owner, rest) = owner_at(entry, bytes)?;
    let (times, rest) = times_at(entry, has_times, rest)?;
    Ok((owner, times, rest))
}

/// Reads a length that is a uint32.
fn short_length_at(entry: u32, bytes: &[u8]) -> Result<(u64, &[u8]), TreeError>
    ensures found { IfOk result
        (λ taken. Reads (IsGivenLength false) (length_text false) bytes.now taken.0 taken.1.now) }
    ensures none { IfErr result (λ _. ReadsNone (IsGivenLength false) (length_text false) bytes.now) }
    ensures number { IfErr result (IsAt entry) }
{
    let (count, rest) = number_at(entry, bytes)?;
    Ok((count as u64, rest))
}

/// Reads a length that is no uint32.
fn long_length_at(entry: u32, bytes: &[u8]) -> Result<(u64, &[u8]), TreeError>
    ensures found { IfOk result
        (λ taken. Reads (IsGivenLength true) (length_text true) bytes.now taken.0 taken.1.now) }
    ensures none { IfErr result (λ _. ReadsNone (IsGivenLength true) (length_text true) bytes.now) }
    ensures number { IfErr result (IsAt entry) }
{
    let (count, rest) = long_number_at(entry, bytes)?;
    if count < LEAST_LONG {
        return Err(TreeError::Value { entry });
    }
    Ok((count, rest))
}

/// Reads the length of the bytes of a file: a long one, or any other.
pub(crate) fn length_at(entry: u32, is_long: bool, bytes: &[u8]) -> Result<(u64, &[u8]), TreeError>
    ensures found { IfOk result
        (λ taken. Reads (IsGivenLength is_long) (length_text is_long) bytes.now taken.0 taken.1.now) }
    ensures none { IfErr result (λ _. ReadsNone (IsGivenLength is_long) (length_text is_long) bytes.now) }
    ensures number { IfErr result (IsAt entry) }
{
    if is_long {
        long_length_at(entry, bytes)
    } else {
        short_length_at(entry, bytes)
    }
}

/// Whether this letter of a directory says that there are times; `None` if it is not one that the opening knows.
fn directory_letter(is_wide: bool, letter: u8) -> Option<bool>
    ensures some { IfSome result (λ timed. IsKnownIn is_wide timed × (letter ≡ letter_for timed 68)) }
    ensures none { IfNone result ((timed : Bool) → IsKnownIn is_wide timed → letter ≡ letter_for timed 68 → ⊥) }
{
    if letter == b'D' {
        return Some(false);
    }
    if letter == b'd' && is_wide {
        return Some(true);
    }
    None
}

/// Reads what an entry says that is a directory: its letter, its owner, and its times if it has some.
pub(crate) fn directory_at(
    entry: u32,
    is_wide: bool,
    bytes: &[u8],
) -> Result<(Owner, Times, &[u8]), TreeError>
    ensures found { IfOk result
        (λ taken. Reads (IsOwnedIn is_wide) directory_text bytes.now (taken.0, taken.1) taken.2.now) }
    ensures none { IfErr result (λ _. ReadsNone (IsOwnedIn is_wide) directory_text bytes.now) }
    ensures number { IfErr result (IsAt entry) }
{
    let (letter, rest) = letter_at(entry, bytes)?;
    let Some(has_times) = directory_letter(is_wide, letter) else {
        return Err(TreeError::Value { entry });
    };
    let (owner, times, rest) = given_owner_at(entry, has_times, rest)?;
    Ok((owner, times, rest))
}

/// Whether an entry is the first name of a file.
fn is_first(kind: &Kind) -> bool
    ensures { result ≡ spec.is_first kind.now }
{
    matches!(kind, Kind::First(_, _))
}

/// Whether the row of this number is the first name of a file. Rows count from 1.
fn is_first_at(rows: &[Row], number: u32) -> bool
    ensures { result ≡ is_first_row (entry_at rows.now number) }
{
    if number == 0 {
        return false;
    }
    match rows.get(number as usize - 1) {
        Some(row) => is_first(&row.kind),
        None => false,
    }
}

/// Reads the number of an entry that is the first name of a file among these rows.
fn first_at<'a>(entry: u32, rows: &[Row], bytes: &'a [u8]) -> Result<(u32, &'a [u8]), TreeError>
    ensures found { IfOk result (λ taken. Reads (IsFirstAmong rows.now) uint32 bytes.now taken.0 taken.1.now) }
    ensures none { IfErr result (λ _. ReadsNone (IsFirstAmong rows.now) uint32 bytes.now) }
    ensures number { IfErr result (IsAt entry) }
{
    let (number, rest) = number_at(entry, bytes)?;
    if !is_first_at(rows, number) {
        return Err(TreeError::Value { entry });
    }
    Ok((number, rest))
}

/// Reads a letter.
pub(crate) fn letter_at(entry: u32, bytes: &[u8]) -> Result<(u8, &[u8]), TreeError>
    ensures found { IfOk result (λ taken. bytes.now ≡ taken.0 ∷ taken.1.now) }
    ensures none { IfErr result (λ _. bytes.now ≡ []) }
    ensures number { IfErr result (IsAt entry) }
{
    let (letter, rest) = bytes.split_first().ok_or(TreeError::Short { entry })?;
    Ok((*letter, rest))
}

/// Reads what an entry after these rows is that is no file, and its times.
pub(crate) fn kind_at<'a>(
    alloc: Global,
    is_wide: bool,
    limits: TreeLimits,
    entry: u32,
    rows: &[Row],
    bytes: &'a [u8],
) -> Result<(Kind, Times, &'a [u8]), TreeError>
    requires { (letter : ℕ) (rest : List ℕ) → bytes.now ≡ letter ∷ rest → is_file_letter letter ≡ false }
    ensures found { IfOk result
        (λ taken. Reads (IsTimedKind is_wide limits rows.now) timed_text bytes.now (taken.0, taken.1) taken.2.now) }
    ensures none { IfErr result
        (λ error. OutOfMemoryOr error (ReadsNone (IsTimedKind is_wide limits rows.now) timed_text bytes.now)) }
    ensures number { IfErr result (IsAt entry) }
{
    let (letter, rest) = letter_at(entry, bytes)?;
    match letter {
        b'H' => {
            let (number, rest) = first_at(entry, rows, rest)?;
            Ok((Kind::Further(number), NO_TIMES, rest))
        }
        b'L' => {
            let (target, rest) = target_at(alloc, entry, rest)?;
            Ok((Kind::Link(target), NO_TIMES, rest))
        }
        _ => {
            let (owner, times, rest) = directory_at(entry, is_wide, bytes)?;
            Ok((Kind::Dir(owner), times, rest))
        }
    }
}
