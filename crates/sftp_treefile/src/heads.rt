//! The heads of tree files: what they say before their entries.
ghost use Rattle.std.specs.Prelude.{◌≡◌, ◌++◌, ℕ, false, List, IfOk, IfErr};
ghost use Rattle.sftp_strings.specs.Strings.{uint32, uint64, string};
ghost use Rattle.sftp_treefile.specs.declared.limits.Opening.{Opening as kind_of_opening};
ghost use Rattle.sftp_treefile.specs.declared.limits.Opening.TheVariants.{Raised, Wide};
ghost use Rattle.sftp_treefile.specs.TreeFile.{IsBetween, AreLimits, is_wide};
ghost use Rattle.sftp_treefile.specs.TreeFile.{tree_opening, limits_text, root_owner_text, IsPlaceText};
ghost use Rattle.sftp_treefile.specs.TreeFileParts.{Reads, ReadsNone, OutOfMemoryOr, IsAt, IsCount, head_bytes, IsHead};
ghost use Rattle.sftp_treefile.specs.TreeFileParts.{IsFront, front_bytes, AreSet, AreRaised, IsRoot, root_text};
ghost use Rattle.sftp_treefile.specs.TreeFileParts.{IsOwnedIn, plain_owner_text};

use crate::errors::TreeError;
use crate::fields::{directory_at, long_number_at, number_at, owner_at, place_at};
use crate::files::Owner;
use crate::limits::{
    OPENING, OPENING_WIDE, OPENING_WITH_LIMITS, Opening, TreeLimits, highest_limits, least_limits,
    most_limits, usual_limits,
};
use crate::times::{NO_TIMES, Times};
use sftp_strings::ByteString;
use std::alloc::Global;

/// The head of a tree file: what it says before its entries.
#[derive(Debug, Drop)]
pub struct Head {
    /// The opening of the file.
    pub opening: Opening,
    /// The limits of the tree: the usual ones if the file has the opening `SFTREE01`.
    pub limits: TreeLimits,
    /// The absolute text of the place where relative paths start.
    pub home: ByteString,
    /// The user who owns what is made with no owner given.
    pub uid: u32,
    /// The group that owns what is made with no owner given.
    pub gid: u32,
    /// How many entries there are.
    pub count: u32,
    /// The owner of the root, which has no entry.
    pub root: Owner,
    /// The times of the root, which only a file with the opening `SFTREE03` has.
    pub root_times: Times,
}

/// What a tree file says before its limits.
#[derive(Drop)]
pub(crate) struct Front {
    /// What the file begins with, which decides what follows.
    opening: Opening,
    home: ByteString,
    uid: u32,
    gid: u32,
}

/// Reads the opening, and returns it and the bytes after it.
fn opening_at(bytes: &[u8]) -> Result<(Opening, &[u8]), TreeError>
    ensures found { IfOk result (λ taken. bytes.now ≡ tree_opening taken.0 ++ taken.1.now) }
    ensures none { IfErr result
        (λ _. (opening : kind_of_opening) (rest : List ℕ) → bytes.now ≡ tree_opening opening ++ rest → ⊥) }
    ensures number { IfErr result (IsAt 0) }
{
    if let Some(rest) = bytes.strip_prefix(OPENING) {
        return Ok((Opening::Usual, rest));
    }
    if let Some(rest) = bytes.strip_prefix(OPENING_WITH_LIMITS) {
        return Ok((Opening::Raised, rest));
    }
    match bytes.strip_prefix(OPENING_WIDE) {
        Some(rest) => Ok((Opening::Wide, rest)),
        None => Err(TreeError::Magic { entry: 0 }),
    }
}

/// Reads the home, and returns it and the bytes after it.
fn home_at(alloc: Global, bytes: &[u8]) -> Result<(ByteString, &[u8]), TreeError>
    ensures found { IfOk result (λ taken. Reads IsPlaceText string bytes.now taken.0 taken.1.now) }
    ensures none { IfErr result (λ error. OutOfMemoryOr error (ReadsNone IsPlaceText string bytes.now)) }
    ensures number { IfErr result (IsAt 0) }
{
    let (text, _, rest) = place_at(alloc, 0, bytes)?;
    Ok((ByteString::from_slice(alloc, text)?, rest))
}

/// Reads what comes before the limits, and returns it and the bytes after it.
fn front_at(alloc: Global, bytes: &[u8]) -> Result<(Front, &[u8]), TreeError>
    ensures found { IfOk result (λ taken. Reads IsFront front_bytes bytes.now taken.0 taken.1.now) }
    ensures none { IfErr result (λ error. OutOfMemoryOr error (ReadsNone IsFront front_bytes bytes.now)) }
    ensures number { IfErr result (IsAt 0) }
{
    // Slow to prove: each step may refuse, and the later ones drop the home.
    let (opening, rest) = opening_at(bytes)?;
    let (home, rest) = home_at(alloc, rest)?;
    let (uid, rest) = number_at(0, rest)?;
    let (gid, rest) = number_at(0, rest)?;
    let front = Front {
        opening,
        home,
        uid,
        gid,
    };
    Ok((front, rest))
}

/// Reads a limit in this range, and returns it and the bytes after it.
fn limit_at(lowest: u32, highest: u32, bytes: &[u8]) -> Result<(u32, &[u8]), TreeError>
    ensures found { IfOk result (λ taken. Reads (IsBetween lowest highest) uint32 bytes.now taken.0 taken.1.now) }
    ensures none { IfErr result (λ _. ReadsNone (IsBetween lowest highest) uint32 bytes.now) }
    ensures number { IfErr result (IsAt 0) }
{
    let (limit, rest) = number_at(0, bytes)?;
    if limit < lowest || limit > highest {
        return Err(TreeError::Value { entry: 0 });
    }
    Ok((limit, rest))
}

/// Reads a long limit in this range, and returns it and the bytes after it.
fn long_limit_at(lowest: u64, highest: u64, bytes: &[u8]) -> Result<(u64, &[u8]), TreeError>
    ensures found { IfOk result (λ taken. Reads (IsBetween lowest highest) uint64 bytes.now taken.0 taken.1.now) }
    ensures none { IfErr result (λ _. ReadsNone (IsBetween lowest highest) uint64 bytes.now) }
    ensures number { IfErr result (IsAt 0) }
{
    let (limit, rest) = long_number_at(0, bytes)?;
    if limit > highest || limit < lowest {
        return Err(TreeError::Value { entry: 0 });
    }
    Ok((limit, rest))
}

/// Reads the four limits after the second opening, each in its range, and returns them and the bytes after them.
fn four_limits_at(bytes: &[u8]) -> Result<(TreeLimits, &[u8]), TreeError>
    ensures found { IfOk result (λ taken. Reads AreRaised (limits_text Raised) bytes.now taken.0 taken.1.now) }
    ensures none { IfErr result (λ _. ReadsNone AreRaised (limits_text Raised) bytes.now) }
    ensures number { IfErr result (IsAt 0) }
{
    let lowest = usual_limits();
    let highest = highest_limits();
    let (entries, rest) = limit_at(lowest.entries, highest.entries, bytes)?;
    let (file_bytes, rest) = limit_at(lowest.file_bytes as u32, highest.file_bytes as u32, rest)?;
    let (read_bytes, rest) = limit_at(lowest.read_bytes, highest.read_bytes, rest)?;
    let (open_handles, rest) = limit_at(lowest.open_handles, highest.open_handles, rest)?;
    let limits = TreeLimits {
        entries,
        file_bytes: file_bytes as u64,
        read_bytes,
        open_handles,
        total_bytes: highest.total_bytes,
    };
    Ok((limits, rest))
}

/// Reads the limits after the second opening, and returns them and the bytes after them. They are not all the usual
/// ones, so that a tree has one file.
fn raised_limits_at(bytes: &[u8]) -> Result<(TreeLimits, &[u8]), TreeError>
    ensures found { IfOk result (λ taken. Reads (AreSet Raised) (limits_text Raised) bytes.now taken.0 taken.1.now) }
    ensures none { IfErr result (λ _. ReadsNone (AreSet Raised) (limits_text Raised) bytes.now) }
    ensures number { IfErr result (IsAt 0) }
{
    let (limits, rest) = four_limits_at(bytes)?;
    if !limits.are_own() {
        return Err(TreeError::Value { entry: 0 });
    }
    Ok((limits, rest))
}

/// Reads the five limits after the third opening, each in its range, and returns them and the bytes after them.
fn wide_limits_at(bytes: &[u8]) -> Result<(TreeLimits, &[u8]), TreeError>
    ensures found { IfOk result (λ taken. Reads AreLimits (limits_text Wide) bytes.now taken.0 taken.1.now) }
    ensures none { IfErr result (λ _. ReadsNone AreLimits (limits_text Wide) bytes.now) }
    ensures number { IfErr result (IsAt 0) }
{
    let least = least_limits();
    let most = most_limits();
    let (entries, rest) = limit_at(least.entries, most.entries, bytes)?;
    let (file_bytes, rest) = long_limit_at(least.file_bytes, most.file_bytes, rest)?;
    let (read_bytes, rest) = limit_at(least.read_bytes, most.read_bytes, rest)?;
    let (open_handles, rest) = limit_at(least.open_handles, most.open_handles, rest)?;
    let (total_bytes, rest) = long_limit_at(least.total_bytes, most.total_bytes, rest)?;
    let limits = TreeLimits {
        entries,
        file_bytes,
        read_bytes,
        open_handles,
        total_bytes,
    };
    Ok((limits, rest))
}

/// Reads the limits after this opening, nothing after the first, and returns them and the bytes after them.
fn limits_at(opening: Opening, bytes: &[u8]) -> Result<(TreeLimits, &[u8]), TreeError>
    ensures found { IfOk result
        (λ taken. Reads (AreSet opening) (limits_text opening) bytes.now taken.0 taken.1.now) }
    ensures none { IfErr result (λ _. ReadsNone (AreSet opening) (limits_text opening) bytes.now) }
    ensures number { IfErr result (IsAt 0) }
{
    match opening {
        Opening::Usual => Ok((usual_limits(), bytes)),
        Opening::Raised => raised_limits_at(bytes),
        Opening::Wide => wide_limits_at(bytes),
    }
}

/// Reads the number of entries, and returns it and the bytes after it.
fn count_at(limits: TreeLimits, bytes: &[u8]) -> Result<(u32, &[u8]), TreeError>
    ensures found { IfOk result (λ taken. Reads (IsCount limits) uint32 bytes.now taken.0 taken.1.now) }
    ensures none { IfErr result (λ _. ReadsNone (IsCount limits) uint32 bytes.now) }
    ensures number { IfErr result (IsAt 0) }
{
    let (count, rest) = number_at(0, bytes)?;
    if count > limits.entries {
        return Err(TreeError::Value { entry: 0 });
    }
    Ok((count, rest))
}

/// Reads the owner of a root that has no times.
fn plain_owner_at(bytes: &[u8]) -> Result<(Owner, Times, &[u8]), TreeError>
    ensures found { IfOk result
        (λ taken. Reads (IsOwnedIn false) plain_owner_text bytes.now (taken.0, taken.1) taken.2.now) }
    ensures none { IfErr result (λ _. ReadsNone (IsOwnedIn false) plain_owner_text bytes.now) }
    ensures number { IfErr result (IsAt 0) }
{
    let (owner, rest) = owner_at(0, bytes)?;
    Ok((owner, NO_TIMES, rest))
}

/// Reads the owner of the root, and after the third opening its letter, and its times if it has some.
fn root_owner_at(opening: Opening, bytes: &[u8]) -> Result<(Owner, Times, &[u8]), TreeError>
    ensures found { IfOk result (λ taken. Reads (IsOwnedIn (is_wide opening)) (root_owner_text opening) bytes.now
        (taken.0, taken.1) taken.2.now) }
    ensures none { IfErr result (λ _. ReadsNone (IsOwnedIn (is_wide opening)) (root_owner_text opening) bytes.now) }
    ensures number { IfErr result (IsAt 0) }
{
    match opening {
        Opening::Usual => plain_owner_at(bytes),
        Opening::Raised => plain_owner_at(bytes),
        Opening::Wide => directory_at(0, true, bytes),
    }
}

/// Reads the number of entries and what is said of the root.
fn root_at(
    opening: Opening,
    limits: TreeLimits,
    bytes: &[u8],
) -> Result<(u32, Owner, Times, &[u8]), TreeError>
    ensures found { IfOk result (λ taken. Reads (IsRoot opening limits) (root_text opening) bytes.now
        (taken.0, (taken.1, taken.2)) taken.3.now) }
    ensures none { IfErr result (λ _. ReadsNone (IsRoot opening limits) (root_text opening) bytes.now) }
    ensures number { IfErr result (IsAt 0) }
{
    let (count, rest) = count_at(limits, bytes)?;
    let (root, times, rest) = root_owner_at(opening, rest)?;
    Ok((count, root, times, rest))
}

/// Reads the head, and returns it and the bytes after it.
pub(crate) fn head_at(alloc: Global, bytes: &[u8]) -> Result<(Head, &[u8]), TreeError>
    ensures found { IfOk result (λ taken. Reads IsHead head_bytes bytes.now taken.0 taken.1.now) }
    ensures none { IfErr result (λ error. OutOfMemoryOr error (ReadsNone IsHead head_bytes bytes.now)) }
    ensures number { IfErr result (IsAt 0) }
{
    let (front, rest) = front_at(alloc, bytes)?;
    let (limits, rest) = limits_at(front.opening, rest)?;
    let (count, root, root_times, rest) = root_at(front.opening, limits, rest)?;
    let head = Head {
        opening: front.opening,
        limits,
        home: front.home,
        uid: front.uid,
        gid: front.gid,
        count,
        root,
        root_times,
    };
    Ok((head, rest))
}
