//! Ranges of a content, read part by part.
ghost use Rattle.std.specs.Prelude.{◌≡◌, ◌+◌, ◌-◌, ◌<◌, ◌≤◌, ◌^◌, ℕ, [], length, OnOk, OnErr};
ghost use Rattle.std.specs.Prelude.{◌++◌, take, drop, IsTrue, replicate};
ghost use Rattle.sftp_contents.specs.Bytes.{tabulate};
ghost use Rattle.sftp_contents.specs.Pieces as spec;
ghost use Rattle.sftp_contents.specs.Parts.{bytes_in, count_in};

use crate::locating::locate;
use crate::parts::Part;
use crate::pieces::piece;
use crate::store::Store;
use sftp_path::NoMemory;

/// The part of the bytes that begins at an offset, of at most so many bytes.
pub(crate) fn part_at(store: &Store, at: u64, most: u64) -> Part<'_>
    requires within { at < 2 ^ 63 }
    requires some { 0 < most }
    ensures bytes { bytes_in result ≡ tabulate (spec.byte_at store.now) at (count_in result) }
    ensures some { 0 < count_in result }
    ensures few { count_in result ≤ most }
{
    let position = locate(store.room, at);
    let kept = piece(store, position.piece);
    let here = position.left.min(most);
    if position.offset < kept.len() {
        let count = here.min((kept.len() - position.offset) as u64) as usize;
        Part::Bytes(&kept[position.offset..position.offset + count])
    } else {
        Part::Zeros(here)
    }
}

/// How many bytes a part has.
pub(crate) fn count_of(part: &Part<'_>) -> u64
    ensures { result ≡ count_in part.now }
{
    match part {
        Part::Bytes(bytes) => bytes.len() as u64,
        Part::Zeros(count) => *count,
    }
}

/// Appends a part to others.
///
/// # Errors
///
/// `NoMemory` if memory runs out.
fn put_part(into: &mut Vec<u8>, part: &Part<'_>) -> Result<(), NoMemory>
    requires { count_in part.now < 2 ^ 63 }
    ensures { OnOk result (into.new.items ≡ into.old.items ++ bytes_in part.now) }
{
    match part {
        Part::Bytes(bytes) => {
            into.extend_from_slice(bytes)?;
            Ok(())
        }
        Part::Zeros(count) => {
            let len = into.len();
            into.resize(len + *count as usize, 0)?;
            Ok(())
        }
    }
}

/// Appends the bytes of a range.
///
/// # Errors
///
/// `NoMemory` if memory runs out; some of the bytes are appended.
pub(crate) fn read(
    store: &Store,
    offset: u64,
    count: u64,
    into: &mut Vec<u8>,
) -> Result<(), NoMemory>
    requires { offset + count < 2 ^ 63 }
    ensures { OnOk result (into.new.items ≡ into.old.items ++ tabulate (spec.byte_at store.now) offset count) }
{
    let mut done: u64 = 0;
    'reading: while done < count {
        let part = part_at(store, offset + done, count - done);
        put_part(into, &part)?;
        done += count_of(&part);
    }
    Ok(())
}

/// Whether these are the bytes of a range, which has as many.
pub(crate) fn is_same(store: &Store, offset: u64, given: &[u8]) -> bool
    requires { offset + length given.now < 2 ^ 63 }
    ensures same { IsTrue result → tabulate (spec.byte_at store.now) offset (length given.now) ≡ given.now }
    ensures apart { tabulate (spec.byte_at store.now) offset (length given.now) ≡ given.now → IsTrue result }
{
    let count = given.len();
    let mut done: usize = 0;
    'comparing: while done < count {
        let part = part_at(store, offset + done as u64, (count - done) as u64);
        let here = count_of(&part) as usize;
        if !is_part(&part, &given[done..done + here]) {
            return false;
        }
        done += here;
    }
    true
}

/// Whether a part has these bytes, which are as many.
fn is_part(part: &Part<'_>, given: &[u8]) -> bool
    requires { count_in part.now ≡ length given.now }
    ensures same { IsTrue result → bytes_in part.now ≡ given.now }
    ensures apart { bytes_in part.now ≡ given.now → IsTrue result }
{
    match part {
        Part::Bytes(bytes) => *bytes == given,
        Part::Zeros(_) => are_zeros(given),
    }
}

/// Whether the bytes are zeros. Looks at all of them, so that LLVM can look at many at once.
fn are_zeros(given: &[u8]) -> bool
    ensures same { IsTrue result → replicate (length given.now) 0 ≡ given.now }
    ensures apart { replicate (length given.now) 0 ≡ given.now → IsTrue result }
{
    let mut zeros = true;
    for byte in given {
        if *byte != 0 {
            zeros = false;
        }
    }
    zeros
}
