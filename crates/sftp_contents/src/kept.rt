//! How the bytes of a file are kept: in one piece, or in pages.
ghost use Rattle.std.specs.Prelude.{◌≡◌, ◌+◌, ◌<◌, ◌≤◌, ◌^◌, ℕ, ◌++◌, length, take, drop, IsTrue, OnOk, OnErr};
ghost use Rattle.sftp_contents.specs.Bytes.{resized, overwritten, written, IsWritable};
ghost use Rattle.sftp_contents.specs.Kept.{bytes_kept};
ghost use Rattle.sftp_contents.specs.Parts.{bytes_in, count_in};

use crate::cutting::give_back;
use crate::locating::PAGE;
use crate::paged::PagedBytes;
use crate::parts::Part;
use sftp_path::NoMemory;
use std::mem;

/// The bytes of a file. A small file has them in one piece, and so has one that was read from a tree file, until zeros
/// that nobody wrote are to be there, or more bytes.
#[derive(Drop)]
pub enum Kept {
    /// All bytes, in order.
    Whole(Vec<u8>),
    /// The bytes in pages.
    Paged(Box<PagedBytes>),
}

/// How many bytes there are.
pub(crate) fn count(kept: &Kept) -> u64
    ensures { result ≡ length (bytes_kept kept.now) }
{
    match kept {
        Kept::Whole(bytes) => bytes.len() as u64,
        Kept::Paged(paged) => paged.len(),
    }
}

/// Cuts the bytes to a size, or appends zeros up to it.
///
/// # Errors
///
/// `NoMemory` if memory runs out; the bytes are unchanged.
pub(crate) fn resize(kept: &mut Kept, size: u64) -> Result<(), NoMemory>
    requires { size < 2 ^ 63 }
    ensures ok { OnOk result (bytes_kept kept.new ≡ resized size (bytes_kept kept.old)) }
    ensures err { OnErr result (bytes_kept kept.new ≡ bytes_kept kept.old) }
{
    turn_to_pages(kept, size, 0)?;
    match kept {
        Kept::Whole(bytes) => resize_whole(bytes, size as usize),
        Kept::Paged(paged) => {
            paged.set_len(size);
            Ok(())
        }
    }
}

/// Writes bytes over those from the offset on; what goes past the end is appended. If the bytes end before the offset,
/// zeros fill them up to it. To write no bytes changes nothing, at any offset.
///
/// # Errors
///
/// `NoMemory` if memory runs out; the bytes are unchanged.
pub(crate) fn write_at(kept: &mut Kept, offset: u64, new: &[u8]) -> Result<(), NoMemory>
    requires { IsWritable offset new.now }
    ensures ok { OnOk result (bytes_kept kept.new ≡ written offset new.now (bytes_kept kept.old)) }
    ensures err { OnErr result (bytes_kept kept.new ≡ bytes_kept kept.old) }
{
    if new.is_empty() {
        return Ok(());
    }
    turn_to_pages(kept, offset + new.len() as u64, PAGE)?;
    match kept {
        Kept::Whole(bytes) => write_over(bytes, offset as usize, new),
        Kept::Paged(paged) => paged.write_at(offset, new),
    }
}

/// Turns bytes in one piece to pages if they are to be so many that they end past `room`, and past where they end now.
/// They are not copied.
///
/// # Errors
///
/// `NoMemory` if memory runs out.
fn turn_to_pages(kept: &mut Kept, end: u64, room: u64) -> Result<(), NoMemory>
    ensures { bytes_kept kept.new ≡ bytes_kept kept.old }
{
    if let Kept::Whole(bytes) = kept {
        if end > room.max(bytes.len() as u64) {
            let alloc = *bytes.allocator();
            let mut paged = Box::new(alloc, PagedBytes::new(alloc))?;
            *paged = PagedBytes::of_bytes(mem::replace(bytes, Vec::new(alloc)));
            *kept = Kept::Paged(paged);
        }
    }
    Ok(())
}

/// Cuts bytes in one piece to a size, or appends zeros up to it.
///
/// # Errors
///
/// `NoMemory` if memory runs out; the bytes are unchanged.
fn resize_whole(bytes: &mut Vec<u8>, size: usize) -> Result<(), NoMemory>
    ensures ok { OnOk result (bytes.new.items ≡ resized size bytes.old.items) }
    ensures err { OnErr result (bytes.new.items ≡ bytes.old.items) }
{
    bytes.resize(size, 0)?;
    give_back(bytes);
    Ok(())
}

/// Writes bytes over those from the offset on, and appends what goes past the end, after zeros up to the offset.
///
/// # Errors
///
/// `NoMemory` if memory runs out; the bytes are unchanged.
fn write_over(bytes: &mut Vec<u8>, offset: usize, new: &[u8]) -> Result<(), NoMemory>
    requires some { 0 < length new.now }
    requires end { offset + length new.now < 2 ^ 63 }
    ensures ok { OnOk result (bytes.new.items ≡ written offset new.now bytes.old.items) }
    ensures err { OnErr result (bytes.new.items ≡ bytes.old.items) }
{
    let len = bytes.len();
    if offset < len {
        let inside = new.len().min(len - offset);
        let (over, more) = new.split_at(inside);
        bytes.extend_from_slice(more)?;
        bytes.as_mut_slice()[offset..offset + inside].copy_from_slice(over);
        Ok(())
    } else {
        append_at(bytes, offset, new)
    }
}

/// Appends bytes after zeros up to the offset, where nothing is past the offset.
///
/// # Errors
///
/// `NoMemory` if memory runs out; the bytes are unchanged.
fn append_at(bytes: &mut Vec<u8>, offset: usize, new: &[u8]) -> Result<(), NoMemory>
    requires end { length bytes.old.items ≤ offset }
    requires sum { offset + length new.now < 2 ^ 63 }
    ensures ok { OnOk result (bytes.new.items ≡ overwritten offset new.now bytes.old.items) }
    ensures err { OnErr result (bytes.new.items ≡ bytes.old.items) }
{
    let missing = offset - bytes.len();
    bytes.reserve(missing + new.len())?;
    bytes.resize(offset, 0)?;
    bytes.extend_from_slice(new)?;
    Ok(())
}

/// The part of the bytes that begins at an offset, of at most so many bytes.
pub(crate) fn part_at(kept: &Kept, at: u64, most: u64) -> Part<'_>
    requires within { at < length (bytes_kept kept.now) }
    requires some { 0 < most }
    ensures bytes { bytes_in result ≡ take (count_in result) (drop at (bytes_kept kept.now)) }
    ensures some { 0 < count_in result }
    ensures few { count_in result ≤ most }
{
    match kept {
        Kept::Whole(bytes) => Part::Bytes(whole_range(bytes.as_slice(), at, most)),
        Kept::Paged(paged) => paged.part_at(at, most),
    }
}

/// Appends the bytes from an offset on to others, at most so many.
///
/// # Errors
///
/// `NoMemory` if memory runs out; some of the bytes may be appended.
pub(crate) fn append_to(
    kept: &Kept,
    offset: u64,
    most: u64,
    into: &mut Vec<u8>,
) -> Result<(), NoMemory>
    ensures { OnOk result (into.new.items ≡ into.old.items ++ take most (drop offset (bytes_kept kept.now))) }
{
    match kept {
        Kept::Whole(bytes) => {
            into.extend_from_slice(whole_range(bytes.as_slice(), offset, most))?;
            Ok(())
        }
        Kept::Paged(paged) => paged.append_to(offset, most, into),
    }
}

/// Whether these are the bytes from an offset on, at most so many.
pub(crate) fn is_at(kept: &Kept, offset: u64, most: u64, given: &[u8]) -> bool
    ensures same { IsTrue result → take most (drop offset (bytes_kept kept.now)) ≡ given.now }
    ensures apart { take most (drop offset (bytes_kept kept.now)) ≡ given.now → IsTrue result }
{
    match kept {
        Kept::Whole(bytes) => whole_range(bytes.as_slice(), offset, most) == given,
        Kept::Paged(paged) => paged.is_at(offset, most, given),
    }
}

/// The bytes from an offset on, at most so many.
fn whole_range(bytes: &[u8], offset: u64, most: u64) -> &[u8]
    ensures { result.now ≡ take most (drop offset bytes.now) }
{
    let start = offset.min(bytes.len() as u64) as usize;
    let rest = &bytes[start..];
    let count = most.min(rest.len() as u64) as usize;
    &rest[..count]
}
