//! The pieces of a content, one at a time.
ghost use Rattle.std.specs.Prelude.{◌≡◌, ◌+◌, ◌-◌, ◌<◌, ◌≤◌, ◌^◌, ℕ, [], length, slice_index, OnOk, OnErr, ◌++◌};
ghost use Rattle.std.specs.Prelude.{take, drop, replicate};
ghost use Rattle.sftp_contents.specs.Pieces as spec;

use crate::locating::PAGE;
use crate::store::Store;
use sftp_path::NoMemory;
use std::alloc::Global;
use std::collections::BTreeMap;

/// From this length on, bytes get room for a whole page: they are moved once.
const HALF: usize = 32768;

/// How long a page is.
const WHOLE: usize = PAGE as usize;

/// The bytes that are kept of a piece.
#[tactic(auto, unfolding(crate::specs::Pieces::piece, crate::specs::Pieces::page))]
pub(crate) fn piece(store: &Store, number: u64) -> &[u8]
    ensures { result.now ≡ spec.piece store.now number }
{
    if number == 0 {
        return store.front.as_slice();
    }
    match store.pages.get(&(number - 1)) {
        Some(page) => page.as_slice(),
        None => &[],
    }
}

/// Keeps no fewer bytes than so many: zeros are appended, where there are fewer.
///
/// # Errors
///
/// `NoMemory` if memory runs out; the bytes are unchanged.
pub(crate) fn lengthen(bytes: &mut Vec<u8>, end: usize) -> Result<(), NoMemory>
    ensures ok { OnOk result (bytes.new.items ≡ bytes.old.items ++ replicate (end - length bytes.old.items) 0) }
    ensures err { OnErr result (bytes.new.items ≡ bytes.old.items) }
{
    let len = bytes.len();
    if len < end {
        if end >= HALF && end <= WHOLE {
            bytes.reserve_exact(WHOLE - len)?;
        }
        bytes.resize(end, 0)?;
    }
    Ok(())
}

/// Keeps no fewer bytes of a page than so many.
///
/// # Errors
///
/// `NoMemory` if memory runs out; the bytes are unchanged.
fn lengthen_page(
    pages: &mut BTreeMap<u64, Vec<u8>>,
    alloc: Global,
    number: u64,
    end: usize,
) -> Result<(), NoMemory>
    ensures ok { OnOk result (spec.IsWithPage number
        (spec.page pages.old.entries number ++ replicate (end - length (spec.page pages.old.entries number)) 0)
        pages.old.entries pages.new.entries) }
    ensures err { OnErr result (spec.AreSamePages pages.old.entries pages.new.entries) }
{
    if let Some(page) = pages.get_mut(&number) {
        lengthen(page, end)?;
        return Ok(());
    }
    let mut page = Vec::new(alloc);
    lengthen(&mut page, end)?;
    pages.insert(number, page)?;
    Ok(())
}

/// Appends bytes.
///
/// # Errors
///
/// `NoMemory` if memory runs out; the bytes are unchanged.
fn extend(bytes: &mut Vec<u8>, new: &[u8]) -> Result<(), NoMemory>
    ensures ok { OnOk result (bytes.new.items ≡ bytes.old.items ++ new.now) }
    ensures err { OnErr result (bytes.new.items ≡ bytes.old.items) }
{
    let len = bytes.len();
    if len <= WHOLE && new.len() <= WHOLE {
        let end = len + new.len();
        if end >= HALF && end <= WHOLE {
            bytes.reserve_exact(WHOLE - len)?;
        }
    }
    bytes.extend_from_slice(new)?;
    Ok(())
}

/// Appends bytes to those that are kept of a page.
///
/// # Errors
///
/// `NoMemory` if memory runs out; the bytes are unchanged.
fn extend_page(
    pages: &mut BTreeMap<u64, Vec<u8>>,
    alloc: Global,
    number: u64,
    new: &[u8],
) -> Result<(), NoMemory>
    ensures ok { OnOk result (spec.IsWithPage number (spec.page pages.old.entries number ++ new.now)
        pages.old.entries pages.new.entries) }
    ensures err { OnErr result (spec.AreSamePages pages.old.entries pages.new.entries) }
{
    if let Some(page) = pages.get_mut(&number) {
        extend(page, new)?;
        return Ok(());
    }
    let mut page = Vec::new(alloc);
    extend(&mut page, new)?;
    pages.insert(number, page)?;
    Ok(())
}

/// Writes bytes over those that are kept.
fn overwrite(bytes: &mut Vec<u8>, start: usize, new: &[u8])
    requires { start + length new.now ≤ length bytes.old.items }
    ensures { bytes.new.items
        ≡ take start bytes.old.items ++ (new.now ++ drop (start + length new.now) bytes.old.items) }
{
    bytes.as_mut_slice()[start..start + new.len()].copy_from_slice(new);
}

/// Writes bytes over those that are kept of a page.
fn fill_page(pages: &mut BTreeMap<u64, Vec<u8>>, number: u64, start: usize, new: &[u8])
    requires { start + length new.now ≤ length (spec.page pages.old.entries number) }
    ensures { spec.IsWithPage number
        (take start (spec.page pages.old.entries number) ++ (new.now
        ++ drop (start + length new.now) (spec.page pages.old.entries number)))
        pages.old.entries pages.new.entries }
{
    let Some(page) = pages.get_mut(&number) else {
        return;
    };
    overwrite(page, start, new);
}

/// Keeps no fewer bytes of a piece than so many.
///
/// # Errors
///
/// `NoMemory` if memory runs out; the bytes are unchanged.
pub(crate) fn lengthen_piece(
    store: &mut Store,
    alloc: Global,
    number: u64,
    end: usize,
) -> Result<(), NoMemory>
    ensures ok { OnOk result (spec.IsWithPiece number
        (spec.piece store.old number ++ replicate (end - length (spec.piece store.old number)) 0) store.old store.new) }
    ensures err { OnErr result (spec.AreSamePieces store.old store.new) }
    ensures room { store.new.room ≡ store.old.room }
{
    if number == 0 {
        lengthen(&mut store.front, end)
    } else {
        lengthen_page(&mut store.pages, alloc, number - 1, end)
    }
}

/// Writes bytes over those that are kept of a piece.
pub(crate) fn fill_piece(store: &mut Store, number: u64, start: usize, new: &[u8])
    requires { start + length new.now ≤ length (spec.piece store.old number) }
    ensures written { spec.IsWithPiece number
        (take start (spec.piece store.old number) ++ (new.now
        ++ drop (start + length new.now) (spec.piece store.old number)))
        store.old store.new }
    ensures room { store.new.room ≡ store.old.room }
{
    if number == 0 {
        overwrite(&mut store.front, start, new);
    } else {
        fill_page(&mut store.pages, number - 1, start, new);
    }
}

/// Appends bytes to those that are kept of a piece.
///
/// # Errors
///
/// `NoMemory` if memory runs out; the bytes are unchanged.
pub(crate) fn extend_piece(
    store: &mut Store,
    alloc: Global,
    number: u64,
    new: &[u8],
) -> Result<(), NoMemory>
    ensures ok { OnOk result (spec.IsWithPiece number (spec.piece store.old number ++ new.now) store.old store.new) }
    ensures err { OnErr result (spec.AreSamePieces store.old store.new) }
    ensures room { store.new.room ≡ store.old.room }
{
    if number == 0 {
        extend(&mut store.front, new)
    } else {
        extend_page(&mut store.pages, alloc, number - 1, new)
    }
}
