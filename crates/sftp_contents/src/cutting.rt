//! A content cut to a size.
ghost use Rattle.std.specs.Prelude.{◌≡◌, ◌+◌, ◌-◌, ◌<◌, ◌≤◌, ◌^◌, ℕ, [], length, take, nat_lt, if◌then◌else◌};
ghost use Rattle.sftp_contents.specs.Pieces as spec;

use crate::locating::{PAGE, locate};
use crate::store::Store;
use std::collections::BTreeMap;

/// Makes a content of one length one of another. Costs what it frees.
pub(crate) fn resize(store: &mut Store, len: u64, size: u64)
    requires size { size < 2 ^ 63 }
    requires zeros { spec.IsZeroBehind store.old len }
    ensures kept { (i : ℕ) → i < size → spec.byte_at store.new i ≡ spec.byte_at store.old i }
    ensures zeros { spec.IsZeroBehind store.new size }
{
    if size < len {
        cut(store, size);
    }
}

/// Takes away the bytes from a size on. Costs what it frees. Where a front of more than a page is cut, the pages begin
/// there from now on: no WRITE far behind is to fill it up with zeros.
fn cut(store: &mut Store, size: u64)
    requires { size < 2 ^ 63 }
    ensures { spec.IsCut size store.old store.new }
{
    let position = locate(store.room, size);
    if position.piece == 0 {
        cut_bytes(&mut store.front, position.offset);
        store.pages.clear();
        store.room = size.max(PAGE);
    } else {
        cut_pages(&mut store.pages, position.piece - 1, position.offset);
    }
}

/// Takes away the bytes behind so many.
fn cut_bytes(bytes: &mut Vec<u8>, count: usize)
    ensures { bytes.new.items ≡ take count bytes.old.items }
{
    bytes.truncate(count);
    give_back(bytes);
}

/// Gives the room behind the bytes back if it is more than what they take. Growth leaves less.
pub(crate) fn give_back(bytes: &mut Vec<u8>)
    ensures { bytes.new.items ≡ bytes.old.items }
{
    if bytes.capacity() / 2 > bytes.len() {
        bytes.shrink_to_fit();
    }
}

/// Takes away the pages behind one, and its bytes behind so many.
fn cut_pages(pages: &mut BTreeMap<u64, Vec<u8>>, last: u64, count: usize)
    ensures { spec.AreCutPages last count pages.old.entries pages.new.entries }
{
    drop_pages(pages, last);
    cut_page(pages, last, count);
}

/// Takes away the bytes of a page behind so many.
fn cut_page(pages: &mut BTreeMap<u64, Vec<u8>>, number: u64, count: usize)
    ensures { spec.IsWithPage number (take count (spec.page pages.old.entries number))
        pages.old.entries pages.new.entries }
{
    if let Some(page) = pages.get_mut(&number) {
        cut_bytes(page, count);
    }
}

/// Takes away the pages behind one.
fn drop_pages(pages: &mut BTreeMap<u64, Vec<u8>>, last: u64)
    ensures low { (n : ℕ) → n ≤ last → spec.page pages.new.entries n ≡ spec.page pages.old.entries n }
    ensures high { (n : ℕ) → last < n → spec.page pages.new.entries n ≡ [] }
{
    'dropping: while let Some((number, _)) = pages.last_key_value() {
        let number = *number;
        if number <= last {
            return;
        }
        let _page = pages.remove(&number);
    }
}
