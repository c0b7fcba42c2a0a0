//! Bytes that are written over a range of a content, which may be in several pieces.
ghost use Rattle.std.specs.Prelude.{◌≡◌, ◌+◌, ◌-◌, ◌<◌, ◌≤◌, ◌^◌, ℕ, [], length, slice_index, OnOk, OnErr};
ghost use Rattle.std.specs.Prelude.{◌++◌, take, drop};
ghost use Rattle.sftp_contents.specs.Bytes.{patched};
ghost use Rattle.sftp_contents.specs.Pieces as spec;

use crate::locating::locate;
use crate::pieces::{extend_piece, fill_piece, lengthen_piece, piece};
use crate::store::Store;
use sftp_path::NoMemory;
use std::alloc::Global;

/// Writes bytes over those of a range.
///
/// # Errors
///
/// `NoMemory` if memory runs out; the bytes are unchanged.
pub(crate) fn put(store: &mut Store, alloc: Global, offset: u64, new: &[u8]) -> Result<(), NoMemory>
    requires { offset + length new.now < 2 ^ 63 }
    ensures ok { OnOk result ((i : ℕ) → spec.byte_at store.new i ≡ patched (spec.byte_at store.old) offset new.now i) }
    ensures err { OnErr result ((i : ℕ) → spec.byte_at store.new i ≡ spec.byte_at store.old i) }
{
    let position = locate(store.room, offset);
    let kept = piece(store, position.piece).len();
    if new.len() as u64 <= position.left && kept == position.offset {
        extend_piece(store, alloc, position.piece, new)?;
        return Ok(());
    }
    keep(store, alloc, offset, new.len() as u64)?;
    fill(store, offset, new);
    Ok(())
}

/// Keeps the bytes of a range, also those that are zeros.
///
/// # Errors
///
/// `NoMemory` if memory runs out; the bytes are unchanged.
fn keep(store: &mut Store, alloc: Global, offset: u64, count: u64) -> Result<(), NoMemory>
    requires { offset + count < 2 ^ 63 }
    ensures bytes { (i : ℕ) → spec.byte_at store.new i ≡ spec.byte_at store.old i }
    ensures ok { OnOk result (spec.AreKept store.new offset count) }
{
    let room = store.room;
    let mut done: u64 = 0;
    'keeping: while done < count {
        let position = locate(room, offset + done);
        let here = position.left.min(count - done);
        lengthen_piece(
            store,
            alloc,
            position.piece,
            position.offset + here as usize,
        )?;
        done += here;
    }
    Ok(())
}

/// Writes bytes over those of a range that is kept.
fn fill(store: &mut Store, offset: u64, new: &[u8])
    requires room { offset + length new.now < 2 ^ 63 }
    requires kept { spec.AreKept store.old offset (length new.now) }
    ensures { (i : ℕ) → spec.byte_at store.new i ≡ patched (spec.byte_at store.old) offset new.now i }
{
    let room = store.room;
    let count = new.len();
    let mut done: usize = 0;
    'filling: while done < count {
        let position = locate(room, offset + done as u64);
        let here = position.left.min((count - done) as u64) as usize;
        fill_piece(
            store,
            position.piece,
            position.offset,
            &new[done..done + here],
        );
        done += here;
    }
}
