//! An auditor that is fed events: how many requests it keeps, and the tree in the end.
use super::BLANK;
use crate::client::reply_of;
use crate::scripts::{is_tree, request};
use sftp_audit::{Auditor, Event, Refusal};
use sftp_path::NoMemory;
use sftp_tree::Tree;
use sftp_wire::Reply;
use std::alloc::Global;
use std::test::Fail;

/// STAT of `/`, and the reply with the root's attributes.
const STAT: &[u8] = b"\x11\0\0\0\x01/";

const SHOWN: &[u8] =
    b"\0\0\0\x1d\x69\0\0\0\x07\0\0\0\x07\0\0\0\0\0\0\0\0\0\0\0\0\0\0\0\0\0\0\x41\xed";

/// What an auditor says of a STAT of `/` with this id.
fn asked(alloc: Global, auditor: &mut Auditor, id: u32) -> Result<(), Refusal> {
    match request(alloc, id, STAT) {
        Ok(request) => auditor.feed(Event::Asked(request)),
        Err(_) => Err(Refusal::NoMemory),
    }
}

/// What it says of the reply to it.
fn replied(alloc: Global, auditor: &mut Auditor, id: u32) -> Result<(), Refusal> {
    match reply_of(alloc, SHOWN) {
        Some(Reply { answer, .. }) => auditor.feed(Event::Replied(Reply { id, answer })),
        None => Err(Refusal::NoMemory),
    }
}

/// Whether nothing is kept after each of 10,000 replies.
fn keeps_none(alloc: Global, auditor: &mut Auditor) -> bool {
    for _ in 0..10_000 {
        let is_fed = asked(alloc, auditor, 7).is_ok()
            && auditor.kept() == 1
            && replied(alloc, auditor, 7).is_ok();
        if !is_fed || auditor.kept() != 0 {
            return false;
        }
    }
    true
}

/// Whether the ids from 0 on are taken, and so many requests are kept.
fn keeps_all(alloc: Global, auditor: &mut Auditor, count: u32) -> bool {
    for id in 0..count {
        if asked(alloc, auditor, id).is_err() {
            return false;
        }
    }
    auditor.kept() == count as usize
}

/// Whether 1,024 requests are kept, also once the second is answered, the next one is refused at this record, and then
/// none is kept.
fn is_full(alloc: Global, auditor: &mut Auditor, record: u64) -> bool {
    keeps_all(alloc, auditor, 1_024)
        && replied(alloc, auditor, 1).is_ok()
        && auditor.kept() == 1_024
        && asked(alloc, auditor, 1_024) == Err(Refusal::Window { record })
        && auditor.kept() == 0
}

/// Whether an auditor gives the blank tree in the end.
fn gives_blank(auditor: Auditor) -> bool {
    match auditor.finish() {
        Ok(tree) => {
            let is_blank = is_tree(&tree, BLANK);
            drop(tree);
            is_blank
        }
        Err(_) => false,
    }
}

fn auditor(alloc: Global) -> Result<Auditor, NoMemory> {
    match Tree::blank(alloc) {
        Ok(tree) => Auditor::new(tree),
        Err(error) => Err(error),
    }
}

/// After INIT and VERSION come 1,024 requests and a reply, so the request that is refused is record 1,028.
#[test]
fn keeps_what_waits(rt: HostRuntime) -> Result<(), Fail> {
    let mut quick = auditor(rt.alloc())?;
    let kept_none = keeps_none(rt.alloc(), &mut quick);
    let is_blank = gives_blank(quick);
    let mut slow = auditor(rt.alloc())?;
    let is_full = is_full(rt.alloc(), &mut slow, 1_028);
    drop(slow);
    assert!(rt; kept_none && is_blank && is_full);
    Ok(())
}
