//! A call that memory ran out for, and the same call again. `rt try --test --fail-alloc N` refuses the Nth request for
//! memory.
use crate::scripts::request;
use crate::wire::attributes;
use sftp_handles::{Session, SlabTable};
use sftp_path::NoMemory;
use sftp_tree::{FileNo, Refused, Tree};
use sftp_wire::{Answer, Reply, Request};
use std::alloc::Global;
use std::test::Fail;

/// The blank tree with the empty file `/f`.
const WITH_F: &[u8] = b"SFTREE01\0\0\0\x01/\0\0\0\0\0\0\0\0\0\0\0\x01\0\0\0\0\0\0\0\0\0\0\x01\xed\
\0\0\0\x02/fF\0\0\0\0\0\0\0\0\0\0\x01\xa4\0\0\0\0";

/// OPEN of `f`, which is new, to write.
const OPEN: &[u8] = b"\x03\0\0\0\x01f\0\0\0\x0a\0\0\0\0";

/// A session on the blank tree.
pub(crate) fn session(alloc: Global) -> Result<Session<SlabTable>, NoMemory> {
    match Tree::blank(alloc) {
        Ok(tree) => Session::new(tree),
        Err(error) => Err(error),
    }
}

/// Answers a request, and once more if memory runs out.
fn answer_twice(session: &mut Session<SlabTable>, request: &Request) -> Result<Reply, NoMemory> {
    match session.answer(request) {
        Ok(reply) => Ok(reply),
        Err(_) => session.answer(request),
    }
}

/// Whether the answer is the first handle.
fn is_first(reply: &Result<Reply, NoMemory>) -> Result<bool, NoMemory> {
    match reply {
        Ok(
            Reply {
                answer: Answer::Handle(handle),
                ..
            },
        ) => Ok(handle.as_slice() == [0u8; 12].as_slice()),
        Ok(_) => Ok(false),
        Err(_) => Err(NoMemory),
    }
}

fn opens_first(alloc: Global, session: &mut Session<SlabTable>) -> Result<bool, NoMemory> {
    match request(alloc, 1, OPEN) {
        Ok(request) => {
            let reply = answer_twice(session, &request);
            drop(request);
            let is_first = is_first(&reply);
            drop(reply);
            is_first
        }
        Err(error) => Err(error),
    }
}

/// The number of the file.
fn file_number(tree: &mut Tree) -> Result<FileNo, Refused> {
    let attrs = attributes(None);
    let number = tree.open_file(b"f", 1, &attrs);
    drop(attrs);
    number
}

/// Whether a tree was written with the file alone.
fn has_file(written: &Result<Vec<u8>, NoMemory>) -> Result<bool, NoMemory> {
    match written {
        Ok(bytes) => Ok(bytes.as_slice() == WITH_F),
        Err(_) => Err(NoMemory),
    }
}

/// A request that was refused for memory has used up no serial and no number of a file.
#[test]
fn answers_again(rt: HostRuntime) -> Result<(), Fail> {
    let mut session = session(rt.alloc())?;
    let opened = opens_first(rt.alloc(), &mut session);
    let mut tree = session.into_tree();
    let number = file_number(&mut tree);
    let written = tree.write();
    drop(tree);
    let kept = has_file(&written);
    drop(written);
    let (opened, number, kept) = (opened?, number?, kept?);
    assert!(rt; opened && number == FileNo::new(0) && kept);
    Ok(())
}
