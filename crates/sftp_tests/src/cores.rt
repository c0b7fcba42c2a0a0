//! What the core of a server takes and does.
use crate::scripts::request;
use sftp_handles::SlabTable;
use sftp_path::NoMemory;
use sftp_server::{Core, Did, Refuse};
use sftp_tree::Tree;
use sftp_wire::Request;
use std::alloc::Global;
use std::test::Fail;

/// A call, and what it gives: why a STAT with this id is not taken, that this request is taken, whether the request at
/// this position is ready, what comes of work on it, and the id of the reply that is sent for it. Or that STATs with so
/// many ids are taken, or that all handles are opened.
#[derive(Clone, Copy)]
enum Call {
    Fill(u32),
    Open,
    Deliver(u32, Option<Refuse>),
    Take(u32, &'static [u8]),
    Ready(usize, bool),
    Work(usize, Did),
    Send(usize, Option<u32>),
}

/// STAT of `/`.
const STAT: &[u8] = b"\x11\0\0\0\x01/";

/// With 1,024 requests in the queue there is room again once the first is answered, and not when a later one is. A full
/// queue is the first cause of a refusal.
const WINDOW: &[Call] = &[
    Call::Fill(1_024),
    Call::Deliver(7, Some(Refuse::Full)),
    Call::Work(0, Did::Done),
    Call::Work(1, Did::Done),
    Call::Send(1, Some(1)),
    Call::Deliver(1, Some(Refuse::Full)),
    Call::Send(0, Some(0)),
    Call::Deliver(7, Some(Refuse::IdInUse)),
    Call::Deliver(1, None),
    Call::Deliver(0, None),
    Call::Deliver(1_024, Some(Refuse::Full)),
];

/// Of requests that touch everything, the first pending one is ready. What is done is done once, and answered once.
const ORDER: &[Call] = &[
    Call::Work(0, Did::NoSuch),
    Call::Deliver(0, None),
    Call::Deliver(1, None),
    Call::Ready(1, false),
    Call::Work(1, Did::NotReady),
    Call::Ready(0, true),
    Call::Send(0, None),
    Call::Work(0, Did::Done),
    Call::Ready(0, false),
    Call::Work(0, Did::NoSuch),
    Call::Ready(1, true),
    Call::Work(1, Did::Done),
    Call::Work(2, Did::NoSuch),
    Call::Send(1, Some(1)),
    Call::Send(1, None),
    Call::Work(1, Did::NoSuch),
    Call::Send(0, Some(0)),
    Call::Send(0, None),
];

/// Opens `/f` as handle 0, names it `/g` too, opens that to read as handle 1, `/` as the handles 2 and 3, `/f` to
/// append as handle 4, and `/h` as handle 5, and to append as handle 6.
const OPENS: &[&[u8]] = &[
    b"\x03\0\0\0\x02/f\0\0\0\x0b\0\0\0\0",
    b"\xc8\0\0\0\x14hardlink@openssh.com\0\0\0\x02/f\0\0\0\x02/g",
    b"\x03\0\0\0\x02/g\0\0\0\x01\0\0\0\0",
    b"\x0b\0\0\0\x01/",
    b"\x0b\0\0\0\x01/",
    b"\x03\0\0\0\x02/f\0\0\0\x06\0\0\0\0",
    b"\x03\0\0\0\x02/h\0\0\0\x0b\0\0\0\0",
    b"\x03\0\0\0\x02/h\0\0\0\x06\0\0\0\0",
];

/// READ of one byte at 0 of handle 0, and of handle 1, and READDIR of handle 2.
const READ: &[u8] = b"\x05\0\0\0\x0c\0\0\0\0\0\0\0\0\0\0\0\0\0\0\0\0\0\0\0\0\0\0\0\x01";

const READ_OTHER: &[u8] = b"\x05\0\0\0\x0c\0\0\0\0\0\0\0\x01\0\0\0\x01\0\0\0\0\0\0\0\0\0\0\0\x01";

const LIST: &[u8] = b"\x0c\0\0\0\x0c\0\0\0\0\0\0\0\x02\0\0\0\x02";

/// A READ waits for a WRITE through another name of its file; READ and FSTAT of one file do not wait for each other;
/// READDIRs wait for those of their own listing alone; CLOSE waits, and is waited for. The requests are WRITE and READ
/// through both handles; FSTAT, READ; READDIRs of the handles 2, 2, 3; READ, CLOSE, READ.
const CLASHES: &[Call] = &[
    Call::Open,
    Call::Take(
        1,
        b"\x06\0\0\0\x0c\0\0\0\0\0\0\0\0\0\0\0\0\0\0\0\0\0\0\0\0\0\0\0\x01x",
    ),
    Call::Take(2, READ_OTHER),
    Call::Ready(1, false),
    Call::Work(1, Did::NotReady),
    Call::Work(0, Did::Done),
    Call::Work(1, Did::Done),
    Call::Send(1, Some(2)),
    Call::Send(0, Some(1)),
    Call::Take(3, b"\x08\0\0\0\x0c\0\0\0\0\0\0\0\0\0\0\0\0"),
    Call::Take(4, READ_OTHER),
    Call::Ready(0, true),
    Call::Ready(1, true),
    Call::Take(5, LIST),
    Call::Take(6, LIST),
    Call::Take(7, b"\x0c\0\0\0\x0c\0\0\0\0\0\0\0\x03\0\0\0\x03"),
    Call::Ready(2, true),
    Call::Ready(3, false),
    Call::Ready(4, true),
    Call::Take(8, READ),
    Call::Take(9, b"\x04\0\0\0\x0c\0\0\0\0\0\0\0\0\0\0\0\0"),
    Call::Take(10, READ),
    Call::Ready(5, true),
    Call::Ready(6, false),
    Call::Ready(7, false),
    Call::Work(7, Did::NotReady),
    Call::Work(2, Did::Done),
    Call::Ready(3, true),
];

const ASK: Call = Call::Deliver(0, None);

const WORK: Call = Call::Work(0, Did::Done);

const SEND: Call = Call::Send(0, Some(0));

/// Calls after which a core finishes, or does not.
const QUEUES: &[(&str, &[Call], bool)] = &[
    ("full window", WINDOW, false),
    ("order", ORDER, true),
    ("clashes", CLASHES, false),
    ("nothing asked", &[], true),
    ("a request is pending", &[ASK], false),
    ("a reply is not sent", &[ASK, WORK], false),
    ("each request is answered", &[ASK, WORK, SEND], true),
];

/// Whether a request with this id is not taken for this reason, or is taken.
fn is_delivered(
    alloc: Global,
    core: &mut Core<SlabTable>,
    id: u32,
    part: &[u8],
    refuse: Option<Refuse>,
) -> bool {
    match request(alloc, id, part) {
        Ok(request) => {
            let delivered = core.deliver(request);
            let refusal = refusal_of(&delivered);
            drop(delivered);
            refusal == refuse
        }
        Err(_) => false,
    }
}

fn refusal_of(delivered: &Result<(), (Request, Refuse)>) -> Option<Refuse> {
    match delivered {
        Ok(()) => None,
        Err((_, refuse)) => Some(*refuse),
    }
}

/// Whether this comes of work on the request at this position.
fn works(core: &mut Core<SlabTable>, k: usize, did: Did) -> bool {
    match core.work(k) {
        Ok(done) => done == did,
        Err(_) => false,
    }
}

/// The id of the reply that is sent for the request at this position.
fn sent(core: &mut Core<SlabTable>, k: usize) -> Option<u32> {
    let reply = core.send(k)?;
    let id = reply.id;
    drop(reply);
    Some(id)
}

fn gives(alloc: Global, core: &mut Core<SlabTable>, call: Call) -> bool {
    match call {
        Call::Fill(count) => takes(alloc, core, count),
        Call::Open => opens(alloc, core),
        Call::Deliver(id, refuse) => is_delivered(alloc, core, id, STAT, refuse),
        Call::Take(id, part) => is_delivered(alloc, core, id, part, None),
        Call::Ready(k, ready) => core.ready(k) == ready,
        Call::Work(k, did) => works(core, k, did),
        Call::Send(k, id) => sent(core, k) == id,
    }
}

/// The number of the first call, from 0, that does not give what it has to.
fn first_wrong(alloc: Global, core: &mut Core<SlabTable>, calls: &[Call]) -> Option<usize> {
    for (number, call) in calls.iter().enumerate() {
        if !gives(alloc, core, *call) {
            return Some(number);
        }
    }
    None
}

/// Whether so many requests are taken, with the ids from 0 on.
fn takes(alloc: Global, core: &mut Core<SlabTable>, count: u32) -> bool {
    for id in 0..count {
        if !is_delivered(alloc, core, id, STAT, None) {
            return false;
        }
    }
    true
}

/// Whether each request is taken, done and answered before the next one.
fn opens(alloc: Global, core: &mut Core<SlabTable>) -> bool {
    for part in OPENS {
        if !is_delivered(alloc, core, 0, part, None)
            || !works(core, 0, Did::Done)
            || sent(core, 0) != Some(0)
        {
            return false;
        }
    }
    true
}

/// The first wrong call on a core with the blank tree, and whether the core finishes then.
fn run(alloc: Global, calls: &[Call]) -> Result<(Option<usize>, bool), NoMemory> {
    let mut core = Core::<SlabTable>::new(Tree::blank(alloc)?, 1_024)?;
    let wrong = first_wrong(alloc, &mut core, calls);
    let end = core.finish();
    let finished = end.is_ok();
    drop(end);
    Ok((wrong, finished))
}

#[test]
fn calls_of_cores(rt: HostRuntime) -> Result<(), Fail> {
    for (name, calls, ends) in QUEUES {
        let (wrong, finished) = run(rt.alloc(), calls)?;
        assert!(rt; wrong.is_none() && finished == *ends, "{name}: {wrong:?}");
    }
    Ok(())
}
