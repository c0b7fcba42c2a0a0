//! Acts of a server that are done one after the other: the events that they make, and the tree in the end.
use crate::audit::BLANK;
use sftp_handles::SlabTable;
use sftp_path::NoMemory;
use sftp_server::{Act, Core, run_script};
use sftp_transcript::Event;
use sftp_tree::Tree;
use sftp_wire::{Answer, Ask, Packet, Request, Side, front};
use std::alloc::Global;

/// An act. Of a request there are its id, and the byte of its type with what follows the id.
#[derive(Clone, Copy)]
enum Step<'a> {
    Deliver(u32, &'a [u8]),
    Work(usize),
    Send(usize),
}

const MKDIR: &[u8] = b"\x0e\0\0\0\x02/a\0\0\0\0";

const RMDIR: &[u8] = b"\x0f\0\0\0\x02/a";

const PATH: &[u8] = b"/a";

/// An event: `C` a request with its id and the type of its packet, or `S` a reply with its id and the code of its
/// status.
type Shown = (u8, u32, u32);

const MADE_1: Shown = (b'C', 1, 14);

const REMOVED_1: Shown = (b'C', 1, 15);

const REMOVED_2: Shown = (b'C', 2, 15);

const DONE_1: Shown = (b'S', 1, 0);

const DONE_2: Shown = (b'S', 2, 0);

const MAKE_1: Step = Step::Deliver(1, MKDIR);

const REMOVE_1: Step = Step::Deliver(1, RMDIR);

const REMOVE_2: Step = Step::Deliver(2, RMDIR);

const WORK_0: Step = Step::Work(0);

const WORK_1: Step = Step::Work(1);

const SEND_0: Step = Step::Send(0);

const SEND_1: Step = Step::Send(1);

/// What a script shows, its acts, its events, and whether each request is answered in the end. Then the tree is blank.
const SCRIPTS: &[(&str, &[Step], &[Shown], bool)] = &[
    ("no acts", &[], &[], true),
    (
        "requests are done in the order asked, and answered in any order",
        &[MAKE_1, REMOVE_2, WORK_1, WORK_0, WORK_1, SEND_1, SEND_0],
        &[MADE_1, REMOVED_2, DONE_2, DONE_1],
        true,
    ),
    (
        "what is answered in front leaves the queue",
        &[MAKE_1, REMOVE_2, WORK_0, SEND_0, WORK_0, SEND_0],
        &[MADE_1, REMOVED_2, DONE_1, DONE_2],
        true,
    ),
    (
        "a request is answered once",
        &[
            MAKE_1, REMOVE_2, WORK_0, WORK_1, SEND_1, SEND_1, SEND_0, SEND_0,
        ],
        &[MADE_1, REMOVED_2, DONE_2, DONE_1],
        true,
    ),
    (
        "an id is in use until the reply is sent",
        &[
            MAKE_1, REMOVE_1, WORK_0, REMOVE_1, SEND_0, REMOVE_1, WORK_0, SEND_0,
        ],
        &[MADE_1, DONE_1, REMOVED_1, DONE_1],
        true,
    ),
    (
        "no reply is sent before its request is done",
        &[MAKE_1, SEND_0],
        &[MADE_1],
        false,
    ),
    (
        "behind the queue nothing is done",
        &[WORK_0, SEND_0, MAKE_1, WORK_1, SEND_1],
        &[MADE_1],
        false,
    ),
];

/// The packet of a type and of what follows its id. Where memory runs out it is cut off.
fn packet(alloc: Global, id: u32, part: &[u8]) -> Vec<u8> {
    let length = (part.len() % 65_536) as u32 + 4;
    let (kind, fields) = part.split_at_checked(1).unwrap_or((part, &[]));
    let mut packet = Vec::new(alloc);
    let _ = packet.extend_from_slice(&length.to_be_bytes()).is_ok()
        && packet.extend_from_slice(kind).is_ok()
        && packet.extend_from_slice(&id.to_be_bytes()).is_ok()
        && packet.extend_from_slice(fields).is_ok();
    packet
}

/// The request with this id, of this type and with these fields.
pub(crate) fn request(alloc: Global, id: u32, part: &[u8]) -> Result<Request, NoMemory> {
    let packet = packet(alloc, id, part);
    let front = front(alloc, packet.as_slice(), Side::Client);
    drop(packet);
    match front {
        Ok(Some((Packet::Request(request), _))) => Ok(request),
        other => {
            drop(other);
            Err(NoMemory)
        }
    }
}

fn delivery(alloc: Global, id: u32, part: &[u8]) -> Result<Act, NoMemory> {
    match request(alloc, id, part) {
        Ok(request) => Ok(Act::Deliver(request)),
        Err(error) => Err(error),
    }
}

fn act(alloc: Global, step: Step) -> Result<Act, NoMemory> {
    match step {
        Step::Deliver(id, part) => delivery(alloc, id, part),
        Step::Work(k) => Ok(Act::Work(k)),
        Step::Send(k) => Ok(Act::Send(k)),
    }
}

/// Adds an act, unless memory runs out.
fn adds(alloc: Global, acts: &mut Vec<Act>, step: Step) -> bool {
    match act(alloc, step) {
        Ok(act) => {
            let pushed = acts.push(act);
            let is_added = pushed.is_ok();
            drop(pushed);
            is_added
        }
        Err(_) => false,
    }
}

fn adds_each(alloc: Global, acts: &mut Vec<Act>, steps: &[Step]) -> bool {
    for step in steps {
        if !adds(alloc, acts, *step) {
            return false;
        }
    }
    true
}

/// What a request asks of `/a`: the type of its packet.
fn asked(ask: &Ask) -> u32 {
    match ask {
        Ask::Mkdir { path, .. } if path.as_slice() == PATH => 14,
        Ask::Rmdir { path } if path.as_slice() == PATH => 15,
        _ => 0,
    }
}

/// The code of a status.
fn code_of(answer: &Answer) -> u32 {
    match answer {
        Answer::Status { code, .. } => *code,
        _ => u32::MAX,
    }
}

fn shown(event: &Event) -> Shown {
    match event {
        Event::Asked(request) => (b'C', request.id, asked(&request.ask)),
        Event::Replied(reply) => (b'S', reply.id, code_of(&reply.answer)),
    }
}

/// Whether the events are these.
fn are_events(events: &[Event], wanted: &[Shown]) -> bool {
    for (index, event) in events.iter().enumerate() {
        if wanted.get(index).copied() != Some(shown(event)) {
            return false;
        }
    }
    events.len() == wanted.len()
}

/// Whether the tree file of a tree has these bytes.
pub(crate) fn is_tree(tree: &Tree, file: &[u8]) -> bool {
    match tree.write() {
        Ok(written) => {
            let is_tree = written.as_slice() == file;
            drop(written);
            is_tree
        }
        Err(_) => false,
    }
}

fn is_end(end: &Result<Tree, Core<SlabTable>>, ends: bool) -> bool {
    match end {
        Ok(tree) => ends && is_tree(tree, BLANK),
        Err(_) => !ends,
    }
}

/// Whether a core finishes with the blank tree, or, if it is not to end, does not.
fn ends_so(core: Core<SlabTable>, ends: bool) -> bool {
    let end = core.finish();
    let holds = is_end(&end, ends);
    drop(end);
    holds
}

/// What comes of these acts, on a blank tree.
fn ran(alloc: Global, acts: &[Act]) -> Result<(Vec<Event>, Core<SlabTable>), NoMemory> {
    match Tree::blank(alloc) {
        Ok(tree) => run_script(tree, acts),
        Err(error) => Err(error),
    }
}

fn is_run(
    ran: Result<(Vec<Event>, Core<SlabTable>), NoMemory>,
    wanted: &[Shown],
    ends: bool,
) -> bool {
    match ran {
        Ok((events, core)) => {
            let same = are_events(events.as_slice(), wanted);
            drop(events);
            let ended = ends_so(core, ends);
            same && ended
        }
        Err(_) => false,
    }
}

/// Whether these acts make these events, and lead to this end.
fn holds(alloc: Global, steps: &[Step], wanted: &[Shown], ends: bool) -> bool {
    let mut acts = Vec::new(alloc);
    let has_acts = adds_each(alloc, &mut acts, steps);
    let ran = ran(alloc, acts.as_slice());
    drop(acts);
    let is_run = is_run(ran, wanted, ends);
    has_acts && is_run
}

#[test]
fn events_of_scripts(rt: HostRuntime) {
    for (name, steps, wanted, ends) in SCRIPTS {
        assert!(rt; holds(rt.alloc(), steps, wanted, *ends), "{name}");
    }
}
