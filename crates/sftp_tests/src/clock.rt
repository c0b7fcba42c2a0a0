//! Times of access and modification, by a clock that a test sets.
use crate::memory::session;
use crate::scripts::request;
use sftp_clock::{Clocked, Moments, TimeTable};
use sftp_handles::{Session, SlabTable};
use sftp_server::Answerer;
use sftp_tree::NoMemory;
use sftp_wire::{Answer, Reply};
use std::alloc::Global;
use std::test::Fail;

/// A clock that goes on by one second whenever somebody looks at it.
#[derive(Drop)]
struct Ticking(u32);

impl Moments for Ticking {
    fn now(&mut self) -> u32 {
        let now = self.0;
        self.0 = now.wrapping_add(1);
        now
    }
}

/// LSTAT of `/` and of `/d`, and MKDIR of `/d`.
const LSTAT_ROOT: &[u8] = b"\x07\0\0\0\x01/";

const LSTAT_D: &[u8] = b"\x07\0\0\0\x02/d";

const MKDIR_D: &[u8] = b"\x0e\0\0\0\x02/d\0\0\0\0";

type Times = Option<(u32, u32)>;

/// The times that a reply shows.
fn shown(reply: &Result<Reply, NoMemory>) -> Times {
    match reply {
        Ok(
            Reply {
                answer: Answer::Attrs(attrs),
                ..
            },
        ) => attrs.times,
        _ => None,
    }
}

/// The times that the reply to a request of this type and with these fields shows.
fn ask(
    alloc: Global,
    clocked: &mut Clocked<Ticking>,
    session: &mut Session<SlabTable>,
    part: &[u8],
) -> Times {
    match request(alloc, 1, part) {
        Ok(request) => {
            let reply = clocked.answer(session, &request);
            drop(request);
            let times = shown(&reply);
            drop(reply);
            times
        }
        Err(_) => None,
    }
}

/// What the root and `/d` show before and after `/d` was made.
fn around_mkdir(
    alloc: Global,
    clocked: &mut Clocked<Ticking>,
    session: &mut Session<SlabTable>,
) -> [Times; 5] {
    let root = ask(alloc, clocked, session, LSTAT_ROOT);
    let absent = ask(alloc, clocked, session, LSTAT_D);
    let done = ask(alloc, clocked, session, MKDIR_D);
    let modified = ask(alloc, clocked, session, LSTAT_ROOT);
    let made = ask(alloc, clocked, session, LSTAT_D);
    [root, absent, done, modified, made]
}

/// At the start all have the time of then. What is made has the time of when it was made, and the directory above it is
/// modified then.
#[test]
fn times_by_the_clock(rt: HostRuntime) -> Result<(), Fail> {
    let mut session = session(rt.alloc())?;
    let mut clocked = Clocked::new(rt.alloc(), Ticking(10), TimeTable::new(rt.alloc()));
    let shown = around_mkdir(rt.alloc(), &mut clocked, &mut session);
    drop(clocked);
    drop(session);
    assert!(rt; shown == [Some((10, 10)), None, None, Some((10, 11)), Some((11, 11))]);
    Ok(())
}
