//! The server and the auditor together: a session under a schedule of a test's own, and a request that one session
//! answers and another one judges.
use crate::answered::answer_and_accept;
use crate::audited::{AuditedSession, serve_and_audit};
use crate::scripts::request;
use crate::serving::VERSION;
use sftp_audit::AuditError;
use sftp_handles::{GivenTable, Session, SlabTable};
use sftp_server::{Ended, Schedule};
use sftp_transcript::{Memory, Tally};
use sftp_tree::{NoMemory, Tree};
use std::alloc::Global;
use std::test::Fail;

/// A schedule that picks these, and then the first act.
#[derive(Drop)]
struct Picks(&'static [usize]);

impl Schedule for Picks {
    fn pick(&mut self, _count: usize) -> usize {
        match self.0.split_first() {
            Some((first, rest)) => {
                self.0 = rest;
                *first
            }
            None => 0,
        }
    }
}

/// With these the acts are work 0, work 1, work 3, send 3, send 0, send 0, work 0, send 0.
const PICKS: &[usize] = &[0, 1, 3, 3, 0, 0, 0, 0];

/// The file `/f` of `abc`, and `/g` of `x`.
const FILES: &[u8] = b"SFTREE01\0\0\0\x01/\0\0\0\0\0\0\0\0\0\0\0\x02\0\0\0\0\0\0\0\0\0\0\x01\xed\
\0\0\0\x02/fF\0\0\0\0\0\0\0\0\0\0\x01\xa4\0\0\0\x03abc\0\0\0\x02/gF\0\0\0\0\0\0\0\0\0\0\x01\xa4\0\0\0\x01x";

/// INIT, OPEN of `/f` and of `/g` to read, READ of ten bytes of each.
const ASKED: &[u8] = b"\0\0\0\x05\x01\0\0\0\x03\
\0\0\0\x13\x03\0\0\0\x01\0\0\0\x02/f\0\0\0\x01\0\0\0\0\0\0\0\x13\x03\0\0\0\x02\0\0\0\x02/g\0\0\0\x01\0\0\0\0\
\0\0\0\x21\x05\0\0\0\x03\0\0\0\x0c\0\0\0\0\0\0\0\0\0\0\0\0\0\0\0\0\0\0\0\0\0\0\0\x0a\
\0\0\0\x21\x05\0\0\0\x04\0\0\0\x0c\0\0\0\0\0\0\0\x01\0\0\0\x01\0\0\0\0\0\0\0\0\0\0\0\x0a";

/// The replies after VERSION: DATA of `/g` for 4, the handles for 1 and 2, and DATA of `/f` for 3.
const REPLIED: &[u8] = b"\0\0\0\x0a\x67\0\0\0\x04\0\0\0\x01x\
\0\0\0\x15\x66\0\0\0\x01\0\0\0\x0c\0\0\0\0\0\0\0\0\0\0\0\0\
\0\0\0\x15\x66\0\0\0\x02\0\0\0\x0c\0\0\0\0\0\0\0\x01\0\0\0\x01\0\0\0\x0c\x67\0\0\0\x03\0\0\0\x03abc";

/// Whether a session finished, and the auditor accepted its four requests, with the tree of the start.
fn is_accepted(session: &Result<AuditedSession, AuditError>) -> bool {
    match session {
        Ok(
            AuditedSession {
                ended: Ended::Finished(_),
                audited: Ok(accepted),
                ..
            },
        ) => accepted.requests == 4 && accepted.tree.as_slice() == FILES,
        _ => false,
    }
}

/// Whether the session of these requests under this schedule is accepted, and gives these replies.
fn is_served(alloc: Global, picks: &'static [usize], replied: &[u8]) -> bool {
    let mut writer = Tally::new(Vec::new(alloc));
    let mut schedule = Picks(picks);
    let session = serve_and_audit(
        alloc,
        FILES,
        &mut Memory::new(ASKED),
        &mut writer,
        &mut schedule,
    );
    let accepted = is_accepted(&session);
    drop(session);
    let written = writer.into_inner();
    let (version, replies) = written
        .as_slice()
        .split_at(VERSION.len().min(written.len()));
    let gives = version == VERSION && replies == replied;
    drop(written);
    accepted && gives
}

#[test]
fn a_schedule_of_its_own(rt: HostRuntime) {
    assert!(rt; is_served(rt.alloc(), PICKS, REPLIED));
}

/// OPEN of the new file `f`, to write.
const OPEN: &[u8] = b"\x03\0\0\0\x01f\0\0\0\x0a\0\0\0\0";

/// Whether what a session on the blank tree answers is accepted by another one.
fn is_accepted_elsewhere(alloc: Global) -> Result<bool, NoMemory> {
    let mut ours = Session::<SlabTable>::new(Tree::blank(alloc)?)?;
    let mut theirs = Session::<GivenTable>::new(Tree::blank(alloc)?)?;
    let open = request(alloc, 1, OPEN)?;
    let accepted = answer_and_accept(&mut ours, &mut theirs, &open);
    drop(open);
    drop(ours);
    drop(theirs);
    accepted
}

#[test]
fn answers_are_accepted(rt: HostRuntime) -> Result<(), Fail> {
    let accepted = is_accepted_elsewhere(rt.alloc())?;
    assert!(rt; accepted);
    Ok(())
}
