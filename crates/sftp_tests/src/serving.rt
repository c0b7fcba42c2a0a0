//! Sessions of the server over streams of bytes. The bytes are worked out by hand.
use crate::audit::{BLANK, WITH_A};
use crate::from_memory::{Session, serve_bytes};
use sftp_audit::audit;
use sftp_server::Ended;
use sftp_tree::Tree;
use std::alloc::Global;
use std::test::Fail;

mod failing;

const INIT: &[u8] = b"\0\0\0\x05\x01\0\0\0\x03";

/// MKDIR of `/a` with the id 1.
const MKDIR: &[u8] = b"\0\0\0\x0f\x0e\0\0\0\x01\0\0\0\x02/a\0\0\0\0";

/// INIT and MKDIR: 28 bytes.
const INPUT: &[u8] = b"\0\0\0\x05\x01\0\0\0\x03\0\0\0\x0f\x0e\0\0\0\x01\0\0\0\x02/a\0\0\0\0";

/// The server's VERSION.
pub(crate) const VERSION: &[u8] = b"\0\0\0\x78\x02\0\0\0\x03\
\0\0\0\x18posix-rename@openssh.com\0\0\0\x011\
\0\0\0\x14hardlink@openssh.com\0\0\0\x011\
\0\0\0\x11fsync@openssh.com\0\0\0\x011\
\0\0\0\x12limits@sftpv3.test\0\0\0\x011";

/// STATUS 0 for the id 1.
const DONE: &[u8] = b"\0\0\0\x11\x65\0\0\0\x01\0\0\0\0\0\0\0\0\0\0\0\0";

/// How many requests the record of a session has, if it is accepted with these tree files of its start and of its end.
fn accepted_requests(alloc: Global, start: &[u8], record: &[u8], end: &[u8]) -> Option<u64> {
    match audit(alloc, start, record) {
        Ok(accepted) if accepted.tree.as_slice() == end => Some(accepted.requests),
        Ok(_) => None,
        Err(_) => None,
    }
}

/// Whether these are the replies to INIT and MKDIR.
fn are_replies(replies: &[u8]) -> bool {
    let (version, done) = replies.split_at(VERSION.len().min(replies.len()));
    version == VERSION && done == DONE
}

/// Whether a session finished, with the replies to INIT and MKDIR, and a record of one request that is accepted.
fn is_served(alloc: Global, session: &Session) -> bool {
    let accepted = accepted_requests(alloc, BLANK, session.record.as_slice(), WITH_A);
    matches!(&session.ended, Ended::Finished(_))
        && accepted == Some(1)
        && are_replies(session.replies.as_slice())
}

#[test]
fn serves_memory(rt: HostRuntime) -> Result<(), Fail> {
    let served = serve_bytes(rt.alloc(), Tree::blank(rt.alloc())?, INPUT)?;
    let is_served = is_served(rt.alloc(), &served);
    drop(served);
    assert!(rt; is_served);
    Ok(())
}
