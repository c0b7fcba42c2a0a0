//! Audits of streams: what is judged however the reads are cut, and where the source fails.
use super::{BLANK, WITH_A};
use crate::streams::Input;
use crate::transcript::{SESSION, record_at};
use sftp_audit::{
    Accepted, AcceptedCut, AuditError, Refusal, TranscriptError, audit_cut_stream, audit_stream,
};
use sftp_transcript::{Reader, Tally};
use std::alloc::Global;

/// The session, and its reply once more as the fifth record.
const TWICE: &[u8] = b"SFTPTR01C\0\0\0\x05\x01\0\0\0\x03S\0\0\0\x05\x02\0\0\0\x03\
C\0\0\0\x0f\x0e\0\0\0\x01\0\0\0\x02/a\0\0\0\0S\0\0\0\x11\x65\0\0\0\x01\0\0\0\0\0\0\0\0\0\0\0\0\
S\0\0\0\x11\x65\0\0\0\x01\0\0\0\0\0\0\0\0\0\0\0\0";

fn judged(alloc: Global, tree: &[u8], transcript: Input) -> Result<Accepted, AuditError> {
    match Reader::new(alloc, Tally::new(transcript)) {
        Ok(mut records) => {
            let judged = audit_stream(alloc, tree, &mut records);
            drop(records);
            judged
        }
        Err(error) => Err(AuditError::from(error)),
    }
}

/// What an audit says, in a letter and a number: `a` that it accepts so many requests, which made `/a`; `i` that the
/// source failed in this record; `u` that this record is a reply to no request; `t` that the tree file is malformed.
fn told(judged: &Result<Accepted, AuditError>) -> (u8, u64) {
    match judged {
        Ok(accepted) if accepted.tree.as_slice() == WITH_A => (b'a', accepted.requests),
        Ok(_) => (b'?', 0),
        Err(AuditError::Transcript(TranscriptError::Io { record })) => (b'i', *record),
        Err(AuditError::Refused(Refusal::UnknownReply { record })) => (b'u', *record),
        Err(AuditError::Tree(_)) => (b't', 0),
        Err(_) => (b'?', 0),
    }
}

/// What the audit of this transcript says, which begins on the tree of this file.
fn said(alloc: Global, tree: &[u8], transcript: Input) -> (u8, u64) {
    let judged = judged(alloc, tree, transcript);
    let told = told(&judged);
    drop(judged);
    told
}

/// The source fails in the current record, also where the session so far is good.
#[test]
fn sources_fail(rt: HostRuntime) {
    for count in 0..=SESSION.len() {
        let torn = Input::torn(SESSION.get(..count).unwrap_or(SESSION));
        assert!(rt;
            said(rt.alloc(), BLANK, torn) == (b'i', record_at(count)),
            "{count}"
        );
    }
}

/// A refusal, and a fault of the tree, come before a failure of the source that comes later. Where it does not fail,
/// the session is accepted byte by byte.
#[test]
fn judges_what_was_read(rt: HostRuntime) {
    let refused = said(rt.alloc(), BLANK, Input::torn(TWICE));
    let malformed = said(rt.alloc(), b"SFTREE0", Input::torn(TWICE));
    let accepted = said(rt.alloc(), BLANK, Input::bytes(SESSION));
    assert!(rt; refused == (b'u', 5) && malformed == (b't', 0) && accepted == (b'a', 1));
}

fn judged_cut(alloc: Global, transcript: Input) -> Result<AcceptedCut, AuditError> {
    match Reader::new(alloc, Tally::new(transcript)) {
        Ok(mut records) => {
            let judged = audit_cut_stream(alloc, BLANK, &mut records);
            drop(records);
            judged
        }
        Err(error) => Err(AuditError::from(error)),
    }
}

/// How many requests a session has that is cut after so many bytes, how many are not settled, how many have no reply,
/// and whether `/a` was made; `None` if it is not accepted.
fn cut(alloc: Global, count: usize) -> Option<(u64, usize, usize, bool)> {
    let transcript = Input::bytes(SESSION.get(..count).unwrap_or(SESSION));
    match judged_cut(alloc, transcript) {
        Ok(
            AcceptedCut {
                tree,
                requests,
                unsettled,
                unanswered,
            },
        ) => Some((requests, unsettled, unanswered, tree.as_slice() == WITH_A)),
        Err(_) => None,
    }
}

/// The request is settled by its reply, which ends the session.
#[test]
fn judges_what_is_settled(rt: HostRuntime) {
    let waits = cut(rt.alloc(), 48);
    let ends = cut(rt.alloc(), SESSION.len());
    assert!(rt; waits == Some((1, 1, 1, false)) && ends == Some((1, 0, 0, true)));
}
