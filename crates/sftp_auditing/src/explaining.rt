//! `audit --explain`: why a session is refused, as lines of text.
mod auditing;
mod departures;
mod records;
mod replies;
mod sought;
mod unexplained;

use crate::explaining::sought::Sought;
use crate::explaining::unexplained::Unexplained;
use sftp_audit::Refusal;
use sftp_commands::LeftOut;
use sftp_files::write_flushed;
use sftp_profile::Profile;
use sftp_show::{Record, put_record};
use sftp_verdicts::{AuditOptions, record_of};
use sftp_wire::Side;
use std::fs::Files;
use std::io;
use std::io::Write;

/// Writes why the session of these files is refused where this is left out of it. The transcript is read again from its
/// start, more than once. Where that fails, the last line says so.
pub(crate) fn explain<'s, 'a, R: Files + AllocGlobal, E: Write>(
    rt: &'s R,
    files: &'s AuditOptions<'a>,
    tree: &'s str,
    left_out: &mut LeftOut,
    refusal: Refusal,
    errors: &mut E,
) {
    let refused = Refused {
        rt,
        files,
        tree,
        refusal,
    };
    let mut explanation = Explanation {
        refused: &refused,
        left_out,
        errors,
        stopped_by: None,
    };
    explanation.put();
    explanation.finish();
    drop(explanation);
    drop(refused);
}

/// A session that is refused.
#[derive(Drop)]
struct Refused<'s, 'a, R> {
    rt: &'s R,
    files: &'s AuditOptions<'a>,
    /// The path of the tree that the session starts from.
    tree: &'s str,
    refusal: Refusal,
}

/// The explanation of a refusal. A step that returns false stops it, and the reason is noted.
#[derive(Drop)]
struct Explanation<'e, 's, 'a, R, E> {
    refused: &'e Refused<'s, 'a, R>,
    /// What the session goes on without.
    left_out: &'e mut LeftOut,
    /// Where the lines go.
    errors: &'e mut E,
    stopped_by: Option<Unexplained>,
}

impl<R: Files + AllocGlobal, E: Write> Explanation<'_, '_, '_, R, E> {
    /// Notes why the explanation stops, unless it has stopped before. Returns false.
    fn stop(&mut self, reason: Unexplained) -> bool {
        if self.stopped_by.is_none() {
            self.stopped_by = Some(reason);
        }
        false
    }

    /// Flushes the lines, or writes a last one that says what stopped the explanation.
    fn finish(&mut self) {
        let _ = match self.stopped_by {
            None => self.errors.flush(),
            Some(reason) => write_flushed(self.errors, reason.line()),
        };
    }

    /// Writes the lines of the refusal.
    fn put(&mut self) -> bool {
        let found = self.found(record_of(self.refused.refusal));
        let put = self.put_refusal(&found);
        drop(found);
        put
    }

    /// Writes the lines of the refusal, if the record that it names was found.
    fn put_refusal(&mut self, found: &Option<Record>) -> bool {
        match found {
            Some(found) => self.put_reason(found),
            None => false,
        }
    }

    /// Writes the lines of the refusal, which names this record.
    fn put_reason(&mut self, found: &Record) -> bool {
        match self.refused.refusal {
            Refusal::UnknownReply { .. } => self.put_unknown_reply(found),
            Refusal::IdInUse { .. } => self.put_used_id(found),
            Refusal::Window { .. } => self.put_late_request(found),
            Refusal::NotAllowed { .. } => self.put_unallowed(found),
            Refusal::Unanswered { .. } => self.put_unanswered(found),
            Refusal::NoMemory => self.put_line("request", found),
        }
    }

    /// Writes the line of a record.
    fn put_line(&mut self, label: &str, record: &Record) -> bool {
        match put_record(label, record, self.errors) {
            Ok(()) => true,
            Err(error) => self.stop(Unexplained::from(error)),
        }
    }

    /// Writes a line of text.
    fn put_text(&mut self, label: &str, text: &str) -> bool {
        let written = writeln!(self.errors, "{label}: {text}");
        self.is_written(written)
    }

    /// Whether a line was written. If not, the explanation stops.
    fn is_written(&mut self, written: io::Result<()>) -> bool {
        match written {
            Ok(()) => true,
            Err(_) => self.stop(Unexplained::Output),
        }
    }

    /// `UnknownReply`: the reply, the last request of its id, and the reply to that.
    fn put_unknown_reply(&mut self, reply: &Record) -> bool {
        if !self.put_line("reply", reply) {
            return false;
        }
        match self.earlier(Side::Client, reply) {
            Some(request) => self.put_answered(request, reply),
            None => self.put_unasked(),
        }
    }

    /// The request whose id the reply has, and the reply that it got before.
    fn put_answered(&mut self, request: u64, reply: &Record) -> bool {
        self.put_numbered("request", request) && self.put_earlier("answered", Side::Server, reply)
    }

    /// That no request has the id of the reply, unless the search for it was stopped.
    fn put_unasked(&mut self) -> bool {
        self.stopped_by.is_none() && self.put_text("request", "none has this id")
    }

    /// `IdInUse`: the request, and the unanswered one of the same id.
    fn put_used_id(&mut self, request: &Record) -> bool {
        self.put_line("request", request) && self.put_earlier("unanswered", Side::Client, request)
    }

    /// `Window`: the request, and the oldest unanswered one, which is the 1,024th before it.
    fn put_late_request(&mut self, request: &Record) -> bool {
        if !self.put_line("request", request) {
            return false;
        }
        match self.oldest(request) {
            Some(number) => self.put_numbered("unanswered", number),
            None => self.stop(Unexplained::OtherTranscript),
        }
    }

    /// `Unanswered`: the request, and how many requests before it are accepted: it is the oldest unanswered one.
    fn put_unanswered(&mut self, request: &Record) -> bool {
        if !self.put_line("request", request) {
            return false;
        }
        match self.number_of(Sought::Before(request.number)) {
            Some(requests) => self.put_accepted(requests),
            None => false,
        }
    }

    fn put_accepted(&mut self, requests: u64) -> bool {
        let written = writeln!(self.errors, "accepted before it: {requests} requests");
        self.is_written(written)
    }

    /// `NotAllowed`: why a reply is not allowed, and which departures would allow it.
    fn put_unallowed(&mut self, reply: &Record) -> bool {
        self.put_wrong_reply(reply) && self.put_departures()
    }

    /// The profile by which the session was judged. Where that was done strictly, the strict one permits the same.
    fn profile(&self) -> Profile {
        self.refused.files.profile.unwrap_or(Profile::strict())
    }
}
