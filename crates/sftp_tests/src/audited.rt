//! What the server logs, the auditor accepts, with the tree that the server reports.
ghost use Rattle.std.specs.Prelude.{◌≡◌, ◌≢◌, ◌⊎◌, ℕ, List, [], Some, IfOk, IfErr};
ghost use Rattle.sftp_tree.specs.Tree as values;
ghost use Rattle.sftp_tree.specs.Picture.{IsStart};
ghost use Rattle.sftp_packets.specs.Packets.{HasSpelling};
ghost use Rattle.sftp_transcript.specs.Transcript.{IsVersion};
ghost use Rattle.sftp_transcript.specs.declared.events.Event.{Event};
ghost use Rattle.sftp_server.specs.declared.ends.Ended.TheVariants.{Finished, Fault};
ghost use Rattle.sftp_server.specs.declared.ends.SessionFault.{SessionFault};
ghost use Rattle.sftp_server.specs.declared.ends.Stream.TheVariants as streams;
ghost use Rattle.sftp_server.specs.Served.{Setup, StreamBytes, stream_bytes, Serves, ServesFrom, CountsEnd};
ghost use Rattle.sftp_audit.specs.declared.errors.AuditError.TheVariants.{NoMemory};
ghost use Rattle.sftp_audit.specs.Audit.{Accounts};
ghost use Rattle.sftp_tests.specs.Audited.{IsLogged, Agrees};

use sftp_audit::{Accepted, AuditError, audit};
use sftp_server::{Ended, Schedule, serve};
use sftp_transcript::{Sink, Source, Tally, Writer};
use sftp_tree::Tree;
use std::alloc::Global;

/// A session that was served, with its log, and the audit of that log.
#[derive(Drop)]
pub struct AuditedSession {
    /// How the session ended, with the tree that the server reports.
    pub ended: Ended,
    /// What the server logged.
    pub log: Vec<u8>,
    /// What the auditor says of the log and the tree file with which the session began.
    pub audited: Result<Accepted, AuditError>,
}

/// Serves a session on the tree of a tree file, and audits what it logged: the auditor accepts the log, with the
/// picture of the tree that the server reports, for every input, in whatever pieces it is read, and under every
/// schedule. It does so unless one of the two ran out of memory, a stream failed, or no session was opened, so that
/// nothing was logged and the tree is as it came.
///
/// # Errors
///
/// `Tree` if the bytes are not a tree file, `NoMemory` if memory runs out before the session begins.
pub fn serve_and_audit<R: Source, W: Sink, S: Schedule>(
    alloc: Global,
    tree: &[u8],
    reader: &mut R,
    writer: &mut W,
    schedule: &mut S,
) -> Result<AuditedSession, AuditError>
    ensures agrees { IfOk result (λ session. (start : values.Tree) × IsStart start tree.now
        × Serves start (stream_bytes (R.left reader.old) (W.written writer.old) (Some []))
        (stream_bytes (R.left reader.new) (W.written writer.new) (Some session.log.items)) session.ended
        × Agrees start session.log.items session.ended session.audited) }
    // The session ended by `Io` only where the stream that it names failed.
    ensures counts_reader { IfOk result (λ session.
        CountsEnd streams.Reader session.ended (R.failures reader.old) (R.failures reader.new)) }
    ensures counts_writer { IfOk result (λ session.
        CountsEnd streams.Writer session.ended (W.failures writer.old) (W.failures writer.new)) }
    ensures refused { IfErr result (λ e. e ≢ NoMemory → (start : values.Tree) → IsStart start tree.now → ⊥) }
{
    let start = Tree::read(alloc, tree)?;
    let started = Writer::new(alloc, Tally::new(Vec::new(alloc)));
    let mut record = match started {
        Ok(record) => record,
        Err(error) => {
            drop(start);
            return Err(AuditError::from(error));
        }
    };
    let ended = serve(start, reader, writer, &mut record, schedule);
    let log = record.into_sink().into_inner();
    let audited = audit(alloc, tree, log.as_slice());
    Ok(AuditedSession {
        ended,
        log,
        audited,
    })
}

/// The log of a session that finished, or that the client ended by a fault, accounts for a run of its tree, to the tree
/// that the server reported, in the words of the contracts of `serve` and of `audit`; but a session that was not opened
/// has no log and the tree as it came. So `audit` cannot refuse such a log, unless memory runs out: by its clause
/// `refused` there would be no such run.
pub fn logs_account_for_runs()
    ensures finished { (start end : values.Tree) (bytes log : List ℕ) (past now : StreamBytes) → IsStart start bytes
        → IsLogged past now log → Serves start past now (Finished end)
        → (events : List Event) × Accounts bytes log start events end }
    ensures fault { (start end : values.Tree) (fault : SessionFault) (bytes log : List ℕ) (past now : StreamBytes)
        → IsStart start bytes → IsLogged past now log → Serves start past now (Fault end fault)
        → ((log ≡ []) × (end ≡ start)) ⊎ ((events : List Event) × Accounts bytes log start events end) }
    // The same of a session that announced any VERSION 3, as `serve_announcing` does.
    ensures announced_finished { (start : Setup) (end : values.Tree) (bytes log : List ℕ) (past now : StreamBytes)
        → IsVersion start.version → HasSpelling start.version → IsStart start.tree bytes → IsLogged past now log
        → ServesFrom start past now (Finished end)
        → (events : List Event) × Accounts bytes log start.tree events end }
    ensures announced_fault { (start : Setup) (end : values.Tree) (fault : SessionFault) (bytes log : List ℕ)
        (past now : StreamBytes) → IsVersion start.version → HasSpelling start.version → IsStart start.tree bytes
        → IsLogged past now log → ServesFrom start past now (Fault end fault)
        → ((log ≡ []) × (end ≡ start.tree)) ⊎ ((events : List Event) × Accounts bytes log start.tree events end) }
{}
