//! A session that is served from memory: a caller of `serve`.
ghost use Rattle.std.specs.Prelude.{[], Some, Option, List, ℕ, IfOk};
ghost use Rattle.sftp_server.specs.Served.{stream_bytes, Serves};

use sftp_server::{Ended, InOrder, serve};
use sftp_transcript::{Memory, Tally, TranscriptError, Writer};
use sftp_tree::Tree;
use std::alloc::Global;

/// What came of a session: how it ended, the replies, and the record.
#[derive(Drop)]
pub struct Session {
    pub ended: Ended,
    pub replies: Vec<u8>,
    pub record: Vec<u8>,
}

/// Serves the packets that a client sent, in the order asked.
///
/// # Errors
///
/// `NoMemory` if memory runs out before the session begins.
pub fn serve_bytes(alloc: Global, tree: Tree, sent: &[u8]) -> Result<Session, TranscriptError>
    ensures { IfOk result (λ session. (left : Option (List ℕ))
        × Serves tree (stream_bytes (Some sent.now) (Some []) (Some []))
        (stream_bytes left (Some session.replies.items) (Some session.record.items)) session.ended) }
{
    let mut reader = Memory::new(sent);
    let mut writer = Tally::new(Vec::new(alloc));
    let started = Writer::new(alloc, Tally::new(Vec::new(alloc)));
    let mut log = match started {
        Ok(log) => log,
        Err(error) => {
            drop(tree);
            return Err(error);
        }
    };
    let ended = serve(tree, &mut reader, &mut writer, &mut log, &mut InOrder);
    let replies = writer.into_inner();
    let record = log.into_sink().into_inner();
    Ok(Session {
        ended,
        replies,
        record,
    })
}
