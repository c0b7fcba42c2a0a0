//! The names of handles among several sessions: the number of the session comes before the name that the server gave.
ghost use Rattle.std.specs.Prelude.{◌≡◌, Bool, true, false, OnOk, IfOk};
ghost use Rattle.sftp_joint.specs.Joint.{joint_handle, joint_ask, joint_answer};
ghost use Rattle.sftp_together.specs.Sets.{request_in, reply_in};

use sftp_packets::{Answer, Ask, ByteString, Reply, Request};
use std::alloc::{AllocError, Global};

/// Puts the number of a session before the name of a handle.
fn number_handle(alloc: Global, session: u16, handle: &mut ByteString) -> Result<(), AllocError>
    ensures { OnOk result (handle.new ≡ joint_handle session handle.old) }
{
    let mut bytes = Vec::from_slice(alloc, &u32::from(session).to_be_bytes())?;
    bytes.extend_from_slice(handle.as_slice())?;
    *handle = ByteString::new(bytes);
    Ok(())
}

/// The same of the handle that a request names, if it names one.
fn number_ask(alloc: Global, session: u16, ask: &mut Ask) -> Result<(), AllocError>
    ensures { OnOk result (ask.new ≡ joint_ask session ask.old) }
{
    match ask {
        Ask::Close { handle } => number_handle(alloc, session, handle),
        Ask::Read { handle, .. } => number_handle(alloc, session, handle),
        Ask::Write { handle, .. } => number_handle(alloc, session, handle),
        Ask::Fstat { handle } => number_handle(alloc, session, handle),
        Ask::Fsetstat { handle, .. } => number_handle(alloc, session, handle),
        Ask::Readdir { handle } => number_handle(alloc, session, handle),
        Ask::Fsync { handle } => number_handle(alloc, session, handle),
        // all others name none, as the proof finds
        _ => Ok(()),
    }
}

/// The same of the handle that a reply gives, if it gives one.
fn number_answer(alloc: Global, session: u16, answer: &mut Answer) -> Result<(), AllocError>
    ensures { OnOk result (answer.new ≡ joint_answer session answer.old) }
{
    match answer {
        Answer::Handle(handle) => number_handle(alloc, session, handle),
        _ => Ok(()),
    }
}

/// Makes a request and its reply those that are judged: unless its session is alone, their handles get its number.
///
/// # Errors
///
/// `AllocError` if memory runs out.
pub(crate) fn number_pair(
    alloc: Global,
    alone: bool,
    session: u16,
    request: &mut Request,
    reply: &mut Reply,
) -> Result<(), AllocError>
    ensures request { OnOk result (request.new ≡ request_in alone session request.old) }
    ensures reply { OnOk result (reply.new ≡ reply_in alone session reply.old) }
{
    if alone {
        return Ok(());
    }
    number_ask(alloc, session, &mut request.ask)?;
    number_answer(alloc, session, &mut reply.answer)
}
