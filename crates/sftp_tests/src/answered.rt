//! What a session answers, another session in the same state accepts.
ghost use Rattle.std.specs.Prelude.{◌≡◌, IsTrue, IfOk, OnOk, OnErr};

use sftp_handles::{GivenTable, Session, SlabTable};
use sftp_tree::NoMemory;
use sftp_wire::Request;

/// Answers a request in one session, and has another one, which is in the same state, judge the reply: it accepts it,
/// and both are in the same state again.
///
/// # Errors
///
/// `NoMemory` if memory runs out; the session that judges is unchanged.
pub fn answer_and_accept(
    ours: &mut Session<SlabTable>,
    theirs: &mut Session<GivenTable>,
    request: &Request,
) -> Result<bool, NoMemory>
    requires { theirs.old ≡ ours.old }
    ensures accepted { IfOk result IsTrue }
    ensures same { OnOk result (theirs.new ≡ ours.new) }
    ensures kept { OnErr result (theirs.new ≡ theirs.old) }
{
    let reply = ours.answer(request)?;
    let accepted = theirs.accept(request, &reply);
    drop(reply);
    accepted
}
