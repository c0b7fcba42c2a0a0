//! What a client has open is closed when it leaves.
ghost use Rattle.std.specs.Prelude.{◌≡◌, IfOk, OnOk, OnErr};
ghost use Rattle.sftp_packets.specs.declared.requests.Ask.TheVariants as asks;
ghost use Rattle.sftp_handles.specs.State.{Good, closed_tree};
ghost use Rattle.sftp_joint.specs.Joint.{joint_handle};
ghost use Rattle.sftp_shared.specs.Sharing.{left_by};
ghost use Rattle.sftp_answers.specs.Leaving.{handle_name, HasOnly, IsHandleClosed};

use crate::asking::joint_name;
use sftp_handles::{GivenTable, Session};
use sftp_tree::NoMemory;
use sftp_wire::{Ask, Request};
use std::alloc::Global;

/// Closes the handles of these numbers as if the client had closed each itself. If they are all that it may have open,
/// this is its leave.
///
/// # Errors
///
/// `NoMemory` if memory runs out. Some handles may be closed then; the tree with nothing open is the same.
pub fn close_handles(
    session: &mut Session<GivenTable>,
    client: u32,
    numbers: &[u64],
) -> Result<(), NoMemory>
    ensures left { Good session.old → HasOnly session.old client numbers.now →
        OnOk result (session.new ≡ left_by client session.old) }
    ensures kept { Good session.old → OnErr result (closed_tree session.new ≡ closed_tree session.old) }
{
    for number in numbers {
        close_handle(session, client, *number)?;
    }
    Ok(())
}

/// Closes the client's handle of this number, if it is open.
///
/// # Errors
///
/// `NoMemory` if memory runs out; the session is unchanged.
fn close_handle(session: &mut Session<GivenTable>, client: u32, number: u64) -> Result<(), NoMemory>
    ensures closed { Good session.old → OnOk result (IsHandleClosed client number session.old session.new) }
    ensures err { OnErr result (session.new ≡ session.old) }
{
    let request = close_request(session.tree().allocator(), client, number)?;
    let answered = session.answer(&request);
    drop(request);
    match answered {
        Ok(reply) => {
            drop(reply);
            Ok(())
        }
        Err(error) => Err(error),
    }
}

/// A CLOSE of the client's handle of this number, in the session of all.
///
/// # Errors
///
/// `NoMemory` if memory runs out.
fn close_request(alloc: Global, client: u32, number: u64) -> Result<Request, NoMemory>
    ensures { IfOk result (λ request. request.ask ≡ asks.Close (joint_handle client (handle_name number))) }
{
    let handle = joint_name(alloc, client, &number.to_be_bytes())?;
    Ok(Request {
        id: 0,
        ask: Ask::Close { handle },
    })
}
