//! Requests under the joint names of their handles.
ghost use Rattle.std.specs.Prelude.{◌≡◌, ℕ, List, Some, is_some, IsTrue, IfOk};
ghost use Rattle.sftp_packets.specs.Requests.{asked_handle};
ghost use Rattle.sftp_joint.specs.Joint.{joint_ask, joint_handle};

use sftp_tree::NoMemory;
use sftp_wire::{Ask, ByteString, asked_handle};
use std::alloc::Global;

/// The name of a client's handle in the session of all.
///
/// # Errors
///
/// `NoMemory` if memory runs out.
pub(crate) fn joint_name(alloc: Global, client: u32, name: &[u8]) -> Result<ByteString, NoMemory>
    ensures { IfOk result (λ joint. joint ≡ joint_handle client name.now) }
{
    let mut joint = Vec::from_slice(alloc, &client.to_be_bytes())?;
    joint.extend_from_slice(name)?;
    Ok(ByteString::new(joint))
}

/// A client's request in the session of all, but for its id.
///
/// # Errors
///
/// `NoMemory` if memory runs out.
#[tactic(auto, using(crate::proofs::Asks::unnamed))]
pub(crate) fn joint_ask(alloc: Global, client: u32, ask: Ask) -> Result<Ask, NoMemory>
    ensures { IfOk result (λ joint. joint ≡ joint_ask client ask) }
{
    match asked_handle(&ask) {
        None => Ok(ask),
        Some(name) => {
            let joint = joint_name(alloc, client, name)?;
            Ok(with_handle(ask, joint))
        }
    }
}

/// The request with this name for its handle.
fn with_handle(ask: Ask, handle: ByteString) -> Ask
    requires { IsTrue (is_some (asked_handle ask)) }
    ensures { (client : ℕ) (name : List ℕ) → asked_handle ask ≡ Some name → handle ≡ joint_handle client name
        → result ≡ joint_ask client ask }
{
    match ask {
        Ask::Close { .. } => Ask::Close { handle },
        Ask::Read { offset, len, .. } => Ask::Read {
            handle,
            offset,
            len,
        },
        Ask::Write { offset, bytes, .. } => Ask::Write {
            handle,
            offset,
            bytes,
        },
        Ask::Fstat { .. } => Ask::Fstat { handle },
        Ask::Fsetstat { attrs, .. } => Ask::Fsetstat { handle, attrs },
        Ask::Readdir { .. } => Ask::Readdir { handle },
        Ask::Fsync { .. } => Ask::Fsync { handle },
        _ => unreachable!(),
    }
}
