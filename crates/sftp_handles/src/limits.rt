//! What the reply to a request for the limits of a tree has. The request is an extension of this profile's own.
ghost use Rattle.std.specs.Prelude.{◌≡◌, ◌++◌, IfOk, OnOk};
ghost use Rattle.sftp_packets.specs.Spelling.{uint64};
ghost use Rattle.sftp_handles.specs.RequestRows as rows;

use sftp_packets::{ByteString, PACKET_LIMIT};
use sftp_tree::TreeLimits;
use std::alloc::{AllocError, Global};

/// The data of the reply: the most bytes of a packet, of what a READ gives and, as told but not enforced, of what a
/// WRITE has, and the most open handles, each as eight bytes.
///
/// # Errors
///
/// `AllocError` if memory runs out.
#[tactic(auto, unfolding(crate::specs::RequestRows::limits_data))]
pub(crate) fn limits_data(alloc: Global, limits: TreeLimits) -> Result<ByteString, AllocError>
    ensures { IfOk result (λ bytes. bytes ≡ rows.limits_data limits) }
{
    let mut bytes = Vec::new(alloc);
    put_long(&mut bytes, PACKET_LIMIT as u64)?;
    put_long(&mut bytes, u64::from(limits.read_bytes))?;
    put_long(&mut bytes, u64::from(limits.read_bytes))?;
    put_long(&mut bytes, u64::from(limits.open_handles))?;
    Ok(ByteString::new(bytes))
}

/// Appends a number of eight bytes.
///
/// # Errors
///
/// `AllocError` if memory runs out.
fn put_long(bytes: &mut Vec<u8>, number: u64) -> Result<(), AllocError>
    ensures { OnOk result (bytes.new.items ≡ bytes.old.items ++ uint64 number) }
{
    bytes.extend_from_slice(&number.to_be_bytes())?;
    Ok(())
}
