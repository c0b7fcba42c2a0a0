//! Replies that are proposed to a session, by whom it does not matter.
ghost use Rattle.std.specs.Prelude.{◌≡◌, true, false, IfOk, IfSome, IfNone, OnErr};
ghost use Rattle.sftp_packets.specs.declared.packets.Packet.TheVariants.{Reply as reply_packet};
ghost use Rattle.sftp_packets.specs.Packets.{HasSpelling};
ghost use Rattle.sftp_handles.specs.State as state;
ghost use Rattle.sftp_handles.specs.Allowed.{Allowed};
ghost use Rattle.sftp_handles.specs.Opening as spec;

use crate::given_table::GivenTable;
use crate::sessions::Session;
use sftp_codec::encode;
use sftp_packets::{Packet, Reply, Request, WireError};
use sftp_tree::NoMemory;
use std::alloc::Global;

impl Session<GivenTable> {
    /// Answers a request as it is proposed, if that reply is allowed and can be encoded: the session then takes the
    /// step, and returns the reply. If not, there is none, and the session is unchanged.
    ///
    /// # Errors
    ///
    /// `NoMemory` if memory runs out; the session is unchanged.
    pub fn answer_as(&mut self, request: &Request, reply: Reply) -> Result<Option<Reply>, NoMemory>
        ensures given { IfOk result (λ given. IfSome given (λ it. it ≡ reply)) }
        ensures allowed { IfOk result (λ given. IfSome given (λ it. Allowed self.old request.now it self.new)) }
        ensures spelled { IfOk result (λ given. IfSome given (λ it. HasSpelling (reply_packet it))) }
        // What may be given is.
        ensures refused { IfOk result (λ given. IfNone given (HasSpelling (reply_packet reply)
            → (end : state.State) → Allowed self.old request.now reply end → ⊥)) }
        ensures kept { IfOk result (λ given. IfNone given (self.new ≡ self.old)) }
        ensures err { OnErr result (self.new ≡ self.old) }
    {
        match spelled(self.tree.allocator(), reply) {
            Ok(Some(reply)) => match self.accept(request, &reply) {
                Ok(true) => Ok(Some(reply)),
                Ok(false) => Ok(None),
                Err(error) => Err(error),
            },
            Ok(None) => Ok(None),
            Err(error) => Err(error),
        }
    }
}

/// The reply, if it can be encoded.
///
/// # Errors
///
/// `NoMemory` if memory runs out.
fn spelled(alloc: Global, reply: Reply) -> Result<Option<Reply>, NoMemory>
    ensures same { IfOk result (λ given. IfSome given (λ it. it ≡ reply)) }
    ensures spelled { IfOk result (λ given. IfSome given (λ it. HasSpelling (reply_packet it))) }
    ensures other { IfOk result (λ given. IfNone given (HasSpelling (reply_packet reply) → ⊥)) }
{
    let packet = Packet::Reply(reply);
    match is_spelled(alloc, &packet) {
        Ok(true) => Ok(reply_in(packet)),
        Ok(false) => {
            drop(packet);
            Ok(None)
        }
        Err(error) => {
            drop(packet);
            Err(error)
        }
    }
}

/// Whether a packet can be encoded.
///
/// # Errors
///
/// `NoMemory` if memory runs out.
fn is_spelled(alloc: Global, packet: &Packet) -> Result<bool, NoMemory>
    ensures yes { IfOk result (λ ok. ok ≡ true → HasSpelling packet.now) }
    ensures no { IfOk result (λ ok. ok ≡ false → HasSpelling packet.now → ⊥) }
{
    let mut bytes = Vec::new(alloc);
    let encoded = encode(packet, &mut bytes);
    drop(bytes);
    match encoded {
        Ok(()) => Ok(true),
        Err(WireError::NoMemory) => Err(NoMemory),
        Err(_) => Ok(false),
    }
}

/// The reply that a packet is, if it is one.
fn reply_in(packet: Packet) -> Option<Reply>
    ensures { result ≡ spec.reply_in packet }
{
    match packet {
        Packet::Reply(reply) => Some(reply),
        other => {
            drop(other);
            None
        }
    }
}
