//! Replies that can be encoded.
ghost use Rattle.std.specs.Prelude.{◌≡◌, true, IfSome};
ghost use Rattle.sftp_packets.specs.declared.packets.Packet.TheVariants.{Reply as reply_packet};
ghost use Rattle.sftp_packets.specs.Packets.{HasSpelling};
ghost use Rattle.sftp_handles.specs.Opening as spec;

use sftp_wire::{Packet, Reply, encode};
use std::alloc::Global;

/// The reply, if it can be encoded, and there is memory to see that.
pub(crate) fn spelled(alloc: Global, reply: Reply) -> Option<Reply>
    ensures same { IfSome result (λ it. it ≡ reply) }
    ensures spelled { IfSome result (λ it. HasSpelling (reply_packet it)) }
{
    let packet = Packet::Reply(reply);
    if is_spelled(alloc, &packet) {
        reply_in(packet)
    } else {
        drop(packet);
        None
    }
}

/// Whether a packet can be encoded, and there is memory to see that.
pub(crate) fn is_spelled(alloc: Global, packet: &Packet) -> bool
    ensures { result ≡ true → HasSpelling packet.now }
{
    let mut bytes = Vec::new(alloc);
    let encoded = encode(packet, &mut bytes);
    drop(bytes);
    match encoded {
        Ok(()) => true,
        Err(_) => false,
    }
}

/// The reply that a packet is, if it is one.
fn reply_in(packet: Packet) -> Option<Reply>
    ensures { result ≡ spec.reply_in packet }
{
    match packet {
        Packet::Reply(reply) => Some(reply),
        other => {
            drop(other);
            None
        }
    }
}
