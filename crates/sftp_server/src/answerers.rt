//! Who answers the requests of a server.
ghost use Rattle.std.specs.Prelude.{◌≡◌, IfOk, OnErr};
ghost use Rattle.sftp_packets.specs.declared.packets.Packet.TheVariants.{Reply as reply_packet};
ghost use Rattle.sftp_packets.specs.Packets.{HasSpelling};
ghost use Rattle.sftp_handles.specs.Allowed.{Allowed};

use sftp_handles::{HandleTable, Session};
use sftp_tree::NoMemory;
use sftp_wire::{Reply, Request};

/// Answers the requests of a session, by any reply that is allowed.
pub trait Answerer<T: HandleTable> {
    /// Answers a request: does it, or refuses it, and returns its reply.
    ///
    /// # Errors
    ///
    /// `NoMemory` if memory runs out; the session is unchanged.
    fn answer(&mut self, session: &mut Session<T>, request: &Request) -> Result<Reply, NoMemory>
        ensures allowed { IfOk result (λ reply. Allowed session.old request.now reply session.new) }
        ensures spelled { IfOk result (λ reply. HasSpelling (reply_packet reply)) }
        ensures err { OnErr result (session.new ≡ session.old) };
}

/// The answerer that leaves it to the session: `Session::answer`.
#[derive(Clone, Copy, Debug, Drop)]
pub struct Plain;

impl<T: HandleTable> Answerer<T> for Plain {
    fn answer(&mut self, session: &mut Session<T>, request: &Request) -> Result<Reply, NoMemory> {
        session.answer(request)
    }
}
