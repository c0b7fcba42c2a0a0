//! The answerer that answers as it is proposed, where the session allows that.
ghost use Rattle.std.specs.Prelude.{◌≡◌, IfOk, OnErr};
ghost use Rattle.sftp_packets.specs.declared.packets.Packet.TheVariants.{Reply as reply_packet};
ghost use Rattle.sftp_packets.specs.Packets.{HasSpelling};
ghost use Rattle.sftp_handles.specs.Allowed.{Allowed};

use sftp_handles::{GivenTable, Session};
use sftp_server::Answerer;
use sftp_tree::NoMemory;
use sftp_wire::{Answer, Reply, Request};

/// Proposes answers. Nothing is promised of them.
pub trait Proposer {
    /// What the answer to a request could be; `None` leaves it to another answerer.
    ///
    /// # Errors
    ///
    /// `NoMemory` if memory runs out.
    fn propose(
        &mut self,
        session: &Session<GivenTable>,
        request: &Request,
    ) -> Result<Option<Answer>, NoMemory>;
}

/// Answers requests as they are proposed: the session judges each proposal as `audit` does. One that is not allowed or
/// cannot be encoded is not given; then another answerer answers the request.
#[derive(Drop)]
pub struct Proposed<P: Drop, A: Drop> {
    proposer: P,
    other: A,
}

impl<P: Drop, A: Drop> Proposed<P, A> {
    /// The answerer that answers as the one proposes, and else as the other answers.
    pub fn new(proposer: P, other: A) -> Proposed<P, A> {
        Proposed { proposer, other }
    }
}

impl<P: Proposer + Drop, A: Answerer<GivenTable> + Drop> Answerer<GivenTable> for Proposed<P, A> {
    fn answer(
        &mut self,
        session: &mut Session<GivenTable>,
        request: &Request,
    ) -> Result<Reply, NoMemory> {
        match self.proposer.propose(session, request) {
            Ok(Some(answer)) => answer_so(session, request, answer, &mut self.other),
            Ok(None) => self.other.answer(session, request),
            Err(error) => Err(error),
        }
    }
}

/// Answers a request so, if the session allows it, and else as the answerer does.
fn answer_so<A: Answerer<GivenTable>>(
    session: &mut Session<GivenTable>,
    request: &Request,
    answer: Answer,
    other: &mut A,
) -> Result<Reply, NoMemory>
    ensures allowed { IfOk result (λ reply. Allowed session.old request.now reply session.new) }
    ensures spelled { IfOk result (λ reply. HasSpelling (reply_packet reply)) }
    ensures err { OnErr result (session.new ≡ session.old) }
{
    let reply = Reply {
        id: request.id,
        answer,
    };
    match session.answer_as(request, reply) {
        Ok(Some(reply)) => Ok(reply),
        Ok(None) => other.answer(session, request),
        Err(error) => Err(error),
    }
}
