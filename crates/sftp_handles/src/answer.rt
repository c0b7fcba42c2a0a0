//! The answers that this program's own sessions give (draft, sections 6 and 7).
ghost use Rattle.std.specs.Prelude.{◌≡◌, ◌^◌, ◌<◌, false, Some, IfOk, IfErr, OnErr};
ghost use Rattle.sftp_packets.specs.declared.packets.Packet.TheVariants.{Reply as reply_packet};
ghost use Rattle.sftp_packets.specs.Packets.{HasSpelling};
ghost use Rattle.sftp_handles.specs.declared.requests.Purpose.TheVariants.{Change};
ghost use Rattle.sftp_handles.specs.Payloads as purposes;
ghost use Rattle.sftp_handles.specs.Allowed.{Allowed, step};
ghost use Rattle.sftp_handles.specs.Slots.{IsRefusal};
ghost use Rattle.sftp_handles.specs.Payloads.{IsSpelledAnswer, IsAnswered};

pub(crate) mod forms;
mod names;

use crate::answer::forms::status;
use crate::requests::{Purpose, purpose_of};
use crate::sessions::Session;
use crate::tables::HandleTable;
use sftp_packets::status::OK;
use sftp_packets::{Answer, Ask, Reply, Request};
use sftp_tree::{Cause, NoMemory, Refused};

impl<T: HandleTable> Session<T> {
    /// Answers a request: does it, or refuses it, and returns its reply. A refusal is a status with the `Cause::code`
    /// of a cause of the request, of several the earliest (`docs/DECISIONS.md` has their order). Its strings are empty.
    ///
    /// # Errors
    ///
    /// `NoMemory` if memory runs out; the session is unchanged.
    #[inline(always)]
    pub fn answer(&mut self, request: &Request) -> Result<Reply, NoMemory>
        ensures allowed { IfOk result (λ reply. Allowed self.old request.now reply self.new) }
        ensures spelled { IfOk result (λ reply. HasSpelling (reply_packet reply)) }
        ensures err { OnErr result (self.new ≡ self.old) }
    {
        let answer = self.answer_to(&request.ask)?;
        Ok(reply_with(request.id, answer))
    }

    /// Answers a request without its id.
    ///
    /// # Errors
    ///
    /// `NoMemory` if memory runs out; the session is unchanged.
    fn answer_to(&mut self, ask: &Ask) -> Result<Answer, NoMemory>
        ensures answered { IfOk result (λ answer. step self.old ask.now answer ≡ Some self.new) }
        ensures spelled { IfOk result IsSpelledAnswer }
        ensures err { OnErr result (self.new ≡ self.old) }
    {
        let alloc = self.tree.allocator();
        match self.do_free(ask) {
            Ok(answer) => Ok(answer),
            Err(Refused::Cause(cause)) => Ok(status(alloc, cause.code())),
            Err(Refused::NoMemory) => Err(NoMemory),
        }
    }

    /// Does a request that no cause refuses, and returns its answer.
    ///
    /// # Errors
    ///
    /// A cause that refuses the request, or `NoMemory` if memory runs out. On error the session is unchanged.
    fn do_free(&mut self, ask: &Ask) -> Result<Answer, Refused>
        ensures done { IfOk result (λ answer. IsAnswered self.old ask.now answer self.new) }
        ensures refused { IfErr result (IsRefusal self.old ask.now) }
        ensures kept { OnErr result (self.new ≡ self.old) }
    {
        match purpose_of(ask) {
            Purpose::Change => self.answer_change(ask),
            Purpose::Open => self.answer_open(ask),
            Purpose::List => self.answer_list(ask),
            Purpose::Query => self.answer_query(ask),
            Purpose::Unknown => Err(Refused::Cause(Cause::Unknown)),
        }
    }

    /// Does a request whose reply says OK, and returns that.
    ///
    /// # Errors
    ///
    /// A cause that refuses the request, or `NoMemory` if memory runs out. On error the session is unchanged.
    fn answer_change(&mut self, ask: &Ask) -> Result<Answer, Refused>
        requires { purposes.purpose_of ask.now ≡ Change }
        ensures done { IfOk result (λ answer. IsAnswered self.old ask.now answer self.new) }
        ensures refused { IfErr result (IsRefusal self.old ask.now) }
        ensures kept { OnErr result (self.new ≡ self.old) }
    {
        let alloc = self.tree.allocator();
        match self.do_ok(ask) {
            Ok(()) => Ok(status(alloc, OK)),
            Err(refused) => Err(refused),
        }
    }
}

/// The reply with this id.
fn reply_with(id: u32, answer: Answer) -> Reply
    ensures reply { result ≡ record { id = id; answer = answer } }
    ensures fits { id < 2 ^ 32 }
{
    Reply { id, answer }
}
