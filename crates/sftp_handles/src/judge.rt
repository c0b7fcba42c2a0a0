//! Which replies of another server a session allows (draft, sections 6 and 7).
ghost use Rattle.std.specs.Prelude.{◌≡◌, false, None, IsTrue, IfOk, OnErr};
ghost use Rattle.sftp_packets.specs.declared.requests.Ask.TheVariants.{Readdir};
ghost use Rattle.sftp_handles.specs.declared.requests.Purpose.TheVariants as variants;
ghost use Rattle.sftp_handles.specs.Payloads as purposes;
ghost use Rattle.sftp_handles.specs.State as state;
ghost use Rattle.sftp_handles.specs.Allowed.{Allowed};
ghost use Rattle.sftp_handles.specs.Slots.{IsJudged, refusal_code};

use crate::answer::forms::has_code;
use crate::given_table::GivenTable;
use crate::requests::{Purpose, purpose_of};
use crate::sessions::Session;
use crate::tables::HandleTable;
use sftp_packets::status::EOF;
use sftp_packets::{Answer, Ask, Reply, Request};
use sftp_tree::{NoMemory, Refused};

impl Session<GivenTable> {
    /// Whether the reply to a request is allowed. If so, the session takes the step; if not, it is unchanged.
    ///
    /// # Errors
    ///
    /// `NoMemory` if memory runs out; the session is unchanged.
    pub fn accept(&mut self, request: &Request, reply: &Reply) -> Result<bool, NoMemory>
        ensures allowed { IfOk result (λ ok. IsTrue ok → Allowed self.old request.now reply.now self.new) }
        ensures refused { IfOk result
            (λ ok. ok ≡ false → (end : state.State) → Allowed self.old request.now reply.now end → ⊥) }
        ensures kept { IfOk result (λ ok. ok ≡ false → self.new ≡ self.old) }
        ensures err { OnErr result (self.new ≡ self.old) }
    {
        if reply.id != request.id {
            return Ok(false);
        }
        self.judge(&request.ask, &reply.answer)
    }
}

impl<T: HandleTable> Session<T> {
    /// Whether the answer to a request is allowed. If so, the session takes the step; if not, it is unchanged.
    ///
    /// # Errors
    ///
    /// `NoMemory` if memory runs out; the session is unchanged.
    fn judge(&mut self, ask: &Ask, answer: &Answer) -> Result<bool, NoMemory>
        requires { IsTrue T.takes_want }
        ensures ok { IfOk result (λ ok. IsJudged self.old ask.now answer.now ok self.new) }
        ensures err { OnErr result (self.new ≡ self.old) }
    {
        match refusal_code(answer) {
            Some(code) => {
                let causes = self.causes(ask)?;
                Ok(causes.allow(code))
            }
            None => self.judge_done(ask, answer),
        }
    }

    /// Whether an answer that refuses nothing is allowed.
    ///
    /// # Errors
    ///
    /// `NoMemory` if memory runs out; the session is unchanged.
    fn judge_done(&mut self, ask: &Ask, answer: &Answer) -> Result<bool, NoMemory>
        requires table { IsTrue T.takes_want }
        requires unlike { refusal_code answer.now ≡ None }
        ensures ok { IfOk result (λ ok. IsJudged self.old ask.now answer.now ok self.new) }
        ensures err { OnErr result (self.new ≡ self.old) }
    {
        match purpose_of(ask) {
            Purpose::Change => self.judge_change(ask, answer),
            Purpose::Open => self.judge_open(ask, answer),
            Purpose::List => self.judge_list(ask, answer),
            Purpose::Query => self.judge_query(ask, answer),
            Purpose::Unknown => Ok(false),
        }
    }

    /// Whether an answer to OPEN or OPENDIR is allowed: it gives a new handle, which is then open.
    ///
    /// # Errors
    ///
    /// `NoMemory` if memory runs out; the session is unchanged.
    fn judge_open(&mut self, ask: &Ask, answer: &Answer) -> Result<bool, NoMemory>
        requires table { IsTrue T.takes_want }
        requires purpose { purposes.purpose_of ask.now ≡ variants.Open }
        requires unlike { refusal_code answer.now ≡ None }
        ensures ok { IfOk result (λ ok. IsJudged self.old ask.now answer.now ok self.new) }
        ensures err { OnErr result (self.new ≡ self.old) }
    {
        match answer {
            Answer::Handle(handle) => self.judge_handle(ask, handle.as_slice()),
            _ => Ok(false),
        }
    }

    /// Whether an answer to READDIR is allowed.
    ///
    /// # Errors
    ///
    /// `NoMemory` if memory runs out; the session is unchanged.
    fn judge_list(&mut self, ask: &Ask, answer: &Answer) -> Result<bool, NoMemory>
        requires purpose { purposes.purpose_of ask.now ≡ variants.List }
        requires unlike { refusal_code answer.now ≡ None }
        ensures ok { IfOk result (λ ok. IsJudged self.old ask.now answer.now ok self.new) }
        ensures err { OnErr result (self.new ≡ self.old) }
    {
        match ask {
            Ask::Readdir { handle } => self.judge_listing(handle.as_slice(), answer),
            _ => unreachable!(),
        }
    }

    /// Whether an answer to READDIR is allowed: it gives remaining entries of the listing, which are then
    /// struck out, or says that there are none.
    ///
    /// # Errors
    ///
    /// `NoMemory` if memory runs out; the session is unchanged.
    fn judge_listing(&mut self, handle: &[u8], answer: &Answer) -> Result<bool, NoMemory>
        requires { refusal_code answer.now ≡ None }
        ensures ok { IfOk result (λ ok. IsJudged self.old (Readdir handle.now) answer.now ok self.new) }
        ensures err { OnErr result (self.new ≡ self.old) }
    {
        if has_code(answer, EOF) {
            return Ok(self.has_given_all(handle));
        }
        match answer {
            Answer::Name(names) => self.give_names(handle, names),
            _ => Ok(false),
        }
    }

    /// Whether an answer to a query is allowed: it carries what the request asks for.
    ///
    /// # Errors
    ///
    /// `NoMemory` if memory runs out.
    fn judge_query(&self, ask: &Ask, answer: &Answer) -> Result<bool, NoMemory>
        requires purpose { purposes.purpose_of ask.now ≡ variants.Query }
        requires unlike { refusal_code answer.now ≡ None }
        ensures { IfOk result (λ ok. IsJudged self.now ask.now answer.now ok self.now) }
    {
        match self.payload(ask) {
            Ok(payload) => Ok(payload.is_in(answer)),
            Err(Refused::Cause(_)) => Ok(false),
            Err(Refused::NoMemory) => Err(NoMemory),
        }
    }
}

/// The code of a status that can refuse: not that of OK, nor that of the end.
fn refusal_code(answer: &Answer) -> Option<u32>
    ensures { result ≡ refusal_code answer.now }
{
    match answer {
        Answer::Status { code, .. } => { if *code > EOF { Some(*code) } else { None } }
        _ => None,
    }
}
