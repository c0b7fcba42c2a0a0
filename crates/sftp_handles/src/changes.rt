//! Requests whose reply says OK.
ghost use Rattle.std.specs.Prelude.{◌≡◌, None, IsTrue, IfOk, IfErr, OnOk, OnErr};
ghost use Rattle.sftp_handles.specs.declared.requests.Purpose.TheVariants.{Change};
ghost use Rattle.sftp_handles.specs.Payloads as purposes;
ghost use Rattle.sftp_handles.specs.Slots.{IsJudged, IsDone, IsRefusal, changes_tree, is_done, refusal_code};

use crate::answer::forms::has_code;
use crate::sessions::Session;
use crate::tables::HandleTable;
use sftp_packets::status::OK;
use sftp_packets::{Answer, Ask};
use sftp_tree::{NoMemory, Refused};

impl<T: HandleTable> Session<T> {
    /// Whether an answer to a change is allowed: it is done, and the answer says OK.
    ///
    /// # Errors
    ///
    /// `NoMemory` if memory runs out; the session is unchanged.
    pub(crate) fn judge_change(&mut self, ask: &Ask, answer: &Answer) -> Result<bool, NoMemory>
        requires purpose { purposes.purpose_of ask.now ≡ Change }
        requires unlike { refusal_code answer.now ≡ None }
        ensures ok { IfOk result (λ ok. IsJudged self.old ask.now answer.now ok self.new) }
        ensures err { OnErr result (self.new ≡ self.old) }
    {
        if !has_code(answer, OK) {
            return Ok(false);
        }
        is_done(self.do_ok(ask))
    }

    /// Does a request that changes the tree, and removes the files that nothing holds any more.
    ///
    /// # Errors
    ///
    /// `Cause` with the first cause that holds. `NoMemory` if memory runs out. On error the session is unchanged.
    pub(crate) fn change_tree(&mut self, ask: &Ask) -> Result<(), Refused>
        requires { IsTrue (changes_tree ask.now) }
        ensures done { OnOk result (IsDone self.old ask.now self.new) }
        ensures refused { IfErr result (IsRefusal self.old ask.now) }
        ensures kept { OnErr result (self.new ≡ self.old) }
    {
        self.tree.carry_out(ask)?;
        Ok(())
    }
}

/// Whether a call was done, and not refused by a cause.
fn is_done(outcome: Result<(), Refused>) -> Result<bool, NoMemory>
    ensures { result ≡ is_done outcome }
{
    match outcome {
        Ok(()) => Ok(true),
        Err(Refused::Cause(_)) => Ok(false),
        Err(Refused::NoMemory) => Err(NoMemory),
    }
}
