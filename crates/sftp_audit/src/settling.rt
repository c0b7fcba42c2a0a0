//! How requests are settled: each is done as soon as it and all before it have their replies.
ghost use Rattle.std.specs.Prelude.{◌≡◌, ◌≤◌, length, OnOk, IfErr};
ghost use Rattle.sftp_transcript.specs.Explained.{Run, leading_pairs};
ghost use Rattle.sftp_audit.specs.Exchanges.{ledger_of, unsettled};
ghost use Rattle.sftp_audit.specs.Auditor.{RefusesToSettle, IsWrongIn, IsTold};

use crate::errors::Refusal;
use crate::ledger::Ledger;
use sftp_judges::Judges;

/// Does the requests up to the first one without a reply, and forgets their exchanges.
///
/// # Errors
///
/// `NotAllowed`, with the record of the reply, if the judge does not allow a reply; `follows` then says whether it
/// follows the request with this reply, and otherwise stays. `NoMemory` if memory runs out.
#[inline(always)]
pub(crate) fn settle<J: Judges>(
    ledger: &mut Ledger,
    judge: &mut J,
    follows: &mut bool,
) -> Result<(), Refusal>
    ensures kept { OnOk result (ledger.new ≡ unsettled ledger.old) }
    ensures ran { OnOk result (Run J.allowed judge.old (leading_pairs (ledger_of ledger.old)) judge.new) }
    ensures refused { IfErr result (RefusesToSettle J.allowed judge.old ledger.old) }
    ensures wrong { IfErr result (IsWrongIn J.allowed judge.old ledger.old judge.new) }
    ensures told { IfErr result (IsTold J.allowed J.follows judge.old ledger.old follows.old follows.new) }
    ensures untold { OnOk result (follows.new ≡ follows.old) }
    ensures never_grows { length ledger.new ≤ length ledger.old }
{
    'settle: while let Some(exchange) = ledger.first() {
        let Some(recorded) = &exchange.reply else {
            return Ok(());
        };
        if !judge.accept(&exchange.request, &recorded.reply)? {
            *follows = judge.follows(&exchange.request, &recorded.reply)?;
            return Err(Refusal::NotAllowed {
                record: recorded.number,
            });
        }
        ledger.forget_first();
    }
    Ok(())
}
