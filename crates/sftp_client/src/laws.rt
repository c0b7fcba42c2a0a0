//! Laws of a client's session, as theorems on the definitions that the contracts of `Pairing` name. The functions do
//! nothing; each promise is in the contract.
ghost use Rattle.std.specs.Prelude.{◌++◌, List, IsPermutation};
ghost use Rattle.sftp_client.specs.Client.{Client, new_client, IsKept};
ghost use Rattle.sftp_client.specs.Runs.{Call, Runs, sent, paired, unanswered};

/// Over every list of calls, each request that was sent is paired once, or has not been paired and is open: the
/// requests sent are those paired and those open, in another order.
#[tactic(auto, using(crate::proofs::Sessions::balanced))]
pub fn paired_at_most_once()
    ensures { (calls : List Call) (end : Client) → Runs new_client calls end →
        IsPermutation (sent calls) (paired calls ++ unanswered end) }
{}

/// Whatever is called, at most `OPEN_LIMIT` requests are open, and no two of them have one id.
#[tactic(auto, using(crate::proofs::Sessions::kept_laws))]
pub fn sessions_are_kept()
    ensures { (calls : List Call) (end : Client) → Runs new_client calls end → IsKept end }
{}
