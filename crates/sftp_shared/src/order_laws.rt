//! The law on which refusals of several sessions rest, as a theorem on the definitions. The function does nothing; its
//! promise is in the contract.
ghost use Rattle.std.specs.Prelude.{List};
ghost use Rattle.std.specs.List.{AllByRecursion};
ghost use Rattle.sftp_packets.specs.Layouts.{IsAsk};
ghost use Rattle.sftp_transcript.specs.Explained.{Run};
ghost use Rattle.sftp_handles.specs.State.{State, Good};
ghost use Rattle.sftp_handles.specs.Allowed.{Allowed};
ghost use Rattle.sftp_handles.specs.Clash.{range_clash};
ghost use Rattle.sftp_joint.specs.Orders.{Left, Tagged, IsOrderOf, untagged, Refuted};

use sftp_handles::laws::{good_stays_good, one_end};
use sftp_handles::range_laws::{
    no_range_clash_arises, range_clash_is_mutual, ranged_requests_change_places,
};

/// What a search refutes has no order: no merge of what the clients have left is a run from this state.
pub fn refuted_sessions_have_no_order()
    ensures { (s : State) (left : Left) → Refuted Allowed range_clash s left → Good s → (order : List Tagged) →
        AllByRecursion (λ t. IsAsk t.1.0.ask) order → IsOrderOf left order → (end : State) →
        Run Allowed s (untagged order) end → ⊥ }
{
    ranged_requests_change_places();
    no_range_clash_arises();
    range_clash_is_mutual();
    good_stays_good();
    one_end();
}
