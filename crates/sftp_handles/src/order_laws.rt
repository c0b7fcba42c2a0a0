//! Laws of requests that do not conflict, as theorems on the definitions of steps. The functions do nothing; each
//! promise is in the contract.
ghost use Rattle.std.specs.Prelude.{◌≡◌, ◌≢◌, true, false, IsTrue};
ghost use Rattle.sftp_packets.specs.declared.requests.Ask.{Ask};
ghost use Rattle.sftp_packets.specs.declared.packets.Request.{Request};
ghost use Rattle.sftp_packets.specs.declared.packets.Reply.{Reply};
ghost use Rattle.sftp_packets.specs.Layouts.{IsAsk};
ghost use Rattle.sftp_treefile.specs.TreeFileParts.{AreRaised};
ghost use Rattle.sftp_tree.specs.Tree.{limits};
ghost use Rattle.sftp_handles.specs.State.{State, Good};
ghost use Rattle.sftp_handles.specs.Allowed.{Allowed};
ghost use Rattle.sftp_handles.specs.Clash.{everything, is_barrier, share, touched, clash, ComesFirst};

use crate::laws::good_stays_good;

/// In a good state, two requests that do not conflict there may change places: the same replies are allowed, and the
/// end is the same (draft-ietf-secsh-filexfer-02, section 6.1).
pub fn requests_change_places()
    ensures { (s mid end : State) (request other : Request) (reply other_reply : Reply) → Good s →
        IsAsk request.ask → IsAsk other.ask → clash s request other ≡ false → Allowed s other other_reply mid →
        Allowed mid request reply end → ComesFirst s request other reply other_reply end }
{
    good_stays_good();
}

/// A request that does not conflict with a later one makes no earlier one conflict with that later one. So what is
/// ready to be done stays ready, whatever else that is ready is done first.
pub fn no_clash_arises()
    ensures { (s end : State) (request earlier later : Request) (reply : Reply) → Good s → IsAsk request.ask →
        clash s request later ≡ false → clash s earlier later ≡ false → Allowed s request reply end →
        clash end earlier later ≡ false }
{}

/// A barrier touches everything in every state, and so conflicts with every request, earlier or later; no other request
/// touches everything in any state.
pub fn barriers_touch_everything()
    ensures touched { (s : State) (ask : Ask) → IsTrue (is_barrier ask) → touched s ask ≡ everything }
    ensures others { (s : State) (ask : Ask) → is_barrier ask ≡ false → touched s ask ≢ everything }
    ensures first { (s : State) (request other : Request) → IsTrue (is_barrier request.ask) →
        clash s request other ≡ true }
    ensures second { (s : State) (request other : Request) → IsTrue (is_barrier other.ask) →
        clash s request other ≡ true }
{}

/// After a request that is no barrier, every request touches what it touched before.
pub fn touched_stays()
    ensures { (s end : State) (request : Request) (reply : Reply) (ask : Ask) → Good s → IsAsk request.ask →
        is_barrier request.ask ≡ false → Allowed s request reply end → touched end ask ≡ touched s ask }
{}

/// With limits of the first two openings two requests conflict exactly if they share what they touch, and do not both
/// only read it: no file takes room that another needs.
pub fn narrow_trees_share_no_room()
    ensures { (s : State) (request other : Request) → AreRaised (limits s.tree) →
        clash s request other ≡ share (touched s request.ask) (touched s other.ask) }
{}

/// Whether two requests conflict does not depend on their order.
pub fn clash_is_mutual()
    ensures { (s : State) (request other : Request) → clash s request other ≡ clash s other request }
{}
