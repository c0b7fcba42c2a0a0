//! What the promise of a server of several clients means to an audit of their sessions, as a theorem on the
//! definitions. The function does nothing; its promise is in the contract.
ghost use Rattle.std.specs.Prelude.{◌≡◌, ℕ, List, false, map};
ghost use Rattle.sftp_tree.specs.Tree.{Tree};
ghost use Rattle.sftp_handles.specs.State.{State, started, closed_tree};
ghost use Rattle.sftp_handles.specs.Allowed.{Allowed};
ghost use Rattle.sftp_joint.specs.Deeds.{Happening, deeds_of};
ghost use Rattle.sftp_shared.specs.Sharing.{AreServedOn};
ghost use Rattle.sftp_together.specs.Sets.{Sessions, Placed, is_alone, IsOrderOf, Explains};
ghost use Rattle.sftp_hub.specs.Accounts.{deed_of, RiseAlong};

/// Two or more sessions that are served on one tree, none of whose clients leaves before the end, are explained by the
/// order in which the server took their requests, whatever the tolerance, and whatever times their records have that
/// rise along this order. The run ends in the tree of the server.
pub fn served_sessions_are_explained()
    ensures { (start end : Tree) (happenings : List Happening) (order : List Placed) (sessions : Sessions)
        (tolerance : ℕ) → AreServedOn start happenings end → deeds_of happenings ≡ map deed_of order →
        RiseAlong 0 order → IsOrderOf sessions order → is_alone sessions ≡ false →
        (last : State) × Explains Allowed (started start) tolerance sessions order last × (end ≡ closed_tree last) }
{}
