//! Laws about the limits of a session's tree, as theorems on the definitions that the contracts name. The functions do
//! nothing; each promise is in the contract.
ghost use Rattle.std.specs.Prelude.{◌≡◌};
ghost use Rattle.sftp_packets.specs.declared.packets.Request.{Request};
ghost use Rattle.sftp_packets.specs.declared.packets.Reply.{Reply};
ghost use Rattle.sftp_tree.specs.Tree.{limits};
ghost use Rattle.sftp_handles.specs.State.{State};
ghost use Rattle.sftp_handles.specs.Allowed.{Allowed};

/// A step that a session allows leaves the limits of its tree as they are.
pub fn allowed_steps_keep_limits()
    ensures { (s end : State) (request : Request) (reply : Reply) → Allowed s request reply end →
        limits end.tree ≡ limits s.tree }
{}
