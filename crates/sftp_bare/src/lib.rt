//! Replies without what is free in them (draft-ietf-secsh-filexfer-02, sections 5 and 7): the texts of statuses, long
//! names, times and extended pairs. Handles, and which names a listing gives, are left as they are.
#![tactic(auto)]

ghost use Rattle.std.specs.Prelude.{◌≡◌};
ghost use Rattle.sftp_packets.specs.declared.packets.Request.{Request};
ghost use Rattle.sftp_packets.specs.declared.packets.Reply.{Reply};
ghost use Rattle.sftp_handles.specs.Allowed.{Allowed};
ghost use Rattle.sftp_handles.specs.State.{State};
ghost use Rattle.sftp_bare.specs.Bare.{bare};

/// A reply is allowed if one is that has the same id and says the same but for what is free.
pub fn what_is_free_is_allowed()
    ensures { (s : State) (request : Request) (reply other : Reply) (end : State) →
        Allowed s request reply end → other.id ≡ reply.id → bare other.answer ≡ bare reply.answer →
        Allowed s request other end }
{}
