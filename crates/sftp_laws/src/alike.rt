//! Laws about bytes that no reply has, as theorems on the definitions that the contracts name. The functions do
//! nothing; each promise is in the contract.
ghost use Rattle.std.specs.Prelude.{◌≡◌, ℕ, List};
ghost use Rattle.sftp_packets.specs.declared.packets.Request.{Request};
ghost use Rattle.sftp_packets.specs.declared.packets.Reply.{Reply};
ghost use Rattle.sftp_tree.specs.Tree.{Tree};
ghost use Rattle.sftp_transcript.specs.declared.events.Event.{Event};
ghost use Rattle.sftp_transcript.specs.Explained.{Run, Explained};
ghost use Rattle.sftp_handles.specs.State.{State, started};
ghost use Rattle.sftp_handles.specs.Allowed.{Allowed};
ghost use Rattle.sftp_laws.specs.Alike.{AreAlike, AllowedApart, hollow_tree};

/// A session that reads no byte of a file is explained from each tree that differs in the bytes of that file alone, of
/// which there are as many: a READ of the file may only be answered by its end. The two sessions end in trees that
/// differ in that file's bytes alone. The file is meant by its number, so the session may rename it, write to it and
/// change its size. What the session wrote to it may not be read either.
pub fn unread_bytes_do_not_matter()
    // A step that is allowed is allowed in each state that is alike, and leads to states that are alike.
    ensures step { (number : ℕ) (one other end : State) (request : Request) (reply : Reply) →
        AreAlike number one other → AllowedApart number one request reply end →
        (other_end : State) × AllowedApart number other request reply other_end × AreAlike number end other_end }
    ensures run { (number : ℕ) (one other end : State) (pairs : List (Request × Reply)) →
        AreAlike number one other → Run (AllowedApart number) one pairs end →
        (other_end : State) × Run Allowed other pairs other_end × AreAlike number end other_end }
    ensures explained { (number : ℕ) (one other end : State) (events : List Event) →
        AreAlike number one other → Explained (AllowedApart number) one events end →
        (other_end : State) × Explained Allowed other events other_end × AreAlike number end other_end }
    // Sessions begin in states that are alike, if their trees are.
    ensures start { (number : ℕ) (one other : Tree) → hollow_tree number one ≡ hollow_tree number other →
        AreAlike number (started one) (started other) }
{}
