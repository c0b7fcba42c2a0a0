//! Laws of histories in which each request is answered before the next is taken, as theorems on the definitions. The
//! functions do nothing; each promise is in the contract.
ghost use Rattle.std.specs.Prelude.{◌≡◌, ◌++◌, ℕ, List, IsTrue};
ghost use Rattle.sftp_transcript.specs.Explained.{Matching, in_window};
ghost use Rattle.sftp_joint.specs.Deeds.{Deed, deeds_of, events_of, RunTogether};
ghost use Rattle.sftp_handles.specs.State.{State};
ghost use Rattle.sftp_handles.specs.Allowed.{Allowed};
ghost use Rattle.sftp_shared.specs.Sharing.{left_by};
ghost use Rattle.sftp_answers.specs.Histories.{happened, HaveTheirIds};

/// If a server answers each request before it takes the next one, what it does is what happens, each client's session
/// takes turns, and each keeps the window.
pub fn answers_at_once_are_in_turn()
    ensures deeds { (deeds : List Deed) → HaveTheirIds deeds → deeds_of (happened deeds) ≡ deeds }
    ensures turns { (client : ℕ) (deeds : List Deed) → HaveTheirIds deeds →
        Matching (events_of client (happened deeds)) }
    ensures window { (client : ℕ) (deeds : List Deed) → HaveTheirIds deeds →
        IsTrue (in_window (events_of client (happened deeds))) }
{}

/// What is done later is added behind, to what happens and to the run.
pub fn deeds_go_on()
    ensures run { (deeds more : List Deed) (start mid end : State) → RunTogether Allowed left_by start deeds mid →
        RunTogether Allowed left_by mid more end → RunTogether Allowed left_by start (deeds ++ more) end }
    ensures happened { (deeds more : List Deed) → happened (deeds ++ more) ≡ happened deeds ++ happened more }
{}
