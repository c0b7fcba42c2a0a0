//! Laws of several clients on one tree, as theorems on the definitions. The functions do nothing; each promise is in
//! the contract.
ghost use Rattle.std.specs.Prelude.{◌≡◌, ◌≢◌, ◌<◌, ◌^◌, ℕ, List, None, IsTrue};
ghost use Rattle.sftp_packets.specs.declared.packets.Request.{Request};
ghost use Rattle.sftp_packets.specs.declared.packets.Reply.{Reply};
ghost use Rattle.sftp_packets.specs.Layouts.{IsAsk};
ghost use Rattle.sftp_transcript.specs.Explained.{Explained, Run, leading_pairs, exchanges_of, in_window};
ghost use Rattle.sftp_handles.specs.State.{State, Good, open_at};
ghost use Rattle.sftp_handles.specs.Allowed.{Allowed};
ghost use Rattle.sftp_joint.specs.Joint.{joint_handle, joint_request, joint_reply, Moment, merged, HaveIds};
ghost use Rattle.sftp_joint.specs.Joint.{ExplainedTogether, exchanges_together};
ghost use Rattle.sftp_joint.specs.Translated.{Inside, inner, outer, AreTranslated, nothing_stands};
ghost use Rattle.sftp_joint.specs.Deeds.{Deed, RunTogether, WasGiven, AreAsked, IsQuiet, deeds_of, happenings_of};
ghost use Rattle.sftp_shared.specs.Sharing.{left_by};
ghost use Rattle.sftp_shared.specs.Leaving.{IsClosing};

use sftp_handles::laws::good_stays_good;

/// What one client does changes nothing of what is open under another one's handles.
pub fn handles_are_kept_apart()
    ensures { (s end : State) (client other : ℕ) (handle : List ℕ) (request : Request) (reply : Reply) → Good s →
        client < 2 ^ 32 → other < 2 ^ 32 → other ≢ client →
        Allowed s (joint_request other request) (joint_reply other reply) end →
        open_at end.handles (joint_handle client handle) ≡ open_at s.handles (joint_handle client handle) }
{
    good_stays_good();
}

/// In a run from a state in which nothing is open under a client's names, what is open under one of them was given to
/// that client: nobody reaches what another one opened.
pub fn handles_were_given()
    ensures { (s end : State) (deeds : List Deed) (client : ℕ) (handle : List ℕ) → Good s → client < 2 ^ 32 →
        AreAsked deeds → open_at s.handles (joint_handle client handle) ≡ None →
        RunTogether Allowed left_by s deeds end → open_at end.handles (joint_handle client handle) ≢ None →
        WasGiven client handle deeds }
{
    good_stays_good();
}

/// Whatever other clients do, and whichever of them leave, what is open under a client's handles stays.
pub fn others_leave_handles_open()
    ensures { (s end : State) (deeds : List Deed) (client : ℕ) (handle : List ℕ) → Good s → client < 2 ^ 32 →
        AreAsked deeds → IsQuiet client deeds → RunTogether Allowed left_by s deeds end →
        open_at end.handles (joint_handle client handle) ≡ open_at s.handles (joint_handle client handle) }
{
    good_stays_good();
}

/// When a client leaves, its handles are closed, those of others stay, and the state stays good.
pub fn leaving_closes_handles()
    ensures own { (s : State) (client : ℕ) (handle : List ℕ) → Good s →
        open_at (left_by client s).handles (joint_handle client handle) ≡ None }
    ensures others { (s : State) (client other : ℕ) (handle : List ℕ) → Good s → client < 2 ^ 32 → other < 2 ^ 32 →
        client ≢ other →
        open_at (left_by client s).handles (joint_handle other handle) ≡ open_at s.handles (joint_handle other handle) }
    ensures good { (s : State) (client : ℕ) → Good s → Good (left_by client s) }
{}

/// If a client leaves, that is as if each of its handles were closed by a CLOSE and answered by OK.
pub fn leaving_is_closing()
    ensures { (s : State) (client : ℕ) → Good s → IsClosing s client }
{}

/// If the joint session is explained, the clients' sessions are explained together. The converse holds if the joint
/// session keeps the window.
pub fn joint_sessions_are_explained_together()
    ensures together { (start end : State) (moments : List Moment) → HaveIds moments →
        Explained Allowed start (merged moments) end → ExplainedTogether Allowed start moments end }
    ensures joint { (start end : State) (moments : List Moment) → HaveIds moments →
        ExplainedTogether Allowed start moments end → IsTrue (in_window (merged moments)) →
        Explained Allowed start (merged moments) end }
{}

/// A run in which no client leaves is a run of the joint session's requests.
pub fn runs_without_leaves_are_joint()
    ensures { (s end : State) (moments : List Moment) →
        RunTogether Allowed left_by s (deeds_of (happenings_of moments)) end →
        Run Allowed s (leading_pairs (exchanges_together moments)) end }
{}

/// What a session inside runs, whose ids stand for clients and their ids, is a run of the clients' sessions.
pub fn translated_runs_are_of_clients()
    ensures { (insides : List Inside) (table : ℕ → _) (s end : State) →
        AreTranslated nothing_stands insides table →
        Run Allowed s (leading_pairs (exchanges_of (inner insides))) end →
        Run Allowed s (leading_pairs (exchanges_together (outer insides))) end }
{}
