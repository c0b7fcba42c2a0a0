//! Laws of the server's core, as theorems on the definitions. The functions do nothing; each promise is in the
//! contract.
ghost use Rattle.std.specs.Prelude.{◌≡◌, ◌≤◌, ℕ, List, [], IsTrue};
ghost use Rattle.sftp_transcript.specs.declared.events.Event.{Event};
ghost use Rattle.sftp_transcript.specs.Explained.{Explained, BeginsFrom, in_window, window as full_window};
ghost use Rattle.sftp_handles.specs.State.{State, Good};
ghost use Rattle.sftp_handles.specs.Allowed.{Allowed};
ghost use Rattle.sftp_server.specs.Machine.{Machine};
ghost use Rattle.sftp_packets.specs.declared.packets.Packet.{Packet};
ghost use Rattle.sftp_packets.specs.Packets.{HasSpelling};
ghost use Rattle.sftp_transcript.specs.Transcript.{IsRecord, IsVersion};
ghost use Rattle.sftp_tree.specs.Tree.{Tree};
ghost use Rattle.sftp_server.specs.Machine.{IsReached};
ghost use Rattle.sftp_server.specs.Served.{Setup, usual, IsOpened};
ghost use Rattle.sftp_server.specs.Left.{LeadsTo};

use sftp_handles::laws::{good_stays_good, some_reply};

/// Whatever acts a core does, from a good state with nothing asked: the events so far are the beginning of an explained
/// session, and once the queue is empty they are explained and end in the state of the core. The requests done so far
/// lead to that state, one at a time in the order asked. The window is never exceeded, and the state stays good.
pub fn sessions_are_explained()
    ensures begun { (start : State) (window : ℕ) (events : List Event) (core : Machine State) →
        Good start → window ≤ full_window → IsReached start window events core → BeginsFrom Allowed start events }
    ensures explained { (start : State) (window : ℕ) (events : List Event) (core : Machine State) →
        Good start → window ≤ full_window → IsReached start window events core → core.queue ≡ [] →
        Explained Allowed start events core.state }
    ensures done { (start : State) (window : ℕ) (events : List Event) (core : Machine State) →
        Good start → window ≤ full_window → IsReached start window events core →
        LeadsTo Allowed start events core.state }
    ensures in_window { (start : State) (window : ℕ) (events : List Event) (core : Machine State) →
        Good start → window ≤ full_window → IsReached start window events core → IsTrue (in_window events) }
    ensures good { (start : State) (window : ℕ) (events : List Event) (core : Machine State) →
        Good start → window ≤ full_window → IsReached start window events core → Good core.state }
{
    good_stays_good();
    some_reply();
}

/// The log of a session that was opened is the transcript of its events, whatever pairs its VERSION 3 announced.
pub fn logs_are_transcripts()
    ensures usual { (start : Tree) (input output log : List ℕ) (init : Packet) (events : List Event) (rest : List ℕ) →
        IsOpened (usual start) input output log init events rest → IsRecord events log }
    ensures announced { (start : Setup) (input output log : List ℕ) (init : Packet) (events : List Event)
        (rest : List ℕ) → IsVersion start.version → HasSpelling start.version →
        IsOpened start input output log init events rest → IsRecord events log }
{}
