//! Laws of sessions, as theorems on the definitions. The functions do nothing; each promise is in the contract.
ghost use Rattle.std.specs.Prelude.{◌≡◌, ◌≢◌, ◌↔◌, ℕ, List, length};
ghost use Rattle.sftp_transcript.specs.declared.errors.TranscriptError.{TranscriptError};
ghost use Rattle.sftp_transcript.specs.declared.errors.TranscriptError.TheVariants.{NoMemory};
ghost use Rattle.sftp_transcript.specs.declared.events.Event.{Event};
ghost use Rattle.sftp_transcript.specs.Sound.{FaultAfter};
ghost use Rattle.sftp_transcript.specs.Explained.{Matching, exchanges_of, leading_pairs, window};
ghost use Rattle.sftp_transcript.specs.Sound.{InTurn, IsWaiting};

use crate::events::WINDOW;

/// Where requests and replies of each id take turns, each request has a reply, so that a session's run goes
/// over all of them.
pub fn each_request_runs()
    ensures { (events : List Event) → Matching events →
        length (leading_pairs (exchanges_of events)) ≡ length (exchanges_of events) }
{}

/// Requests and replies of each id take turns up to the end exactly if they take turns so far and no request waits. So
/// events are explained exactly if they are sound and no request waits, as a run and the window are the same in both.
pub fn sound_and_settled_is_explained()
    ensures { (events : List Event) →
        Matching events ↔ (InTurn events × ((id : ℕ) → IsWaiting events id → ⊥)) }
{}

/// Bytes have one first fault at most, unless memory runs out: it comes after one list of events, and it is one error.
pub fn one_fault()
    ensures { (bytes : List ℕ) (events others : List Event) (a b : TranscriptError) →
        FaultAfter bytes events a → FaultAfter bytes others b → a ≢ NoMemory → b ≢ NoMemory →
        (events ≡ others) × (a ≡ b) }
{}

/// The window is one number, in code and in the definitions.
pub fn one_window()
    ensures { WINDOW ≡ window }
{}
