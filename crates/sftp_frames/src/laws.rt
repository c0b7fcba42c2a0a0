//! Laws of frames, as theorems on the definitions. The functions do nothing; each promise is in the contract.
ghost use Rattle.std.specs.Prelude.{◌≡◌, ◌==◌, ◌||◌, ◌<◌, ◌≤◌, List, [], ◌∷◌, ◌++◌, ℕ, true, false};
ghost use Rattle.std.specs.Prelude.{if◌then◌else◌};
ghost use Rattle.sftp_frames.specs.Frames.{Frame, stream_of, is_ended, ends_stream, begins, next_client, AreInTime};
ghost use Rattle.sftp_frames.specs.Fronts.{BeginsWithFrame, IsPart, IsTooLong};

/// Bytes begin with at most one frame. Those that begin with one are no part of one, and none begins a frame that is
/// too long.
pub fn fronts_are_apart()
    ensures one { (bytes : List ℕ) (frame other : Frame) → BeginsWithFrame bytes frame → BeginsWithFrame bytes other →
        frame ≡ other }
    ensures whole { (bytes : List ℕ) (frame : Frame) → BeginsWithFrame bytes frame → IsPart bytes → ⊥ }
    ensures fits { (bytes : List ℕ) (frame : Frame) → BeginsWithFrame bytes frame → IsTooLong bytes → ⊥ }
    ensures part { (bytes : List ℕ) → IsPart bytes → IsTooLong bytes → ⊥ }
{}

/// One more frame adds its bytes to the stream of its client, unless that has ended; without bytes it ends the stream.
/// Frames stay in time as long as the stream of the next one has not ended.
pub fn streams_grow_by_frames()
    ensures bytes { (client : ℕ) (frames : List Frame) (frame : Frame) →
        stream_of client (frames ++ frame ∷ []) ≡ stream_of client frames
        ++ (if is_ended client frames then [] else if frame.0 == client then frame.1 else []) }
    ensures ends { (client : ℕ) (frames : List Frame) (frame : Frame) →
        is_ended client (frames ++ frame ∷ []) ≡ (is_ended client frames || ends_stream client frame) }
    ensures in_time { (frames : List Frame) (frame : Frame) → AreInTime frames → is_ended frame.0 frames ≡ false →
        AreInTime (frames ++ frame ∷ []) }
{}

/// A stream begins with a frame whose number is higher than all before, and with no other one; and it has begun from
/// then on.
pub fn streams_begin_in_order()
    ensures new { (client : ℕ) (frames : List Frame) (bytes : List ℕ) → next_client frames ≤ client →
        (begins client frames ≡ false) × (begins client (frames ++ (client, bytes) ∷ []) ≡ true) }
    ensures late { (client : ℕ) (frames : List Frame) (frame : Frame) → client < next_client frames →
        begins client frames ≡ false → begins client (frames ++ frame ∷ []) ≡ false }
    ensures still { (client : ℕ) (frames : List Frame) (frame : Frame) → begins client frames ≡ true →
        begins client (frames ++ frame ∷ []) ≡ true }
    ensures other { (client : ℕ) (frames : List Frame) (frame : Frame) → (frame.0 == client) ≡ false →
        begins client (frames ++ frame ∷ []) ≡ begins client frames }
{}
