//! Theorems about encodings, as contracts of functions with empty bodies.
ghost use Rattle.std.specs.Prelude.{◌≡◌, List, ℕ, ◌++◌};
ghost use Rattle.sftp_packets.specs.declared.packets.Packet.{Packet};
ghost use Rattle.sftp_packets.specs.Packets.{HasSpelling, spelling};

/// No packet's encoding begins another's, of either side: where two equal streams begin with the encodings of two
/// packets, the packets are equal, and so is what follows them. So a stream is cut into packets in one way only.
#[tactic(auto, using(crate::proofs::StreamLaws::front_laws))]
pub fn spellings_are_apart()
    ensures { (p q : Packet) (x y : List ℕ) → HasSpelling p → HasSpelling q → spelling p ++ x ≡ spelling q ++ y
        → (p ≡ q) × (x ≡ y) }
{}
