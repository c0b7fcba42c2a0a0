//! Laws of sessions that are judged together, as theorems on the definitions that the contract of `audit_together`
//! names. The functions do nothing; each promise is in the contract.
ghost use Rattle.std.specs.Prelude.{◌≡◌, ℕ, List, [], ◌∷◌, map};
ghost use Rattle.sftp_transcript.specs.Explained.{Explained};
ghost use Rattle.sftp_together.specs.declared.exchanges.TimedExchange.{TimedExchange};
ghost use Rattle.sftp_together.specs.Sets.{AreExplained, TimedEvent, Placed, Rises, IsOrderOf, as_asked, event_of};

use sftp_judges::Judges;

/// A set of one session is explained exactly if the session is, as an audit of it alone says, where no record has an
/// earlier time than the one before it. Its only order is the one in which it asked.
pub fn one_session_is_as_alone<J: Judges>()
    ensures alone { (start : J) (tolerance : ℕ) (events : List TimedEvent) (end : J) →
        AreExplained J.allowed start tolerance (events ∷ []) end →
        Explained J.allowed start (map event_of events) end }
    ensures together { (start : J) (tolerance : ℕ) (events : List TimedEvent) (end : J) → Rises events →
        Explained J.allowed start (map event_of events) end →
        AreExplained J.allowed start tolerance (events ∷ []) end }
    ensures order { (order : List Placed) (exchanges : List TimedExchange) → IsOrderOf (exchanges ∷ []) order →
        order ≡ as_asked exchanges }
{}
