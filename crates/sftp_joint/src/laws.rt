//! Laws of several sessions as one, as theorems on the definitions. The functions do nothing; each promise is in the
//! contract.
ghost use Rattle.std.specs.Prelude.{◌≡◌, ◌↔◌, ◌^◌, ◌<◌, ℕ, List, IsTrue, map};
ghost use Rattle.sftp_transcript.specs.Explained.{Matching, in_window, exchanges_of};
ghost use Rattle.sftp_joint.specs.Joint.{Moment, of_client, merged, exchanges_together, HaveIds};
ghost use Rattle.sftp_joint.specs.Joint.{exchanges_by, joint_exchanges, joint_id, joint_handle};
ghost use Rattle.sftp_joint.specs.Translated.{Inside, inner, outer, AreTranslated, nothing_stands, without_ids};

/// A joint id, where ids have 32 bits, is that of one client and of one of its ids; so is the name of a handle, where
/// numbers of clients have 32 bits.
pub fn joint_names_are_apart()
    ensures ids { (client id other next : ℕ) → id < 2 ^ 32 → next < 2 ^ 32 →
        joint_id client id ≡ joint_id other next → (client ≡ other) × (id ≡ next) }
    ensures handles { (client other : ℕ) (handle name : List ℕ) → client < 2 ^ 32 → other < 2 ^ 32 →
        joint_handle client handle ≡ joint_handle other name → (client ≡ other) × (handle ≡ name) }
{}

/// In the joint session requests and replies take turns exactly if they do in the session of each client.
pub fn turns_are_of_clients()
    ensures { (moments : List Moment) → HaveIds moments →
        Matching (merged moments) ↔ ((client : ℕ) → Matching (of_client client moments)) }
{}

/// If the joint session keeps the window, that of each client does.
pub fn windows_are_of_clients()
    ensures { (moments : List Moment) → HaveIds moments → IsTrue (in_window (merged moments)) →
        (client : ℕ) → IsTrue (in_window (of_client client moments)) }
{}

/// In the joint session each request is paired with the reply that its own client was given.
pub fn exchanges_are_of_clients()
    ensures { (moments : List Moment) → HaveIds moments → exchanges_of (merged moments) ≡ exchanges_together moments }
{}

/// Among the exchanges of the joint session, those of a client are those of its own session, request by request and
/// reply by reply.
pub fn each_client_has_its_replies()
    ensures { (client : ℕ) (moments : List Moment) → HaveIds moments → exchanges_by client
        (exchanges_of (merged moments)) ≡ joint_exchanges client (exchanges_of (of_client client moments)) }
{}

/// One session inside, whose ids stand for clients and their ids, has the exchanges of the clients' sessions, but for
/// the ids. Once nothing waits inside, each client's session takes turns up to its end.
pub fn translated_sessions_are_of_clients()
    ensures exchanges { (insides : List Inside) (end : ℕ → _) → AreTranslated nothing_stands insides end →
        map without_ids (exchanges_of (inner insides)) ≡ map without_ids (exchanges_together (outer insides)) }
    ensures turns { (insides : List Inside) → AreTranslated nothing_stands insides nothing_stands →
        (client : ℕ) → Matching (of_client client (outer insides)) }
{}
