//! Laws of the steps of a session, as theorems on the definitions that the contracts name. The functions do nothing;
//! each promise is in the contract.
ghost use Rattle.std.specs.Prelude.{◌≡◌, ◌↔◌, ◌<◌, not, ℕ, List, [], ◌∷◌, Some, None, IsTrue};
ghost use Rattle.sftp_packets.specs.declared.requests.Ask.{Ask};
ghost use Rattle.sftp_packets.specs.declared.packets.Request.{Request};
ghost use Rattle.sftp_packets.specs.declared.packets.Reply.{Reply};
ghost use Rattle.sftp_packets.specs.declared.packets.Packet.TheVariants.{Request as request_packet};
ghost use Rattle.sftp_packets.specs.Packets.{HasSpelling};
ghost use Rattle.sftp_packets.specs.Layouts.{IsAsk};
ghost use Rattle.sftp_treefile.specs.TreeFileParts.{AreRaised};
ghost use Rattle.sftp_tree.specs.declared.file_contents.Content.{Content};
ghost use Rattle.sftp_tree.specs.declared.causes.Cause.TheVariants.{NoRoom};
ghost use Rattle.sftp_tree.specs.Tree.{Tree, IsKept, HasFile, fits, limits, content_fits, with_content};
ghost use Rattle.sftp_tree.specs.PlaceCauses.{is_none};
ghost use Rattle.sftp_tree.specs.Requests.{plain_causes};
ghost use Rattle.sftp_path.specs.Place.{Name, name_cmp};
ghost use Rattle.sftp_path.specs.Table.{InOrder, without};
ghost use Rattle.sftp_handles.specs.declared.opens.Open.{Open};
ghost use Rattle.sftp_handles.specs.State.{Left, open_at, with_open, times_open};
ghost use Rattle.sftp_handles.specs.Replies.{struck};
ghost use Rattle.sftp_handles.specs.RequestRows.{has_file_room};
ghost use Rattle.sftp_handles.specs.State.{State, Good, settled, has_handle_left, handles_fit, state_fits};
ghost use Rattle.sftp_handles.specs.Allowed.{causes};
ghost use Rattle.sftp_handles.specs.Allowed.{Allowed, step};
ghost use Rattle.sftp_handles.specs.Clash.{IsAskable, IsAnswerable, is_opening, asked_state, IsOpenedBy};

use sftp_tree::laws::walks_give_places;

/// A state, a request and its reply fix the state after them.
pub fn one_end()
    ensures { (s : State) (request : Request) (reply : Reply) (a b : State) →
        Allowed s request reply a → Allowed s request reply b → a ≡ b }
{}

/// A reply is allowed exactly if it has the id of the request and the function of steps gives a state for its answer,
/// which is then the state after it.
pub fn steps_decide()
    ensures { (s : State) (request : Request) (reply : Reply) (end : State) →
        Allowed s request reply end
        ↔ ((reply.id ≡ request.id) × (step s request.ask reply.answer ≡ Some end)) }
{}

/// A step from a good state leads to a good state, if the bytes of the request are bytes and the numbers of an owner
/// have 32 bits, as in every value of the code.
pub fn good_stays_good()
    ensures { (s : State) (request : Request) (reply : Reply) (end : State) → Good s → IsAsk request.ask →
        Allowed s request reply end → Good end }
{
    walks_give_places();
}

/// A session starts in a good state. On a tree without pins it starts with that tree.
pub fn sessions_start_good()
    ensures good { (t : Tree) → IsKept t → Good (settled t []) }
    ensures same { (t : Tree) → IsKept t → t.pins ≡ [] → settled t [] ≡ record { tree = t; handles = [] } }
{}

/// In a good state each request has a reply that is allowed and that can be encoded.
pub fn some_reply()
    ensures { (s : State) (request : Request) → Good s → IsAskable request → IsAnswerable s request }
{
    walks_give_places();
}

/// Each request that can be encoded can be asked: so `some_reply` holds of it.
pub fn encoded_requests_are_askable()
    ensures { (request : Request) → HasSpelling (request_packet request) → IsAskable request }
{}

/// A good state is settled: its files are pinned as they are open, and each has a name or is open.
pub fn good_states_are_settled()
    ensures settled { (s : State) → Good s → settled s.tree s.handles ≡ s }
    ensures open_files { (s : State) (number : ℕ) → Good s → 0 < times_open s.handles number →
        HasFile s.tree.files number }
{}

/// A tree within the limits is within them after a file got another content exactly if there is room for that: so what
/// a request through a handle sees, the limits and how many bytes all files have say whether there is. With limits of
/// the first two openings the content alone decides.
pub fn room_is_of_the_content()
    ensures all { (t : Tree) (number : ℕ) (next : Content) → IsKept t →
        IsTrue (fits (record t { files = with_content t.files number next }))
        ↔ IsTrue (has_file_room t number next) }
    ensures narrow { (t : Tree) (number : ℕ) (next : Content) → IsKept t → AreRaised (limits t) →
        IsTrue (fits (record t { files = with_content t.files number next }))
        ↔ IsTrue (content_fits (limits t) next) }
{}

/// Striking names all at once is striking one after the other.
pub fn names_are_struck_one_by_one()
    ensures none { (left : Left) → struck left [] ≡ left }
    ensures first { (left : Left) (name : Name) (names : List Name) → InOrder name_cmp left →
        struck left (name ∷ names) ≡ struck (without name_cmp left name) names }
{}

/// One more handle may be opened exactly if the state with a new handle, whichever it is, has not too many. A request
/// that opens something, and that no other cause refuses, has the cause `NoRoom` exactly if the state that it asks for
/// breaks a limit.
pub fn handles_have_room()
    ensures left { (s : State) (handle : List ℕ) (it : Open) → open_at s.handles handle ≡ None →
        has_handle_left s
        ≡ handles_fit (record { tree = s.tree; handles = with_open s.handles handle it }) }
    ensures opening { (s : State) (ask : Ask) (handle : List ℕ) (it : Open) → IsTrue (is_opening ask) →
        IsTrue (is_none (plain_causes s.tree ask)) → open_at s.handles handle ≡ None →
        causes s ask NoRoom ≡ not (state_fits (asked_state s ask handle it)) }
{}

/// A request that opens something, and that no cause refuses, opens a file or a listing under the handle that its reply
/// gives.
pub fn handles_open_something()
    ensures { (s : State) (ask : Ask) (handle : List ℕ) → Good s → IsTrue (is_opening ask) →
        IsTrue (is_none (causes s ask)) → (it : Open) × IsOpenedBy s ask handle it }
{
    walks_give_places();
}
