//! Laws of requests that keep to ranges of one file, as theorems on the definitions of steps. The functions do nothing;
//! each promise is in the contract.
ghost use Rattle.std.specs.Prelude.{◌≡◌, ◌≢◌, ◌≤◌, ◌+◌, ◌⊎◌, ◌&&◌, not, ℕ, List, length, take, drop, Some, false};
ghost use Rattle.sftp_packets.specs.declared.requests.Ask.{Ask};
ghost use Rattle.sftp_packets.specs.declared.packets.Request.{Request};
ghost use Rattle.sftp_packets.specs.declared.packets.Reply.{Reply};
ghost use Rattle.sftp_packets.specs.Layouts.{IsAsk};
ghost use Rattle.sftp_treefile.specs.TreeFileParts.{AreRaised};
ghost use Rattle.sftp_tree.specs.Tree.{limits};
ghost use Rattle.sftp_tree.specs.Changes.{written};
ghost use Rattle.sftp_handles.specs.declared.byte_range.ByteRange.{ByteRange};
ghost use Rattle.sftp_handles.specs.State.{State, Good};
ghost use Rattle.sftp_handles.specs.Allowed.{Allowed};
ghost use Rattle.sftp_handles.specs.Clash.{reads_file, writes_file, everything, share, touched};
ghost use Rattle.sftp_handles.specs.Clash.{clash, ComesFirst};
ghost use Rattle.sftp_handles.specs.Clash.{range, may_resize, are_apart, range_clash};

use crate::laws::good_stays_good;

/// In a good state, two requests that do not conflict there, ranges compared, may change places: the same replies are
/// allowed, and the end is the same (draft-ietf-secsh-filexfer-02, section 6.1).
pub fn ranged_requests_change_places()
    ensures { (s mid end : State) (request other : Request) (reply other_reply : Reply) → Good s →
        IsAsk request.ask → IsAsk other.ask → range_clash s request other ≡ false → Allowed s other other_reply mid →
        Allowed mid request reply end → ComesFirst s request other reply other_reply end }
{
    good_stays_good();
}

/// A request that does not conflict with a later one, ranges compared, makes no earlier one conflict with that later
/// one. All conflicts do not stay: a WRITE past the end of a file makes other requests on that file keep to ranges
/// within it.
pub fn no_range_clash_arises()
    ensures { (s end : State) (request earlier later : Request) (reply : Reply) → Good s → IsAsk request.ask →
        range_clash s request later ≡ false → range_clash s earlier later ≡ false → Allowed s request reply end →
        range_clash end earlier later ≡ false }
{}

/// After a request that does not touch everything, and that cannot change the length of its file, every request keeps
/// to the range that it kept to before. After any request, those keep to their ranges that share nothing with it.
pub fn ranges_stay()
    ensures all { (s end : State) (request : Request) (reply : Reply) (ask : Ask) →
        touched s request.ask ≢ everything → may_resize (touched s request.ask) (range s request.ask) ≡ false →
        Allowed s request reply end → range end ask ≡ range s ask }
    ensures others { (s end : State) (request : Request) (reply : Reply) (ask : Ask) →
        share (touched s request.ask) (touched s ask) ≡ false → Allowed s request reply end →
        range end ask ≡ range s ask }
{}

/// A request that keeps to a range of a file reads that file or writes it, and touches nothing else.
pub fn ranges_are_of_files()
    ensures { (s : State) (ask : Ask) (at : ByteRange) → range s ask ≡ Some at →
        (touched s ask ≡ reads_file at.number) ⊎ (touched s ask ≡ writes_file at.number) }
{}

/// With limits of the first two openings two requests conflict, ranges compared, exactly if they share what they touch,
/// do not both only read it, and do not keep to ranges of one file that do not meet.
pub fn narrow_ranges_share_no_room()
    ensures { (s : State) (request other : Request) → AreRaised (limits s.tree) →
        range_clash s request other
        ≡ (share (touched s request.ask) (touched s other.ask)
        && not (are_apart (range s request.ask) (range s other.ask))) }
{}

/// Whether two requests conflict, ranges compared, does not depend on their order.
pub fn range_clash_is_mutual()
    ensures { (s : State) (request other : Request) → range_clash s request other ≡ range_clash s other request }
{}

/// Requests that do not conflict do not conflict with ranges compared either.
pub fn ranges_only_free()
    ensures { (s : State) (request other : Request) → clash s request other ≡ false →
        range_clash s request other ≡ false }
{}

/// A WRITE that ends within a file keeps its length and the bytes before and behind; two of them may change places if
/// the first ends where the second starts, or before.
pub fn writes_within_a_file()
    ensures sized { (offset : ℕ) (bytes before : List ℕ) → offset + length bytes ≤ length before →
        length (written offset bytes before) ≡ length before }
    ensures in_front { (offset : ℕ) (bytes before : List ℕ) (start count : ℕ) →
        offset + length bytes ≤ length before → start + count ≤ offset →
        take count (drop start (written offset bytes before)) ≡ take count (drop start before) }
    ensures behind { (offset : ℕ) (bytes before : List ℕ) (start : ℕ) → offset + length bytes ≤ length before →
        offset + length bytes ≤ start → drop start (written offset bytes before) ≡ drop start before }
    ensures twice { (offset : ℕ) (bytes : List ℕ) (other : ℕ) (more before : List ℕ) →
        offset + length bytes ≤ other → other + length more ≤ length before →
        written offset bytes (written other more before) ≡ written other more (written offset bytes before) }
{}
