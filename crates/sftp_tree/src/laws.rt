//! Laws of trees, as theorems on the definitions that the contracts name. The functions do nothing; each promise is in
//! the contract.
ghost use Rattle.std.specs.Prelude.{◌≡◌, ◌↔◌, ◌⊎◌, ◌<◌, ◌≤◌, ◌||◌, ℕ, Bool, if◌then◌else◌};
ghost use Rattle.std.specs.Prelude.{List, Some, None, Result, Ok, [], ◌∷◌, ◌++◌, true, false, IsTrue};
ghost use Rattle.sftp_packets.specs.declared.requests.Ask.{Ask};
ghost use Rattle.sftp_packets.specs.Requests.{FitsAsk};
ghost use Rattle.sftp_packets.specs.Layouts.{IsAsk};
ghost use Rattle.sftp_path.specs.Place.{Name, Place, name_cmp, parent, are_names, is_good_path};
ghost use Rattle.sftp_path.specs.Table.{InOrder, get};
ghost use Rattle.sftp_treefile.specs.TreeFile.{are_bytes};
ghost use Rattle.sftp_tree.specs.declared.causes.Cause.{Cause};
ghost use Rattle.sftp_tree.specs.declared.nodes.Node.TheVariants.{File};
ghost use Rattle.sftp_tree.specs.Tree.{Names, Tree, WellFormed, IsKept, IsTrimmed, limits, fits, is_directory, is_link};
ghost use Rattle.sftp_tree.specs.Tree.{node_at, content_at, times_named, times_pinned, is_named, is_pinned, is_held};
ghost use Rattle.sftp_tree.specs.Tree.{trimmed, trim};
ghost use Rattle.sftp_tree.specs.Walk.{walk, reached, looked, steps_of, looked_limit, link_limit};
ghost use Rattle.sftp_tree.specs.WalkRules.{Leads};
ghost use Rattle.sftp_tree.specs.Requests.{outcome, after, shown_at};
ghost use Rattle.sftp_tree.specs.Attributes.{listing};
ghost use Rattle.sftp_tree.specs.Told.{IsFree};

/// No request changes the limits of a tree.
pub fn limits_stay()
    ensures outcome { (t : Tree) (ask : Ask) → limits (outcome t ask) ≡ limits t }
    ensures after { (t : Tree) (ask : Ask) → limits (after t ask) ≡ limits t }
{}

/// A request that no cause refuses leaves a tree within the limits, if its bytes are bytes and the numbers of an owner
/// have 32 bits, as in every value of the code.
pub fn steps_keep()
    ensures { (t : Tree) (ask : Ask) → IsKept t → IsAsk ask → IsFree t ask → IsKept (after t ask) }
{
    walks_give_places();
}

/// The bytes of a request that can be encoded are bytes, and its numbers have their bits.
pub fn encoded_requests_are_values()
    ensures { (ask : Ask) → FitsAsk ask → IsAsk ask }
{}

/// In a tree with files that have no name and are not pinned, too: the request's change makes a tree within the limits.
pub fn outcomes_are_trees()
    ensures tree { (t : Tree) (ask : Ask) → WellFormed t → IsTrue (fits t) → IsAsk ask → IsFree t ask →
        WellFormed (outcome t ask) }
    ensures limits { (t : Tree) (ask : Ask) → WellFormed t → IsTrue (fits t) → IsAsk ask → IsFree t ask →
        IsTrue (fits (outcome t ask)) }
{
    walks_give_places();
}

/// A tree within the limits stays one when it is trimmed, if all that is pinned is held. A file stays if it has a name
/// or is held.
pub fn trees_are_trimmed()
    ensures tree { (t : Tree) (is_held : ℕ → Bool) →
        ((number : ℕ) → IsTrue (is_pinned t.pins number) → IsTrue (is_held number)) → WellFormed t →
        WellFormed (trimmed is_held t) }
    ensures limits { (t : Tree) (is_held : ℕ → Bool) → IsTrue (fits t) → IsTrue (fits (trimmed is_held t)) }
    ensures kept { (t : Tree) → WellFormed t → IsTrue (fits t) → IsKept (trim t) }
    ensures already { (t : Tree) → IsTrimmed t → trim t ≡ t }
    ensures files { (t : Tree) (is_held : ℕ → Bool) (number : ℕ) → WellFormed t →
        content_at (trimmed is_held t).files number
        ≡ (if is_named t.names number || is_held number then content_at t.files number else None) }
{}

/// The count of numbers given never falls, and the number of each file and of each name was given: so no number is
/// given twice.
pub fn numbers_are_never_given_again()
    ensures outcome { (t : Tree) (ask : Ask) → t.made ≤ (outcome t ask).made }
    ensures after { (t : Tree) (ask : Ask) → t.made ≤ (after t ask).made }
    ensures files { (t : Tree) (number : ℕ) → WellFormed t → t.made ≤ number → content_at t.files number ≡ None }
    ensures names { (t : Tree) (place : Place) (number : ℕ) → WellFormed t →
        node_at t.names place ≡ Some (File number) → number < t.made }
{}

/// After a request a number has no file exactly if the request's change leaves it none, or leaves the file no name and
/// no pin; any other file is as the change leaves it. No request changes how often files are pinned.
pub fn files_live_while_held()
    ensures gone { (t : Tree) (ask : Ask) (number : ℕ) → WellFormed t →
        (content_at (after t ask).files number ≡ None)
        ↔ ((content_at (outcome t ask).files number ≡ None)
        ⊎ ((times_named (outcome t ask).names number ≡ 0) × (times_pinned (outcome t ask).pins number ≡ 0))) }
    ensures left { (t : Tree) (ask : Ask) (number : ℕ) → WellFormed t →
        content_at (after t ask).files number
        ≡ (if is_held (outcome t ask) number then content_at (outcome t ask).files number else None) }
    ensures pins { (t : Tree) (ask : Ask) → (after t ask).pins ≡ t.pins }
{}

/// A listing has its names in order, each once. A name of it has the attributes that LSTAT shows of the node with that
/// name right below the place, and no other name has any.
pub fn listings_are_of_children()
    ensures order { (t : Tree) (place : Place) → WellFormed t → InOrder name_cmp (listing t place) }
    ensures shown { (t : Tree) (place : Place) (name : Name) → WellFormed t →
        get name_cmp (listing t place) name ≡ shown_at t (node_at t.names (place ++ name ∷ [])) }
{}

/// The function of walks leads where the rules of walks lead, and nowhere else.
pub fn walks_are_by_the_rules()
    ensures { (names : Names) (follow : Bool) (left : ℕ) (at : Place) (path : List Name) (answer : Result Place Cause) →
        Leads names follow left at path answer ↔ (walk names follow left at path ≡ answer) }
{}

/// In a tree within the limits, 84,032 components are the most that the walk of a good path looks at.
pub fn walks_end()
    ensures { (t : Tree) (follow : Bool) (path : List ℕ) → IsKept t → IsTrue (is_good_path path) →
        looked t.names follow link_limit [] (steps_of t path) ≤ looked_limit }
{}

/// A path leads to a place that is a list of names and whose parent is a directory. If a last link is followed, no link
/// is there.
pub fn walks_give_places()
    ensures names { (t : Tree) (follow : Bool) (path : List ℕ) (place : Place) → IsKept t → IsTrue (are_bytes path) →
        reached t follow path ≡ Ok place → IsTrue (are_names place) }
    ensures parent { (t : Tree) (follow : Bool) (path : List ℕ) (place : Place) → IsKept t → IsTrue (are_bytes path) →
        reached t follow path ≡ Ok place → IsTrue (is_directory (node_at t.names (parent place))) }
    ensures unlinked { (t : Tree) (path : List ℕ) (place : Place) → IsKept t → reached t true path ≡ Ok place →
        is_link (node_at t.names place) ≡ false }
{}
