//! How each change of a tree bears on each of its limits, as theorems on the definitions that the contracts name. The
//! functions do nothing; each promise is in the contract. A limit that a law does not name holds after the change
//! exactly if it held before.
ghost use Rattle.std.specs.Prelude.{◌≡◌, ◌==◌, ◌+◌, ◌&&◌, ◌||◌, nat_le, ℕ, true, false, List, [], Some, None, length};
ghost use Rattle.std.specs.Prelude.{IsTrue};
ghost use Rattle.std.specs.List.{list_all};
ghost use Rattle.sftp_path.specs.Place.{Place, place_cmp};
ghost use Rattle.sftp_path.specs.Table.{InOrder};
ghost use Rattle.sftp_path.specs.Table.{renamed, NothingFrom};
ghost use Rattle.sftp_treefile.specs.TreeFile.{usual_limits, highest_limits, numbers};
ghost use Rattle.sftp_treefile.specs.declared.limits.TreeLimits.{TreeLimits};
ghost use Rattle.sftp_treefile.specs.TreeFileParts.{AreRaised};
ghost use Rattle.sftp_tree.specs.declared.file_contents.Content.{Content};
ghost use Rattle.sftp_tree.specs.declared.nodes.Node.{Node};
ghost use Rattle.sftp_packets.specs.declared.attributes.Attrs.{Attrs};
ghost use Rattle.sftp_tree.specs.Tree.{Tree, IsKept, HasFile};
ghost use Rattle.sftp_tree.specs.Tree.{limits, told_limits, fits, entries_fit, depths_fit, home_fits, links_fit};
ghost use Rattle.sftp_tree.specs.Tree.{files_fit, total_fits, numbers_fit, depth_fits, link_fits, content_fits};
ghost use Rattle.sftp_tree.specs.Tree.{node_at, with_node, without_node, content_at, with_content};
ghost use Rattle.sftp_tree.specs.Changes.{moved};
ghost use Rattle.sftp_tree.specs.Changes.{write_fits, after_write, after_set};
ghost use Rattle.sftp_tree.specs.Room.{has_room, size_fits};

/// A tree is within the limits exactly if it is within each of them.
pub fn limits_are_seven()
    ensures entries { (t : Tree) → IsTrue (fits t) → IsTrue (entries_fit t) }
    ensures depths { (t : Tree) → IsTrue (fits t) → IsTrue (depths_fit t) }
    ensures home { (t : Tree) → IsTrue (fits t) → IsTrue (home_fits t) }
    ensures links { (t : Tree) → IsTrue (fits t) → IsTrue (links_fit t) }
    ensures files { (t : Tree) → IsTrue (fits t) → IsTrue (files_fit t) }
    ensures total { (t : Tree) → IsTrue (fits t) → IsTrue (total_fits t) }
    ensures numbers { (t : Tree) → IsTrue (fits t) → IsTrue (numbers_fit t) }
    ensures all { (t : Tree) → IsTrue (entries_fit t) → IsTrue (depths_fit t) → IsTrue (home_fits t) →
        IsTrue (links_fit t) → IsTrue (files_fit t) → IsTrue (total_fits t) →
        IsTrue (numbers_fit t) → IsTrue (fits t) }
{}

/// The bound of entries is that of the tree: with 65,537 places, the root among them, a tree with the usual limits is
/// full, and one with the highest has room. That is full with 1,048,577.
pub fn room_by_limits()
    ensures usual { (t : Tree) (place : Place) → limits t ≡ usual_limits → length t.names ≡ 65537 →
        has_room t place ≡ false }
    ensures highest { (t : Tree) → limits t ≡ highest_limits → length t.names ≡ 65537 → has_room t [] ≡ true }
    ensures full { (t : Tree) (place : Place) → limits t ≡ highest_limits → length t.names ≡ 1048577 →
        has_room t place ≡ false }
{}

/// With an entry at a free place.
pub fn limits_with_an_entry()
    ensures entries { (t : Tree) (place : Place) (it : Node) → node_at t.names place ≡ None →
        entries_fit (record t { names = with_node t.names place it }) ≡ nat_le (length t.names) (limits t).entries }
    ensures depths { (t : Tree) (place : Place) (it : Node) → node_at t.names place ≡ None →
        depths_fit (record t { names = with_node t.names place it }) ≡ (depth_fits place && depths_fit t) }
    ensures links { (t : Tree) (place : Place) (it : Node) → node_at t.names place ≡ None →
        links_fit (record t { names = with_node t.names place it }) ≡ (link_fits it && links_fit t) }
{}

/// With another node at a taken place.
pub fn limits_with_another_entry()
    ensures entries { (t : Tree) (place : Place) (before it : Node) → InOrder place_cmp t.names →
        node_at t.names place ≡ Some before →
        entries_fit (record t { names = with_node t.names place it }) ≡ entries_fit t }
    ensures depths { (t : Tree) (place : Place) (before it : Node) → node_at t.names place ≡ Some before →
        depths_fit (record t { names = with_node t.names place it }) ≡ depths_fit t }
    ensures links { (t : Tree) (place : Place) (it : Node) → IsTrue (links_fit t) → IsTrue (link_fits it) →
        IsTrue (links_fit (record t { names = with_node t.names place it })) }
{}

/// With one entry less.
pub fn limits_without_an_entry()
    ensures entries { (t : Tree) (place : Place) → IsTrue (entries_fit t) →
        IsTrue (entries_fit (record t { names = without_node t.names place })) }
    ensures depths { (t : Tree) (place : Place) → IsTrue (depths_fit t) →
        IsTrue (depths_fit (record t { names = without_node t.names place })) }
    ensures links { (t : Tree) (place : Place) → IsTrue (links_fit t) →
        IsTrue (links_fit (record t { names = without_node t.names place })) }
{}

/// With the node at a place, and all below it, moved to a free place.
pub fn limits_after_a_move()
    ensures entries { (t : Tree) (old new : Place) → InOrder place_cmp t.names → NothingFrom t.names new →
        entries_fit (moved t old new) ≡ entries_fit t }
    ensures depths { (t : Tree) (old new : Place) → InOrder place_cmp t.names → NothingFrom t.names new →
        depths_fit (moved t old new) ≡ list_all (λ e. depth_fits (renamed old new e.0)) t.names }
    ensures links { (t : Tree) (old new : Place) → InOrder place_cmp t.names → NothingFrom t.names new →
        links_fit (moved t old new) ≡ links_fit t }
{}

/// With a file of a new number, or with another content of a file.
pub fn limits_of_files()
    ensures new { (t : Tree) (number : ℕ) (content : Content) → content_at t.files number ≡ None →
        files_fit (record t { files = with_content t.files number content })
        ≡ (content_fits (limits t) content && files_fit t) }
    ensures again { (t : Tree) (number : ℕ) (content : Content) → IsTrue (files_fit t) →
        IsTrue (content_fits (limits t) content) →
        IsTrue (files_fit (record t { files = with_content t.files number content })) }
{}

/// With another content of a file after a WRITE or an FSETSTAT: only the file's size bears on a limit, that of a file
/// and that of all.
pub fn limits_of_open_files()
    ensures write { (t : Tree) (number offset : ℕ) (new : List ℕ) → IsKept t → HasFile t.files number →
        fits (after_write t number offset new) ≡ write_fits t number offset new }
    ensures set { (t : Tree) (number : ℕ) (attrs : Attrs) → IsKept t → HasFile t.files number →
        fits (after_set t number attrs) ≡ size_fits t number attrs.size }
{}

/// A tree with limits of the first two openings has no limit on all its files: a WRITE and an FSETSTAT keep to the
/// limits exactly if they keep to that of a file.
pub fn narrow_trees_have_no_total()
    ensures write { (t : Tree) (number offset : ℕ) (new : List ℕ) → IsKept t → AreRaised (limits t) →
        write_fits t number offset new ≡ (length new == 0 || nat_le (offset + length new) (limits t).file_bytes) }
    ensures set { (t : Tree) (number size : ℕ) → IsKept t → AreRaised (limits t) →
        size_fits t number (Some size) ≡ nat_le size (limits t).file_bytes }
    ensures told { (l : TreeLimits) → AreRaised l → told_limits l ≡ numbers l }
{}
