//! Laws of open files, as theorems on the definitions that the contracts name. The functions do nothing; each promise
//! is in the contract.
ghost use Rattle.std.specs.Prelude.{◌≡◌, ◌≢◌, ◌<◌, ◌+◌, ◌-◌, ℕ, List, [], take, drop, length, IsTrue};
ghost use Rattle.std.specs.Ordering.{nat_cmp};
ghost use Rattle.sftp_packets.specs.declared.attributes.Attrs.{Attrs};
ghost use Rattle.sftp_path.specs.Table.{InOrder};
ghost use Rattle.sftp_packets.specs.Layouts.{IsAttrs};
ghost use Rattle.sftp_treefile.specs.TreeFile.{are_bytes};
ghost use Rattle.sftp_tree.specs.Tree.{Tree, Pins, WellFormed, IsKept, HasFile};
ghost use Rattle.sftp_tree.specs.Tree.{times_pinned, is_pinned, with_pin, without_pin};
ghost use Rattle.sftp_tree.specs.Attributes.{resized};
ghost use Rattle.sftp_tree.specs.Changes.{written, write_fits, after_write, after_set, after_pin, after_unpin};
ghost use Rattle.sftp_tree.specs.Room.{size_fits};

/// A pin more or less of one file is no pin more or less of another.
pub fn pins_are_counted()
    ensures pinned { (pins : Pins) (number : ℕ) → InOrder nat_cmp pins →
        times_pinned (with_pin pins number) number ≡ times_pinned pins number + 1 }
    ensures pinned_elsewhere { (pins : Pins) (number other : ℕ) → InOrder nat_cmp pins → other ≢ number →
        times_pinned (with_pin pins number) other ≡ times_pinned pins other }
    ensures unpinned { (pins : Pins) (number : ℕ) → InOrder nat_cmp pins →
        times_pinned (without_pin pins number) number ≡ times_pinned pins number - 1 }
    ensures unpinned_elsewhere { (pins : Pins) (number other : ℕ) → InOrder nat_cmp pins → other ≢ number →
        times_pinned (without_pin pins number) other ≡ times_pinned pins other }
{}

/// The pins of two trees are equal if each file has as many. A file that is pinned exists.
pub fn pins_are_one()
    ensures exist { (t : Tree) (number : ℕ) → WellFormed t → IsTrue (is_pinned t.pins number) →
        HasFile t.files number }
    ensures one { (t u : Tree) → WellFormed t → WellFormed u →
        ((number : ℕ) → times_pinned t.pins number ≡ times_pinned u.pins number) → t.pins ≡ u.pins }
{}

/// What is done to open files leaves a tree within the limits.
pub fn open_files_keep()
    ensures write { (t : Tree) (number offset : ℕ) (new : List ℕ) → IsKept t → IsTrue (are_bytes new) →
        IsTrue (write_fits t number offset new) → IsKept (after_write t number offset new) }
    ensures set { (t : Tree) (number : ℕ) (attrs : Attrs) → IsKept t → IsAttrs attrs → HasFile t.files number →
        IsTrue (size_fits t number attrs.size) → IsKept (after_set t number attrs) }
    ensures pin { (t : Tree) (number : ℕ) → IsKept t → HasFile t.files number → IsKept (after_pin t number) }
    ensures unpin { (t : Tree) (number : ℕ) → IsKept t → HasFile t.files number → IsKept (after_unpin t number) }
{}

/// After a WRITE of some bytes a file has them at their offset; before them it has what it had, with zeros where that
/// ends, and after them what it had there.
pub fn writes_are_read()
    ensures before { (offset : ℕ) (new bytes : List ℕ) → 0 < length new →
        take offset (written offset new bytes) ≡ resized offset bytes }
    ensures there { (offset : ℕ) (new bytes : List ℕ) → 0 < length new →
        take (length new) (drop offset (written offset new bytes)) ≡ new }
    ensures behind { (offset : ℕ) (new bytes : List ℕ) → 0 < length new →
        drop (offset + length new) (written offset new bytes) ≡ drop (offset + length new) bytes }
    ensures nothing { (offset : ℕ) (bytes : List ℕ) → written offset [] bytes ≡ bytes }
{}
