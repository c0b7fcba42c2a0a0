//! Laws of what is open and of the pins that it gives files, as theorems on the definitions that the contracts name.
//! The functions do nothing; each promise is in the contract.
ghost use Rattle.std.specs.Prelude.{◌≡◌, ◌<◌, ℕ, List, Some, None};
ghost use Rattle.std.specs.Ordering.{nat_cmp};
ghost use Rattle.sftp_packets.specs.declared.open_flags.OpenFlags.{OpenFlags};
ghost use Rattle.sftp_path.specs.Place.{bytes_cmp};
ghost use Rattle.sftp_path.specs.Table.{InOrder, get};
ghost use Rattle.sftp_tree.specs.Tree.{times_pinned, with_pin, without_pin};
ghost use Rattle.sftp_handles.specs.declared.opens.Open.TheVariants.{File, Listing};
ghost use Rattle.sftp_handles.specs.State.{Left, Handles, open_at, with_open, without_open, times_open, pins_of};

/// A file is pinned as often as it is open; the files that are pinned are in order, and each is pinned at least once.
pub fn files_are_pinned_while_open()
    ensures times { (handles : Handles) (number : ℕ) →
        times_pinned (pins_of handles) number ≡ times_open handles number }
    ensures order { (handles : Handles) → InOrder nat_cmp (pins_of handles) }
    ensures pinned { (handles : Handles) (number often : ℕ) →
        get nat_cmp (pins_of handles) number ≡ Some often → 0 < often }
{}

/// A new handle of a file pins it once more, and closing one pins it once less. Handles of listings pin nothing.
pub fn pins_follow_handles()
    ensures file { (handles : Handles) (handle : List ℕ) (number : ℕ) (flags : OpenFlags) →
        open_at handles handle ≡ None →
        pins_of (with_open handles handle (File number flags)) ≡ with_pin (pins_of handles) number }
    ensures listing { (handles : Handles) (handle : List ℕ) (left : Left) → open_at handles handle ≡ None →
        pins_of (with_open handles handle (Listing left)) ≡ pins_of handles }
    ensures listing_again { (handles : Handles) (handle : List ℕ) (before left : Left) → InOrder bytes_cmp handles →
        open_at handles handle ≡ Some (Listing before) →
        pins_of (with_open handles handle (Listing left)) ≡ pins_of handles }
    ensures file_closed { (handles : Handles) (handle : List ℕ) (number : ℕ) (flags : OpenFlags) →
        open_at handles handle ≡ Some (File number flags) →
        pins_of (without_open handles handle) ≡ without_pin (pins_of handles) number }
    ensures listing_closed { (handles : Handles) (handle : List ℕ) (left : Left) →
        open_at handles handle ≡ Some (Listing left) →
        pins_of (without_open handles handle) ≡ pins_of handles }
{}
