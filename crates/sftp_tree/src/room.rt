//! Whether what requests ask for keeps to the limits of the tree, in numbers.
ghost use Rattle.std.specs.Prelude.{◌≡◌};
ghost use Rattle.sftp_tree.specs.Plans.{node_of, IsThere, IsFoundIn};
ghost use Rattle.sftp_tree.specs.Changes as changes;
ghost use Rattle.sftp_tree.specs.Room as room;
ghost use Rattle.sftp_tree.specs.Tree as tree;
ghost use Rattle.sftp_tree.specs.Tree.{Tree as kept_tree};

use crate::entries::seen::Seen;
use crate::file_numbers::FileNo;
use crate::found::Found;
use crate::trees::Tree;
use sftp_packets::Attrs;
use sftp_path::{DEPTH_LIMIT, Place};

impl Tree {
    /// Whether one more entry, at a new place, keeps to the limits. The root is a place, but does not count as an
    /// entry.
    pub(crate) fn has_room(&self, place: &Place) -> bool
        ensures { result ≡ room.has_room self.now place.now }
    {
        self.names().len() <= self.tree_limits().entries as usize && place.depth() <= DEPTH_LIMIT
    }

    /// Whether the place is taken, or one more file with its name there keeps to the limits. A file needs a number too.
    pub(crate) fn has_room_to_open(&self, found: &Found<'_>) -> bool
        requires { IsThere self.now.names found.now }
        ensures { result
            ≡ room.has_room_to_open self.now found.now.place (tree.node_at self.now.names found.now.place) }
    {
        found.is_taken() || (self.has_room(&found.place) && self.has_numbers())
    }

    /// Whether all files keep to their limit if one has so many bytes instead.
    pub(crate) fn total_fits_with(&self, number: FileNo, count: u64) -> bool
        ensures { result ≡ changes.total_fits_with self.now number count }
    {
        let most = self.tree_limits().total_bytes;
        let others = self.total() - self.length_of(number);
        count <= most && others <= most - count
    }

    /// Whether a file may have the size that is given, if one is.
    pub fn size_fits(&self, number: FileNo, attrs: &Attrs) -> bool
        ensures fits { result ≡ room.size_fits self.now number attrs.now.size }
        ensures kept { tree.IsKept self.now }
    {
        let most = self.tree_limits().file_bytes;
        match attrs.size {
            Some(size) => size <= most && self.total_fits_with(number, size),
            None => true,
        }
    }

    /// Whether what was found, if it is a file, may have the size that is given, if one is. Any other node keeps to the
    /// limits.
    pub(crate) fn size_fits_of(&self, attrs: &Attrs, found: &Found<'_>) -> bool
        ensures { result ≡ room.size_fits_at self.now attrs.now.size (node_of found.now) }
    {
        match found.node {
            Some(Seen::Dir(..)) => true,
            Some(Seen::File(number)) => self.size_fits(number, attrs),
            Some(Seen::Link(_)) => true,
            None => true,
        }
    }
}

/// Whether the node that was found, with all below it, keeps to the limit of names in a place at the new one. What is
/// below is only looked at if the new place is deeper.
pub(crate) fn move_fits(old: &Found<'_>, new: &Place) -> bool
    ensures { (t : kept_tree) → IsFoundIn t old.now → result ≡ room.move_fits t.names old.now.place new.now }
{
    let depth = new.depth();
    if depth > DEPTH_LIMIT {
        return false;
    }
    depth <= old.place.depth() || old.reaches_at_most(DEPTH_LIMIT - depth)
}
