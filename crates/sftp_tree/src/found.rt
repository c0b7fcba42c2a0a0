//! What a path leads to: a place, and the node there.
ghost use Rattle.std.specs.Prelude.{◌≡◌, ◌&&◌};
ghost use Rattle.sftp_treefile.specs.TreeFile.{is_root};
ghost use Rattle.sftp_tree.specs.Tree as tree;
ghost use Rattle.sftp_tree.specs.Tree.{Names as table, Tree as kept_tree};
ghost use Rattle.sftp_tree.specs.PlaceCauses as place_causes;
ghost use Rattle.sftp_tree.specs.Room as rooms;
ghost use Rattle.sftp_tree.specs.Plans.{node_of, IsThere, IsFoundIn};

use crate::entries::seen::Seen;
use crate::entries::trail::Trail;
use crate::trees::Tree;
use sftp_path::Place;

/// A place, and the node there, which the tree lends.
#[derive(Drop)]
pub(crate) struct Found<'a> {
    pub(crate) place: Place,
    /// The node there, or `None` if the place is free.
    pub(crate) node: Option<Seen<'a>>,
}

impl<'a> Found<'a> {
    /// The directory that a walk has reached.
    pub(crate) fn here(trail: Trail<'a>) -> Found<'a>
        ensures place { result.place ≡ trail.entry.at }
        ensures there { IsThere trail.entry.names result }
    {
        let node = Some(trail.here());
        Found {
            place: trail.into_place(),
            node,
        }
    }

    /// Whether the place is taken.
    pub(crate) fn is_taken(&self) -> bool
        ensures { result ≡ tree.is_taken (node_of self.now) }
    {
        self.node.is_some()
    }

    /// Whether the node is a directory.
    pub(crate) fn is_directory(&self) -> bool
        ensures { result ≡ tree.is_directory (node_of self.now) }
    {
        matches!(self.node, Some(Seen::Dir(..)))
    }

    /// Whether the place is a name of a file.
    pub(crate) fn is_file(&self) -> bool
        ensures { result ≡ tree.is_file (node_of self.now) }
    {
        matches!(self.node, Some(Seen::File(_)))
    }

    /// Whether the node is a link.
    pub(crate) fn is_link(&self) -> bool
        ensures { result ≡ tree.is_link (node_of self.now) }
    {
        matches!(self.node, Some(Seen::Link(_)))
    }

    /// Whether the node is a directory that has entries.
    pub(crate) fn has_entries(&self) -> bool
        ensures { (names : table) → IsThere names self.now →
            result ≡ (tree.is_directory (node_of self.now) && tree.has_entries names self.now.place) }
    {
        match self.node {
            Some(Seen::Dir(_, dir)) => dir.has_children(),
            Some(Seen::File(_)) => false,
            Some(Seen::Link(_)) => false,
            None => false,
        }
    }

    /// Whether each place that begins with this one has at most `room` names after it.
    pub(crate) fn reaches_at_most(&self, room: usize) -> bool
        ensures { (t : kept_tree) → IsFoundIn t self.now →
            result ≡ rooms.reaches_at_most t.names self.now.place room }
    {
        match self.node {
            Some(Seen::Dir(_, dir)) => dir.reaches_at_most(room),
            Some(Seen::File(_)) => true,
            Some(Seen::Link(_)) => true,
            None => true,
        }
    }
}

impl Tree {
    /// Whether both are one place, or names of one file.
    pub(crate) fn are_one(&self, old: &Found<'_>, new: &Found<'_>) -> bool
        requires old { IsThere self.now.names old.now }
        requires new { IsThere self.now.names new.now }
        ensures { result ≡ place_causes.are_one self.now.names old.now.place new.now.place }
    {
        old.place == new.place || are_one_file(old, new)
    }
}

/// Whether both are names of one file.
fn are_one_file(one: &Found<'_>, other: &Found<'_>) -> bool
    ensures { result ≡ place_causes.are_one_file (node_of one.now) (node_of other.now) }
{
    match (&one.node, &other.node) {
        (Some(Seen::File(one)), Some(Seen::File(other))) => one == other,
        _ => false,
    }
}

/// Whether the place is the root, which has no names.
pub(crate) fn is_root(place: &Place) -> bool
    ensures { result ≡ is_root place.now }
{
    place.depth() == 0
}
