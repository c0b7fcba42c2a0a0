//! What a directory has at a place.
ghost use Rattle.std.specs.Prelude.{◌≡◌, [], ◌∷◌, ◌++◌, Some, option_map, IsTrue};
ghost use Rattle.sftp_path.specs.Place.{Place};
ghost use Rattle.sftp_tree.specs.Tree as tree;
ghost use Rattle.sftp_tree.specs.Nesting.{branch};
ghost use Rattle.sftp_tree.specs.Nesting.{node_seen, branch_seen};

use super::directories::{Child, Dir};
use super::seen::Seen;
use sftp_path::Name;

impl Child {
    /// The child, lent.
    #[tactic(auto, unfolding(sftp_path::specs::Table::get))]
    pub(crate) fn seen(&self) -> Seen<'_>
        ensures { Some (node_seen result) ≡ tree.node_at (branch self.now) [] }
    {
        match self {
            Child::Dir(dir) => Seen::Dir(dir.owner(), dir),
            Child::File(number) => Seen::File(*number),
            Child::Link(target) => Seen::Link(target.as_slice()),
        }
    }
}

impl Dir {
    /// What is at the place to which these names lead from the directory.
    #[tactic(auto, unfolding(sftp_path::specs::Table::get))]
    pub(crate) fn at(&self, names: &[Name]) -> Option<Seen<'_>>
        ensures there { option_map node_seen result ≡ tree.node_at self.now names.now }
        ensures below { (rest : Place) →
            tree.node_at (branch_seen result) rest ≡ tree.node_at self.now (names.now ++ rest) }
    {
        let mut dir = self;
        let mut left = names;
        while let Some((name, rest)) = left.split_first() {
            match dir.child(name) {
                Some(Child::Dir(inner)) => dir = inner,
                Some(Child::File(number)) if rest.is_empty() => return Some(Seen::File(*number)),
                Some(Child::File(_)) => return None,
                Some(Child::Link(target)) if rest.is_empty() => return Some(Seen::Link(
                    target.as_slice(),
                )),
                Some(Child::Link(_)) => return None,
                None => return None,
            }
            left = rest;
        }
        Some(Seen::Dir(dir.owner(), dir))
    }

    /// Whether the directory to which the parent's names lead has a child of this name.
    pub(super) fn has_at(&self, parent: &[Name], name: &Name) -> bool
        requires { IsTrue (tree.is_directory (tree.node_at self.now parent.now)) }
        ensures { result ≡ tree.is_taken (tree.node_at self.now (parent.now ++ name.now ∷ [])) }
    {
        match self.at(parent) {
            Some(Seen::Dir(_, dir)) => dir.child(name).is_some(),
            Some(Seen::File(_)) => false,
            Some(Seen::Link(_)) => false,
            None => false,
        }
    }
}
