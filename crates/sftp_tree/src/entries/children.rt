//! Nodes as children of directories, and back.
ghost use Rattle.std.specs.Prelude.{◌≡◌, [], ◌∷◌, Some};
ghost use Rattle.sftp_tree.specs.Tree as tree;
ghost use Rattle.sftp_tree.specs.Nesting.{branch, IsBranch};

use super::directories::{Child, Dir};
use crate::nodes::Node;
use std::alloc::Global;

impl Child {
    /// The node as a child, a directory without children. Does not allocate.
    pub(super) fn new(alloc: Global, node: Node) -> Child
        ensures alone { branch result ≡ ([], node) ∷ [] }
        ensures whole { IsBranch result }
    {
        match node {
            Node::Dir(owner) => Child::Dir(Dir::new(alloc, owner)),
            Node::File(number) => Child::File(number),
            Node::Link(target) => Child::Link(target),
        }
    }

    /// The child's own node, without what is below it.
    #[tactic(auto, unfolding(sftp_path::specs::Table::get))]
    pub(super) fn into_node(self) -> Node
        ensures { Some result ≡ tree.node_at (branch self) [] }
    {
        match self {
            Child::Dir(dir) => Node::Dir(dir.owner()),
            Child::File(number) => Node::File(number),
            Child::Link(target) => Node::Link(target),
        }
    }
}
