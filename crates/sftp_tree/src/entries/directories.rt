//! Directories that own their children.
ghost use Rattle.std.specs.Prelude.{◌≡◌, [], ◌∷◌, Some, drop, option_copied, IfSome};
ghost use Rattle.sftp_path.specs.Place.{Place, place_cmp};
ghost use Rattle.sftp_path.specs.Table.{InOrder};
ghost use Rattle.sftp_tree.specs.declared.nodes.Node.TheVariants.{Dir as dir_node};
ghost use Rattle.sftp_tree.specs.Tree as tree;
ghost use Rattle.sftp_tree.specs.PictureParts.{only_root};
ghost use Rattle.sftp_tree.specs.Nesting.{branch_of, flat, IsBranch, AreChildren};
ghost use Rattle.sftp_tree.specs.Nesting.{nodes_of};
ghost use Rattle.sftp_tree.specs.Attributes as listings;

mod appending;

use crate::file_numbers::FileNo;
use sftp_packets::ByteString;
use sftp_path::Name;
use sftp_treefile::Owner;
use std::alloc::Global;
use std::collections::{BTreeMap, btree_map};
use std::marker::Model;

/// A directory: its owner and its children, in the order of their names.
#[cycle(directories)]
#[derive(Drop)]
pub(crate) struct Dir {
    pub(super) owner: Owner,
    pub(super) children: BTreeMap<Name, Child>,
}

/// What a directory has at a name.
#[cycle(directories)]
#[derive(Drop)]
pub(crate) enum Child {
    /// A directory.
    Dir(Dir),
    /// A name of the file of this number.
    File(FileNo),
    /// A symbolic link, with its target.
    Link(ByteString),
}

impl Model for Dir {
    ghost use Rattle.std.specs.Prelude.{length};
    ghost use Rattle.sftp_tree.specs.Tree.{Names};

    ghost Value = { Names };

    ghost use Rattle.sftp_tree.specs.Nesting.{flat_of, AreChildren};

    ghost view = { λ dir. flat_of dir.owner dir.children.entries };

    ghost invariant = { λ dir. AreChildren dir.children.entries };

    ghost size = { length };

    ghost use Rattle.std.proofs.Common.{arith};
    ghost use Rattle.sftp_tree.specs.NestingSizes.{most_le-length-flat};

    ghost size_decreases = { λ dir h. omega (arith, most_le-length-flat dir.children.entries) };
}

impl Dir {
    /// A directory with no children. Does not allocate.
    pub(crate) fn new(alloc: Global, owner: Owner) -> Dir
        ensures { result ≡ only_root owner }
    {
        Dir {
            owner,
            children: BTreeMap::new(alloc),
        }
    }

    /// Who owns the directory.
    pub(crate) fn owner(&self) -> Owner
        ensures owner { tree.node_at self.now [] ≡ Some (dir_node result) }
        ensures ordered { InOrder place_cmp self.now }
    {
        self.owner
    }

    /// Whether the directory has children.
    pub(crate) fn has_children(&self) -> bool
        ensures { result ≡ tree.has_entries self.now [] }
    {
        !self.children.is_empty()
    }

    /// The child of a name.
    pub(crate) fn child(&self, name: &Name) -> Option<&Child>
        ensures below { (rest : Place) →
            tree.node_at self.now (name.now ∷ rest) ≡ tree.node_at (branch_of (option_copied result)) rest }
        ensures branch { IfSome result (λ child. IsBranch child.now) }
    {
        self.children.get(name)
    }

    /// The children, in the order of their names.
    pub(crate) fn children(&self) -> btree_map::Iter<'_, Name, Child>
        ensures below { flat result ≡ drop 1 self.now }
        ensures children { AreChildren result }
        ensures nodes { nodes_of result ≡ listings.children self.now [] }
        ensures ordered { InOrder place_cmp self.now }
    {
        self.children.iter()
    }
}
