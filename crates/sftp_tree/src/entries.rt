//! The entries of a tree: its places, each with its node. They are kept as nested directories, with the count of the
//! places that are taken. Of the other modules five see directories: `attributes`, `listings`, and `branches`,
//! `measuring` and `rows` of `pictures`. The rest see places, and what a trail or a look-up lends.
ghost use Rattle.std.specs.Prelude.{◌≡◌, [], length, false, None, IfOk, OnOk, OnErr, IsTrue};
ghost use Rattle.sftp_path.specs.Place.{parent, begins, place_cmp};
ghost use Rattle.sftp_path.specs.Table.{rekeyed};
ghost use Rattle.sftp_path.specs.Table.{InOrder};
ghost use Rattle.sftp_treefile.specs.TreeFile.{is_root};
ghost use Rattle.sftp_tree.specs.declared.nodes.Node.TheVariants.{Dir as dir_node};
ghost use Rattle.sftp_tree.specs.Tree as tree;
ghost use Rattle.sftp_tree.specs.PictureParts.{only_root};

mod below;
mod changes;
mod children;
pub(crate) mod directories;
pub(crate) mod growing;
pub(crate) mod lookup;
mod moves;
mod reach;
pub(crate) mod seen;
pub(crate) mod trail;

use crate::nodes::Node;
pub(crate) use below::is_below;
use directories::{Child, Dir};
use sftp_path::{NoMemory, Place};
use sftp_treefile::Owner;
use std::alloc::Global;
use std::marker::Model;

/// The entries, the root among them.
#[derive(Drop)]
pub(crate) struct Entries {
    root: Dir,
    /// How many places are taken.
    len: usize,
}

impl Model for Entries {
    ghost use Rattle.std.specs.Prelude.{◌≡◌, length};
    ghost use Rattle.sftp_tree.specs.Tree.{Names};

    ghost Value = { Names };

    ghost use Rattle.sftp_tree.specs.Nesting.{IsBranch};
    ghost use Rattle.sftp_tree.specs.declared.entries.directories.Child.TheVariants.{Dir as dir_child};

    ghost view = { λ entries. entries.root };

    ghost invariant = { λ entries. IsBranch (dir_child entries.root) × (entries.len ≡ length entries.root) };
}

impl Entries {
    /// The root alone. Does not allocate.
    pub(crate) fn root(alloc: Global, owner: Owner) -> Entries
        ensures { result ≡ only_root owner }
    {
        Entries {
            root: Dir::new(alloc, owner),
            len: 1,
        }
    }

    /// A root with all below it, where `len` places are taken.
    pub(crate) fn of(root: Dir, len: usize) -> Entries
        requires ordered { InOrder place_cmp root }
        requires directory { IsTrue (tree.is_directory (tree.node_at root [])) }
        requires count { len ≡ length root }
        ensures { result ≡ root }
    {
        Entries { root, len }
    }

    /// The root, with all below it.
    pub(crate) fn root_directory(&self) -> &Dir
        ensures { result.now ≡ self.now }
    {
        &self.root
    }

    /// How many places are taken, the root among them.
    pub(crate) fn len(&self) -> usize
        ensures { result ≡ length self.now }
    {
        self.len
    }

    /// Puts a node at a free place in a directory.
    ///
    /// # Errors
    ///
    /// `NoMemory` if memory runs out; the entries are unchanged.
    pub(crate) fn put(&mut self, place: &Place, node: Node) -> Result<(), NoMemory>
        requires absent { tree.node_at self.old place.now ≡ None }
        requires parent { IsTrue (tree.is_directory (tree.node_at self.old (parent place.now))) }
        ensures ok { OnOk result (self.new ≡ tree.with_node self.old place.now node) }
        ensures err { OnErr result (self.new ≡ self.old) }
    {
        // Slow to prove: the node is dropped at each exit but the last.
        let Some((name, parent)) = place.names().split_last() else {
            unreachable!();
        };
        let Some(len) = self.len.checked_add(1) else {
            return Err(NoMemory);
        };
        let alloc = place.allocator();
        let name = name.try_clone(alloc)?;
        self.root.put(parent, name, Child::new(alloc, node))?;
        self.len = len;
        Ok(())
    }

    /// Removes the node at a place that is not the root and has no entries below it, and returns it.
    pub(crate) fn remove(&mut self, place: &Place) -> Option<Node>
        requires below_root { is_root place.now ≡ false }
        requires empty { tree.has_entries self.old place.now ≡ false }
        ensures gone { result ≡ tree.node_at self.old place.now }
        ensures left { self.new ≡ tree.without_node self.old place.now }
    {
        let Some((name, parent)) = place.names().split_last() else {
            unreachable!();
        };
        match self.root.take(parent, name) {
            Some(child) => {
                self.len -= 1;
                Some(child.into_node())
            }
            None => None,
        }
    }

    /// Gives a directory an owner.
    pub(crate) fn set_owner(&mut self, place: &Place, owner: Owner)
        requires { IsTrue (tree.is_directory (tree.node_at self.old place.now)) }
        ensures { self.new ≡ tree.with_node self.old place.now (dir_node owner) }
    {
        self.root.set_owner(place.names(), owner);
    }

    /// Moves the node at the old place, with all below it, to the new one, and returns the node that was there. Neither
    /// place is the root, and the new one is not below the old one and has no entries below it.
    ///
    /// # Errors
    ///
    /// `NoMemory` if memory runs out; the entries are unchanged.
    pub(crate) fn move_node(&mut self, old: &Place, new: &Place) -> Result<Option<Node>, NoMemory>
        requires taken { IsTrue (tree.is_taken (tree.node_at self.old old.now)) }
        requires old_below_root { is_root old.now ≡ false }
        requires new_below_root { is_root new.now ≡ false }
        requires apart { begins old.now new.now ≡ false }
        requires parent { IsTrue (tree.is_directory (tree.node_at self.old (parent new.now))) }
        requires alone { tree.has_entries self.old new.now ≡ false }
        ensures gone { IfOk result (λ gone. gone ≡ tree.node_at self.old new.now) }
        ensures moved { OnOk result (self.new ≡ rekeyed old.now new.now (tree.without_node self.old new.now)) }
        ensures err { OnErr result (self.new ≡ self.old) }
    {
        let gone = self.root.move_child(old, new)?;
        match gone {
            Some(child) => {
                self.len -= 1;
                Ok(Some(child.into_node()))
            }
            None => Ok(None),
        }
    }
}
