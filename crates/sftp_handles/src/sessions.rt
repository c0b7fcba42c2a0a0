//! Sessions: a tree, and what is open.
ghost use Rattle.std.specs.Prelude.{◌≡◌, [], Ok, option_copied};
ghost use Rattle.sftp_tree.specs.Tree.{trim};
ghost use Rattle.sftp_handles.specs.State.{open_at};
ghost use Rattle.sftp_handles.specs.Slots.{listing_in};
ghost use Rattle.sftp_handles.specs.State.{settled};

use crate::opens::Open;
use crate::tables::HandleTable;
use sftp_listing::Listing;
use sftp_tree::{NoMemory, Tree};
use std::marker::Model;

/// A tree, and the handles that are open on it. Each file is pinned as often as it is open.
#[derive(Drop)]
pub struct Session<T: HandleTable> {
    pub(crate) tree: Tree,
    pub(crate) table: T,
}

impl<T: HandleTable> Model for Session<T> {
    ghost use Rattle.sftp_handles.specs.State.{State, Good};

    ghost Value = { State };

    ghost view = { λ s. record { tree = s.tree; handles = T.handles s.table } };

    ghost invariant = { λ s. Good (record { tree = s.tree; handles = T.handles s.table }) };
}

impl<T: HandleTable> Session<T> {
    /// A session on a tree, with nothing open. The pins that the tree came with are taken away.
    ///
    /// # Errors
    ///
    /// None so far: no table takes memory while nothing is open.
    pub fn new(tree: Tree) -> Result<Session<T>, NoMemory>
        ensures { result ≡ Ok (settled tree []) }
    {
        let mut tree = tree;
        let alloc = tree.allocator();
        tree.unpin_all();
        Ok(Session {
            tree,
            table: T::empty(alloc),
        })
    }

    /// The tree of the session.
    pub fn tree(&self) -> &Tree
        ensures { result.now ≡ self.now.tree }
    {
        &self.tree
    }

    /// The listing that is open under a handle, if it is a directory's.
    pub fn listing(&self, handle: &[u8]) -> Option<&Listing>
        ensures { option_copied result ≡ listing_in (open_at self.now.handles handle.now) }
    {
        match self.table.find(handle) {
            Some(Open::Listing { left }) => Some(left),
            Some(Open::File { .. }) => None,
            None => None,
        }
    }

    /// The tree of the session, without any pins. Does not allocate.
    pub fn into_tree(self) -> Tree
        ensures { result ≡ trim (record self.tree { pins = [] }) }
    {
        let mut tree = self.tree;
        tree.unpin_all();
        tree
    }
}
