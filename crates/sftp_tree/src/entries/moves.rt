//! A child that moves to another place, with all below it.
ghost use Rattle.std.specs.Prelude.{◌≡◌, ◌++◌, ◌∷◌, [], false, IfOk, IfSome, OnOk, OnErr, IsTrue};
ghost use Rattle.sftp_path.specs.Place.{begins, parent};
ghost use Rattle.sftp_treefile.specs.TreeFile.{is_root};
ghost use Rattle.sftp_tree.specs.Tree.{node_at, is_directory, is_taken};
ghost use Rattle.sftp_tree.specs.Nesting.{branch_of, IsBranch, IsFilled, IsMoved};

use super::directories::{Child, Dir};
use sftp_path::{Name, NoMemory, Place};
use sftp_treefile::Owner;
use std::alloc::Global;

/// The owner of a directory that holds a place only until another child comes there.
const NOBODY: Owner = Owner {
    uid: 0,
    gid: 0,
    permissions: 0,
};

impl Dir {
    /// Puts an empty directory at a name in the directory to which the parent's names lead, if the name is free, and
    /// returns whether it was taken.
    ///
    /// # Errors
    ///
    /// `NoMemory` if memory runs out; nothing changes.
    fn fill(&mut self, alloc: Global, parent: &[Name], name: &Name) -> Result<bool, NoMemory>
        requires { IsTrue (is_directory (node_at self.old parent.now)) }
        ensures ok { IfOk result (IsFilled (parent.now ++ name.now ∷ []) self.old self.new) }
        ensures err { OnErr result (self.new ≡ self.old) }
    {
        if self.has_at(parent, name) {
            return Ok(true);
        }
        let copy = name.try_clone(alloc)?;
        self.put(parent, copy, Child::Dir(Dir::new(alloc, NOBODY)))?;
        Ok(false)
    }

    /// Moves the child at the old place, with all below it, to the new one, and returns the child that was there. No
    /// copy is made: what takes memory is an empty directory at a new place that is free, which the child replaces.
    ///
    /// # Errors
    ///
    /// `NoMemory` if memory runs out; nothing changes.
    // Slow to prove: children, with all below them, are dropped in two places.
    pub(crate) fn move_child(&mut self, old: &Place, new: &Place) -> Result<Option<Child>, NoMemory>
        requires taken { IsTrue (is_taken (node_at self.old old.now)) }
        requires old_below_root { is_root old.now ≡ false }
        requires new_below_root { is_root new.now ≡ false }
        requires parent { IsTrue (is_directory (node_at self.old (parent new.now))) }
        requires apart { begins old.now new.now ≡ false }
        requires alone { begins new.now old.now ≡ false }
        ensures ok { OnOk result (IsMoved old.now new.now self.old self.new) }
        ensures gone { IfOk result (λ gone. node_at (branch_of gone) [] ≡ node_at self.old new.now) }
        ensures whole { IfOk result (λ gone. IfSome gone IsBranch) }
        ensures err { OnErr result (self.new ≡ self.old) }
    {
        let Some((old_name, old_parent)) = old.names().split_last() else {
            unreachable!();
        };
        let Some((name, parent)) = new.names().split_last() else {
            unreachable!();
        };
        let alloc = old.allocator();
        let was_taken = self.fill(alloc, parent, name)?;
        let moved = self.replace(old_parent, old_name, Child::Dir(Dir::new(alloc, NOBODY)));
        let gone = self.replace(parent, name, moved);
        self.take(old_parent, old_name);
        if was_taken { Ok(Some(gone)) } else { Ok(None) }
    }
}
