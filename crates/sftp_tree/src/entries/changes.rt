//! Changes of one child of a directory, at any place: each goes down to the child's parent and changes its children.
ghost use Rattle.std.specs.Prelude.{◌≡◌, ◌∷◌, ◌++◌, [], IfOk, IfSome, OnOk, OnErr, IsTrue};
ghost use Rattle.sftp_path.specs.Place.{Place};
ghost use Rattle.sftp_tree.specs.declared.nodes.Node.TheVariants.{Dir as dir_node};
ghost use Rattle.sftp_tree.specs.Tree.{node_at, is_directory, is_taken};
ghost use Rattle.sftp_tree.specs.Nesting.{branch, branch_of, IsBranch, IsGrafted, IsSet};

use super::directories::{Child, Dir};
use sftp_path::{Name, NoMemory};
use sftp_treefile::Owner;
use std::mem;

impl Child {
    /// Puts another child here, and returns the one that was here. Each goes whole: a directory with its owner and all
    /// that is below it.
    fn exchange(&mut self, other: Child) -> Child
        ensures here { self.new ≡ other }
        ensures gone { result ≡ self.old }
    {
        mem::replace(self, other)
    }
}

impl Dir {
    /// Puts a child at a name in the directory to which the parent's names lead, and returns the child that was there.
    ///
    /// # Errors
    ///
    /// `NoMemory` if memory runs out; nothing changes.
    pub(crate) fn put(
        &mut self,
        parent: &[Name],
        name: Name,
        child: Child,
    ) -> Result<Option<Child>, NoMemory>
        requires parent { IsTrue (is_directory (node_at self.old parent.now)) }
        requires branch { IsBranch child }
        ensures ok { OnOk result (IsGrafted (parent.now ++ name ∷ []) self.old self.new (branch child)) }
        ensures gone { IfOk result (λ gone. (rest : Place) →
            node_at (branch_of gone) rest ≡ node_at self.old (parent.now ++ name ∷ rest)) }
        ensures whole { IfOk result (λ gone. IfSome gone IsBranch) }
        ensures err { OnErr result (self.new ≡ self.old) }
    {
        let Some((first, rest)) = parent.split_first() else {
            let gone = self.children.insert(name, child)?;
            return Ok(gone);
        };
        let Some(inner) = self.children.get_mut(first) else {
            unreachable!();
        };
        match inner {
            Child::Dir(dir) => {
                let gone = dir.put(rest, name, child)?;
                Ok(gone)
            }
            Child::File(_) => unreachable!(),
            Child::Link(_) => unreachable!(),
        }
    }

    /// Takes the child of a name out of the directory to which the parent's names lead.
    pub(crate) fn take(&mut self, parent: &[Name], name: &Name) -> Option<Child>
        ensures left { IsGrafted (parent.now ++ name.now ∷ []) self.old self.new [] }
        ensures gone { (rest : Place) →
            node_at (branch_of result) rest ≡ node_at self.old (parent.now ++ name.now ∷ rest) }
        ensures whole { IfSome result IsBranch }
    {
        let Some((first, rest)) = parent.split_first() else {
            return self.children.remove(name);
        };
        let Some(inner) = self.children.get_mut(first) else {
            return None;
        };
        match inner {
            Child::Dir(dir) => dir.take(rest, name),
            Child::File(_) => None,
            Child::Link(_) => None,
        }
    }

    /// Puts a child in the stead of the one of a name in the directory to which the parent's names lead, and returns
    /// that one.
    pub(crate) fn replace(&mut self, parent: &[Name], name: &Name, child: Child) -> Child
        requires taken { IsTrue (is_taken (node_at self.old (parent.now ++ name.now ∷ []))) }
        requires branch { IsBranch child }
        ensures here { IsGrafted (parent.now ++ name.now ∷ []) self.old self.new (branch child) }
        ensures gone { (rest : Place) →
            node_at (branch result) rest ≡ node_at self.old (parent.now ++ name.now ∷ rest) }
        ensures whole { IsBranch result }
    {
        let Some((first, rest)) = parent.split_first() else {
            let Some(inner) = self.children.get_mut(name) else {
                unreachable!();
            };
            return inner.exchange(child);
        };
        let Some(inner) = self.children.get_mut(first) else {
            unreachable!();
        };
        match inner {
            Child::Dir(dir) => dir.replace(rest, name, child),
            Child::File(_) => unreachable!(),
            Child::Link(_) => unreachable!(),
        }
    }

    /// Gives an owner to the directory to which these names lead.
    pub(crate) fn set_owner(&mut self, names: &[Name], owner: Owner)
        requires { IsTrue (is_directory (node_at self.old names.now)) }
        ensures { IsSet names.now self.old self.new (dir_node owner) }
    {
        let Some((first, rest)) = names.split_first() else {
            self.owner = owner;
            return;
        };
        let Some(inner) = self.children.get_mut(first) else {
            unreachable!();
        };
        match inner {
            Child::Dir(dir) => dir.set_owner(rest, owner),
            Child::File(_) => unreachable!(),
            Child::Link(_) => unreachable!(),
        }
    }
}
