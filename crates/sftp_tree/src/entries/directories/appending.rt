//! Directories that get children after all others.
ghost use Rattle.std.specs.Prelude.{◌≡◌, ◌++◌, [], ◌∷◌, OnOk};
ghost use Rattle.std.specs.List.{AllByRecursion};
ghost use Rattle.std.specs.Map.{keys_of};
ghost use Rattle.std.specs.declared.cmp.Ordering.TheVariants.{Less};
ghost use Rattle.sftp_path.specs.Place.{place_cmp};
ghost use Rattle.sftp_tree.specs.declared.entries.directories.Child.TheVariants.{Dir as dir_child};
ghost use Rattle.sftp_tree.specs.Nesting.{branch, placed, IsBranch};

use super::{Child, Dir};
use sftp_path::{Name, NoMemory};

impl Dir {
    /// Puts a child after all others.
    ///
    /// # Errors
    ///
    /// `NoMemory` if memory runs out.
    pub(crate) fn push(&mut self, name: Name, child: Child) -> Result<(), NoMemory>
        requires last { AllByRecursion (λ place. place_cmp place (name ∷ []) ≡ Less) (keys_of self.old) }
        requires branch { IsBranch child }
        ensures { OnOk result (self.new ≡ self.old ++ placed name (branch child)) }
    {
        self.children.insert(name, child)?;
        Ok(())
    }

    /// The directory, to be put into another.
    pub(crate) fn into_child(self) -> Child
        ensures child { result ≡ dir_child self }
        ensures branch { IsBranch result }
    {
        let _ = &self.children;
        Child::Dir(self)
    }
}
