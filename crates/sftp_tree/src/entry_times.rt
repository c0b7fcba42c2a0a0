//! Times of a tree's entries that are kept beside the tree, which has none.
ghost use Rattle.std.specs.Prelude.{ℕ, List, OnOk};
ghost use Rattle.sftp_treefile.specs.declared.files.TreeFile.{TreeFile as file_of};
ghost use Rattle.sftp_treefile.specs.declared.times.Times.{Times as pair};
ghost use Rattle.sftp_treefile.specs.TreeFile.{IsTreeFile};

use crate::file_numbers::FileNo;
use sftp_path::NoMemory;
use sftp_treefile::{Times, TreeFile};

/// Has the times of a tree's entries: those of files by their numbers, and those of directories by their places.
pub trait HasTimes {
    /// What it says of the file of a number.
    ghost of_file: { Self → ℕ → pair → Type 0 };

    /// What it says of the directory of an absolute text.
    ghost of_directory: { Self → List ℕ → pair → Type 0 };

    /// The times of the file of a number: two zeros if it has none.
    fn times_of_file(&self, number: FileNo) -> Times
        ensures { of_file self.now number result };

    /// The times of the directory of an absolute text: two zeros if it has none.
    fn times_of_directory(&self, path: &[u8]) -> Times
        ensures { of_directory self.now path.now result };
}

/// Looks at what a tree file says before it becomes a tree, which does not keep all of it. The files of the tree have
/// the numbers from 0 on, in the order of their first names.
pub trait Looks {
    /// What it is after a look at a tree file.
    ghost looked: { Self → file_of → Self → Type 0 };

    /// Looks at a tree file.
    ///
    /// # Errors
    ///
    /// `NoMemory` if memory runs out; then no tree is made.
    fn look(&mut self, file: &TreeFile) -> Result<(), NoMemory>
        requires { IsTreeFile file.now }
        ensures { OnOk result (looked self.old file.now self.new) };
}
