//! Files of a set that are read whole: those of times, the order, and the tree.
ghost use Rattle.std.specs.Prelude.{◌≡◌, ℕ, List, Some, IfOk, IfErr};
ghost use Rattle.std.specs.Prelude.{Err};
ghost use Rattle.sftp_tree.specs.Tree.{Tree as tree};
ghost use Rattle.sftp_tree.specs.Picture.{IsStart, GivesTreeUnless};
ghost use Rattle.sftp_files.specs.Failures.{IsUnread};
ghost use Rattle.sftp_audit.specs.Audit.{HasStart};
ghost use Rattle.sftp_overlapping.specs.declared.rejections.Rejection.TheVariants.{Failed as failed};
ghost use Rattle.sftp_overlapping.specs.Sets.{IsJudged};

use crate::members::Given;
use sftp_files::Failure;
use sftp_streams::Tally;
use sftp_tree::Tree;
use sftp_treefile::TreeError;
use sftp_verdicts::Opens;
use std::alloc::Global;
use std::io::Read;

impl<'a, T: Opens<'a>> Given<'a, T> {
    /// The bytes of the file.
    ///
    /// # Errors
    ///
    /// If it cannot be read, or memory runs out.
    pub(crate) fn bytes(&self, alloc: Global) -> Result<Vec<u8>, Failure<'a>>
        ensures read { IfOk result
            (λ bytes. (known : List ℕ) → T.bytes self.now.file ≡ Some known → bytes.items ≡ known) }
        ensures err { IfErr result IsUnread }
    {
        let mut file = self.file.open()?;
        let mut bytes = Vec::new(alloc);
        let read = file.read_to_end(&mut bytes);
        drop(file);
        match read {
            Ok(_) => Ok(bytes),
            Err(error) => {
                drop(bytes);
                Err(Failure::reading(self.path, &error))
            }
        }
    }

    /// The tree of a tree file.
    ///
    /// # Errors
    ///
    /// `Tree` with the fault of a file that is no tree file; and if it cannot be read, or memory runs out.
    pub(crate) fn tree(&self, alloc: Global) -> Result<Tree, Failure<'a>>
        ensures start { IfOk result
            (λ start. (known : List ℕ) → T.bytes self.now.file ≡ Some known → IsStart start known) }
        ensures refused { IfErr result (λ failure. IsJudged (failed failure) → (known : List ℕ) →
            T.bytes self.now.file ≡ Some known → HasStart known → ⊥) }
    {
        let file = self.file.open()?;
        match Tree::read_from(alloc, Tally::new(file)) {
            Ok(tree) => Ok(tree),
            Err(error) => Err(failure_of(self.path, error)),
        }
    }
}

/// Why the tree file of this name is not read.
fn failure_of<'a>(name: &'a str, error: TreeError) -> Failure<'a>
    ensures { IsJudged (failed result) → (start : tree) → GivesTreeUnless (Err error) start → ⊥ }
{
    match error {
        TreeError::Io { .. } => Failure::CannotRead(name, None),
        fault => Failure::from(fault),
    }
}
