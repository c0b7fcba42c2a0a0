//! The subcommand `raise`: a tree file with other limits, with all else that it says.
ghost use Rattle.std.specs.Prelude.{◌≡◌, ℕ, List, Some, IfOk};
ghost use Rattle.sftp_treefile.specs.declared.files.TreeFile.{TreeFile as file_of};
ghost use Rattle.sftp_treefile.specs.TreeFile.{IsTreeFile, IsSpelled};
ghost use Rattle.sftp_treefile.specs.Streamed.{GivesUnless};
ghost use Rattle.sftp_files.specs.declared.messages.Ending.TheVariants as endings;
ghost use Rattle.sftp_commands.specs.RaisedFiles.{raised_to};

use crate::archives::{Made, write_rows_last};
use sftp_files::{Ending, Failure, Keeping, RaiseTo, System, Watched, open};
use sftp_streams::{Source, Tally};
use sftp_treefile::{
    TreeError, TreeFile, raise as raise_to_highest, raise_to_fit, raise_to_most, read_rows_from,
};
use std::alloc::Global;

/// Writes what the tree file `tree` says, with these limits, to the file `name`. It holds what the file says alone, and
/// buffers.
pub fn raise<'a, R: System>(
    rt: &R,
    tree: &'a str,
    to: RaiseTo,
    name: &'a str,
    keeping: Keeping,
) -> Result<Ending, Failure<'a>>
    ensures ok { IfOk result (λ ending. ending ≡ endings.Done) }
{
    let raised = read_raised(rt, tree, to)?;
    write_rows_last(rt, name, keeping, Made::new(raised))
}

/// What the tree file `name` says, with these limits.
fn read_raised<'a, R: System>(rt: &R, name: &'a str, to: RaiseTo) -> Result<TreeFile, Failure<'a>>
    ensures { IfOk result IsTreeFile }
{
    let mut bytes = Watched::new(open(rt, name)?);
    let raised = raised_rows(rt.alloc(), to, Tally::new(&mut bytes));
    let flow = bytes.flow();
    drop(bytes);
    match raised {
        Ok(file) => Ok(file),
        Err(TreeError::Io { .. }) => Err(Failure::CannotRead(name, flow.code)),
        Err(error) => Err(Failure::from(error)),
    }
}

/// The tree file that a source gives, with these limits.
fn raised_rows<S: Source>(alloc: Global, to: RaiseTo, source: S) -> Result<TreeFile, TreeError>
where
    S: Drop,
    ensures fits { IfOk result IsTreeFile }
    ensures raised { (bytes : List ℕ) → S.left source ≡ Some bytes → (f : file_of) → IsSpelled f bytes →
        GivesUnless result (raised_to to f) }
{
    let file = read_rows_from(alloc, source)?;
    Ok(raised_file(to, file))
}

/// A tree file with these limits.
fn raised_file(to: RaiseTo, file: TreeFile) -> TreeFile
    requires { IsTreeFile file }
    ensures may_be { IsTreeFile result }
    ensures raised { result ≡ raised_to to file }
{
    match to {
        RaiseTo::Highest => raise_to_highest(file),
        RaiseTo::Fit => raise_to_fit(file),
        RaiseTo::Most => raise_to_most(file),
    }
}
