//! Tree files, read from left to right.
ghost use Rattle.std.specs.Prelude.{◌≡◌, ◌<◌, ℕ, List, Some, length, OnOk, IfOk, IfErr};
ghost use Rattle.sftp_treefile.specs.declared.files.TreeFile.{TreeFile as file};
ghost use Rattle.sftp_treefile.specs.TreeFile.{IsTreeFile, IsSpelled, GivesFile};
ghost use Rattle.sftp_streams.specs.Streams.{HasAhead};
ghost use Rattle.sftp_treefile.specs.Streamed.{GivesUnless, MayFail, ExcuseOr, IsIn, IsNothing};

use crate::entries::take_entries;
use crate::errors::TreeError;
use crate::files::TreeFile;
use crate::input::Input;
use crate::pieces::whole_head;
use sftp_streams::{Buffer, Memory, Source};
use std::alloc::Global;

/// `Trailing` if bytes follow the last entry, whose number is one less.
fn check_end<R: Source>(input: &mut Input<R>, entry: u32) -> Result<(), TreeError>
    ensures ended { OnOk result (IsNothing input.old) }
    ensures more { IfErr result
        (λ error. ExcuseOr error ((before : List ℕ) → HasAhead input.old before → 0 < length before)) }
    ensures number { IfErr result (IsIn R.may_fail entry) }
{
    input.fill(entry)?;
    if !input.held().is_empty() {
        return Err(TreeError::Trailing { entry });
    }
    Ok(())
}

/// Reads a tree file from a source, and holds no more of it than the tree file says and a buffer.
///
/// # Errors
///
/// As `read_rows`, and `Io` with the number of the entry at which the source failed, or one more than the last entry's.
pub fn read_rows_from<R: Source>(alloc: Global, source: R) -> Result<TreeFile, TreeError>
where
    R: Drop,
    ensures fits { IfOk result IsTreeFile }
    ensures found { IfOk result (λ f. (bytes : List ℕ) → R.left source ≡ Some bytes → IsSpelled f bytes) }
    ensures only { (bytes : List ℕ) → R.left source ≡ Some bytes → (f : file) → IsSpelled f bytes
        → GivesUnless result f }
    ensures may_fail { IfErr result (MayFail R.may_fail) }
{
    let buffer = Buffer::new(alloc)?;
    let mut input = Input::new(buffer, source);
    let head = whole_head(alloc, &mut input)?;
    let (rows, times) = take_entries(alloc, &mut input, &head)?;
    check_end(&mut input, head.count + 1)?;
    Ok(TreeFile {
        limits: head.limits,
        home: head.home,
        uid: head.uid,
        gid: head.gid,
        root: head.root,
        rows,
        times,
    })
}

/// Reads a tree file.
///
/// # Errors
///
/// `NoMemory` if memory runs out; otherwise the first fault from left to right, with the number of its entry: `Magic`,
/// `Short`, `Value`, `Order`, `Parent` or `Trailing`. A field is read whole before its value is checked; a path is
/// checked for `Value` first, then for `Order`, then for `Parent`, and then the kind is read. That a lower opening
/// holds the file is found behind the last entry, as `Value`.
pub fn read_rows(alloc: Global, bytes: &[u8]) -> Result<TreeFile, TreeError>
    ensures found { IfOk result (λ f. IsSpelled f bytes.now) }
    ensures only { (f : file) → IsSpelled f bytes.now → GivesFile result f }
{
    read_rows_from(alloc, Memory::new(bytes))
}
