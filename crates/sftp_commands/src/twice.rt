//! Files that are given for two things, of which one would be lost.
ghost use Rattle.std.specs.Prelude.{IfErr};
ghost use Rattle.sftp_files.specs.Failures.{IsUsage};

use sftp_files::Failure;
use std::fs;
use std::fs::Files;
use std::os::unix::fs::MetadataExt;

/// Whether a file that is to be written is the one that is read, so that what is read would be lost. A device or a pipe
/// is not.
pub fn is_lost<R: Files>(rt: &R, written: Option<&str>, read: Option<&str>) -> bool {
    match (written, read) {
        (Some(written), Some(read)) => is_one_file(rt, written, read),
        _ => false,
    }
}

/// Where Linux has the file on standard input.
const INPUT: &str = "/dev/stdin";

/// The message where that file would be lost.
const INPUT_LOST: &str = "the file to write is the one on standard input";

/// Lets a run go on unless it would write over the file that is on its standard input.
///
/// # Errors
///
/// `Usage` if it would.
pub(crate) fn spare_input<'a, R: Files + AllocGlobal>(
    rt: &R,
    written: &str,
) -> Result<(), Failure<'a>>
    ensures { IfErr result IsUsage }
{
    if is_one_file(rt, written, INPUT) {
        Err(Failure::of_misuse(rt.alloc(), INPUT_LOST))
    } else {
        Ok(())
    }
}

/// Whether both names lead to one regular file.
fn is_one_file<R: Files>(rt: &R, one: &str, other: &str) -> bool {
    match (fs::metadata(rt, one), fs::metadata(rt, other)) {
        (Ok(found), Ok(further)) => {
            found.is_file() && found.dev() == further.dev() && found.ino() == further.ino()
        }
        _ => false,
    }
}
