//! Terminals in the place of streams that only programs write or read.
ghost use Rattle.std.specs.Prelude.{IfErr};
ghost use Rattle.sftp_files.specs.Failures.{IsUsage};

use sftp_files::Failure;
use std::io::IsTerminal;

/// Lets a run go on unless the stream is a terminal, where nobody types, or wants to see, what goes through it.
///
/// # Errors
///
/// `Usage` with the message if it is one.
pub fn refuse_terminal<'a, R: AllocGlobal, S: IsTerminal>(
    rt: &R,
    stream: &S,
    message: &str,
) -> Result<(), Failure<'a>>
    ensures { IfErr result IsUsage }
{
    if stream.is_terminal() {
        Err(Failure::of_misuse(rt.alloc(), message))
    } else {
        Ok(())
    }
}
