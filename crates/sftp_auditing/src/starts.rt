//! The tree that a session starts from, as its tree file says.
ghost use Rattle.std.specs.Prelude.{◌≡◌, ℕ, List, Some, IfOk, IfErr};
ghost use Rattle.sftp_files.specs.Failures.{failure_status};
ghost use Rattle.sftp_verdicts.specs.Files.{IsWithin};
ghost use Rattle.sftp_auditing.specs.Starts.{IsStartOf, IsJudgedStart};

use sftp_files::{Failure, System};
use sftp_progress::{Progress, Task, Tracked};
use sftp_transcript::Tally;
use sftp_tree::Tree;
use sftp_treefile::TreeError;
use sftp_verdicts::AuditOptions;
use std::alloc::Global;
use std::io;
use std::io::{IsTerminal, Read, Write};
use std::time::Clock;

/// A reader, how many bytes it read, capped at 2^64 - 1, and the system's number for the last error if it gave one.
#[derive(Drop)]
struct Counted<F> {
    inner: F,
    bytes: u64,
    code: Option<i32>,
}

impl<F> Counted<F> {
    /// Nothing is read yet.
    fn new(inner: F) -> Counted<F>
        ensures { result.inner ≡ inner }
    {
        Counted {
            inner,
            bytes: 0,
            code: None,
        }
    }

    /// What was read.
    fn flow(&self) -> Flow {
        Flow {
            bytes: self.bytes,
            code: self.code,
        }
    }
}

impl<F: Read> Read for Counted<F> {
    ghost remaining = { λ counted. F.remaining counted.inner };

    fn read(&mut self, buffer: &mut [u8]) -> io::Result<usize> {
        match self.inner.read(buffer) {
            Ok(count) => {
                self.bytes = self.bytes.saturating_add(count as u64);
                Ok(count)
            }
            Err(error) => {
                self.code = error.raw_os_error();
                Err(error)
            }
        }
    }
}

/// How many bytes were read, and the system's number for the last error if it gave one.
#[derive(Clone, Copy)]
struct Flow {
    bytes: u64,
    code: Option<i32>,
}

/// The tree of the tree file of a session, which is open and is read at this path, or the first fault of the file. No
/// more of it is held than the tree and a buffer. Standard error says how much of it is read; where it is no terminal,
/// if that is asked for.
///
/// # Errors
///
/// If the file cannot be read, or has more bytes than the limit.
pub(crate) fn start_in_view<'a, F: Read + Drop, R: System + Clock, E: Write + IsTerminal>(
    rt: &R,
    files: &AuditOptions<'a>,
    path: &str,
    file: F,
    errors: &mut E,
) -> Result<Result<Tree, TreeError>, Failure<'a>>
    ensures start { IfOk result (λ read. (bytes : List ℕ) → F.remaining file ≡ Some bytes →
        IsWithin files.now.memory bytes → IsStartOf bytes read) }
    ensures err { IfErr result (λ failure. failure_status failure ≡ 3) }
{
    let is_asked = files.says_progress;
    let mut progress = Progress::new(rt, errors, is_asked, Task::ReadTree, Some(path));
    let tracked = Tracked::new(file, &mut progress);
    let start = start_of(rt.alloc(), files.tree, files.memory, tracked);
    progress.end();
    start
}

/// The tree of the file `name`, which is this one.
fn start_of<'a, F: Read + Drop>(
    alloc: Global,
    name: &'a str,
    limit: Option<u64>,
    file: F,
) -> Result<Result<Tree, TreeError>, Failure<'a>>
    ensures start { IfOk result (λ read. (bytes : List ℕ) → F.remaining file ≡ Some bytes → IsWithin limit bytes →
        IsStartOf bytes read) }
    ensures err { IfErr result (λ failure. failure_status failure ≡ 3) }
{
    let most = limit.unwrap_or(u64::MAX);
    let mut bytes = Counted::new(file.take(most.saturating_add(1)));
    let tree = Tree::read_from(alloc, Tally::new(&mut bytes));
    let flow = bytes.flow();
    drop(bytes);
    judged(name, most, flow, tree)
}

/// What was read of the file `name`, which may have so many bytes, if it could be read and has no more.
fn judged<'a>(
    name: &'a str,
    most: u64,
    flow: Flow,
    tree: Result<Tree, TreeError>,
) -> Result<Result<Tree, TreeError>, Failure<'a>>
    ensures same { IfOk result (IsJudgedStart tree) }
    ensures err { IfErr result (λ failure. failure_status failure ≡ 3) }
{
    if flow.bytes > most {
        drop(tree);
        return Err(Failure::OverLimit(name));
    }
    match tree {
        Err(TreeError::Io { .. }) => Err(Failure::CannotRead(name, flow.code)),
        Err(fault) => Ok(Err(fault)),
        Ok(tree) => Ok(Ok(tree)),
    }
}
