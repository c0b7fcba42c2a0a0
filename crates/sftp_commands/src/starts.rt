//! Trees in files, from which sessions start.
ghost use Rattle.std.specs.Prelude.{◌≡◌, IfErr};
ghost use Rattle.sftp_files.specs.Failures.{failure_status};

use sftp_files::{Failure, Flow, System, Watched, open, open_at};
use sftp_progress::{Progress, Task, Tracked};
use sftp_transcript::Tally;
use sftp_tree::{Looks, Tree};
use sftp_treefile::TreeError;
use std::alloc::Global;
use std::fs::Files;
use std::io::{IsTerminal, Read, Write};
use std::time::Clock;

/// The tree of the file at this path, read once more.
///
/// # Errors
///
/// The first fault of the file; `Io` at no entry if it cannot be opened.
pub fn read_tree_again<R: Files + AllocGlobal>(rt: &R, path: &str) -> Result<Tree, TreeError> {
    match open(rt, path) {
        Ok(file) => Tree::read_from(rt.alloc(), Tally::new(file)),
        Err(_) => Err(TreeError::Io { entry: 0 }),
    }
}

/// The tree of the file `name`, or the first fault of the file. No more of it is held than the tree and a buffer.
///
/// # Errors
///
/// If the file cannot be read, or has more bytes than the limit.
pub fn read_tree<'a, R: System>(
    rt: &R,
    name: &'a str,
    limit: Option<u64>,
) -> Result<Result<Tree, TreeError>, Failure<'a>>
    ensures { IfErr result (λ failure. failure_status failure ≡ 3) }
{
    let file = open(rt, name)?;
    tree_of(rt.alloc(), name, limit, file)
}

/// The same, while something looks at what the file says.
///
/// # Errors
///
/// As `read_tree`.
pub fn read_tree_looking<'a, R: System, K: Looks>(
    rt: &R,
    name: &'a str,
    limit: Option<u64>,
    looker: &mut K,
) -> Result<Result<Tree, TreeError>, Failure<'a>>
    ensures { IfErr result (λ failure. failure_status failure ≡ 3) }
{
    let file = open(rt, name)?;
    let most = most_of(limit);
    let mut bytes = Watched::new(file.take(most.saturating_add(1)));
    let tree = Tree::read_looking_from(rt.alloc(), Tally::new(&mut bytes), looker);
    let flow = bytes.flow();
    drop(bytes);
    judged(name, most, flow, tree)
}

/// The same of a file that is read at this path, while standard error says how much of it is read; where it is no
/// terminal, if that is asked for.
///
/// # Errors
///
/// As `read_tree`.
pub fn read_tree_in_view<'a, R: System + Clock, E: Write + IsTerminal>(
    rt: &R,
    name: &'a str,
    path: &str,
    limit: Option<u64>,
    is_asked: bool,
    errors: &mut E,
) -> Result<Result<Tree, TreeError>, Failure<'a>>
    ensures { IfErr result (λ failure. failure_status failure ≡ 3) }
{
    let file = open_at(rt, path, name)?;
    let mut progress = Progress::new(rt, errors, is_asked, Task::ReadTree, Some(path));
    let tracked = Tracked::new(file, &mut progress);
    let tree = tree_of(rt.alloc(), name, limit, tracked);
    progress.end();
    tree
}

/// The tree of the file `name`, which is this one.
fn tree_of<'a, F: Read + Drop>(
    alloc: Global,
    name: &'a str,
    limit: Option<u64>,
    file: F,
) -> Result<Result<Tree, TreeError>, Failure<'a>>
    ensures { IfErr result (λ failure. failure_status failure ≡ 3) }
{
    let most = most_of(limit);
    let mut bytes = Watched::new(file.take(most.saturating_add(1)));
    let tree = Tree::read_from(alloc, Tally::new(&mut bytes));
    let flow = bytes.flow();
    drop(bytes);
    judged(name, most, flow, tree)
}

/// The most bytes that a file may have.
fn most_of(limit: Option<u64>) -> u64 {
    limit.unwrap_or(u64::MAX)
}

/// What was read of the file `name`, which may have so many bytes, if it could be read and has no more.
fn judged<'a>(
    name: &'a str,
    most: u64,
    flow: Flow,
    tree: Result<Tree, TreeError>,
) -> Result<Result<Tree, TreeError>, Failure<'a>>
    ensures { IfErr result (λ failure. failure_status failure ≡ 3) }
{
    if flow.bytes > most {
        drop(tree);
        return Err(Failure::OverLimit(name));
    }
    match tree {
        Err(TreeError::Io { .. }) => Err(Failure::CannotRead(name, flow.code)),
        Err(fault) => Ok(Err(fault)),
        Ok(tree) => Ok(Ok(tree)),
    }
}
