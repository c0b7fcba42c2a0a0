//! The tree that a session starts from.
ghost use Rattle.std.specs.Prelude.{◌≡◌, Ok, is_some, IfOk, IfSome};
ghost use Rattle.sftp_tree.specs.Picture.{IsStart};
ghost use Rattle.sftp_serving.specs.Runs.{StartsFrom};

use crate::places::Places;
use crate::streams::Counted;
use sftp_clock::TimeTable;
use sftp_files::{Failure, Flow, ServeOptions};
use sftp_transcript::{Source, Tally};
use sftp_tree::Tree;
use sftp_treefile::TreeError;
use std::alloc::Global;
use std::io::Read;

/// The tree that a session starts from, and its times if the session keeps some. No more of the tree file is held than
/// the tree and a buffer.
pub(crate) fn first_tree<'a, P: Places<'a>>(
    alloc: Global,
    places: &P,
    options: &ServeOptions<'a>,
    keeps_times: bool,
) -> Result<(Tree, Option<TimeTable>), Failure<'a>>
    ensures started { IfOk result (λ start. StartsFrom options.now.memory (P.tree_file places.now) start.0) }
    ensures times { IfOk result (λ start. is_some start.1 ≡ keeps_times) }
{
    let file = places.open_tree()?;
    match options.memory {
        Some(most) => {
            let front = file.take(most.saturating_add(1));
            tree_of(alloc, options.tree, most, front, keeps_times)
        }
        None => tree_of(alloc, options.tree, u64::MAX, file, keeps_times),
    }
}

/// The tree of the tree file of this name, which is open and may have so many bytes, and its times if they are kept.
fn tree_of<'a, F: Read + Drop>(
    alloc: Global,
    name: &'a str,
    most: u64,
    file: F,
    keeps_times: bool,
) -> Result<(Tree, Option<TimeTable>), Failure<'a>>
    ensures started { IfOk result (λ start. IfSome (F.remaining file) (λ bytes. IsStart start.0 bytes)) }
    ensures times { IfOk result (λ start. is_some start.1 ≡ keeps_times) }
{
    let mut bytes = Counted::new(file);
    let mut times = new_times(alloc, keeps_times);
    let read = read_tree(alloc, Tally::new(&mut bytes), &mut times);
    let flow = bytes.flow();
    drop(bytes);
    match judged(name, most, flow, read) {
        Ok(tree) => Ok((tree, times)),
        Err(failure) => {
            drop(times);
            Err(failure)
        }
    }
}

/// A table of times, if they are kept.
fn new_times(alloc: Global, keeps_times: bool) -> Option<TimeTable>
    ensures { is_some result ≡ keeps_times }
{
    if keeps_times {
        Some(TimeTable::new(alloc))
    } else {
        None
    }
}

/// The tree of a tree file that a source gives, or the first fault of the file. Its times go into the table, if there
/// is one.
fn read_tree<R: Source + Drop>(
    alloc: Global,
    source: R,
    times: &mut Option<TimeTable>,
) -> Result<Tree, TreeError>
    ensures started { IfOk result (λ tree. IfSome (R.left source) (λ bytes. IsStart tree bytes)) }
    ensures times { is_some times.new ≡ is_some times.old }
{
    match times {
        Some(times) => Tree::read_looking_from(alloc, source, times),
        None => Tree::read_from(alloc, source),
    }
}

/// The tree that was read of the file of this name, which may have so many bytes, if it could be read, has no more, and
/// has no fault.
fn judged<'a>(
    name: &'a str,
    most: u64,
    flow: Flow,
    read: Result<Tree, TreeError>,
) -> Result<Tree, Failure<'a>>
    ensures { IfOk result (λ tree. read ≡ Ok tree) }
{
    if flow.bytes > most {
        drop(read);
        return Err(Failure::OverLimit(name));
    }
    match read {
        Ok(tree) => Ok(tree),
        Err(TreeError::Io { .. }) => Err(Failure::CannotRead(name, flow.code)),
        Err(fault) => Err(Failure::from(fault)),
    }
}
