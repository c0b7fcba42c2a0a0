//! The times of a tree's entries, in the order of its tree file, asked of what keeps them beside the tree.
ghost use Rattle.std.specs.Prelude.{◌≡◌, [], ◌+◌, ◌<◌, ◌^◌, length, drop, IfOk, OnOk};
ghost use Rattle.std.specs.Ordering.{nat_cmp};
ghost use Rattle.sftp_path.specs.Table.{get};
ghost use Rattle.sftp_treefile.specs.TreeFile.{AreFileTimes, AreTimes};
ghost use Rattle.sftp_tree.specs.Nesting.{branch, IsBranch};
ghost use Rattle.sftp_tree.specs.Picture.{AreToldTimes, AreOfName};
ghost use Rattle.sftp_tree.specs.PictureParts.{AddsTimes, with_first, firsts_from};

use super::progress::{Progress, note_first};
use crate::entries::directories::{Child, Dir};
use crate::entry_times::HasTimes;
use crate::file_numbers::FileNo;
use crate::trees::Tree;
use sftp_path::NoMemory;
use sftp_treefile::{EntryTimes, NO_TIMES, Times};
use std::collections::BTreeMap;

/// The times of a name of a file: the first one has those of the file, and is noted with its number.
#[tactic(auto, unfolding(sftp_path::specs::Table::get))]
fn times_of_name<K: HasTimes>(
    keeper: &K,
    firsts: &mut BTreeMap<FileNo, u32>,
    entry: u32,
    number: FileNo,
) -> Result<Times, NoMemory>
    ensures told { IfOk result
        (λ times. AreOfName (get nat_cmp firsts.old.entries number) (K.of_file keeper.now number) times) }
    ensures small { IfOk result AreTimes }
    ensures firsts { OnOk result
        (firsts.new.entries ≡ with_first firsts.old.entries entry number (get nat_cmp firsts.old.entries number)) }
{
    if let Some(_first) = firsts.get(&number) {
        return Ok(NO_TIMES);
    }
    note_first(firsts, number, entry)?;
    Ok(keeper.times_of_file(number))
}

/// The times of a directory, whose place has this text.
fn times_of_directory<K: HasTimes>(keeper: &K, path: &[u8]) -> Times
    ensures told { K.of_directory keeper.now path.now result }
    ensures small { AreTimes result }
{
    keeper.times_of_directory(path)
}

/// Appends the times of a child, whose place has the text `at.path`, and of all below it.
#[cycle(times)]
fn ask_child<K: HasTimes>(
    keeper: &K,
    at: &mut Progress,
    times: &mut Vec<Times>,
    child: &Child,
) -> Result<(), NoMemory>
    requires branch { IsBranch child.now }
    requires few { at.old.next + length (branch child.now) < 2 ^ 32 }
    ensures told { OnOk result (AddsTimes (K.of_file keeper.now) (K.of_directory keeper.now) at.old.firsts.entries
        at.old.next at.old.path.items (branch child.now) times.old.items times.new.items) }
    ensures path { OnOk result (at.new.path.items ≡ at.old.path.items) }
    ensures next { OnOk result (at.new.next ≡ at.old.next + length (branch child.now)) }
    ensures firsts { OnOk result
        (at.new.firsts.entries ≡ firsts_from at.old.firsts.entries at.old.next (branch child.now)) }
{
    match child {
        Child::Dir(dir) => {
            let time = times_of_directory(keeper, &at.path);
            times.push(time)?;
            at.next += 1;
            ask_below(keeper, at, times, dir)?;
        }
        Child::File(number) => {
            let time = times_of_name(keeper, &mut at.firsts, at.next, *number)?;
            times.push(time)?;
            at.next += 1;
        }
        Child::Link(_) => {
            times.push(NO_TIMES)?;
            at.next += 1;
        }
    }
    Ok(())
}

/// Appends the times of what is below a directory, whose place has the text `at.path`.
#[cycle(times)]
fn ask_below<K: HasTimes>(
    keeper: &K,
    at: &mut Progress,
    times: &mut Vec<Times>,
    dir: &Dir,
) -> Result<(), NoMemory>
    requires few { at.old.next + length (drop 1 dir.now) < 2 ^ 32 }
    ensures told { OnOk result (AddsTimes (K.of_file keeper.now) (K.of_directory keeper.now) at.old.firsts.entries
        at.old.next at.old.path.items (drop 1 dir.now) times.old.items times.new.items) }
    ensures path { OnOk result (at.new.path.items ≡ at.old.path.items) }
    ensures next { OnOk result (at.new.next ≡ at.old.next + length (drop 1 dir.now)) }
    ensures firsts { OnOk result
        (at.new.firsts.entries ≡ firsts_from at.old.firsts.entries at.old.next (drop 1 dir.now)) }
{
    let end = at.path.len();
    let children = dir.children();
    for (name, child) in children {
        at.enter(name)?;
        ask_child(keeper, at, times, child)?;
        at.path.truncate(end);
    }
    Ok(())
}

/// The times of a tree file of a tree: of the root, and then of each entry.
pub(super) fn entry_times<K: HasTimes>(tree: &Tree, keeper: &K) -> Result<EntryTimes, NoMemory>
    ensures { IfOk result
        (λ times. AreToldTimes (K.of_file keeper.now) (K.of_directory keeper.now) tree.now times) }
{
    let alloc = tree.home().allocator();
    let mut times = Vec::with_capacity(alloc, tree.names().len())?;
    let root = tree.names().root_directory();
    let time = times_of_directory(keeper, b"/");
    times.push(time)?;
    let mut at = Progress::new(alloc);
    ask_below(keeper, &mut at, &mut times, root)?;
    Ok(EntryTimes::new(alloc, times))
}
