//! The subcommand `diff`: how two tree files differ, as lines of text or as JSON objects.
ghost use Rattle.std.specs.Prelude.{◌≡◌, ◌≢◌};
ghost use Rattle.sftp_files.specs.declared.messages.Ending.TheVariants as endings;
ghost use Rattle.sftp_commands.specs.Sameness.{compared_part};

use crate::objects::printed;
use crate::sameness::is_same;
use crate::trees::rows_in_view;
use sftp_diff::{put_differences, put_objects};
use sftp_files::{DiffForm, Ending, Failure, System};
use sftp_progress::{Console, Task};
use sftp_treefile::{TreeError, TreeFile};
use std::io;
use std::io::{IsTerminal, Write};
use std::time::Clock;

/// How many times the bytes of either file the memory has at most that a comparison takes.
const SHARE: u64 = 32;

/// Shows how two tree files differ. Both are read and judged before any line is written. No more of them is held than
/// the trees and a buffer.
pub fn diff<'a, R: System + Clock, O: Write, E: Write + IsTerminal>(
    rt: &R,
    names: (&'a str, &'a str),
    memory: Option<u64>,
    form: DiffForm,
    output: &mut O,
    console: &mut Console<'_, E>,
) -> Result<Ending, Failure<'a>> {
    let (old, new) = names;
    let most = most_of(memory);
    let before = rows_in_view(rt, old, most, Task::ReadOld, console)?;
    match rows_in_view(rt, new, most, Task::ReadNew, console) {
        Ok(after) => {
            let ended = diff_read((old, &before), (new, &after), form, output);
            drop(before);
            drop(after);
            ended
        }
        Err(failure) => {
            drop(before);
            Err(failure)
        }
    }
}

/// The most bytes that either file may have where the memory may have so many.
fn most_of(memory: Option<u64>) -> u64 {
    match memory {
        Some(bytes) => bytes / SHARE,
        None => u64::MAX,
    }
}

/// What a tree file says, or its fault, and its name before that.
type FileRead<'f, 'a> = (&'a str, &'f Result<TreeFile, TreeError>);

/// Shows how two tree files differ that were read.
fn diff_read<'a, O: Write>(
    old: FileRead<'_, 'a>,
    new: FileRead<'_, 'a>,
    form: DiffForm,
    output: &mut O,
) -> Result<Ending, Failure<'a>> {
    let old = sound(old)?;
    let new = sound(new)?;
    match show(old, new, form, output) {
        Ok(()) => Ok(compared(old, new, form.with_times)),
        Err(failure) => Err(failure),
    }
}

/// What a tree file says, or the failure of the run for its fault.
fn sound<'f, 'a>(file: FileRead<'f, 'a>) -> Result<&'f TreeFile, Failure<'a>> {
    let (name, read) = file;
    match read {
        Ok(file) => Ok(file),
        Err(TreeError::NoMemory) => Err(Failure::OutOfMemory),
        Err(error) => Err(Failure::TreeOf(name, *error)),
    }
}

/// Whether two tree files say the same, but for times if these are not compared.
fn compared(old: &TreeFile, new: &TreeFile, with_times: bool) -> Ending
    ensures same { result ≡ endings.Done → compared_part with_times old.now ≡ compared_part with_times new.now }
    ensures different { result ≢ endings.Done → compared_part with_times old.now ≢ compared_part with_times new.now }
{
    if is_same(old, new, with_times) {
        Ending::Done
    } else {
        Ending::Different
    }
}

/// Prints how a new tree file differs from an old one, as lines of text or as JSON objects.
fn show<'a, O: Write>(
    old: &TreeFile,
    new: &TreeFile,
    form: DiffForm,
    output: &mut O,
) -> Result<(), Failure<'a>> {
    let put = if form.is_json {
        put_objects(old, new, form.with_times, output)
    } else {
        put_flushed(old, new, form.with_times, output)
    };
    printed(put)
}

fn put_flushed<O: Write>(
    old: &TreeFile,
    new: &TreeFile,
    with_times: bool,
    output: &mut O,
) -> io::Result<()> {
    put_differences(old, new, with_times, output)?;
    output.flush()?;
    Ok(())
}
