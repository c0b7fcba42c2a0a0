//! From directories to the entries of a tree file: a directory, and then its children with what is below them.
ghost use Rattle.std.specs.Prelude.{◌≡◌, [], ◌+◌, ◌<◌, ◌^◌, length, drop, OnOk, OnErr};
ghost use Rattle.std.specs.List.{flat_map};
ghost use Rattle.std.specs.Io.KnownBytes.{Appends};
ghost use Rattle.sftp_streams.specs.Streams.{AppendsPart};
ghost use Rattle.sftp_treefile.specs.TreeFile.{entry_text};
ghost use Rattle.sftp_treefile.specs.Streamed.{CountsSink};
ghost use Rattle.sftp_tree.specs.Nesting.{branch};
ghost use Rattle.sftp_tree.specs.Tree.{IsKept};
ghost use Rattle.sftp_tree.specs.PictureParts.{entries_from, timed_entries, firsts_from, AreWritable};

use super::progress::Progress;
use super::writing::send_name;
use crate::entries::directories::{Child, Dir};
use crate::trees::Tree;
use sftp_streams::Sink;
use sftp_treefile::{EntryTimes, WriteError, send_link, send_timed_directory};

/// Writes the entries of a child, whose place has the text `at.path`, and of all below it.
#[cycle(branches)]
fn send_child<L: Sink>(
    sink: &mut L,
    scratch: &mut Vec<u8>,
    at: &mut Progress,
    tree: &Tree,
    times: &EntryTimes,
    child: &Child,
) -> Result<(), WriteError>
    requires writable { AreWritable tree.now.files at.old.path.items (branch child.now) }
    requires few { at.old.next + length (branch child.now) < 2 ^ 32 }
    ensures ok { OnOk result (Appends (L.written sink.old) (L.written sink.new)
        (flat_map entry_text (entries_from tree.now.files times.now at.old.firsts.entries at.old.next
        at.old.path.items (branch child.now)))) }
    ensures err { OnErr result (AppendsPart (L.written sink.old) (L.written sink.new)
        (flat_map entry_text (entries_from tree.now.files times.now at.old.firsts.entries at.old.next
        at.old.path.items (branch child.now)))) }
    ensures counts { CountsSink result (L.failures sink.old) (L.failures sink.new) }
    ensures path { OnOk result (at.new.path.items ≡ at.old.path.items) }
    ensures next { OnOk result (at.new.next ≡ at.old.next + length (branch child.now)) }
    ensures firsts { OnOk result
        (at.new.firsts.entries ≡ firsts_from at.old.firsts.entries at.old.next (branch child.now)) }
{
    match child {
        Child::Dir(dir) => {
            let time = times.get(at.next as usize);
            send_timed_directory(sink, scratch, &at.path, &dir.owner(), time)?;
            at.next += 1;
            send_below(sink, scratch, at, tree, times, dir)?;
        }
        Child::File(number) => {
            let time = times.get(at.next as usize);
            send_name(
                sink,
                scratch,
                &mut at.firsts,
                tree,
                &at.path,
                at.next,
                *number,
                time,
            )?;
            at.next += 1;
        }
        Child::Link(target) => {
            send_link(sink, scratch, &at.path, target.as_slice())?;
            at.next += 1;
        }
    }
    Ok(())
}

/// Writes the entries below a directory, whose place has the text `at.path`.
#[cycle(branches)]
fn send_below<L: Sink>(
    sink: &mut L,
    scratch: &mut Vec<u8>,
    at: &mut Progress,
    tree: &Tree,
    times: &EntryTimes,
    dir: &Dir,
) -> Result<(), WriteError>
    requires writable { AreWritable tree.now.files at.old.path.items (drop 1 dir.now) }
    requires few { at.old.next + length (drop 1 dir.now) < 2 ^ 32 }
    ensures ok { OnOk result (Appends (L.written sink.old) (L.written sink.new)
        (flat_map entry_text (entries_from tree.now.files times.now at.old.firsts.entries at.old.next
        at.old.path.items (drop 1 dir.now)))) }
    ensures err { OnErr result (AppendsPart (L.written sink.old) (L.written sink.new)
        (flat_map entry_text (entries_from tree.now.files times.now at.old.firsts.entries at.old.next
        at.old.path.items (drop 1 dir.now)))) }
    ensures counts { CountsSink result (L.failures sink.old) (L.failures sink.new) }
    ensures path { OnOk result (at.new.path.items ≡ at.old.path.items) }
    ensures next { OnOk result (at.new.next ≡ at.old.next + length (drop 1 dir.now)) }
    ensures firsts { OnOk result
        (at.new.firsts.entries ≡ firsts_from at.old.firsts.entries at.old.next (drop 1 dir.now)) }
{
    let end = at.path.len();
    let children = dir.children();
    for (name, child) in children {
        at.enter(name)?;
        send_child(sink, scratch, at, tree, times, child)?;
        at.path.truncate(end);
    }
    Ok(())
}

/// Writes the entries below the root, which is this directory.
pub(super) fn send_entries<L: Sink>(
    sink: &mut L,
    scratch: Vec<u8>,
    tree: &Tree,
    times: &EntryTimes,
    root: &Dir,
) -> Result<(), WriteError>
    requires root { root.now ≡ tree.now.names }
    ensures kept { IsKept tree.now }
    ensures ok { OnOk result (Appends (L.written sink.old) (L.written sink.new)
        (flat_map entry_text (timed_entries tree.now times.now))) }
    ensures err { OnErr result (AppendsPart (L.written sink.old) (L.written sink.new)
        (flat_map entry_text (timed_entries tree.now times.now))) }
    ensures counts { CountsSink result (L.failures sink.old) (L.failures sink.new) }
{
    let mut scratch = scratch;
    let mut at = Progress::new(tree.home().allocator());
    send_below(sink, &mut scratch, &mut at, tree, times, root)?;
    Ok(())
}
