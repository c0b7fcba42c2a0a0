//! What differs between two tree files, as JSON objects, one a line.

use crate::differences::{Difference, OwnerDifference, apart, first_difference, letter};
use crate::lines::root_times;
use crate::steps::{Change, Steps};
use sftp_json::JsonLines;
use sftp_treefile::{Row, Times, TreeFile, TreeLimits};
use std::io;
use std::io::Write;

/// Writes what `put_differences` writes, in the same order, as JSON objects, one a line. Then the output is flushed.
///
/// # Errors
///
/// That of the output.
pub fn put_objects<O: Write>(
    old: &TreeFile,
    new: &TreeFile,
    with_times: bool,
    output: &mut O,
) -> io::Result<()> {
    let mut json = JsonLines::new(output, usize::MAX);
    put_head(old, new, &mut json);
    let times = root_times(old, new, with_times);
    put_root(OwnerDifference(old.root, new.root), times, &mut json);
    put_rows(old, new, with_times, &mut json);
    json.finish()
}

/// Writes how the heads of two tree files differ, if they do.
fn put_head<O: Write>(old: &TreeFile, new: &TreeFile, json: &mut JsonLines<'_, O>) {
    let homes = apart(Some(old.home.as_slice()), Some(new.home.as_slice()));
    if homes.is_none() && old.uid == new.uid && old.gid == new.gid && old.limits == new.limits {
        return;
    }
    json.open();
    json.word("change", "head");
    put_texts("home", homes, json);
    put_numbers("uid", u64::from(old.uid), u64::from(new.uid), json);
    put_numbers("gid", u64::from(old.gid), u64::from(new.gid), json);
    if old.limits != new.limits {
        json.open_member("limits");
        let are_far = old.limits.are_far() || new.limits.are_far();
        put_limits("old", old.limits, are_far, json);
        put_limits("new", new.limits, are_far, json);
        json.close();
    }
    json.end_line();
}

/// Writes limits as a member, that on the bytes of all files among them if one of the trees has limits which no other
/// opening holds.
fn put_limits<O: Write>(
    name: &str,
    limits: TreeLimits,
    are_far: bool,
    json: &mut JsonLines<'_, O>,
) {
    let TreeLimits {
        entries,
        file_bytes,
        read_bytes,
        open_handles,
        total_bytes,
    } = limits;
    json.open_member(name);
    json.number("entries", u64::from(entries));
    json.number("file_bytes", file_bytes);
    json.number("read_bytes", u64::from(read_bytes));
    json.number("open_handles", u64::from(open_handles));
    if are_far {
        json.number("total_bytes", total_bytes);
    }
    json.close();
}

/// Writes how the roots differ, if they do.
fn put_root<O: Write>(
    owners: OwnerDifference,
    times: Option<(Times, Times)>,
    json: &mut JsonLines<'_, O>,
) {
    if owners.is_none() && times.is_none() {
        return;
    }
    json.open();
    put_entry("changed", b"/", 'D', json);
    put_owners(owners, json);
    put_times(times, json);
    json.end_line();
}

/// Writes which times differ.
fn put_times<O: Write>(times: Option<(Times, Times)>, json: &mut JsonLines<'_, O>) {
    if let Some((old, new)) = times {
        put_numbers(
            "access",
            u64::from(old.accessed),
            u64::from(new.accessed),
            json,
        );
        put_numbers(
            "modification",
            u64::from(old.modified),
            u64::from(new.modified),
            json,
        );
    }
}

/// Writes how the entries of two trees differ.
fn put_rows<O: Write>(
    old: &TreeFile,
    new: &TreeFile,
    with_times: bool,
    json: &mut JsonLines<'_, O>,
) {
    let mut steps = Steps::new(old, new, with_times);
    for _ in 0..steps.count() {
        match steps.next() {
            Some(change) => put_change(change, json),
            None => return,
        }
    }
}

/// Writes what happened at a place, if anything did.
fn put_change<O: Write>(change: Change<'_>, json: &mut JsonLines<'_, O>) {
    match change {
        Change::Removed(row) => put_alone("removed", row, json),
        Change::Added(row) => put_alone("added", row, json),
        Change::Kept(row, difference) => {
            if !difference.is_none() {
                put_kept(row, &difference, json);
            }
        }
    }
}

/// Writes the object of an entry that one of the trees alone has.
fn put_alone<O: Write>(change: &str, row: &Row, json: &mut JsonLines<'_, O>) {
    json.open();
    put_entry(change, row.path.as_slice(), letter(&row.kind), json);
    json.end_line();
}

/// Writes the object of an entry that differs from the one before.
fn put_kept<O: Write>(row: &Row, difference: &Difference<'_>, json: &mut JsonLines<'_, O>) {
    json.open();
    put_entry("changed", row.path.as_slice(), letter(&row.kind), json);
    if let Some((old, _)) = difference.kinds {
        json.word("old_kind", kind_of(old));
    }
    put_texts("first_name", difference.first_names, json);
    if let Some(owners) = difference.owners {
        put_owners(owners, json);
    }
    put_times(difference.times, json);
    put_content(difference.bytes, json);
    put_texts("target", difference.targets, json);
    json.end_line();
}

/// Writes the members that the object of every entry has.
fn put_entry<O: Write>(change: &str, path: &[u8], letter: char, json: &mut JsonLines<'_, O>) {
    json.word("change", change);
    json.bytes("path", path);
    json.word("kind", kind_of(letter));
}

/// The letter of a kind, as a text.
fn kind_of(letter: char) -> &'static str {
    match letter {
        'D' => "D",
        'L' => "L",
        _ => "F",
    }
}

/// Writes which owner, group and permissions differ.
fn put_owners<O: Write>(owners: OwnerDifference, json: &mut JsonLines<'_, O>) {
    let OwnerDifference(old, new) = owners;
    put_numbers("uid", u64::from(old.uid), u64::from(new.uid), json);
    put_numbers("gid", u64::from(old.gid), u64::from(new.gid), json);
    if old.permissions != new.permissions {
        json.open_member("permissions");
        json.octal("old", old.permissions);
        json.octal("new", new.permissions);
        json.close();
    }
}

/// Writes from where on the bytes of two files differ, and their lengths if these differ.
fn put_content<O: Write>(bytes: Option<(&[u8], &[u8])>, json: &mut JsonLines<'_, O>) {
    if let Some((old, new)) = bytes {
        put_numbers("length", old.len() as u64, new.len() as u64, json);
        json.number("content_from", first_difference(old, new) as u64);
    }
}

/// Writes two numbers as a member, if they differ.
fn put_numbers<O: Write>(name: &str, old: u64, new: u64, json: &mut JsonLines<'_, O>) {
    if old != new {
        json.open_member(name);
        json.number("old", old);
        json.number("new", new);
        json.close();
    }
}

/// Writes two texts as a member, if there are any.
fn put_texts<O: Write>(name: &str, texts: Option<(&[u8], &[u8])>, json: &mut JsonLines<'_, O>) {
    if let Some((old, new)) = texts {
        json.open_member(name);
        json.bytes("old", old);
        json.bytes("new", new);
        json.close();
    }
}
