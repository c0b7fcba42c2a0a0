//! Tree files as JSON objects.

use sftp_json::JsonLines;
use sftp_treefile::{EntryTimes, Kind, Owner, Row, Times, TreeFile, TreeLimits};
use std::io;
use std::io::Write;

/// Writes the objects of a tree file, one a line, with at most so many bytes of each text: one for its head, one for
/// the root, and one for each entry.
///
/// # Errors
///
/// That of the output.
pub fn put_tree<O: Write>(file: &TreeFile, limit: usize, output: &mut O) -> io::Result<()> {
    let mut json = JsonLines::new(output, limit);
    put_head(file, &mut json);
    put_root(file.root, file.times.get(0), &mut json);
    put_rows(file.rows.as_slice(), &file.times, &mut json);
    let written = json.finish();
    drop(json);
    written
}

fn put_head<O: Write>(file: &TreeFile, json: &mut JsonLines<'_, O>) {
    json.open();
    json.bytes("home", file.home.as_slice());
    json.number("uid", u64::from(file.uid));
    json.number("gid", u64::from(file.gid));
    let is_wide = file.opening().is_wide();
    if is_wide || file.limits.are_own() {
        put_limits(file.limits, is_wide, json);
    }
    json.number("entries", file.rows.as_slice().len() as u64);
    json.end_line();
}

/// Writes the limits that a tree file has: four, and that on the bytes of all files after the third opening.
fn put_limits<O: Write>(limits: TreeLimits, is_wide: bool, json: &mut JsonLines<'_, O>) {
    json.open_member("limits");
    json.number("entries", u64::from(limits.entries));
    json.number("file_bytes", limits.file_bytes);
    json.number("read_bytes", u64::from(limits.read_bytes));
    json.number("open_handles", u64::from(limits.open_handles));
    if is_wide {
        json.number("total_bytes", limits.total_bytes);
    }
    json.close();
}

fn put_root<O: Write>(root: Owner, times: Times, json: &mut JsonLines<'_, O>) {
    json.open();
    json.number("entry", 0);
    json.word("kind", "D");
    json.word("path", "/");
    put_owner(root, times, json);
    json.end_line();
}

fn put_rows<O: Write>(rows: &[Row], times: &EntryTimes, json: &mut JsonLines<'_, O>) {
    let mut number: u64 = 1;
    for row in rows {
        put_row(number, row, times.get(number as usize), json);
        number = number.saturating_add(1);
    }
}

fn put_row<O: Write>(number: u64, row: &Row, times: Times, json: &mut JsonLines<'_, O>) {
    json.open();
    json.number("entry", number);
    json.word("kind", letter(&row.kind));
    json.bytes("path", row.path.as_slice());
    put_kind(&row.kind, times, json);
    json.end_line();
}

/// How an object names the kind of an entry.
fn letter(kind: &Kind) -> &'static str {
    match kind {
        Kind::Dir(_) => "D",
        Kind::First(..) => "F",
        Kind::Further(_) => "H",
        Kind::Link(_) => "L",
    }
}

/// Writes what an entry has beside its path.
fn put_kind<O: Write>(kind: &Kind, times: Times, json: &mut JsonLines<'_, O>) {
    match kind {
        Kind::Dir(owner) => put_owner(*owner, times, json),
        Kind::First(owner, bytes) => {
            put_owner(*owner, times, json);
            json.bytes("data", bytes.as_slice());
        }
        Kind::Further(first) => json.number("first", u64::from(*first)),
        Kind::Link(target) => json.bytes("target", target.as_slice()),
    }
}

/// Writes who owns an entry, and its times if it has some.
fn put_owner<O: Write>(owner: Owner, times: Times, json: &mut JsonLines<'_, O>) {
    json.number("uid", u64::from(owner.uid));
    json.number("gid", u64::from(owner.gid));
    json.octal("permissions", owner.permissions);
    if times.are_known() {
        json.number("access", u64::from(times.accessed));
        json.number("modification", u64::from(times.modified));
    }
}
