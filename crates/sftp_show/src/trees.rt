//! The lines of a tree file.

use crate::quoted::Quoted;
use sftp_treefile::{Kind, Opening, Owner, Row, Times, TreeFile, TreeLimits};
use std::io::Write;
use std::{fmt, io};

/// The least length of the bytes of a file that is no uint32.
const LONG: u64 = 1 << 32;

/// Who owns an entry, and its permissions in octal.
#[derive(Clone, Copy)]
struct Owned(Owner);

impl fmt::Display for Owned {
    fn fmt<W: fmt::Write>(&self, f: &mut fmt::Formatter<W>) -> fmt::Result {
        let uid = self.0.uid;
        let gid = self.0.gid;
        let permissions = self.0.permissions;
        write!(f, "{uid} {gid} {permissions:04o}")
    }
}

/// The limits that a tree file has: nothing after the first opening, after the second ` limits ` and the four, and
/// after the third ` limits ` and the five.
#[derive(Clone, Copy)]
struct Limits(Opening, TreeLimits);

impl fmt::Display for Limits {
    fn fmt<W: fmt::Write>(&self, f: &mut fmt::Formatter<W>) -> fmt::Result {
        match self.0 {
            Opening::Usual => Ok(()),
            Opening::Raised => put_four(self.1, f),
            Opening::Wide => {
                put_four(self.1, f)?;
                let total_bytes = self.1.total_bytes;
                write!(f, " {total_bytes}")
            }
        }
    }
}

/// Writes ` limits ` and the four limits that follow the second opening.
fn put_four<W: fmt::Write>(limits: TreeLimits, f: &mut fmt::Formatter<W>) -> fmt::Result {
    let entries = limits.entries;
    let file_bytes = limits.file_bytes;
    let read_bytes = limits.read_bytes;
    let open_handles = limits.open_handles;
    write!(
        f,
        " limits {entries} {file_bytes} {read_bytes} {open_handles}"
    )
}

/// The times of an entry, each after a space: nothing where none are known.
#[derive(Clone, Copy)]
struct Timed(Times);

impl fmt::Display for Timed {
    fn fmt<W: fmt::Write>(&self, f: &mut fmt::Formatter<W>) -> fmt::Result {
        if !self.0.are_known() {
            return Ok(());
        }
        let accessed = self.0.accessed;
        let modified = self.0.modified;
        write!(f, " {accessed} {modified}")
    }
}

/// Writes the lines of a tree file, each with a line feed: the home, owner, limits of its own and number of entries;
/// the root; and each entry with its number, kind and path. The kind is the letter of the entry in the file.
///
/// # Errors
///
/// That of the output.
pub fn show_tree<O: Write>(file: &TreeFile, output: &mut O) -> io::Result<()> {
    put_head(file, output)?;
    let mut number: u64 = 1;
    for row in file.rows.as_slice() {
        put_row(number, row, file.times.get(number as usize), output)?;
        number = number.saturating_add(1);
    }
    Ok(())
}

fn put_head<O: Write>(file: &TreeFile, output: &mut O) -> io::Result<()> {
    let home = Quoted(file.home.as_slice());
    let uid = file.uid;
    let gid = file.gid;
    let limits = Limits(file.opening(), file.limits);
    let entries = file.rows.as_slice().len();
    let root = Owned(file.root);
    let times = file.times.get(0);
    let kind = letter_with(times, 'D', 'd');
    let times = Timed(times);
    writeln!(
        output,
        "home {home} uid {uid} gid {gid}{limits} entries {entries}\n0 {kind} \"/\" {root}{times}"
    )
}

fn put_row<O: Write>(number: u64, row: &Row, times: Times, output: &mut O) -> io::Result<()> {
    let kind = letter(&row.kind, times);
    let path = Quoted(row.path.as_slice());
    let details = Details(&row.kind, times);
    writeln!(output, "{number} {kind} {path} {details}")
}

/// The one letter, or the other if there are times.
fn letter_with(times: Times, plain: char, timed: char) -> char {
    if times.are_known() { timed } else { plain }
}

/// How a line names the kind of an entry with these times.
fn letter(kind: &Kind, times: Times) -> char {
    match kind {
        Kind::Dir(_) => letter_with(times, 'D', 'd'),
        Kind::First(_, bytes) if is_long(bytes.as_slice()) => letter_with(times, 'G', 'g'),
        Kind::First(..) => letter_with(times, 'F', 'f'),
        Kind::Further(_) => 'H',
        Kind::Link(_) => 'L',
    }
}

/// Whether the length of these bytes is no uint32.
fn is_long(bytes: &[u8]) -> bool {
    bytes.len() as u64 >= LONG
}

/// What a line says of an entry behind its path, which has these times.
#[derive(Clone, Copy)]
struct Details<'a>(&'a Kind, Times);

impl fmt::Display for Details<'_> {
    fn fmt<W: fmt::Write>(&self, f: &mut fmt::Formatter<W>) -> fmt::Result {
        match self.0 {
            Kind::Dir(owner) => put_owned(*owner, self.1, f),
            Kind::First(owner, bytes) => {
                put_owned(*owner, self.1, f)?;
                let length = bytes.as_slice().len();
                write!(f, " {length}")
            }
            Kind::Further(first) => write!(f, "{first}"),
            Kind::Link(link) => Quoted(link.as_slice()).fmt(f),
        }
    }
}

/// Writes who owns an entry, and its times if it has some.
fn put_owned<W: fmt::Write>(owner: Owner, times: Times, f: &mut fmt::Formatter<W>) -> fmt::Result {
    let owner = Owned(owner);
    let times = Timed(times);
    write!(f, "{owner}{times}")
}
