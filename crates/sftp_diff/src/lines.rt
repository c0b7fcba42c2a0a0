//! The lines of what differs between two tree files.

use crate::differences::{
    Difference, OwnerDifference, apart, put_owners, put_texts, put_times, times_apart,
};
use crate::steps::{Change, Steps};
use sftp_show::Quoted;
use sftp_treefile::{Row, Times, TreeFile, TreeLimits};
use std::io::Write;
use std::{fmt, io};

/// How the heads of two tree files differ: the homes, who owns what is made, and the limits.
#[derive(Clone, Copy)]
struct HeadDifference<'a>(&'a TreeFile, &'a TreeFile);

impl HeadDifference<'_> {
    /// Whether the heads are the same.
    fn is_none(&self) -> bool {
        self.0.home.as_slice() == self.1.home.as_slice()
            && self.0.uid == self.1.uid
            && self.0.gid == self.1.gid
            && self.0.limits == self.1.limits
    }
}

impl fmt::Display for HeadDifference<'_> {
    fn fmt<W: fmt::Write>(&self, f: &mut fmt::Formatter<W>) -> fmt::Result {
        let homes = apart(Some(self.0.home.as_slice()), Some(self.1.home.as_slice()));
        put_texts("home", homes, f)?;
        put_owners((self.0.uid, self.0.gid), (self.1.uid, self.1.gid), f)?;
        put_limits(self.0.limits, self.1.limits, f)
    }
}

/// Writes which limits a tree had and has, if they differ.
fn put_limits<W: fmt::Write>(
    old: TreeLimits,
    new: TreeLimits,
    f: &mut fmt::Formatter<W>,
) -> fmt::Result {
    if old == new {
        return Ok(());
    }
    let are_far = old.are_far() || new.are_far();
    f.write_str(" limits ")?;
    put_numbers(old, are_far, f)?;
    f.write_str(" -> ")?;
    put_numbers(new, are_far, f)
}

/// Writes limits with commas between them: four, and that on the bytes of all files if one of the trees has limits
/// which no other opening holds.
fn put_numbers<W: fmt::Write>(
    limits: TreeLimits,
    are_far: bool,
    f: &mut fmt::Formatter<W>,
) -> fmt::Result {
    let TreeLimits {
        entries,
        file_bytes,
        read_bytes,
        open_handles,
        total_bytes,
    } = limits;
    write!(f, "{entries},{file_bytes},{read_bytes},{open_handles}")?;
    if are_far {
        write!(f, ",{total_bytes}")?;
    }
    Ok(())
}

/// Writes how a new tree file differs from an old one, in the order of the places: a line for the head if it differs,
/// and one for each place whose entries differ, each with a line feed. Takes time linear in the length of both files,
/// and no memory.
///
/// Where both entries are further names, no bytes are compared: those of a file are compared at its first name. Times
/// are compared if that is asked for.
///
/// # Errors
///
/// That of the output.
pub fn put_differences<O: Write>(
    old: &TreeFile,
    new: &TreeFile,
    with_times: bool,
    output: &mut O,
) -> io::Result<()> {
    put_head(old, new, output)?;
    put_root(old, new, with_times, output)?;
    put_rows(old, new, with_times, output)
}

/// Writes how the heads differ, if they do.
fn put_head<O: Write>(old: &TreeFile, new: &TreeFile, output: &mut O) -> io::Result<()> {
    let head = HeadDifference(old, new);
    if !head.is_none() {
        writeln!(output, "head{head}")?;
    }
    Ok(())
}

/// How the roots differ: their owners, and their times if these are compared.
#[derive(Clone, Copy)]
struct RootDifference {
    owners: OwnerDifference,
    times: Option<(Times, Times)>,
}

impl fmt::Display for RootDifference {
    fn fmt<W: fmt::Write>(&self, f: &mut fmt::Formatter<W>) -> fmt::Result {
        self.owners.fmt(f)?;
        put_times(self.times, f)
    }
}

/// Writes how the roots differ, if they do.
fn put_root<O: Write>(
    old: &TreeFile,
    new: &TreeFile,
    with_times: bool,
    output: &mut O,
) -> io::Result<()> {
    let root = RootDifference {
        owners: OwnerDifference(old.root, new.root),
        times: root_times(old, new, with_times),
    };
    if !root.owners.is_none() || root.times.is_some() {
        writeln!(output, "\"/\"{root}")?;
    }
    Ok(())
}

/// The times of the roots, if they differ and are compared.
pub(crate) fn root_times(
    old: &TreeFile,
    new: &TreeFile,
    with_times: bool,
) -> Option<(Times, Times)> {
    if with_times {
        times_apart(old.times.get(0), new.times.get(0))
    } else {
        None
    }
}

/// Writes how the entries of two trees differ.
fn put_rows<O: Write>(
    old: &TreeFile,
    new: &TreeFile,
    with_times: bool,
    output: &mut O,
) -> io::Result<()> {
    let mut steps = Steps::new(old, new, with_times);
    for _ in 0..steps.count() {
        match steps.next() {
            Some(change) => put_change(change, output)?,
            None => return Ok(()),
        }
    }
    Ok(())
}

/// Writes what happened at a place, if anything did.
fn put_change<O: Write>(change: Change<'_>, output: &mut O) -> io::Result<()> {
    match change {
        Change::Removed(row) => put_alone(row, "removed", output),
        Change::Added(row) => put_alone(row, "added", output),
        Change::Kept(row, difference) => put_kept(row, &difference, output),
    }
}

/// Writes what happened to an entry that one of the trees alone has.
fn put_alone<O: Write>(row: &Row, what: &str, output: &mut O) -> io::Result<()> {
    let path = Quoted(row.path.as_slice());
    writeln!(output, "{path} {what}")
}

/// Writes how the entries of a place differ, if they do.
fn put_kept<O: Write>(row: &Row, difference: &Difference<'_>, output: &mut O) -> io::Result<()> {
    if difference.is_none() {
        return Ok(());
    }
    let path = Quoted(row.path.as_slice());
    writeln!(output, "{path}{difference}")
}
