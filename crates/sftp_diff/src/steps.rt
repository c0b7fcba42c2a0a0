//! The steps through the entries of two trees, in the order of their places, and what happened at each.

use crate::differences::{Difference, Entry};
use sftp_treefile::{EntryTimes, Row, TreeFile};
use std::cmp::Ordering;

/// What happened at one place.
#[derive(Clone, Copy)]
pub(crate) enum Change<'a> {
    /// Its entry is in the old tree alone.
    Removed(&'a Row),
    /// Its entry is in the new tree alone.
    Added(&'a Row),
    /// Both trees have an entry there, this one the new tree, and they differ so, if at all.
    Kept(&'a Row, Difference<'a>),
}

/// The entries of a tree that were not stepped over yet.
#[derive(Clone, Copy)]
struct Left<'a> {
    /// All rows of the tree.
    rows: &'a [Row],
    /// The times of its root and its rows, if they are compared.
    times: Option<&'a EntryTimes>,
    /// How many rows were stepped over.
    done: usize,
}

impl<'a> Left<'a> {
    fn new(file: &'a TreeFile, with_times: bool) -> Left<'a> {
        Left {
            rows: file.rows.as_slice(),
            times: if with_times { Some(&file.times) } else { None },
            done: 0,
        }
    }

    /// The rows that are left.
    fn rows_left(&self) -> &'a [Row] {
        self.rows.get(self.done..).unwrap_or(&[])
    }

    /// The next entry.
    fn entry(&self) -> Option<Entry<'a>> {
        let row = self.rows.get(self.done)?;
        Some(Entry {
            row,
            number: self.done.saturating_add(1),
            rows: self.rows,
            times: self.times,
        })
    }

    /// Steps over the next row, and returns it.
    fn pass(&mut self) -> Option<&'a Row> {
        let row = self.rows.get(self.done);
        self.done = self.done.saturating_add(1);
        row
    }
}

/// The entries of two trees that were not stepped over yet.
#[derive(Clone, Copy)]
pub(crate) struct Steps<'a> {
    old: Left<'a>,
    new: Left<'a>,
}

impl<'a> Steps<'a> {
    /// Before the first entries of these trees. Times are compared if that is asked for.
    pub(crate) fn new(old: &'a TreeFile, new: &'a TreeFile, with_times: bool) -> Steps<'a> {
        Steps {
            old: Left::new(old, with_times),
            new: Left::new(new, with_times),
        }
    }

    /// How many steps there are at most.
    pub(crate) fn count(&self) -> usize {
        self.old.rows.len().saturating_add(self.new.rows.len())
    }

    /// Steps over the next place, and says what happened there. At the end there is none.
    pub(crate) fn next(&mut self) -> Option<Change<'a>> {
        match next_step(self.old.rows_left(), self.new.rows_left()) {
            Step::End => None,
            Step::Removed => self.old.pass().map(Change::Removed),
            Step::Added => self.new.pass().map(Change::Added),
            Step::Kept => self.kept(),
        }
    }

    /// How the next entries differ, which have one place. They are stepped over.
    fn kept(&mut self) -> Option<Change<'a>> {
        let (old, new) = (self.old.entry(), self.new.entry());
        self.old.pass();
        self.new.pass();
        match (old, new) {
            (Some(old), Some(new)) => Some(Change::Kept(new.row, Difference::of(old, new))),
            _ => None,
        }
    }
}

/// Whose entry comes next of two trees.
#[derive(Clone, Copy)]
pub(crate) enum Step {
    /// That of the old tree alone: its place is not in the new one.
    Removed,
    /// That of the new tree alone: its place is not in the old one.
    Added,
    /// That of both.
    Kept,
    /// Neither has one.
    End,
}

/// Whose entry comes next, of the entries of an old tree and of a new one.
pub(crate) fn next_step(old: &[Row], new: &[Row]) -> Step {
    match (old.first(), new.first()) {
        (None, None) => Step::End,
        (Some(_), None) => Step::Removed,
        (None, Some(_)) => Step::Added,
        (Some(one), Some(other)) => {
            match compare(one.path.as_slice(), other.path.as_slice()) {
                Ordering::Less => Step::Removed,
                Ordering::Greater => Step::Added,
                Ordering::Equal => Step::Kept,
            }
        }
    }
}

/// Compares two places by their texts, in the order of tree files: by their names, and these by their bytes.
fn compare(one: &[u8], other: &[u8]) -> Ordering {
    for (left, right) in one.iter().zip(other) {
        if left != right {
            return rank(*left).cmp(&rank(*right));
        }
    }
    one.len().cmp(&other.len())
}

/// The rank of a byte of a place's text. A name ends before each byte that it could go on with, and no name has the
/// byte 0.
fn rank(byte: u8) -> u8 {
    if byte == b'/' { 0 } else { byte }
}
