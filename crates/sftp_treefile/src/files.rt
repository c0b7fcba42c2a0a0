//! What a tree file says, as values.
ghost use Rattle.std.specs.Prelude.{◌≡◌};
ghost use Rattle.sftp_treefile.specs.TreeFile as spec;

use crate::limits::{Opening, TreeLimits};
use crate::times::{EntryTimes, any_known};
use sftp_strings::ByteString;
use std::marker::Model;

/// Who owns an entry, and what may be done with it.
#[derive(Clone, Copy, Debug, PartialEq, Eq)]
pub struct Owner {
    /// The number of the owning user.
    pub uid: u32,
    /// The number of the owning group.
    pub gid: u32,
    /// The permission bits, at most 0o7777.
    pub permissions: u32,
}

/// What an entry is.
#[derive(Debug, Drop)]
pub enum Kind {
    /// A directory.
    Dir(Owner),
    /// The first name of a file, with its bytes, at most as many as the limits allow.
    First(Owner, ByteString),
    /// A further name of a file, with the number of the entry that is its first name. Entries count from 1.
    Further(u32),
    /// A symbolic link, with its target: a good path that is not empty.
    Link(ByteString),
}

/// An entry below the root.
#[derive(Debug, Drop)]
pub struct Row {
    /// Its place as a path from the root: 64 names at most, and not the root's. Each has a `/` before it.
    pub path: ByteString,
    pub kind: Kind,
}

/// The entries of a tree file, in their order.
#[derive(Debug, Drop)]
pub struct Rows {
    rows: Vec<Row>,
}

impl Model for Rows {
    ghost use Rattle.std.specs.Prelude.{List};
    ghost use Rattle.sftp_treefile.specs.declared.files.Row.{Row};

    ghost Value = { List Row };

    ghost view = { λ r. r.rows.items };
}

impl Rows {
    /// These rows, in this order. This allocates nothing.
    pub fn new(rows: Vec<Row>) -> Rows
        ensures { result ≡ rows.items }
    {
        Rows { rows }
    }

    /// The rows in their order.
    pub fn as_slice(&self) -> &[Row]
        ensures { result.now ≡ self.now }
    {
        self.rows.as_slice()
    }

    /// The rows, without a copy.
    pub fn into_vec(self) -> Vec<Row>
        ensures { result.items ≡ self }
    {
        self.rows
    }
}

/// What a tree file says. The count of the entries is that of the rows.
#[derive(Debug, Drop)]
pub struct TreeFile {
    /// The limits of the tree, each in its range. They and the times decide the opening: `TreeLimits::opening`.
    pub limits: TreeLimits,
    /// The absolute text of the place where relative paths start; it has at most 64 names, and need not exist.
    pub home: ByteString,
    /// The user who owns what is made with no owner given.
    pub uid: u32,
    /// The group that owns what is made with no owner given.
    pub gid: u32,
    /// The owner of the root, which has no row.
    pub root: Owner,
    pub rows: Rows,
    /// The times of the root and of the entries, or none.
    pub times: EntryTimes,
}

impl TreeFile {
    /// The opening of the file: the lowest that holds it.
    pub fn opening(&self) -> Opening
        ensures { result ≡ spec.opening_of self.now }
    {
        let has_times = any_known(self.times.as_slice());
        self.limits.opening(has_times)
    }
}
