//! The times of entries.
ghost use Rattle.std.specs.Prelude.{◌≡◌, []};
ghost use Rattle.sftp_treefile.specs.TreeFile as spec;
ghost use Rattle.sftp_treefile.specs.TreeFileParts as parts;

use std::alloc::Global;
use std::marker::Model;

/// When a directory or a file was read last and changed last, in seconds since 1970-01-01 00:00 UTC. Both are 0 if
/// neither is known.
#[derive(Clone, Copy, Debug, PartialEq, Eq)]
pub struct Times {
    /// The time of the last access.
    pub accessed: u32,
    /// The time of the last modification.
    pub modified: u32,
}

/// No times are known.
pub const NO_TIMES: Times = Times {
    accessed: 0,
    modified: 0,
};

impl Times {
    /// Whether there are times: they are not both 0.
    pub fn are_known(self) -> bool
        ensures { result ≡ spec.has_times self }
    {
        !(self.accessed == 0 && self.modified == 0)
    }
}

/// The times of the entries of a tree file. It has none if none are known; otherwise it has the root's and then those
/// of each entry, in the order of the entries, so that the number of an entry is its place. Further names and links
/// have no times, which are two zeros here.
#[derive(Debug, Drop)]
pub struct EntryTimes {
    times: Vec<Times>,
}

impl Model for EntryTimes {
    ghost use Rattle.std.specs.Prelude.{List};
    ghost use Rattle.sftp_treefile.specs.declared.times.Times.{Times};

    ghost Value = { List Times };

    ghost view = { λ t. t.times.items };
}

impl EntryTimes {
    /// No times. This allocates nothing.
    pub fn none(alloc: Global) -> EntryTimes
        ensures { result ≡ [] }
    {
        EntryTimes {
            times: Vec::new(alloc),
        }
    }

    /// These times: the root's, and then those of each entry. None are kept if all are 0. This allocates nothing.
    pub fn new(alloc: Global, times: Vec<Times>) -> EntryTimes
        ensures { result ≡ parts.kept times.items }
    {
        if any_known(times.as_slice()) {
            EntryTimes { times }
        } else {
            EntryTimes::none(alloc)
        }
    }

    /// The times: none, or the root's and then those of each entry.
    pub fn as_slice(&self) -> &[Times]
        ensures { result.now ≡ self.now }
    {
        self.times.as_slice()
    }

    /// The times, without a copy.
    pub fn into_vec(self) -> Vec<Times>
        ensures { result.items ≡ self }
    {
        self.times
    }

    /// The times of the entry of this number; that of the root is 0.
    pub fn get(&self, entry: usize) -> Times
        ensures { result ≡ spec.times_at self.now entry }
    {
        match self.times.get(entry) {
            Some(times) => *times,
            None => NO_TIMES,
        }
    }
}

/// Whether some of these times are known.
pub(crate) fn any_known(times: &[Times]) -> bool
    ensures { result ≡ spec.any_times times.now }
{
    for time in times {
        if time.are_known() {
            return true;
        }
    }
    false
}
