//! How far a walk over the entries of a tree has come, in the order of a tree file.
ghost use Rattle.std.specs.Prelude.{◌≡◌, [], ◌++◌, ◌∷◌, OnOk};
ghost use Rattle.std.specs.Ordering.{nat_cmp};
ghost use Rattle.sftp_path.specs.Table.{put};

use crate::file_numbers::FileNo;
use sftp_path::{Name, NoMemory};
use std::alloc::Global;
use std::collections::BTreeMap;

/// How far a walk over the entries of a tree has come.
#[derive(Drop)]
pub(super) struct Progress {
    /// The text of the place that comes next, or of the directory whose children do: a `/` before each name, and
    /// nothing for the root.
    pub(super) path: Vec<u8>,
    /// The number of the next entry.
    pub(super) next: u32,
    /// For each file that was met the number of the entry that is its first name.
    pub(super) firsts: BTreeMap<FileNo, u32>,
}

impl Progress {
    /// Before the first entry below the root. Does not allocate.
    pub(super) fn new(alloc: Global) -> Progress
        ensures path { result.path.items ≡ [] }
        ensures next { result.next ≡ 1 }
        ensures firsts { result.firsts.entries ≡ [] }
    {
        Progress {
            path: Vec::new(alloc),
            next: 1,
            firsts: BTreeMap::new(alloc),
        }
    }

    /// Goes down by a name.
    pub(super) fn enter(&mut self, name: &Name) -> Result<(), NoMemory>
        ensures path { OnOk result (self.new.path.items ≡ self.old.path.items ++ 47 ∷ name.now) }
        ensures next { OnOk result (self.new.next ≡ self.old.next) }
        ensures firsts { OnOk result (self.new.firsts.entries ≡ self.old.firsts.entries) }
    {
        self.path.push(b'/')?;
        self.path.extend_from_slice(name.as_slice())?;
        Ok(())
    }
}

/// Notes the first name of a file.
#[tactic(auto, unfolding(sftp_path::specs::Table::put))]
pub(super) fn note_first(
    firsts: &mut BTreeMap<FileNo, u32>,
    number: FileNo,
    entry: u32,
) -> Result<(), NoMemory>
    ensures { OnOk result (firsts.new.entries ≡ put nat_cmp firsts.old.entries number entry) }
{
    firsts.insert(number, entry)?;
    Ok(())
}
