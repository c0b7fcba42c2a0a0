//! The times of tree files of the third kind: a table has those of the start's, and says those of the end's.
ghost use Rattle.std.specs.Prelude.{⊤};

use crate::tables::TimeTable;
use crate::times::Times;
use sftp_tree::{FileNo, HasTimes, Looks, NoMemory};
use sftp_treefile::{Kind, NO_TIMES, Times as FileTimes, TreeFile};

impl Looks for TimeTable {
    ghost looked = { λ _ _ _. ⊤ };

    fn look(&mut self, file: &TreeFile) -> Result<(), NoMemory> {
        self.take_all();
        self.look_at_directory(b"/", file.times.get(0))?;
        self.look_at_entries(file)
    }
}

impl TimeTable {
    /// Takes the times of the entries of a tree file, and the places of links.
    fn look_at_entries(&mut self, file: &TreeFile) -> Result<(), NoMemory> {
        let mut entry: usize = 1;
        let mut made: u32 = 0;
        for row in file.rows.as_slice() {
            let times = file.times.get(entry);
            entry = entry.wrapping_add(1);
            match &row.kind {
                Kind::Dir(_) => self.look_at_directory(row.path.as_slice(), times)?,
                Kind::First(..) => {
                    self.look_at_file(FileNo::new(made), times)?;
                    made = made.wrapping_add(1);
                }
                Kind::Further(_) => self.take_name(),
                Kind::Link(_) => self.take_link(row.path.as_slice())?,
            }
        }
        Ok(())
    }

    fn look_at_directory(&mut self, path: &[u8], times: FileTimes) -> Result<(), NoMemory> {
        match Times::read(times) {
            Some(times) => self.take_directory(path, times),
            None => Ok(()),
        }
    }

    fn look_at_file(&mut self, number: FileNo, times: FileTimes) -> Result<(), NoMemory> {
        match Times::read(times) {
            Some(times) => self.take_file(number, times),
            None => Ok(()),
        }
    }
}

// What has no times of its own has none in the tree file: a session does not give what it leaves alone those of its
// start.
impl HasTimes for TimeTable {
    ghost of_file = { λ _ _ _. ⊤ };

    ghost of_directory = { λ _ _ _. ⊤ };

    fn times_of_file(&self, number: FileNo) -> FileTimes {
        written(self.own_of_file(number))
    }

    fn times_of_directory(&self, path: &[u8]) -> FileTimes {
        written(self.own_of_directory(path))
    }
}

/// Times as an entry of a tree file has them.
fn written(times: Option<Times>) -> FileTimes {
    match times {
        Some(times) => times.written(),
        None => NO_TIMES,
    }
}
