//! Which replies were checked by others: those that say what another record says, too.

use crate::world::World;
use sftp_path::NoMemory;
use std::alloc::Global;

/// Records, a bit each: 64 to a word.
#[derive(Drop)]
pub(crate) struct Marks {
    words: Vec<u64>,
}

impl Marks {
    /// No record.
    pub(crate) fn new(alloc: Global) -> Marks {
        Marks {
            words: Vec::new(alloc),
        }
    }

    /// Adds the record with this number.
    fn add(&mut self, number: u64) -> Result<(), NoMemory> {
        let place = (number / 64) as usize;
        for _ in self.words.len()..=place {
            self.words.push(0)?;
        }
        if let Some(word) = self.words.get_mut(place) {
            *word |= 1_u64 << (number % 64);
        }
        Ok(())
    }

    /// How many records there are.
    pub(crate) fn count(&self) -> u64 {
        let mut count: u64 = 0;
        for word in self.words.iter() {
            count = count.saturating_add(u64::from(word.count_ones()));
        }
        count
    }

    /// Forgets them.
    pub(crate) fn clear(&mut self) {
        self.words.clear();
    }
}

impl World {
    /// Notes that the reply at hand says what this record told.
    pub(crate) fn cross(&mut self, told: u64) {
        if told == 0 || told == self.teller || told == self.asked || told == self.replied {
            return;
        }
        let (teller, marks) = (self.teller, &mut self.marks);
        let added = marks.add(told).is_ok() && marks.add(teller).is_ok();
        if !added {
            self.lacks_memory = true;
        }
    }

    /// Notes that what is known explains the refusal at hand.
    pub(crate) fn cross_refusal(&mut self) {
        if self.marks.add(self.teller).is_err() {
            self.lacks_memory = true;
        }
    }
}
