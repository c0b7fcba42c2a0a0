//! Times of access and modification, and what tells the time.
ghost use Rattle.sftp_packets.specs.Spelling.{FitsTwo};

use sftp_treefile::Times as FileTimes;
use std::time::{Clock, SystemTime, UNIX_EPOCH};

/// The times of a file, a directory or a link, in seconds since the start of 1970, as packets have them (draft,
/// section 5).
#[derive(Clone, Copy)]
pub(crate) struct Times {
    /// The time of the last access.
    accessed: u32,
    /// The time of the last modification.
    modified: u32,
}

impl Times {
    /// Both at this moment.
    pub(crate) fn at(moment: u32) -> Times {
        Times {
            accessed: moment,
            modified: moment,
        }
    }

    /// The times as attributes have them: of access, and of modification.
    pub(crate) fn pair(self) -> (u32, u32)
        ensures fits { FitsTwo result }
    {
        (self.accessed, self.modified)
    }

    /// The times that attributes give: of access, and of modification.
    pub(crate) fn given(pair: (u32, u32)) -> Times {
        let (accessed, modified) = pair;
        Times { accessed, modified }
    }

    /// The times that attributes give, or else both at this moment.
    pub(crate) fn given_or(given: Option<(u32, u32)>, moment: u32) -> Times {
        match given {
            Some(pair) => Times::given(pair),
            None => Times::at(moment),
        }
    }

    /// The same, but modified at this moment.
    pub(crate) fn modified_at(self, moment: u32) -> Times {
        Times {
            accessed: self.accessed,
            modified: moment,
        }
    }

    /// The times that an entry of a tree file has, if it has some.
    pub(crate) fn read(times: FileTimes) -> Option<Times> {
        if times.are_known() {
            Some(Times {
                accessed: times.accessed,
                modified: times.modified,
            })
        } else {
            None
        }
    }

    /// The same as an entry of a tree file has them.
    pub(crate) fn written(self) -> FileTimes {
        FileTimes {
            accessed: self.accessed,
            modified: self.modified,
        }
    }
}

/// What tells the time.
pub trait Moments {
    /// How many seconds passed since the start of 1970.
    fn now(&mut self) -> u32;
}

/// The clock of the system. Where that fails, it is as late as it was last.
#[derive(Drop)]
pub struct SystemClock<'r, R> {
    rt: &'r R,
    last: u32,
}

impl<'r, R: Clock> SystemClock<'r, R> {
    /// This clock.
    pub fn new(rt: &'r R) -> SystemClock<'r, R> {
        SystemClock { rt, last: 0 }
    }
}

impl<R: Clock> Moments for SystemClock<'_, R> {
    fn now(&mut self) -> u32 {
        if let Some(seconds) = seconds_of(self.rt) {
            self.last = seconds;
        }
        self.last
    }
}

/// The seconds since the start of 1970, if the clock says them: at most the last that 32 bits have, in 2106.
fn seconds_of<R: Clock>(rt: &R) -> Option<u32> {
    let Ok(now) = SystemTime::now(rt) else {
        return None;
    };
    match now.duration_since(UNIX_EPOCH) {
        Ok(passed) => Some(passed.as_secs().min(u64::from(u32::MAX)) as u32),
        Err(_) => None,
    }
}
