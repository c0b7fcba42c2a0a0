//! Why a pass stops; contradictions: two records that no tree explains both, as far as a pass can see.

use crate::nodes::Sort;
use sftp_path::NoMemory;
use std::alloc::{AllocError, AllocFailed};

/// Why a pass over a session stops.
#[derive(Clone, Copy)]
pub(crate) enum Stop {
    /// Two records contradict each other; the world says which.
    Clash,
    /// What is known of the start changed, so that the pass is begun anew.
    Again,
    /// Memory ran out.
    NoMemory,
}

impl From<NoMemory> for Stop {
    fn from(_error: NoMemory) -> Stop {
        Stop::NoMemory
    }
}

impl From<AllocError> for Stop {
    fn from(_error: AllocError) -> Stop {
        Stop::NoMemory
    }
}

impl<T: Drop> From<AllocFailed<T>> for Stop {
    fn from(_error: AllocFailed<T>) -> Stop {
        Stop::NoMemory
    }
}

/// What came of a step whose number is not asked for.
pub(crate) fn done<T: Copy>(step: Result<T, Stop>) -> Result<(), Stop> {
    match step {
        Ok(_) => Ok(()),
        Err(stop) => Err(stop),
    }
}

/// What two records say of one thing.
#[derive(Clone, Copy)]
pub enum What {
    /// The first one that something is there, the second one that there is nothing.
    Gone,
    /// The first one that nothing is there, the second one that there is something.
    There,
    /// Of which kind something is.
    Kind(Sort, Sort),
    /// How many bytes a file has.
    Size(u64, u64),
    /// Which byte is at this offset.
    Byte(u64, u8, u8),
    /// Who owns something.
    Owner((u32, u32), (u32, u32)),
    /// The permissions of something.
    Permissions(u32, u32),
    /// Where a link leads.
    Target,
    /// The first one that a name is in a directory, the second one that all names were listed.
    Unlisted,
    /// The first one that a directory has entries, the second one that it was removed as an empty one.
    Entries,
    /// Where relative paths begin, or where a path leads.
    Place,
    /// The first one of which kind something is, or that nothing is there; the second one is a refusal for which that
    /// is no reason.
    Refused(Option<Sort>),
}

/// A contradiction.
#[derive(Drop)]
pub struct Clash {
    /// The number of the record that told first; 0 if none did.
    pub told: u64,
    /// The number of the record that says otherwise.
    pub found: u64,
    /// The path of the thing at the start of the session, or as it is now.
    pub place: Vec<u8>,
    pub what: What,
    /// Of a target or a place: what the first record says, and what the second one says.
    pub texts: Option<(Vec<u8>, Vec<u8>)>,
}
