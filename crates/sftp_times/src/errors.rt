//! Why bytes are not a file of times.

ghost use Rattle.std.specs.Prelude.{◌≡◌};

use std::alloc::{AllocError, AllocFailed};
use thiserror::Error;

/// The first fault of a file of times, and the number of its entry. Entries count from 1, as the records of the
/// transcript do; what comes before them is entry 0.
#[derive(Clone, Copy, Debug, PartialEq, Eq, Error)]
pub enum TimesError {
    /// The bytes do not begin with an opening and, whole, what follows it before the entries.
    #[error("entry 0: Magic")]
    Magic,
    /// The bytes end inside an entry.
    #[error("entry {entry}: Short")]
    Short { entry: u64 },
    /// The time is less than that of the entry before.
    #[error("entry {entry}: Order")]
    Order { entry: u64 },
    /// Memory ran out.
    #[error("out of memory")]
    NoMemory,
}

impl From<AllocError> for TimesError {
    ghost use Rattle.sftp_times.specs.declared.errors.TimesError.TheVariants.{NoMemory as no_memory};

    ghost from_gives = { λ _ e. e ≡ no_memory };

    fn from(_error: AllocError) -> TimesError {
        TimesError::NoMemory
    }
}

impl<T: Drop> From<AllocFailed<T>> for TimesError {
    ghost use Rattle.sftp_times.specs.declared.errors.TimesError.TheVariants.{NoMemory as no_memory};

    ghost from_gives = { λ _ e. e ≡ no_memory };

    fn from(_error: AllocFailed<T>) -> TimesError {
        TimesError::NoMemory
    }
}
