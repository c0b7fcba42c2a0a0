//! Why bytes are not a file of an order of whole requests.

ghost use Rattle.std.specs.Prelude.{◌≡◌};

use std::alloc::{AllocError, AllocFailed};
use thiserror::Error;

/// The first fault of a file of an order. Names and places count from 1; what comes before the places is place 0.
#[derive(Clone, Copy, Debug, PartialEq, Eq, Error)]
pub enum OrderError {
    /// The bytes do not begin with the opening.
    #[error("place 0: Magic")]
    Magic,
    /// The bytes end inside this place.
    #[error("place {place}: Short")]
    Truncated { place: u64 },
    /// The name of this number is not greater, byte by byte, than the one before it.
    #[error("name {number}: Order")]
    Name { number: u64 },
    /// There is no session of the number at this place.
    #[error("place {place}: Session")]
    Session { place: u64 },
    /// The place is that of a part of a request, or of one that is left out.
    #[error("place {place}: Part")]
    Part { place: u64 },
    /// Memory ran out.
    #[error("out of memory")]
    NoMemory,
}

impl From<AllocError> for OrderError {
    ghost use Rattle.sftp_orders.specs.declared.errors.OrderError.TheVariants.{NoMemory as no_memory};

    ghost from_gives = { λ _ e. e ≡ no_memory };

    fn from(_error: AllocError) -> OrderError {
        OrderError::NoMemory
    }
}

impl<T: Drop> From<AllocFailed<T>> for OrderError {
    ghost use Rattle.sftp_orders.specs.declared.errors.OrderError.TheVariants.{NoMemory as no_memory};

    ghost from_gives = { λ _ e. e ≡ no_memory };

    fn from(_error: AllocFailed<T>) -> OrderError {
        OrderError::NoMemory
    }
}
