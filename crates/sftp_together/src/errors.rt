//! Why an order of several sessions is none.
ghost use Rattle.std.specs.Prelude.{◌≡◌};

use sftp_tree::NoMemory;
use std::alloc::AllocError;

/// The first place at which an order of sessions is none. Places and sessions count from 0, records from 1.
#[derive(Clone, Copy, Debug, PartialEq, Eq)]
pub enum OrderFault {
    /// At this place the order names a session that has no request left, or that is not there.
    NothingLeft {
        place: usize,
        session: u16,
    },
    /// The next request of the session, asked in this record, has to come before one that has its place: it had its
    /// reply more than the tolerance before that one was asked.
    Clock {
        place: usize,
        session: u16,
        record: u64,
    },
    /// The reply to the next request of the session, which is in this record, is not allowed at this place.
    Reply {
        place: usize,
        session: u16,
        record: u64,
    },
    /// The order has no place for this request: it is the first one of the session that is left out.
    LeftOut {
        session: usize,
        record: u64,
    },
    /// A session could not be read.
    Unread {
        session: usize,
    },
    /// Memory ran out.
    NoMemory,
}

impl From<AllocError> for OrderFault {
    ghost use Rattle.sftp_together.specs.declared.errors.OrderFault.TheVariants.{NoMemory as no_memory};

    ghost from_gives = { λ _ e. e ≡ no_memory };

    fn from(_error: AllocError) -> OrderFault {
        OrderFault::NoMemory
    }
}

impl From<NoMemory> for OrderFault {
    ghost use Rattle.sftp_together.specs.declared.errors.OrderFault.TheVariants.{NoMemory as no_memory};

    ghost from_gives = { λ _ e. e ≡ no_memory };

    fn from(_error: NoMemory) -> OrderFault {
        OrderFault::NoMemory
    }
}
