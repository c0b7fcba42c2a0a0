//! What a core returns for a delivery and for work.

use std::fmt;
use thiserror::Error;

/// Why a core does not take a request.
#[derive(Clone, Copy, Debug, PartialEq, Eq, Error)]
pub enum Refuse {
    /// There is no room in the queue.
    Full,
    /// A request with this id is not answered yet.
    IdInUse,
    /// Memory ran out.
    NoMemory,
}

// `thiserror` would write each text by itself, which is slow to prove.
impl fmt::Display for Refuse {
    fn fmt<W: fmt::Write>(&self, f: &mut fmt::Formatter<W>) -> fmt::Result {
        f.write_str(match self {
            Refuse::Full => "the window is full",
            Refuse::IdInUse => "the id is in use",
            Refuse::NoMemory => "out of memory",
        })
    }
}

/// What came of work on a request.
#[derive(Clone, Copy, Debug, PartialEq, Eq)]
pub enum Did {
    /// The request is done now.
    Done,
    /// It is pending, and an earlier request has to be done first.
    NotReady,
    /// No request at this position is pending.
    NoSuch,
}
