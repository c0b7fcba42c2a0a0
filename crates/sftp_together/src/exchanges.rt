//! The requests of a session with their replies, and when each was recorded.

use sftp_packets::{Reply, Request};

/// Which record of a transcript something is in, and when that was recorded, on the clock of all sessions.
#[derive(Clone, Copy, Debug, PartialEq, Eq)]
pub struct Stamp {
    /// The number of the record in its transcript.
    pub number: u64,
    /// When it was recorded.
    pub time: u64,
}

/// A request with its reply, and the records in which they are.
#[derive(Drop)]
pub struct TimedExchange {
    pub request: Request,
    pub asked: Stamp,
    pub reply: Reply,
    pub replied: Stamp,
}
