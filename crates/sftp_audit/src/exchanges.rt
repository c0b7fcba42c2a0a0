//! The exchanges of a session: each request with its reply, and the numbers of their records.

use sftp_wire::{Reply, Request};

/// A reply, and the number of its record.
#[derive(Drop)]
pub struct RecordedReply {
    pub reply: Reply,
    pub number: u64,
}

/// A request, the number of its record, and the reply, if it came.
#[derive(Drop)]
pub struct Exchange {
    pub request: Request,
    pub number: u64,
    pub reply: Option<RecordedReply>,
}
