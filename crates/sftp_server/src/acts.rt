//! What a server may do next.

use sftp_wire::Request;

/// An act of a server. Positions in the queue count from 0.
#[derive(Debug, Drop)]
pub enum Act {
    /// Take a request into the queue.
    Deliver(Request),
    /// Do the request at this position.
    Work(usize),
    /// Send the reply of the request at this position.
    Send(usize),
}
