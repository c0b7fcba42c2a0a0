//! The events of a recorded session, and the window of its requests.

use sftp_wire::{Reply, Request};

/// How many requests may be asked from an unanswered one on, itself included. This limit is this profile's own.
pub const WINDOW: usize = 1_024;

/// One record of a session after its two opening packets.
#[derive(Debug, Drop)]
pub enum Event {
    /// The client asked.
    Asked(Request),
    /// The server replied.
    Replied(Reply),
}
