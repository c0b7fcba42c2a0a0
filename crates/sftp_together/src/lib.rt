//! Several sessions that overlapped on one tree, judged together: whether an order of all their requests is one that
//! the tree allows, and that the times of their records allow.
#![tactic(auto)]

mod errors;
pub mod examples;
mod exchanges;
pub mod laws;
mod names;
mod placing;
mod queued;
mod sessions;
mod together;

pub use errors::OrderFault;
pub use exchanges::{Stamp, TimedExchange};
pub use queued::{Queue, Queued};
pub use sessions::{Sessions, Unread};
pub use together::audit_together;
