//! A server of several clients on one tree: what it promises, and the tables that it keeps.
#![tactic(auto)]

mod ends;
pub mod examples;
mod ids;
pub mod laws;

pub use ends::{FrameFault, HubEnded};
pub use ids::{Ids, Whose};
