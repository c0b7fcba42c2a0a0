//! The requests of several clients on the session that they share: each is done under the joint name of its handle, and
//! what a client has open is closed when it leaves.
#![tactic(auto)]

mod answering;
mod asking;
pub mod laws;
mod leaving;

pub use answering::answer_client;
pub use leaving::close_handles;
