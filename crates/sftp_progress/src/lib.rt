//! How far a run is, said on standard error while it takes long: on a terminal, where a line takes the place of the one
//! before, and is gone at the end; and where that is asked for.
#![tactic(auto)]

mod amounts;
mod paces;
mod progress;
mod reaches;
mod records;
mod tracked;

pub use paces::Pace;
pub use progress::{Console, Progress};
pub use reaches::Task;
pub use tracked::Tracked;
