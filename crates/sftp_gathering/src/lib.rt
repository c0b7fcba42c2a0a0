//! Sets of sessions that overlapped, from their files: the transcript and the times of each session, and an order of
//! the requests of all.
#![tactic(auto)]

mod clock;
mod clocks;
mod errors;
mod gathering;
mod places;

pub use clock::SetClock;
pub use errors::{MemberError, PlacesError};
pub use gathering::Gathering;
pub use places::read_places;
