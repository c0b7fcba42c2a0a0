//! Times of access and modification (draft-ietf-secsh-filexfer-02, sections 5 and 6), which a tree does not have: a
//! table of them beside it, what each request does to them, and the answerer that puts them into replies.
#![tactic(auto)]

mod clocked;
mod ends;
mod files;
mod listings;
mod places;
mod replies;
mod tables;
mod times;
mod touches;
mod tree_files;
mod ways;

pub use clocked::Clocked;
pub use tables::TimeTable;
pub use times::{Moments, SystemClock};
