//! The records of transcripts, selected, timed and paired, with figures, and the entries of tree files, as lines of
//! text or as JSON.
#![tactic(auto)]

mod clocks;
mod errors;
mod exchanges;
mod figures;
mod flights;
mod following;
mod lines;
mod members;
mod packets;
mod records;
mod selections;
mod tables;
mod trees;
mod views;

pub use clocks::Clock;
pub use errors::ViewError;
pub use lines::Form;
pub use selections::Selection;
pub use trees::put_tree;
pub use views::{Shape, View, show_records};
