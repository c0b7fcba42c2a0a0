//! How two tree files differ, as lines of text or as JSON objects: a line for each place that differs.
#![tactic(auto)]

mod differences;
mod lines;
mod objects;
mod steps;

pub use lines::put_differences;
pub use objects::put_objects;
