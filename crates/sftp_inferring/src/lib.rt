//! The subcommand `infer`: a tree for a session whose tree nobody knows, and the audit of the session with it.
#![tactic(auto)]

mod inferences;
mod inferred_lines;
mod inferred_objects;
mod inferring;

pub use inferring::infer;
