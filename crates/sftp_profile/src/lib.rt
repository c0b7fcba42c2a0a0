//! Profiles: what an auditor accepts beyond the strict reading of the draft, since servers with real file systems do
//! it. A judge is a session under a profile.
#![tactic(auto)]

mod bytes_read;
mod copies;
mod data;
mod departures;
mod directories;
mod directory_handles;
pub mod examples;
mod extensions;
pub mod field_examples;
mod flags;
mod interpretations;
mod judges;
mod judging;
pub mod laws;
mod limits;
mod listed;
mod names;
mod notes;
mod open_directories;
mod paths;
mod profiles;
mod realpaths;
mod refusals;
mod replaced;
mod room;
mod settings;
mod shown;
mod strict_answers;

pub use judges::Judge;
pub use names::NAMES;
pub use profiles::{NewOwner, Profile};
