//! A tree at the start of a recorded session, inferred from the session alone. What it gives is a guess that an audit
//! has to judge: nothing is proved of it but that each call is safe, and that it returns.
#![tactic(auto)]

mod asks;
mod attributes;
mod candidates;
mod choices;
mod errors;
mod exchanges;
mod facts;
mod files;
mod handles;
mod home_choices;
mod homes;
mod listings;
mod look;
mod marks;
mod moves;
mod names;
mod nodes;
mod opens;
mod pass;
mod pieces;
mod places;
mod reads;
mod reasons;
mod refusals;
mod rows;
mod search;
mod settings;
mod sizes;
mod snapshots;
mod successes;
mod sure;
mod suspects;
mod targets;
mod texts;
mod ways;
mod world;

pub use candidates::{Candidate, Excess};
pub use errors::{Clash, What};
pub use facts::{Fact, Says};
pub use nodes::Sort;
pub use search::{Search, Step};
pub use settings::Settings;
pub use sftp_path::NoMemory;
pub use texts::{TextStream, TreeText};
