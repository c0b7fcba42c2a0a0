//! The core of a server of SFTP sessions: takes requests, does them, and gives their replies
//! (draft-ietf-secsh-filexfer-02, sections 3 to 7).
#![tactic(auto)]

mod acts;
mod answerers;
mod cores;
mod ends;
pub mod examples;
mod input;
mod known;
pub mod laws;
mod opening;
mod queue;
mod refusals;
mod schedules;
mod scripted;
mod scripts;
mod sending;
mod serving;
mod taking;
mod version;
mod working;

pub use acts::Act;
pub use answerers::{Answerer, Plain};
pub use cores::Core;
pub use ends::{Ended, SessionEnd, SessionFault, Stream};
pub use refusals::{Did, Refuse};
pub use schedules::{InOrder, Schedule, Shuffle, Step};
pub use scripts::run_script;
pub use serving::{serve, serve_announcing, serve_as, serve_keeping_tree};
