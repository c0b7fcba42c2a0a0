//! Recorded sessions of SFTP: events, transcript files, and what it means that a session is explained. The crate knows
//! no tree: a step of a session is a parameter of its definitions.
#![tactic(auto)]

mod errors;
mod events;
mod input;
pub mod laws;
mod reader;
mod records;
mod stage;
mod steps;
mod writer;

pub use errors::TranscriptError;
pub use events::{Event, WINDOW};
pub use reader::Reader;
pub use records::{OPENING, records_are_one};
pub use sftp_streams::{Buffer, Failed, Memory, Sink, Source, Tally, put_all};
pub use writer::Writer;
