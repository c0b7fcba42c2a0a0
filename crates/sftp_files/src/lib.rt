//! What runs of the program share: the files that they read, replace and record in, limits on memory, how they end, and
//! the messages that say why.
#![tactic(auto)]

mod contents;
mod copies;
mod growth;
mod links;
mod memory;
mod messages;
mod names;
mod options;
mod reading;
mod recording;
mod saving;
mod watching;

pub use contents::{Content, FileSink};
pub use copies::Repeatable;
pub use memory::{Bounded, BoundedRecords, Meter};
pub use messages::{
    Ending, Failure, MORE, STANDARD_INPUT, STANDARD_OUTPUT, advice_on_reading, input_name, print,
    report, write_flushed,
};
pub use names::Named;
pub use options::{DiffForm, ImportOptions, RaiseTo, ServeOptions, ShowOptions};
pub use reading::{is_read_again, open, open_at, read, read_at_most};
pub use recording::{Record, Recording};
pub use saving::{Keeping, PRIVATE, require_fit, write, write_content, write_last};
use std::env::Env;
use std::fs::{File, Files};
use std::random::RandomSource;
pub use watching::{Announcing, Flow, Watched};

/// Files that are open by descriptors, memory, random bytes, and the environment.
pub trait System: Files<File = File> + AllocGlobal + RandomSource + Env {}

impl<R: Files<File = File> + AllocGlobal + RandomSource + Env> System for R {}
