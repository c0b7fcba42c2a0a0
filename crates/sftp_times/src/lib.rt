//! Files of times, which recorders write beside transcripts: the date of the start, and when each record was there.
#![tactic(auto)]

mod entries;
mod errors;
mod files;
mod laws;

pub use entries::{
    Beginning, Boot, ENTRY, OPENING_LENGTH, beginning_length, put_beginning, put_entry,
    read_beginning, read_entry,
};
pub use errors::TimesError;
pub use files::{Times, read_times, write_times};
pub use laws::times_are_read;
