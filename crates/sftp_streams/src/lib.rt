//! Streams of bytes that are read from and written to, and that may fail.
#![tactic(auto)]

mod buffer;
mod memory;
mod streams;
mod tally;
mod writing;

pub use buffer::Buffer;
pub use memory::Memory;
pub use streams::{Failed, Sink, Source};
pub use tally::Tally;
pub use writing::put_all;
