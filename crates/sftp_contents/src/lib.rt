//! The bytes of a file. Zeros that were never written take no memory.
#![tactic(auto)]

mod contents;
mod cutting;
mod kept;
mod locating;
mod paged;
mod parts;
mod pieces;
mod ranges;
mod reading;
mod sending;
mod store;
#[cfg(test)]
mod tests;
mod writing;

pub use contents::FileBytes;
pub use kept::Kept;
pub use paged::PagedBytes;
pub use parts::Part;
pub use ranges::ByteRange;
pub use store::Store;
