//! Handles and sessions: what is open, what a request through a handle sees, and which replies a session allows
//! (draft-ietf-secsh-filexfer-02, sections 6.3, 6.4 and 6.7).
#![tactic(auto)]

mod answer;
mod byte_range;
mod changes;
mod clash;
pub mod examples;
mod free_names;
mod given_table;
mod handle_requests;
mod judge;
pub mod laws;
mod limits;
mod not_opened;
mod open_changes;
mod open_files;
mod open_handles;
mod open_listings;
mod opening_causes;
mod openings;
mod opens;
pub mod order_examples;
pub mod order_laws;
mod payloads;
pub mod pin_laws;
mod proposals;
mod queries;
pub mod range_examples;
pub mod range_laws;
mod ranges;
mod requests;
mod sessions;
mod slab_table;
mod slots;
mod tables;
mod touch;

pub use byte_range::{ByteRange, Span};
pub use clash::is_barrier;
pub use given_table::GivenTable;
pub use opens::Open;
pub use sessions::Session;
pub use sftp_listing::{Listing, same_attributes};
pub use slab_table::SlabTable;
pub use tables::{HandleTable, PutError};
pub use touch::Touch;
