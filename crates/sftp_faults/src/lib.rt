//! Where the fault of a malformed file is: the field that it is in, and the place of that field in the file.
#![tactic(auto)]

mod fields;
mod packets;
mod pages;
mod records;
mod trees;

pub use fields::Spot;
pub use records::spot_in_record;
pub use trees::spot_in_tree;
