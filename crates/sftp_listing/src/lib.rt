//! The listing of a directory: the names that are left, in rising order of their bytes, those that a reply gives, and
//! what is left then (draft-ietf-secsh-filexfer-02, section 6.7).
#![tactic(auto)]

mod attributes;
mod first_names;
mod hints;
mod items;
mod listing;
mod marks;
mod strike;

pub use attributes::same_attributes;
pub use listing::Listing;
