//! Files of orders: in which order the requests of several sessions have their places.
#![tactic(auto)]

mod errors;
mod files;
mod fronts;
mod laws;

pub use errors::OrderError;
pub use files::{Order, read_order};
pub use laws::orders_are_read;
