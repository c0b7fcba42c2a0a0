//! Several clients on one tree: whose handles are whose, what a client closes when it leaves, and which orders of what
//! they asked a search need not try.
#![tactic(auto)]

pub mod examples;
pub mod laws;
pub mod order_laws;
