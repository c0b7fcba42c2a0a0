//! Tests of what no case (docs/CASES.md) can say, in a module for each library: calls by values, streams that fail,
//! cores and scripts of acts, the client's pairing. `audited` is about the server and the auditor, `answered` about
//! `answer` and `accept`: what the one gives, the other takes. The laws of `strict` are about the strict reading and
//! the profiles.
//!
//! A test goes over a table of rows, each with what it has to give, worked out by hand. The assertion names the row
//! that fails.
#![tactic(auto)]

#[cfg(test)]
mod agreeing;
pub mod answered;
#[cfg(test)]
mod audit;
pub mod audited;
#[cfg(test)]
mod client;
#[cfg(test)]
mod clock;
#[cfg(test)]
mod cores;
pub mod from_memory;
#[cfg(test)]
mod memory;
#[cfg(test)]
mod scripts;
#[cfg(test)]
mod serving;
#[cfg(test)]
mod streams;
pub mod strict;
#[cfg(test)]
mod transcript;
#[cfg(test)]
mod treefile;
#[cfg(test)]
mod trees;
#[cfg(test)]
mod walks;
#[cfg(test)]
mod wire;
