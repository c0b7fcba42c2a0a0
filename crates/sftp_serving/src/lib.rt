//! The subcommand `serve`: the session of one client over a pair of streams, its tree, its record, and the order and
//! the replies that it is asked for.
#![tactic(auto)]

mod answers;
mod concluding;
mod places;
mod replaying;
mod serving;
mod starts;
mod streams;
mod summaries;

pub use serving::serve;
