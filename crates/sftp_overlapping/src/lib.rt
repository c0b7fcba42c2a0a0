//! The subcommand `audit --together`: sessions that overlapped, judged together by an order of all their requests.
#![tactic(auto)]

mod asked;
mod auditing;
mod gathering;
mod given;
mod judging;
mod members;
mod pairing;
mod rejections;
mod reports;

pub use asked::TogetherOptions;
pub use auditing::audit_together;
