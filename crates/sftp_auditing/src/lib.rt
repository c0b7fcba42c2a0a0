//! The subcommand `audit`: sessions judged with the tree of a file, why they are refused, and all that is wrong.
#![tactic(auto)]

mod accepting;
mod auditing;
mod counts;
mod explaining;
mod going_on;
mod newcomers;
mod readings;
mod several;
mod starts;
mod totals;
mod verdict_objects;

pub use auditing::audit;
pub use several::audit_each;
