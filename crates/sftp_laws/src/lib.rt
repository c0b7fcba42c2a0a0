//! Laws of sessions that no code needs: what holds of every run that the strict reading allows.
#![tactic(auto)]

pub mod alike;
pub mod limits;
