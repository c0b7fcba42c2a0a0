//! Judges of sessions: what an auditor asks of the one that judges each reply; and the strict judge, a session.
#![tactic(auto)]

mod judges;

pub use judges::Judges;
