//! The client's side of a session: each reply is paired with its request by its id
//! (draft-ietf-secsh-filexfer-02, sections 4, 6 and 7).
#![tactic(auto)]

mod announced;
mod errors;
pub mod examples;
mod ids;
pub mod laws;
mod pairing;

pub use errors::ClientError;
pub use pairing::{OPEN_LIMIT, Pairing};
