//! Why a recorded session is refused, as lines of text for the author of its server.

mod answers;
mod causes;
mod differences;
mod records;
mod replies;
mod searches;

pub use records::{Record, put_record};
pub use replies::{explain_causes, explain_reply};
pub use searches::{find_record, last_of_id};
use sftp_tree::NoMemory;
use std::io;
use thiserror::Error;

/// Why a refusal is not explained to its end.
#[derive(Debug, Drop, Error)]
pub enum ExplainError {
    /// The lines cannot be written.
    #[error("{0}")]
    Output(io::Error),
    /// Memory ran out.
    #[error("out of memory")]
    NoMemory,
}

impl From<NoMemory> for ExplainError {
    fn from(_error: NoMemory) -> ExplainError {
        ExplainError::NoMemory
    }
}

impl From<io::Error> for ExplainError {
    fn from(error: io::Error) -> ExplainError {
        ExplainError::Output(error)
    }
}
