//! Transcript files and tree files as lines of text, and why a recorded session is refused.
#![tactic(auto)]

mod errors;
mod packets;
mod quoted;
mod records;
mod refusals;
mod trees;

pub use errors::ShowError;
pub use quoted::Quoted;
pub use records::{RecordLine, show_transcript};
pub use refusals::{
    ExplainError, Record, explain_causes, explain_reply, find_record, last_of_id, put_record,
};
pub use trees::show_tree;
