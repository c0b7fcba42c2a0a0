//! The auditor of SFTP sessions: reads the recorded bytes of a session and a starting tree, and says
//! whether the tree allows every reply, in whatever order the replies came.
#![tactic(auto)]

mod auditor;
mod audits;
mod blank;
mod cuts;
mod errors;
pub mod examples;
mod exchanges;
mod feeding;
pub mod laws;
mod ledger;
mod settling;
mod trees;

pub use auditor::Auditor;
pub use audits::{Accepted, audit, audit_by, audit_stream, audit_stream_by};
pub use blank::{blank_tree, blank_tree_is_a_start};
pub use cuts::{AcceptedCut, EndedCut, audit_cut_stream, audit_cut_stream_by, audit_cut_tree_by};
pub use errors::{AuditError, Refusal};
pub use feeding::{feed_all, keep_freed_memory};
pub use sftp_transcript::{Event, TranscriptError};
pub use sftp_tree::{NoMemory, TreeError};
pub use trees::{Ended, audit_streams_by, audit_tree_by};
