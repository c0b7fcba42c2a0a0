//! Sessions of a set, read from their files: the transcript of each, and the times of its records.
#![tactic(auto)]

mod collecting;
mod errors;
mod reading;
mod sets;
mod times;
mod waiting;

pub use errors::SessionError;
pub use reading::read_session;
pub use sets::{SessionSet, audit_set};
pub use sftp_transcript::{Reader, Source};
pub use times::RecordTimes;
