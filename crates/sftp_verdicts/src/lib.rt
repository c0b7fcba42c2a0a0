//! What `audit` and `infer` share: their options and files, the umask, the record of a refusal, and verdicts as JSON
//! objects.
#![tactic(auto)]

mod asked;
mod files;
mod objects;
mod refusals;
mod umasks;

pub use asked::{AuditOptions, EachOptions, InferOptions, TRANSCRIPT_LOST};
pub use files::{Held, NamedFile, Opens, StoredFile, Stores};
pub use objects::{named_object_of, object_of, parts_of_line, print_object, whole_lines};
pub use refusals::{numbered, record_of};
pub use umasks::{asked_profile, octal};
