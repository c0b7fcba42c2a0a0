//! The packets of `sftp_packets` as bytes (draft-ietf-secsh-filexfer-02, sections 3 to 8): how each is measured,
//! written, and read field by field.
#![tactic(auto)]

mod fields;
mod lent_fields;
mod measuring;
mod reading;
mod replies;
mod requests;
mod writing;

pub use reading::read_fields;
pub use writing::encode;
