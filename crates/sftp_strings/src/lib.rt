//! The numbers and strings that packets and tree files are made of (draft-ietf-secsh-filexfer-02, section 3).
#![tactic(auto)]

mod slices;
mod strings;

pub use slices::{take_number, take_string};
pub use strings::ByteString;
