//! Names, places and paths of SFTP (draft-ietf-secsh-filexfer-02, section 6.2).
#![tactic(auto)]

mod errors;
pub mod examples;
pub mod laws;
mod names;
mod parts;
mod paths;
mod places;
pub mod rekeying;
pub mod tables;
mod texts;

pub use errors::NoMemory;
pub use names::{Name, is_dot, is_dot_dot, is_name};
pub use parts::Parts;
pub use paths::{BadPath, components, good_path};
pub use places::{DEPTH_LIMIT, Place};
pub use texts::{absolute, canonical, place_of_text};
