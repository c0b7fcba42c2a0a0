//! What the rules leave free to a server, and answerers that use it (draft-ietf-secsh-filexfer-02, sections 5
//! to 7): pseudorandomly, so that a client that works with it takes no server's habit for the protocol's, or for words
//! that people read.
#![tactic(auto)]

mod cuts;
mod dice;
mod freedoms;
mod handles;
mod lined;
mod listings;
mod long_names;
mod proposed;
mod spelled;
mod texts;
mod vary;
mod versions;
mod worded;
mod words;

pub use cuts::Cuts;
pub use freedoms::{Freedom, Freedoms, NAMES, Variation};
pub use proposed::{Proposed, Proposer};
pub use vary::Vary;
pub use versions::any_version;
pub use worded::{Style, Worded, Words};
