//! What is known beside the session.

/// What an inference is to take for granted.
#[derive(Clone, Copy)]
pub struct Settings {
    /// Whether the tree gets the highest limits.
    pub is_raised: bool,
    /// Whether replies are judged strictly. If not, attributes that contradict each other are passed by.
    pub is_strict: bool,
    /// Whether each reason for a refusal may have any code.
    pub any_code: bool,
    /// Whether a request may be refused with code 3 for no reason.
    pub may_deny: bool,
    /// Whether a request that needs room may be refused with code 4 for no reason.
    pub may_be_full: bool,
    /// The permissions that are taken from whatever is made; `None` where what is made has the permissions asked for.
    pub umask: Option<u32>,
    /// Whether SYMLINK has the path of the link first.
    pub link_first: bool,
    /// The most bytes that all files of the session may have, those that it makes, too.
    pub most: u64,
    /// The most passes.
    pub passes: u32,
}
