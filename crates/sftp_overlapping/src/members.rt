//! The files of a set.

/// A file that was given by this name.
#[derive(Drop)]
pub(crate) struct Given<'a, T> {
    pub(crate) path: &'a str,
    pub(crate) file: T,
}

/// The files of a session, and its name.
#[derive(Drop)]
pub(crate) struct Member<'a, T> {
    pub(crate) name: &'a str,
    pub(crate) transcript: Given<'a, T>,
    pub(crate) times: Given<'a, T>,
}
