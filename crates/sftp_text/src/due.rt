//! The parts of a tree file's text, by the lines that come next.

/// Which line of a tree file is due next.
#[derive(Clone, Copy)]
pub(crate) enum Due {
    Head,
    /// That of the root, which has its letter in the bytes after the third opening.
    Root(bool),
    /// That of an entry, which may have times after the third opening.
    Entry(bool),
}
