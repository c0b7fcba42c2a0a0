//! The openings of tree files.

/// What a tree file begins with.
#[derive(Clone, Copy)]
pub(crate) enum Opening {
    /// `SFTREE01`, which no limits follow.
    Usual,
    /// `SFTREE02`, with four limits.
    Raised,
    /// `SFTREE03`, with five limits; entries may have times, and files any length.
    Wide,
}
