//! What a reader of a transcript file takes next.

/// What comes next in a transcript file.
#[derive(Clone, Copy, Debug, Drop)]
pub(crate) enum Stage {
    /// The eight bytes that it begins with.
    Opening,
    /// The client's INIT.
    Init,
    /// The server's VERSION.
    Version,
    /// An event, or the end.
    Events,
}
