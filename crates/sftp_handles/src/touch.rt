//! What a request touches.

use sftp_tree::FileNo;

/// What a request touches of a session: what it sees or changes. Two requests conflict if both touch one thing and not
/// both only read it.
#[derive(Clone, Copy, Debug)]
pub enum Touch {
    /// Nothing: its handle is not open, or is of the wrong kind.
    Nothing,
    /// The file of this number, which it only reads.
    ReadsFile(FileNo),
    /// The file of this number, which it may change.
    WritesFile(FileNo),
    /// The listing under its own handle, of which it takes names.
    TakesNames,
    /// Everything.
    Everything,
}
