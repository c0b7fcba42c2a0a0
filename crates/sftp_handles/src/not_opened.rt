//! Why nothing was opened.

use sftp_tree::Refused;

/// Why nothing was opened.
#[derive(Clone, Copy)]
pub(crate) enum NotOpened {
    /// The wanted name is open already.
    Taken,
    /// A cause refuses the request, or memory ran out.
    Refused(Refused),
}
