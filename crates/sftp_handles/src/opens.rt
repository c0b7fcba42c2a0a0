//! What a handle opens: a file, or a listing of a directory.

use sftp_listing::Listing;
use sftp_packets::OpenFlags;
use sftp_tree::FileNo;

/// What is open under a handle.
#[derive(Debug, Drop)]
pub enum Open {
    /// A file, by its number, and how it was opened: the bits READ, WRITE and APPEND of the flags of OPEN.
    File { file: FileNo, flags: OpenFlags },
    /// A directory, with the remaining entries of its listing.
    Listing { left: Listing },
}
