//! How a server of several clients ends.

use sftp_server::Stream;
use sftp_tree::Tree;
use thiserror::Error;

/// How the input broke the frames.
#[derive(Clone, Copy, Debug, PartialEq, Eq, Error)]
pub enum FrameFault {
    /// A frame says that it has more than `sftp_frames::FRAME_LIMIT` bytes. `place` is that of its first byte, from 0,
    /// capped at 2^64 - 1.
    #[error("FrameTooLong at {place}")]
    TooLong { place: u64 },
    /// The input ended inside a frame. `place` is that of its first byte.
    #[error("FrameCut at {place}")]
    Cut { place: u64 },
}

/// How a server of several clients ended.
#[derive(Debug, Drop)]
pub enum HubEnded {
    /// The input ended after a whole frame, and each request was answered. The tree is that of the end, with nothing
    /// open.
    Finished(Tree),
    /// The input broke the frames. Each request before the fault was answered; the tree is that of the end, with
    /// nothing open.
    Fault(Tree, FrameFault),
    /// This stream failed.
    Io(Stream),
    /// Memory ran out.
    NoMemory,
}
