//! How a session of the server ends.

ghost use Rattle.std.specs.Prelude.{◌≡◌};
ghost use Rattle.sftp_server.specs.Sessions.{ended_by};

use sftp_tree::{NoMemory, Tree};
use sftp_wire::WireError;
use std::alloc::{AllocError, AllocFailed};
use thiserror::Error;

/// How a session ended.
#[derive(Debug, Drop)]
pub enum Ended {
    /// The input ended after a whole packet, and each request was answered. The tree is that of the session's end, with
    /// nothing open.
    Finished(Tree),
    /// The client broke the protocol. Each request before the fault was answered; the tree is that of the session's
    /// end, with nothing open. If no session was opened, it is the tree as it came.
    Fault(Tree, SessionFault),
    /// This stream failed.
    Io(Stream),
    /// Memory ran out.
    NoMemory,
}

/// How a session ended, and the tree that it left if it was stopped.
#[derive(Debug, Drop)]
pub struct SessionEnd {
    /// How it ended.
    pub ended: Ended,
    /// If it ended by `Io` or `NoMemory`, the tree of the requests that were done, with nothing open. `None` if no
    /// session was opened, so that nothing was written or logged; and at the other ends, which have a tree themselves.
    pub left: Option<Tree>,
}

/// How a client broke the protocol (draft-ietf-secsh-filexfer-02, sections 3 and 4).
#[derive(Clone, Copy, Debug, PartialEq, Eq, Error)]
pub enum SessionFault {
    /// A packet cannot be read. The error has the place of its first byte in the input, in bytes from 0.
    #[error("{0}")]
    Wire(WireError),
    /// A request has the id of one that is not answered.
    #[error("IdInUse {0}")]
    IdInUse(u32),
    /// The input has no complete first packet, the first packet is not an INIT of version 3 or more, or a later one is
    /// an INIT.
    #[error("BadInit")]
    BadInit,
    /// The input ended inside a packet. `place` is that of its first byte, from 0, capped at 2^64 - 1.
    #[error("Cut at {place}")]
    Cut { place: u64 },
}

/// The streams of a session.
#[derive(Clone, Copy, Debug, PartialEq, Eq)]
pub enum Stream {
    /// Where the client's packets come from.
    Reader,
    /// Where the server's packets go.
    Writer,
    /// Where the transcript is written.
    Log,
}

/// Why a session stops before its end.
#[derive(Clone, Copy)]
pub(crate) enum Stop {
    /// This stream failed.
    Io(Stream),
    /// Memory ran out.
    NoMemory,
}

impl Stop {
    /// How a session ended that was stopped so.
    pub(crate) fn ended(self) -> Ended
        ensures { result ≡ ended_by self }
    {
        match self {
            Stop::Io(stream) => Ended::Io(stream),
            Stop::NoMemory => Ended::NoMemory,
        }
    }

    /// The end of a session that was stopped so, and left this tree.
    pub(crate) fn leaving(self, left: Option<Tree>) -> SessionEnd
        ensures ended { result.ended ≡ ended_by self }
        ensures left { result.left ≡ left }
    {
        SessionEnd {
            ended: self.ended(),
            left,
        }
    }
}

impl From<NoMemory> for Stop {
    ghost use Rattle.sftp_server.specs.declared.ends.Stop.TheVariants.{NoMemory as no_memory};

    ghost from_gives = { λ _ stop. stop ≡ no_memory };

    fn from(_error: NoMemory) -> Stop {
        Stop::NoMemory
    }
}

impl From<AllocError> for Stop {
    ghost use Rattle.sftp_server.specs.declared.ends.Stop.TheVariants.{NoMemory as no_memory};

    ghost from_gives = { λ _ stop. stop ≡ no_memory };

    fn from(_error: AllocError) -> Stop {
        Stop::NoMemory
    }
}

impl<T: Drop> From<AllocFailed<T>> for Stop {
    ghost use Rattle.sftp_server.specs.declared.ends.Stop.TheVariants.{NoMemory as no_memory};

    ghost from_gives = { λ _ stop. stop ≡ no_memory };

    fn from(_error: AllocFailed<T>) -> Stop {
        Stop::NoMemory
    }
}
