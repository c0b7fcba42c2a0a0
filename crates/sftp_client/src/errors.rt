//! Errors of a client's session.
ghost use Rattle.std.specs.Prelude.{◌≡◌};

use std::alloc::{AllocError, AllocFailed};
use thiserror::Error;

/// Why a call of `Pairing` was refused: the first of these reasons that holds. After each the session is unchanged.
#[derive(Clone, Copy, Debug, PartialEq, Eq, Error)]
pub enum ClientError {
    /// The server's VERSION has not come.
    #[error("NotStarted")]
    NotStarted,
    /// `OPEN_LIMIT` requests have no reply yet.
    #[error("Full")]
    Full,
    /// No request without a reply has this id.
    #[error("UnknownId")]
    UnknownId,
    /// The request may not get a reply of this kind.
    #[error("WrongReply")]
    WrongReply,
    /// Memory ran out.
    #[error("NoMemory")]
    NoMemory,
    /// The packet is no VERSION, its version is not 3, or VERSION has come before.
    #[error("BadVersion")]
    BadVersion,
    /// The request is an extension that VERSION did not name.
    #[error("NotAnnounced")]
    NotAnnounced,
}

impl From<AllocError> for ClientError {
    ghost use Rattle.sftp_client.specs.declared.errors.ClientError.TheVariants.{NoMemory as no_memory};

    ghost from_gives = { λ _ e. e ≡ no_memory };

    fn from(_error: AllocError) -> ClientError {
        ClientError::NoMemory
    }
}

impl<T: Drop> From<AllocFailed<T>> for ClientError {
    ghost use Rattle.sftp_client.specs.declared.errors.ClientError.TheVariants.{NoMemory as no_memory};

    ghost from_gives = { λ _ e. e ≡ no_memory };

    fn from(_error: AllocFailed<T>) -> ClientError {
        ClientError::NoMemory
    }
}
