//! Errors of reading and writing packets.
ghost use Rattle.std.specs.Prelude.{◌≡◌};
ghost use Rattle.sftp_packets.specs.declared.errors.Fault.TheVariants.{Short};
ghost use Rattle.sftp_packets.specs.declared.errors.ReadError.TheVariants as reads;
ghost use Rattle.sftp_packets.specs.declared.errors.WireError.TheVariants.{NoMemory};

use bytes::TryGetError;
use std::alloc::{AllocError, AllocFailed};
use thiserror::Error;

/// Why bytes are not a packet: the first fault from left to right.
#[derive(Clone, Copy, Debug, PartialEq, Eq, Error)]
pub enum Fault {
    /// The length field is 0, or more than a packet may have.
    #[error("Length")]
    Length,
    /// The type is not one of the packets of that side.
    #[error("Type")]
    WrongType,
    /// A field goes beyond the packet's end.
    #[error("Short")]
    Short,
    /// There are bytes after the last field.
    #[error("Trailing")]
    Trailing,
    /// An unknown attribute flag is set.
    #[error("Flags")]
    Flags,
    /// A handle is too long. Its length is checked before its bytes.
    #[error("HandleTooLong")]
    HandleTooLong,
}

/// Why a packet could not be written or read.
#[derive(Clone, Copy, Debug, PartialEq, Eq, Error)]
pub enum WireError {
    /// The packet would have more than `PACKET_LIMIT` bytes, or its handle more than `HANDLE_LIMIT`.
    #[error("TooLong")]
    TooLong,
    /// The packet is an `Unknown` with the name of an extension that has a request of its own.
    #[error("NotCanonical")]
    NotCanonical,
    /// Memory ran out.
    #[error("NoMemory")]
    NoMemory,
    /// The bytes are not a packet. The place is that of the packet's first byte.
    #[error("{fault} at {place}")]
    Unreadable { fault: Fault, place: u64 },
}

impl From<AllocError> for WireError {
    ghost from_gives = { λ _ e. e ≡ NoMemory };

    fn from(_error: AllocError) -> WireError {
        WireError::NoMemory
    }
}

impl<T: Drop> From<AllocFailed<T>> for WireError {
    ghost from_gives = { λ _ e. e ≡ NoMemory };

    fn from(_error: AllocFailed<T>) -> WireError {
        WireError::NoMemory
    }
}

/// Why a field or a packet could not be read.
#[derive(Drop)]
pub enum ReadError {
    /// Memory ran out.
    NoMemory,
    /// The bytes are not that field or packet.
    Fault(Fault),
}

impl From<AllocError> for ReadError {
    ghost from_gives = { λ _ e. e ≡ reads.NoMemory };

    fn from(_error: AllocError) -> ReadError {
        ReadError::NoMemory
    }
}

impl<T: Drop> From<AllocFailed<T>> for ReadError {
    ghost from_gives = { λ _ e. e ≡ reads.NoMemory };

    fn from(_error: AllocFailed<T>) -> ReadError {
        ReadError::NoMemory
    }
}

impl From<TryGetError> for ReadError {
    ghost from_gives = { λ _ e. e ≡ reads.Fault Short };

    fn from(_error: TryGetError) -> ReadError {
        ReadError::Fault(Fault::Short)
    }
}
