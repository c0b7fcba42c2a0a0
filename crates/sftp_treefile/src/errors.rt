//! Why bytes are not a tree file, and why one is not written.
ghost use Rattle.std.specs.Prelude.{◌≡◌};

use sftp_path::NoMemory;
use sftp_streams::Failed;
use std::alloc::{AllocError, AllocFailed};
use std::fmt;
use thiserror::Error;

/// The first fault, from left to right, of bytes that are not a tree file, and the number of its entry. Entries count
/// from 1; a fault before the first entry has the number 0.
#[derive(Clone, Copy, Debug, PartialEq, Eq, Error)]
pub enum TreeError {
    /// The bytes do not start with the whole opening.
    Magic { entry: u32 },
    /// The bytes end inside a field.
    Short { entry: u32 },
    /// Bytes follow the last entry, whose number is one less.
    Trailing { entry: u32 },
    /// A field is out of its range, a path is not the absolute text of a place, a kind is unknown, or the number of a
    /// further name is not that of an earlier first name.
    Value { entry: u32 },
    /// The path does not come after the one before it.
    Order { entry: u32 },
    /// No earlier entry is the directory that the path is in, and it is not in the root.
    Parent { entry: u32 },
    /// The source failed at this entry.
    Io { entry: u32 },
    /// Memory ran out.
    NoMemory,
}

impl TreeError {
    /// The number of the entry and the name of the fault, if there is one.
    fn fault(self) -> Option<(u32, &'static str)> {
        match self {
            TreeError::Magic { entry } => Some((entry, "Magic")),
            TreeError::Short { entry } => Some((entry, "Short")),
            TreeError::Trailing { entry } => Some((entry, "Trailing")),
            TreeError::Value { entry } => Some((entry, "Value")),
            TreeError::Order { entry } => Some((entry, "Order")),
            TreeError::Parent { entry } => Some((entry, "Parent")),
            TreeError::Io { entry } => Some((entry, "Io")),
            TreeError::NoMemory => None,
        }
    }
}

// `thiserror` would format the number of the entry for each fault anew, which is slow to prove.
impl fmt::Display for TreeError {
    fn fmt<W: fmt::Write>(&self, f: &mut fmt::Formatter<W>) -> fmt::Result {
        match self.fault() {
            Some((entry, fault)) => write!(f, "entry {entry}: {fault}"),
            None => f.write_str("out of memory"),
        }
    }
}

impl From<AllocError> for TreeError {
    ghost use Rattle.sftp_treefile.specs.declared.errors.TreeError.TheVariants.{NoMemory as no_memory};

    ghost from_gives = { λ _ e. e ≡ no_memory };

    fn from(_error: AllocError) -> TreeError {
        TreeError::NoMemory
    }
}

impl<T: Drop> From<AllocFailed<T>> for TreeError {
    ghost use Rattle.sftp_treefile.specs.declared.errors.TreeError.TheVariants.{NoMemory as no_memory};

    ghost from_gives = { λ _ e. e ≡ no_memory };

    fn from(_error: AllocFailed<T>) -> TreeError {
        TreeError::NoMemory
    }
}

impl From<NoMemory> for TreeError {
    ghost use Rattle.sftp_treefile.specs.declared.errors.TreeError.TheVariants.{NoMemory as no_memory};

    ghost from_gives = { λ _ e. e ≡ no_memory };

    fn from(_error: NoMemory) -> TreeError {
        TreeError::NoMemory
    }
}

/// Why a tree file was not written whole.
#[derive(Clone, Copy, Debug, PartialEq, Eq, Error)]
pub enum WriteError {
    /// Memory ran out.
    #[error("out of memory")]
    NoMemory,
    /// The sink failed.
    #[error("the stream failed")]
    Failed,
}

impl From<NoMemory> for WriteError {
    ghost use Rattle.sftp_treefile.specs.declared.errors.WriteError.TheVariants.{NoMemory as no_memory};

    ghost from_gives = { λ _ e. e ≡ no_memory };

    fn from(_error: NoMemory) -> WriteError {
        WriteError::NoMemory
    }
}

impl From<Failed> for WriteError {
    ghost use Rattle.sftp_treefile.specs.declared.errors.WriteError.TheVariants.{Failed as failed};

    ghost from_gives = { λ _ e. e ≡ failed };

    fn from(_error: Failed) -> WriteError {
        WriteError::Failed
    }
}
