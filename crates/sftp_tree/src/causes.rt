//! Why requests are refused, and with which status codes (draft, section 7).
ghost use Rattle.std.specs.Prelude.{◌≡◌, ◌<◌, IfErr, IsTrue, OnOk};
ghost use Rattle.std.specs.List.{list_any};
ghost use Rattle.sftp_tree.specs.PlaceCauses as sets;
ghost use Rattle.sftp_tree.specs.Told.{in_set};

use sftp_packets::status::{BAD_MESSAGE, FAILURE, NO_SUCH_FILE, OP_UNSUPPORTED, PERMISSION_DENIED};
use sftp_path::NoMemory;
use std::alloc::{AllocError, AllocFailed};
use std::fmt;
use thiserror::Error;

/// Why a request is refused: a row of the status table. It is shown by its name.
#[derive(Clone, Copy, Debug, PartialEq, Eq)]
pub enum Cause {
    /// OPEN: the flags ask neither to read nor to write, truncate or exclude without creating, truncate or append
    /// without writing, or have a bit that is no flag.
    BadFlags,
    /// A path, or the target of a new link, is longer than 4,096 bytes, has a component longer than 255, or has a byte
    /// 0; or that target is empty.
    BadPath,
    /// The request needs something that does not exist, or the walk does.
    NoEntry,
    /// There is something other than a directory, and the request or the walk needs one.
    NotDir,
    /// More than 40 links on the way.
    Loop,
    /// The new place is taken.
    Exists,
    /// The node is a directory, and the request is not for directories.
    IsDir,
    /// The node whose target is asked for is not a link.
    NotLink,
    /// The request gives a further name or a size to a node that is not a file.
    NotFile,
    /// A directory would be removed or replaced, and is not empty.
    NotEmpty,
    /// The root would be removed, moved or replaced.
    Root,
    /// The new place of a directory is below the directory.
    Inside,
    /// The handle is not open.
    BadHandle,
    /// The handle is a directory's, and the request is for files, or the other way round.
    WrongKind,
    /// The file was not opened to be read, or to be written, as the request would.
    NotOpenFor,
    /// No other cause holds, and the request's change would break a limit of the tree.
    NoRoom,
    /// The request is an extension that is not known.
    Unknown,
}

// `thiserror` would write each name by itself, and that is as slow to prove as ten functions.
impl fmt::Display for Cause {
    fn fmt<W: fmt::Write>(&self, f: &mut fmt::Formatter<W>) -> fmt::Result {
        fmt::Debug::fmt(self, f)
    }
}

impl std::error::Error for Cause {}

/// Every cause, in the order of the status table.
pub const EVERY_CAUSE: [Cause; 17] = [
    Cause::BadFlags,
    Cause::BadPath,
    Cause::NoEntry,
    Cause::NotDir,
    Cause::Loop,
    Cause::Exists,
    Cause::IsDir,
    Cause::NotLink,
    Cause::NotFile,
    Cause::NotEmpty,
    Cause::Root,
    Cause::Inside,
    Cause::BadHandle,
    Cause::WrongKind,
    Cause::NotOpenFor,
    Cause::NoRoom,
    Cause::Unknown,
];

impl Cause {
    /// The number of its row in the table.
    fn row(self) -> u32
        ensures row { result ≡ sets.row self }
        ensures few { result < 32 }
    {
        self as u32
    }

    /// The status code that this program's own replies have for the cause: the first of those that it allows, in the
    /// order of their numbers.
    pub fn code(self) -> u32
        ensures { IsTrue (sets.allows self result) }
    {
        match self {
            Cause::NoEntry | Cause::NotDir | Cause::Loop => NO_SUCH_FILE,
            Cause::NotOpenFor => PERMISSION_DENIED,
            Cause::BadFlags
            | Cause::BadPath
            | Cause::Exists
            | Cause::IsDir
            | Cause::NotLink
            | Cause::NotFile
            | Cause::NotEmpty
            | Cause::Root
            | Cause::Inside
            | Cause::BadHandle
            | Cause::WrongKind
            | Cause::NoRoom => FAILURE,
            Cause::Unknown => OP_UNSUPPORTED,
        }
    }

    /// Whether this cause allows the status code.
    pub fn allows(self, code: u32) -> bool
        ensures { result ≡ sets.allows self code }
    {
        match self {
            Cause::BadFlags | Cause::BadPath => code == FAILURE || code == BAD_MESSAGE,
            Cause::NoEntry => code == NO_SUCH_FILE,
            Cause::NotDir | Cause::Loop => code == NO_SUCH_FILE || code == FAILURE,
            Cause::Exists
            | Cause::IsDir
            | Cause::NotLink
            | Cause::NotFile
            | Cause::NotEmpty
            | Cause::Root
            | Cause::Inside
            | Cause::BadHandle
            | Cause::WrongKind
            | Cause::NoRoom => code == FAILURE,
            Cause::NotOpenFor => code == PERMISSION_DENIED || code == FAILURE,
            Cause::Unknown => code == OP_UNSUPPORTED,
        }
    }
}

/// A set of causes: the bit of each row of the table says whether its cause is in it.
#[derive(Clone, Copy, Debug)]
pub struct Causes {
    pub(crate) bits: u32,
}

impl Causes {
    /// The empty set.
    pub fn none() -> Causes
        ensures { in_set result ≡ sets.no_causes }
    {
        Causes { bits: 0 }
    }

    /// The set with this cause too, if it holds.
    pub fn when(self, cause: Cause, holds: bool) -> Causes
        ensures { in_set result ≡ sets.when (in_set self) cause holds }
    {
        if !holds {
            return self;
        }
        Causes {
            bits: self.bits | (1 << cause.row()),
        }
    }

    /// Whether a cause is in the set.
    pub fn holds(&self, cause: Cause) -> bool
        ensures { result ≡ in_set self.now cause }
    {
        (self.bits >> cause.row()) & 1 == 1
    }

    /// Whether the set has a cause.
    pub fn has_any(&self) -> bool
        ensures { result ≡ list_any (in_set self.now) sets.every_cause }
    {
        EVERY_CAUSE.iter().any(|cause| self.holds(*cause))
    }

    /// The causes that are in either set.
    pub(crate) fn union(self, other: Causes) -> Causes
        ensures { in_set result ≡ sets.joined (in_set self) (in_set other) }
    {
        Causes {
            bits: self.bits | other.bits,
        }
    }

    /// Refuses with the first of the causes, in the order of the table.
    ///
    /// # Errors
    ///
    /// The first cause of the set, if it has one.
    pub(crate) fn refuse(&self) -> Result<(), Cause>
        ensures free { OnOk result (IsTrue (sets.is_none (in_set self.now))) }
        ensures cause { IfErr result (λ cause. IsTrue (in_set self.now cause)) }
    {
        match EVERY_CAUSE.iter().find(|cause| self.holds(**cause)) {
            Some(cause) => Err(*cause),
            None => Ok(()),
        }
    }

    /// Whether one of the causes allows the status code.
    pub fn allow(&self, code: u32) -> bool
        ensures { result ≡ sets.allow (in_set self.now) code }
    {
        EVERY_CAUSE
            .iter()
            .any(|cause| self.holds(*cause) && cause.allows(code))
    }
}

/// Why a call was refused.
#[derive(Clone, Copy, Debug, PartialEq, Eq, Error)]
pub enum Refused {
    /// A cause that holds.
    #[error("{0}")]
    Cause(Cause),
    /// Memory ran out.
    #[error("out of memory")]
    NoMemory,
}

impl From<Cause> for Refused {
    ghost use Rattle.sftp_tree.specs.declared.causes.Refused.TheVariants.{Cause as refused_by};

    ghost from_gives = { λ cause e. e ≡ refused_by cause };

    fn from(cause: Cause) -> Refused {
        Refused::Cause(cause)
    }
}

impl From<AllocError> for Refused {
    ghost use Rattle.sftp_tree.specs.declared.causes.Refused.TheVariants.{NoMemory as no_memory};

    ghost from_gives = { λ _ e. e ≡ no_memory };

    fn from(_error: AllocError) -> Refused {
        Refused::NoMemory
    }
}

impl<T: Drop> From<AllocFailed<T>> for Refused {
    ghost use Rattle.sftp_tree.specs.declared.causes.Refused.TheVariants.{NoMemory as no_memory};

    ghost from_gives = { λ _ e. e ≡ no_memory };

    fn from(_error: AllocFailed<T>) -> Refused {
        Refused::NoMemory
    }
}

impl From<NoMemory> for Refused {
    ghost use Rattle.sftp_tree.specs.declared.causes.Refused.TheVariants.{NoMemory as no_memory};

    ghost from_gives = { λ _ e. e ≡ no_memory };

    fn from(_error: NoMemory) -> Refused {
        Refused::NoMemory
    }
}
