//! Why bytes have no text, and why a line of text has no bytes.
ghost use Rattle.std.specs.Prelude.{◌≡◌};

use bytes::TryGetError;
use std::alloc::{AllocError, AllocFailed};
use std::fmt;
use thiserror::Error;

/// What a line should have had at a column.
#[derive(Clone, Copy)]
pub enum Expected {
    Side,
    Name,
    Space,
    Number,
    Long,
    Octal,
    Flags,
    Text,
    Hexadecimal,
    Comma,
    Equals,
    End,
    Head,
    Root,
    Kind,
    Fewer,
    AnyRoot,
    AnyKind,
}

impl Expected {
    fn text(self) -> &'static str {
        match self {
            Expected::Side => "`C` or `S`",
            Expected::Name => "the name of a packet of that side, or `raw`",
            Expected::Space => "a space",
            Expected::Number => "a number below 2^32",
            Expected::Long => "a number below 2^64",
            Expected::Octal => "`0` and octal digits, below 2^32",
            Expected::Flags => "flags of OPEN with `|` between, or their number",
            Expected::Text => "a text in quotes",
            Expected::Hexadecimal => "two hexadecimal digits in lower case",
            Expected::Comma => "`,`",
            Expected::Equals => "`=`",
            Expected::End => "the end of the line",
            Expected::Head =>
                "`home`, a text in quotes, `uid` and `gid`, perhaps `limits`, and `entries`, each with its numbers",
            Expected::Root => "`D \"/\"`; or `d \"/\"`, if the head has five limits",
            Expected::Kind =>
                "`D`, `F`, `H` or `L`; or `G`, `d`, `f` or `g`, if the head has five limits",
            Expected::AnyRoot => "`D \"/\"` or `d \"/\"`",
            Expected::AnyKind => "`D`, `F`, `G`, `d`, `f`, `g`, `H` or `L`",
            Expected::Fewer => "fewer than 2^32 bytes or items",
        }
    }
}

// `thiserror` would write each text by itself, which is slow to prove.
impl fmt::Display for Expected {
    fn fmt<W: fmt::Write>(&self, f: &mut fmt::Formatter<W>) -> fmt::Result {
        f.write_str(self.text())
    }
}

// What `Debug` derives is slow to prove, too.
impl fmt::Debug for Expected {
    fn fmt<W: fmt::Write>(&self, f: &mut fmt::Formatter<W>) -> fmt::Result {
        f.write_str(self.text())
    }
}

impl std::error::Error for Expected {}

/// Why a line has no bytes. After `Unread` the line's text begins to differ from what is expected at `column`, which
/// counts bytes from 1.
#[derive(Clone, Copy, Debug, Error)]
pub enum Fault {
    /// Memory ran out.
    #[error("out of memory")]
    NoMemory,
    /// The line is not in the form of a record or an entry.
    #[error("column {column}: expected {expected}")]
    Unread { column: u64, expected: Expected },
}

/// Why a text of several lines has no bytes.
#[derive(Clone, Copy, Debug, Error)]
pub enum TextFault {
    /// Memory ran out.
    #[error("out of memory")]
    NoMemory,
    /// A line is not in the form of a record or an entry. Lines and columns count from 1.
    #[error("line {line}, column {column}: expected {expected}")]
    Unread {
        line: u64,
        column: u64,
        expected: Expected,
    },
}

/// Why a file has no text.
#[derive(Clone, Copy, Debug, Error)]
pub enum ShowFault {
    /// Memory ran out.
    #[error("out of memory")]
    NoMemory,
    /// The file is not in the form of a transcript or a tree file.
    #[error("unknown form")]
    Unfit,
}

/// Why a step goes no further: its bytes or its text are not in the form that it takes, or memory ran out.
#[derive(Clone, Copy)]
pub(crate) enum Stop {
    NoMemory,
    Unfit(Expected),
}

impl From<AllocError> for Stop {
    ghost use Rattle.sftp_text.specs.declared.errors.Stop.TheVariants.{NoMemory as no_memory};

    ghost from_gives = { λ _ e. e ≡ no_memory };

    fn from(_error: AllocError) -> Stop {
        Stop::NoMemory
    }
}

impl<T: Drop> From<AllocFailed<T>> for Stop {
    ghost use Rattle.sftp_text.specs.declared.errors.Stop.TheVariants.{NoMemory as no_memory};

    ghost from_gives = { λ _ e. e ≡ no_memory };

    fn from(_error: AllocFailed<T>) -> Stop {
        Stop::NoMemory
    }
}

impl From<TryGetError> for Stop {
    ghost use Rattle.sftp_text.specs.declared.errors.Stop.TheVariants.{Unfit as unfit};
    ghost use Rattle.sftp_text.specs.declared.errors.Expected.TheVariants.{Fewer as fewer};

    ghost from_gives = { λ _ e. e ≡ unfit fewer };

    fn from(_error: TryGetError) -> Stop {
        Stop::Unfit(Expected::Fewer)
    }
}

impl From<Stop> for ShowFault {
    ghost use Rattle.sftp_text.specs.Texts.{show_fault};

    ghost from_gives = { λ stop e. e ≡ show_fault stop };

    fn from(stop: Stop) -> ShowFault {
        match stop {
            Stop::NoMemory => ShowFault::NoMemory,
            Stop::Unfit(_) => ShowFault::Unfit,
        }
    }
}

impl From<AllocError> for ShowFault {
    ghost use Rattle.sftp_text.specs.declared.errors.ShowFault.TheVariants.{NoMemory as no_memory};

    ghost from_gives = { λ _ e. e ≡ no_memory };

    fn from(_error: AllocError) -> ShowFault {
        ShowFault::NoMemory
    }
}

impl Stop {
    ghost use Rattle.sftp_text.specs.Texts.{IsFaultOf};

    /// The fault of a line of `length` bytes, of which `left` were left where it stopped.
    pub(crate) fn in_line(self, length: usize, left: usize) -> Fault
        ensures { IsFaultOf self result }
    {
        match self {
            Stop::NoMemory => Fault::NoMemory,
            Stop::Unfit(expected) => Fault::Unread {
                column: (length.saturating_sub(left) as u64).saturating_add(1),
                expected,
            },
        }
    }
}

impl Fault {
    ghost use Rattle.sftp_text.specs.Texts.{IsInLine};

    /// The fault of a text, in the line of this number.
    pub(crate) fn at_line(self, line: u64) -> TextFault
        ensures { IsInLine self line result }
    {
        match self {
            Fault::NoMemory => TextFault::NoMemory,
            Fault::Unread { column, expected } => TextFault::Unread {
                line,
                column,
                expected,
            },
        }
    }
}
