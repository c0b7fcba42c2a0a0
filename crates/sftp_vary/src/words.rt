//! Texts of refusals, in English; of one for want of room, which limit the request met.

use sftp_handles::{HandleTable, Session};
use sftp_path::DEPTH_LIMIT;
use sftp_tree::{Cause, NoMemory, Tree};
use sftp_treefile::{TreeLimits, highest_limits, most_limits};
use sftp_wire::{Ask, ByteString};
use std::alloc::Global;
use std::fmt;

/// The language tag of the texts (RFC 1766).
pub(crate) const LANGUAGE: &[u8] = b"en";

/// The text for a request that has this cause. If a limit was met, it says which one, and how to raise it.
pub(crate) fn text_of<T: HandleTable>(
    session: &Session<T>,
    ask: &Ask,
    cause: Cause,
    alloc: Global,
) -> Result<ByteString, NoMemory> {
    let text = match cause {
        Cause::NoRoom => {
            let limit = limit_met(session, ask)?;
            let text = format!(in alloc; "No room: {limit}")?;
            return Ok(ByteString::new(text.into_bytes()));
        }
        Cause::WrongKind => wrong_kind(ask),
        Cause::NotOpenFor => not_open_for(ask),
        other => usual(other),
    };
    let copy = ByteString::from_slice(alloc, text.as_bytes())?;
    Ok(copy)
}

/// The text of a cause that says all by itself.
fn usual(cause: Cause) -> &'static str {
    match cause {
        Cause::BadFlags => "Bad flags of OPEN",
        Cause::BadPath => {
            "Bad path: more than 4096 bytes, a name of more than 255, a byte 0, or an empty target of a link"
        }
        Cause::NoEntry => "No such file or directory",
        Cause::NotDir => "Not a directory",
        Cause::Loop => "More than 40 symbolic links on the way",
        Cause::Exists => "File exists",
        Cause::IsDir => "Is a directory",
        Cause::NotLink => "Not a symbolic link",
        Cause::NotFile => "Not a regular file",
        Cause::NotEmpty => "Directory not empty",
        Cause::Root => "The root cannot be removed, moved or replaced",
        Cause::Inside => "A directory cannot be moved below itself",
        Cause::BadHandle => "No such handle",
        Cause::WrongKind => "The handle is of the other kind",
        Cause::NotOpenFor => "The file was not opened for this",
        Cause::NoRoom => "No room",
        Cause::Unknown => "Unknown extension",
    }
}

/// The text for a handle of the other kind.
fn wrong_kind(ask: &Ask) -> &'static str {
    match ask {
        Ask::Readdir { .. } => "The handle of a file, where one of a directory is needed",
        _ => "The handle of a directory, where one of a file is needed",
    }
}

/// The text for a file that was opened for something else.
fn not_open_for(ask: &Ask) -> &'static str {
    match ask {
        Ask::Read { .. } => "The file was not opened for reading",
        _ => "The file was not opened for writing",
    }
}

/// A limit, and how much it allows.
#[derive(Clone, Copy)]
pub(crate) enum Limit {
    /// The entries of the tree.
    Entries(u32),
    /// The bytes of a file.
    FileBytes(u64),
    /// The bytes of all files.
    AllBytes(u64),
    /// The handles that are open at once.
    Handles(u32),
    /// The names of a place. No tree raises it.
    Names,
}

/// The limit that a request met which only `NoRoom` refuses. An OPEN that would make the last file of the 2^32 that a
/// session can number counts as a place of too many names.
pub(crate) fn limit_met<T: HandleTable>(
    session: &Session<T>,
    ask: &Ask,
) -> Result<Limit, NoMemory> {
    let tree = session.tree();
    let limits = tree.tree_limits();
    match ask {
        Ask::Write { .. } | Ask::Setstat { .. } | Ask::Fsetstat { .. } => {
            Ok(limit_of_bytes(limits, asked_size(session, ask)))
        }
        Ask::Open { .. } | Ask::Opendir { .. } => {
            let causes = tree.causes(ask)?;
            if causes.holds(Cause::NoRoom) {
                Ok(limit_of_new_place(tree))
            } else {
                Ok(Limit::Handles(limits.open_handles))
            }
        }
        Ask::Rename { .. } | Ask::PosixRename { .. } => Ok(Limit::Names),
        _ => Ok(limit_of_new_place(tree)),
    }
}

/// The limit that keeps bytes out of a file that would have so many: that on all files, if there is one and these are
/// no more than one file may have, or else that on each file.
fn limit_of_bytes(limits: TreeLimits, size: u64) -> Limit {
    let is_set = limits.total_bytes < most_limits().total_bytes;
    if is_set && size <= limits.file_bytes {
        Limit::AllBytes(limits.total_bytes)
    } else {
        Limit::FileBytes(limits.file_bytes)
    }
}

/// How many bytes a request gives a file, at least. A WRITE without a span appends, so its bytes come after the file's.
fn asked_size<T: HandleTable>(session: &Session<T>, ask: &Ask) -> u64 {
    match ask {
        Ask::Write {
            handle,
            offset,
            bytes,
        } => {
            let start = match session.span(ask) {
                Some(_) => *offset,
                None => open_size(session, handle.as_slice()),
            };
            start.saturating_add(bytes.as_slice().len() as u64)
        }
        Ask::Setstat { attrs, .. } | Ask::Fsetstat { attrs, .. } => attrs.size.unwrap_or(0),
        _ => 0,
    }
}

/// How many bytes the file of a handle has.
fn open_size<T: HandleTable>(session: &Session<T>, handle: &[u8]) -> u64 {
    match session.stat_open(handle) {
        Ok(attrs) => attrs.size.unwrap_or(0),
        Err(_) => 0,
    }
}

/// The limit that keeps a new entry out.
fn limit_of_new_place(tree: &Tree) -> Limit {
    let most = tree.tree_limits().entries;
    if tree.entry_count() >= most {
        Limit::Entries(most)
    } else {
        Limit::Names
    }
}

impl fmt::Display for Limit {
    fn fmt<W: fmt::Write>(&self, f: &mut fmt::Formatter<W>) -> fmt::Result {
        let (high, far) = (highest_limits(), most_limits());
        let (most, what, higher, farthest) = match self {
            Limit::Entries(most) => (
                u64::from(*most),
                "entries",
                u64::from(high.entries),
                u64::from(far.entries),
            ),
            Limit::FileBytes(most) => (*most, "bytes in a file", high.file_bytes, far.file_bytes),
            Limit::AllBytes(most) => {
                return write!(
                    f,
                    "this tree allows {most} bytes in all files together; 'sftpv3 raise --to most TREE FILE' lifts that"
                );
            }
            Limit::Handles(most) => (
                u64::from(*most),
                "open handles",
                u64::from(high.open_handles),
                u64::from(far.open_handles),
            ),
            Limit::Names => return write!(f, "every tree allows {DEPTH_LIMIT} names in a path"),
        };
        write!(f, "this tree allows {most} {what}")?;
        put_way(f, most, higher, farthest)
    }
}

/// How a tree gets a higher limit.
fn put_way<W: fmt::Write>(
    f: &mut fmt::Formatter<W>,
    most: u64,
    highest: u64,
    far: u64,
) -> fmt::Result {
    if most < highest {
        write!(f, "; 'sftpv3 raise TREE FILE' allows {highest}")
    } else if most < far {
        write!(f, "; 'sftpv3 raise --to most TREE FILE' allows {far}")
    } else {
        f.write_str(", and no tree allows more")
    }
}
