//! The requests (draft, sections 6 and 8; OpenSSH's PROTOCOL, section 4): the type of each, its fields, its handle, the
//! type of its reply, and its layout; and the names of extensions. `sftp_codec` reads them and `requests/copying.rt`
//! copies them, both by the table here (`with_requests!`).
ghost use Rattle.std.specs.Prelude.{◌≡◌, bytes_eq, option_copied};
ghost use Rattle.std.specs.List.{list_any};
ghost use Rattle.sftp_packets.specs.Requests.{ask_row, ask_parts, asked_handle, is_known_extension, asks_known};
ghost use Rattle.sftp_packets.specs.Requests.{reply_type};

use crate::attributes::Attrs;
use crate::layouts::{Layout, extension, first_packet, plain};
use crate::packets::INIT;
use crate::replies::{ATTRS, DATA, EXTENDED_REPLY, HANDLE, NAME, STATUS};
use sftp_strings::ByteString;

mod copying;

// The types of requests (draft, section 3).
pub const OPEN: u8 = 3;

pub const CLOSE: u8 = 4;

pub const READ: u8 = 5;

pub const WRITE: u8 = 6;

pub const LSTAT: u8 = 7;

pub const FSTAT: u8 = 8;

pub const SETSTAT: u8 = 9;

pub const FSETSTAT: u8 = 10;

pub const OPENDIR: u8 = 11;

pub const READDIR: u8 = 12;

pub const REMOVE: u8 = 13;

pub const MKDIR: u8 = 14;

pub const RMDIR: u8 = 15;

pub const REALPATH: u8 = 16;

pub const STAT: u8 = 17;

pub const RENAME: u8 = 18;

pub const READLINK: u8 = 19;

pub const SYMLINK: u8 = 20;

pub const EXTENDED: u8 = 200;

// The names of the known extensions.

/// Rename as POSIX does (OpenSSH's PROTOCOL, section 4.3).
pub const POSIX_RENAME: &[u8] = b"posix-rename@openssh.com";

/// Make another name for a file (OpenSSH's PROTOCOL, section 4.5).
pub const HARDLINK: &[u8] = b"hardlink@openssh.com";

/// Flush an open file to storage (OpenSSH's PROTOCOL, section 4.6).
pub const FSYNC: &[u8] = b"fsync@openssh.com";

/// The limits of the tree. This profile's own.
pub const LIMITS: &[u8] = b"limits@sftpv3.test";

/// The names of the extensions that have requests of their own, in the order in which the server announces them.
pub const KNOWN_EXTENSIONS: [&[u8]; 4] = [POSIX_RENAME, HARDLINK, FSYNC, LIMITS];

/// What a client asks for. A path is any bytes; a handle comes from a HANDLE reply and has at most `HANDLE_LIMIT`
/// bytes; offsets and lengths are in bytes.
// `Debug` is slow to prove, with an arm for each request. The tests of packets read its words.
#[derive(Debug, Drop)]
pub enum Ask {
    /// Open a file, or create it (draft, section 6.3). The flags are the bits of `OpenFlags`.
    Open {
        path: ByteString,
        pflags: u32,
        attrs: Attrs,
    },
    /// Close a handle (draft, section 6.3).
    Close {
        handle: ByteString,
    },
    /// Read from an open file (draft, section 6.4).
    Read {
        handle: ByteString,
        offset: u64,
        len: u32,
    },
    /// Write to an open file (draft, section 6.4).
    Write {
        handle: ByteString,
        offset: u64,
        bytes: ByteString,
    },
    /// The attributes of what a path names; a last link is not followed (draft, section 6.8).
    Lstat {
        path: ByteString,
    },
    /// The attributes of an open file (draft, section 6.8).
    Fstat {
        handle: ByteString,
    },
    /// Set the attributes of what a path names (draft, section 6.9).
    Setstat {
        path: ByteString,
        attrs: Attrs,
    },
    /// Set the attributes of an open file (draft, section 6.9).
    Fsetstat {
        handle: ByteString,
        attrs: Attrs,
    },
    /// Open a directory to read its names (draft, section 6.7).
    Opendir {
        path: ByteString,
    },
    /// More names of an open directory (draft, section 6.7).
    Readdir {
        handle: ByteString,
    },
    /// Remove a name of a file or a link (draft, section 6.5).
    Remove {
        path: ByteString,
    },
    /// Make a directory (draft, section 6.6).
    Mkdir {
        path: ByteString,
        attrs: Attrs,
    },
    /// Remove an empty directory (draft, section 6.6).
    Rmdir {
        path: ByteString,
    },
    /// The absolute path of what a path names (draft, section 6.11).
    Realpath {
        path: ByteString,
    },
    /// The attributes of what a path names; links are followed (draft, section 6.8).
    Stat {
        path: ByteString,
    },
    /// Rename; the new name must not exist (draft, section 6.5).
    Rename {
        oldpath: ByteString,
        newpath: ByteString,
    },
    /// The target of a symbolic link (draft, section 6.10).
    Readlink {
        path: ByteString,
    },
    /// Make a symbolic link, the target first (draft, section 6.10; the order is that of OpenSSH's PROTOCOL,
    /// section 4.1).
    Symlink {
        targetpath: ByteString,
        linkpath: ByteString,
    },
    /// Rename as POSIX does: the new name may exist (OpenSSH's PROTOCOL, section 4.3).
    PosixRename {
        oldpath: ByteString,
        newpath: ByteString,
    },
    /// Make another name for a file (OpenSSH's PROTOCOL, section 4.5).
    Hardlink {
        oldpath: ByteString,
        newpath: ByteString,
    },
    /// Flush an open file to storage (OpenSSH's PROTOCOL, section 4.6).
    Fsync {
        handle: ByteString,
    },
    /// The limits of the tree, in an `Extended` answer: an extension of this profile's own, without data.
    Limits,
    /// Any other extension: its name, and the bytes after it (draft, section 8).
    Unknown {
        name: ByteString,
        rest: ByteString,
    },
}

/// Hands the requests to a macro, behind what it is given: of a request of the draft the type, the variant, and the
/// fields in their order, each with its kind (`FieldKind`, or `Tail` of one that comes last); of a known extension its
/// name in place of the type. `Unknown`, which is any other extension, is for the macro itself.
// They are read and copied by this table, which the compiler holds against `Ask`, and the proof against `ask_row`.
#[macro_export]
macro_rules! with_requests {
    ($use:ident!($($given:tt)*)) => {
        $use! {
            ($($given)*)
            [
                OPEN => Open { path: Text, pflags: Flags, attrs: Attributes },
                CLOSE => Close { handle: Handle },
                READ => Read { handle: Handle, offset: LongNumber, len: Number },
                WRITE => Write { handle: Handle, offset: LongNumber, bytes: Text },
                LSTAT => Lstat { path: Text },
                FSTAT => Fstat { handle: Handle },
                SETSTAT => Setstat { path: Text, attrs: Attributes },
                FSETSTAT => Fsetstat { handle: Handle, attrs: Attributes },
                OPENDIR => Opendir { path: Text },
                READDIR => Readdir { handle: Handle },
                REMOVE => Remove { path: Text },
                MKDIR => Mkdir { path: Text, attrs: Attributes },
                RMDIR => Rmdir { path: Text },
                REALPATH => Realpath { path: Text },
                STAT => Stat { path: Text },
                RENAME => Rename { oldpath: Text, newpath: Text },
                READLINK => Readlink { path: Text },
                SYMLINK => Symlink { targetpath: Text, linkpath: Text },
            ]
            [
                POSIX_RENAME => PosixRename { oldpath: Text, newpath: Text },
                HARDLINK => Hardlink { oldpath: Text, newpath: Text },
                FSYNC => Fsync { handle: Handle },
                LIMITS => Limits {},
            ]
        }
    };
}

/// The type of a request, by the table.
macro_rules! type_in {
    (
        ($ask:expr)
        [$($type:ident => $variant:ident { $($field:ident: $kind:ident),* },)*]
        [$($name:ident => $extension:ident { $($part:ident: $part_kind:ident),* },)*]
    ) => {
        match $ask {
            $(Ask::$variant { .. } => $type,)*
            $(Ask::$extension { .. } => EXTENDED,)*
            Ask::Unknown { .. } => EXTENDED,
        }
    };
}

/// The type of a request's packet.
pub fn asked_type(ask: &Ask) -> u8
    ensures { result ≡ (ask_parts ask.now).0 }
{
    with_requests!(type_in!(ask))
}

/// The handle that a request names; `None` if it names none.
pub fn asked_handle(ask: &Ask) -> Option<&[u8]>
    ensures { option_copied result ≡ asked_handle ask.now }
{
    match ask {
        Ask::Close { handle }
        | Ask::Read { handle, .. }
        | Ask::Write { handle, .. }
        | Ask::Fstat { handle }
        | Ask::Fsetstat { handle, .. }
        | Ask::Readdir { handle }
        | Ask::Fsync { handle } => Some(handle.as_slice()),
        // the rows of all others name none, as the proof finds
        _ => None,
    }
}

/// The name of a known extension, by the table.
macro_rules! name_in {
    (
        ($ask:expr)
        [$($type:ident => $variant:ident { $($field:ident: $kind:ident),* },)*]
        [$($name:ident => $extension:ident { $($part:ident: $part_kind:ident),* },)*]
    ) => {
        match $ask {
            $(Ask::$extension { .. } => Some($name),)*
            // the rows of all others have none, as the proof finds
            _ => None,
        }
    };
}

/// The name of a known extension, if a request is one; `None` for a request of the draft, and for `Unknown`.
pub fn extension_name(ask: &Ask) -> Option<&'static [u8]>
    ensures { option_copied result ≡ (ask_row ask.now).extension }
{
    with_requests!(name_in!(ask))
}

/// The type of the reply that a request may get; each may get a status beside it, and most get nothing else (draft,
/// sections 6 and 7).
pub fn reply_type(ask: &Ask) -> u8
    ensures { result ≡ reply_type ask.now }
{
    match ask {
        Ask::Open { .. } | Ask::Opendir { .. } => HANDLE,
        Ask::Read { .. } => DATA,
        Ask::Readdir { .. } | Ask::Realpath { .. } | Ask::Readlink { .. } => NAME,
        Ask::Stat { .. } | Ask::Lstat { .. } | Ask::Fstat { .. } => ATTRS,
        Ask::Limits => EXTENDED_REPLY,
        // all others get no more than a status
        _ => STATUS,
    }
}

/// Whether a name is one of these.
fn is_among(name: &[u8], names: &[&[u8]]) -> bool
    ensures { result ≡ list_any (λ known. bytes_eq name.now known.now) names.now }
{
    names.iter().any(|known| name == *known)
}

/// Whether a name is that of an extension that has a request of its own.
fn is_known(name: &[u8]) -> bool
    ensures { result ≡ is_known_extension name.now }
{
    is_among(name, &KNOWN_EXTENSIONS)
}

/// Whether it is an `Unknown` with the name of an extension that has a request of its own.
pub fn asks_known(ask: &Ask) -> bool
    ensures { result ≡ asks_known ask.now }
{
    match ask {
        Ask::Unknown { name, .. } => is_known(name.as_slice()),
        _ => false,
    }
}

/// The layouts of what a client sends. Those of the known extensions come before that of any other.
pub const CLIENT_LAYOUTS: &[Layout] = &[
    first_packet!(INIT, "INIT"),
    plain!(OPEN, "OPEN", ["path": Text, "pflags": Flags], Attributes),
    plain!(CLOSE, "CLOSE", ["handle": Handle], Nothing),
    plain!(READ, "READ", ["handle": Handle, "offset": LongNumber, "len": Number], Nothing),
    plain!(WRITE, "WRITE", ["handle": Handle, "offset": LongNumber, "data": Text], Nothing),
    plain!(LSTAT, "LSTAT", ["path": Text], Nothing),
    plain!(FSTAT, "FSTAT", ["handle": Handle], Nothing),
    plain!(SETSTAT, "SETSTAT", ["path": Text], Attributes),
    plain!(FSETSTAT, "FSETSTAT", ["handle": Handle], Attributes),
    plain!(OPENDIR, "OPENDIR", ["path": Text], Nothing),
    plain!(READDIR, "READDIR", ["handle": Handle], Nothing),
    plain!(REMOVE, "REMOVE", ["path": Text], Nothing),
    plain!(MKDIR, "MKDIR", ["path": Text], Attributes),
    plain!(RMDIR, "RMDIR", ["path": Text], Nothing),
    plain!(REALPATH, "REALPATH", ["path": Text], Nothing),
    plain!(STAT, "STAT", ["path": Text], Nothing),
    plain!(RENAME, "RENAME", ["old path": Text, "new path": Text], Nothing),
    plain!(READLINK, "READLINK", ["path": Text], Nothing),
    plain!(SYMLINK, "SYMLINK", ["targetpath": Text, "linkpath": Text], Nothing),
    extension!("POSIX-RENAME", b"\0\0\0\x18posix-rename@openssh.com", ["old path": Text, "new path": Text], Nothing),
    extension!("HARDLINK", b"\0\0\0\x14hardlink@openssh.com", ["old path": Text, "new path": Text], Nothing),
    extension!("FSYNC", b"\0\0\0\x11fsync@openssh.com", ["handle": Handle], Nothing),
    extension!("LIMITS", b"\0\0\0\x12limits@sftpv3.test", [], Nothing),
    plain!(EXTENDED, "EXTENDED", ["extended request": Text], Rest),
];
