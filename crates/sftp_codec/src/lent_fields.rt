//! The fields of a packet that follow its id, lent (draft, sections 3 to 8): packets are measured and written by them.

use sftp_packets::{Attrs, ByteString, Names};

/// A field of a packet, lent (draft, section 3).
#[derive(Clone, Copy)]
pub(crate) enum Field<'a> {
    /// A uint32.
    Number(u32),
    /// A uint64.
    LongNumber(u64),
    /// A string, be it a path or a handle: its length and its bytes.
    Text(&'a ByteString),
    /// A string that is the name of an extension.
    ExtensionName(&'a [u8]),
    /// Bytes up to the packet's end.
    Rest(&'a ByteString),
    /// File attributes.
    Attributes(&'a Attrs),
    /// The names of a NAME reply.
    Items(&'a Names),
}

/// The fields of a packet that follow its id. The name of an extension is the first of them.
#[derive(Clone, Copy)]
pub(crate) enum Fields<'a> {
    One(Field<'a>),
    Two(Field<'a>, Field<'a>),
    Three(Field<'a>, Field<'a>, Field<'a>),
}

/// Evaluates an expression with the fields of a request.
// A macro and not a function: wherever it is used, the compiler then knows the kinds of the fields.
macro_rules! with_asked {
    ($ask:expr, $fields:ident => $value:expr) => {
        match $ask {
            Ask::Lstat { path: text }
            | Ask::Opendir { path: text }
            | Ask::Remove { path: text }
            | Ask::Rmdir { path: text }
            | Ask::Realpath { path: text }
            | Ask::Stat { path: text }
            | Ask::Readlink { path: text }
            | Ask::Close { handle: text }
            | Ask::Fstat { handle: text }
            | Ask::Readdir { handle: text } => {
                let $fields = One(Text(text));
                $value
            }
            Ask::Setstat { path: text, attrs }
            | Ask::Mkdir { path: text, attrs }
            | Ask::Fsetstat { handle: text, attrs } => {
                let $fields = Two(Text(text), Attributes(attrs));
                $value
            }
            Ask::Open { path, pflags, attrs } => {
                let $fields = Three(Text(path), Number(*pflags), Attributes(attrs));
                $value
            }
            Ask::Read { handle, offset, len } => {
                let $fields = Three(Text(handle), LongNumber(*offset), Number(*len));
                $value
            }
            Ask::Write { handle, offset, bytes } => {
                let $fields = Three(Text(handle), LongNumber(*offset), Text(bytes));
                $value
            }
            Ask::Rename { oldpath: one, newpath: other }
            | Ask::Symlink { targetpath: one, linkpath: other } => {
                let $fields = Two(Text(one), Text(other));
                $value
            }
            Ask::PosixRename { oldpath, newpath } => {
                let $fields = Three(ExtensionName(sftp_packets::requests::POSIX_RENAME), Text(oldpath), Text(newpath));
                $value
            }
            Ask::Hardlink { oldpath, newpath } => {
                let $fields = Three(ExtensionName(sftp_packets::requests::HARDLINK), Text(oldpath), Text(newpath));
                $value
            }
            Ask::Fsync { handle } => {
                let $fields = Two(ExtensionName(sftp_packets::requests::FSYNC), Text(handle));
                $value
            }
            Ask::Limits => {
                let $fields = One(ExtensionName(sftp_packets::requests::LIMITS));
                $value
            }
            Ask::Unknown { name, rest } => {
                let $fields = Two(ExtensionName(name.as_slice()), Rest(rest));
                $value
            }
        }
    };
}

pub(crate) use with_asked;

/// Evaluates an expression with the fields of a reply.
macro_rules! with_answered {
    ($answer:expr, $fields:ident => $value:expr) => {
        match $answer {
            Answer::Status { code, message, language } => {
                let $fields = Three(Number(*code), Text(message), Text(language));
                $value
            }
            Answer::Handle(bytes) | Answer::Data(bytes) => {
                let $fields = One(Text(bytes));
                $value
            }
            Answer::Name(items) => {
                let $fields = One(Items(items));
                $value
            }
            Answer::Attrs(attrs) => {
                let $fields = One(Attributes(attrs));
                $value
            }
            Answer::Extended(bytes) => {
                let $fields = One(Rest(bytes));
                $value
            }
        }
    };
}

pub(crate) use with_answered;
