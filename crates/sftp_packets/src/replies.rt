//! The replies (draft, sections 7 and 8): the type of each, its fields, its handle, and its layout.
ghost use Rattle.std.specs.Prelude.{◌≡◌, option_copied};
ghost use Rattle.sftp_packets.specs.Requests.{answer_parts, answered_handle};

use crate::attributes::Attrs;
use crate::layouts::{Layout, first_packet, plain};
use crate::names::Names;
use crate::packets::VERSION;
use sftp_strings::ByteString;

// The types of replies (draft, section 3).
pub const STATUS: u8 = 101;

pub const HANDLE: u8 = 102;

pub const DATA: u8 = 103;

pub const NAME: u8 = 104;

pub const ATTRS: u8 = 105;

pub const EXTENDED_REPLY: u8 = 201;

/// What a server answers.
#[derive(Debug, Drop)]
pub enum Answer {
    /// How the request ended: a status code, a message for people and the tag of its language (draft,
    /// section 7).
    Status {
        code: u32,
        message: ByteString,
        language: ByteString,
    },
    /// The handle of a file or directory that was opened: at most `HANDLE_LIMIT` bytes (draft, section 7).
    Handle(ByteString),
    /// Data of a file (draft, section 7).
    Data(ByteString),
    /// Names with their attributes (draft, section 7).
    Name(Names),
    /// The attributes of a file (draft, section 7).
    Attrs(Attrs),
    /// What an extension answers (draft, section 8).
    Extended(ByteString),
}

/// The type of a reply's packet.
pub fn answered_type(answer: &Answer) -> u8
    ensures { result ≡ (answer_parts answer.now).0 }
{
    match answer {
        Answer::Status { .. } => STATUS,
        Answer::Handle(_) => HANDLE,
        Answer::Data(_) => DATA,
        Answer::Name(_) => NAME,
        Answer::Attrs(_) => ATTRS,
        Answer::Extended(_) => EXTENDED_REPLY,
    }
}

/// The handle that an answer gives; `None` if it gives none.
pub fn answered_handle(answer: &Answer) -> Option<&[u8]>
    ensures { option_copied result ≡ answered_handle answer.now }
{
    match answer {
        Answer::Handle(handle) => Some(handle.as_slice()),
        _ => None,
    }
}

/// The layouts of what a server sends.
pub const SERVER_LAYOUTS: &[Layout] = &[
    first_packet!(VERSION, "VERSION"),
    plain!(STATUS, "STATUS", ["code": Number], Message),
    plain!(HANDLE, "HANDLE", ["handle": Handle], Nothing),
    plain!(DATA, "DATA", ["data": Text], Nothing),
    plain!(NAME, "NAME", [], Items),
    plain!(ATTRS, "ATTRS", [], Attributes),
    plain!(EXTENDED_REPLY, "EXTENDED_REPLY", [], Rest),
];
