//! The packets of the SSH File Transfer Protocol, version 3, as values (draft-ietf-secsh-filexfer-02, sections 3 to 8).
//! `sftp_codec` has them as bytes, and `sftp_wire` takes them out of a stream.
#![tactic(auto)]

mod attributes;
mod errors;
pub mod examples;
mod extents;
mod layouts;
mod names;
mod open_flags;
pub mod packets;
mod pairs;
pub mod replies;
pub mod requests;
pub mod status;

pub use attributes::{AttrFlags, Attrs};
pub use errors::{Fault, ReadError, WireError};
pub use extents::ends_within;
pub use layouts::{FieldKind, Layout, Tail, layout_of, layouts_of, packet_name};
pub use names::{NameItem, Names};
pub use open_flags::OpenFlags;
pub use packets::{HANDLE_LIMIT, PACKET_LIMIT, Packet, Reply, Request, Side, may_get};
pub use pairs::Pairs;
pub use replies::Answer;
pub use requests::{Ask, KNOWN_EXTENSIONS, asked_handle, extension_name};
pub use sftp_strings::{ByteString, take_number, take_string};
