//! Packets of the SSH File Transfer Protocol, version 3, in a stream (draft-ietf-secsh-filexfer-02, section 3).
//! The packets themselves are those of `sftp_packets`, whose public items this crate passes on, and `encode` of
//! `sftp_codec`.
#![tactic(auto)]

pub mod examples;
mod framing;
mod fronts;
mod laws;

pub use framing::{FrameBuf, streams};
pub use fronts::front;
pub use laws::spellings_are_apart;
pub use sftp_codec::encode;
pub use sftp_packets::{
    Answer, Ask, AttrFlags, Attrs, ByteString, Fault, FieldKind, HANDLE_LIMIT, KNOWN_EXTENSIONS,
    Layout, NameItem, Names, OpenFlags, PACKET_LIMIT, Packet, Pairs, Reply, Request, Side, Tail,
    WireError, asked_handle, ends_within, extension_name, layout_of, layouts_of, may_get,
    packet_name, status, take_number, take_string,
};
