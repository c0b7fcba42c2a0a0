//! The fields of packets as members.

use crate::members::Members;
use sftp_wire::{Answer, Ask, Attrs, NameItem, Packet, Pairs, Side, packet_name};

/// Writes the members of a packet: its side, its name, its id or version, how many bytes it has, and its fields.
pub(crate) fn put_packet<M: Members>(side: Side, packet: &Packet, length: usize, members: &mut M) {
    members.word("side", letter(side));
    members.word("packet", name_of(packet));
    put_id(packet, members);
    members.number("packet_length", length as u64);
    put_fields(packet, members);
}

/// Writes the fields of a packet, but for its id or version.
pub(crate) fn put_fields<M: Members>(packet: &Packet, members: &mut M) {
    match packet {
        Packet::Init { extensions, .. } => put_pairs("extensions", extensions, members),
        Packet::Version { extensions, .. } => put_pairs("extensions", extensions, members),
        Packet::Request(request) => put_ask(&request.ask, members),
        Packet::Reply(reply) => put_answer(&reply.answer, members),
    }
}

/// How a line names a side.
fn letter(side: Side) -> &'static str {
    match side {
        Side::Client => "C",
        Side::Server => "S",
    }
}

/// The name of a packet; each known extension has its own.
pub(crate) fn name_of(packet: &Packet) -> &'static str {
    match packet {
        Packet::Request(request) => match &request.ask {
            Ask::PosixRename { .. } => "POSIX-RENAME",
            Ask::Hardlink { .. } => "HARDLINK",
            Ask::Fsync { .. } => "FSYNC",
            Ask::Limits => "LIMITS",
            _ => packet_name(packet),
        },
        _ => packet_name(packet),
    }
}

fn put_id<M: Members>(packet: &Packet, members: &mut M) {
    match packet {
        Packet::Init { version, .. } => members.number("version", u64::from(*version)),
        Packet::Version { version, .. } => members.number("version", u64::from(*version)),
        Packet::Request(request) => members.number("id", u64::from(request.id)),
        Packet::Reply(reply) => members.number("id", u64::from(reply.id)),
    }
}

/// Writes the fields of a request, in the packet's order.
fn put_ask<M: Members>(ask: &Ask, members: &mut M) {
    match ask {
        Ask::Open {
            path,
            pflags,
            attrs,
        } => {
            members.bytes("path", path.as_slice());
            put_flags(*pflags, members);
            put_attrs(attrs, members);
        }
        Ask::Read {
            handle,
            offset,
            len,
        } => {
            put_range(handle.as_slice(), *offset, members);
            members.number("length", u64::from(*len));
        }
        Ask::Write {
            handle,
            offset,
            bytes,
        } => {
            put_range(handle.as_slice(), *offset, members);
            members.bytes("data", bytes.as_slice());
        }
        other => put_plain_ask(other, members),
    }
}

/// Writes the handle and the offset of a READ or a WRITE.
fn put_range<M: Members>(handle: &[u8], offset: u64, members: &mut M) {
    members.bytes("handle", handle);
    members.number("offset", offset);
}

/// Writes the fields of a request that has one path or handle, and attributes or not; or two paths.
fn put_plain_ask<M: Members>(ask: &Ask, members: &mut M) {
    match ask {
        Ask::Lstat { path }
        | Ask::Opendir { path }
        | Ask::Remove { path }
        | Ask::Rmdir { path }
        | Ask::Realpath { path }
        | Ask::Stat { path }
        | Ask::Readlink { path } => members.bytes("path", path.as_slice()),
        Ask::Close { handle }
        | Ask::Fstat { handle }
        | Ask::Readdir { handle }
        | Ask::Fsync { handle } => members.bytes("handle", handle.as_slice()),
        Ask::Setstat { path, attrs } | Ask::Mkdir { path, attrs } => {
            members.bytes("path", path.as_slice());
            put_attrs(attrs, members);
        }
        Ask::Fsetstat { handle, attrs } => {
            members.bytes("handle", handle.as_slice());
            put_attrs(attrs, members);
        }
        other => put_two(other, members),
    }
}

/// Writes the fields of a request that names two texts.
fn put_two<M: Members>(ask: &Ask, members: &mut M) {
    match ask {
        Ask::Rename { oldpath, newpath }
        | Ask::PosixRename { oldpath, newpath }
        | Ask::Hardlink { oldpath, newpath } => {
            members.bytes("old_path", oldpath.as_slice());
            members.bytes("new_path", newpath.as_slice());
        }
        Ask::Symlink {
            targetpath,
            linkpath,
        } => {
            members.bytes("target", targetpath.as_slice());
            members.bytes("path", linkpath.as_slice());
        }
        Ask::Unknown { name, rest } => {
            members.bytes("name", name.as_slice());
            members.bytes("rest", rest.as_slice());
        }
        _ => {}
    }
}

/// Writes the fields of a reply, in the packet's order.
fn put_answer<M: Members>(answer: &Answer, members: &mut M) {
    match answer {
        Answer::Status {
            code,
            message,
            language,
        } => {
            members.number("code", u64::from(*code));
            put_text("message", message.as_slice(), members);
            put_text("language", language.as_slice(), members);
        }
        Answer::Handle(handle) => members.bytes("handle", handle.as_slice()),
        Answer::Data(bytes) => members.bytes("data", bytes.as_slice()),
        Answer::Name(names) => put_names(names.as_slice(), members),
        Answer::Attrs(attrs) => put_attrs(attrs, members),
        Answer::Extended(rest) => members.bytes("rest", rest.as_slice()),
    }
}

/// Writes a text that says nothing where it is empty.
fn put_text<M: Members>(name: &str, text: &[u8], members: &mut M) {
    if !text.is_empty() || !members.is_brief() {
        members.bytes(name, text);
    }
}

fn put_names<M: Members>(names: &[NameItem], members: &mut M) {
    if members.is_brief() {
        put_brief_names(names, members);
    } else {
        put_whole_names(names, members);
    }
}

/// Writes how many items there are, and their names.
fn put_brief_names<M: Members>(names: &[NameItem], members: &mut M) {
    members.number("items", names.len() as u64);
    for item in names {
        members.bytes("name", item.filename.as_slice());
    }
}

fn put_whole_names<M: Members>(names: &[NameItem], members: &mut M) {
    members.open_list("items");
    for item in names {
        put_name(item, members);
    }
    members.close_list();
}

fn put_name<M: Members>(item: &NameItem, members: &mut M) {
    members.open();
    members.bytes("name", item.filename.as_slice());
    members.bytes("long_name", item.longname.as_slice());
    put_attrs(&item.attrs, members);
    members.close();
}

/// Writes the attributes that are there.
fn put_attrs<M: Members>(attrs: &Attrs, members: &mut M) {
    members.open_member("attrs");
    if let Some(size) = attrs.size {
        members.number("size", size);
    }
    put_two_numbers(("uid", "gid"), attrs.owner, members);
    if let Some(permissions) = attrs.permissions {
        members.octal("permissions", permissions);
    }
    put_two_numbers(("access", "modification"), attrs.times, members);
    if let Some(extended) = &attrs.extended {
        put_pairs("extended", extended, members);
    }
    members.close();
}

/// Writes two numbers, if they are there.
fn put_two_numbers<M: Members>(names: (&str, &str), numbers: Option<(u32, u32)>, members: &mut M) {
    if let Some((first, second)) = numbers {
        members.number(names.0, u64::from(first));
        members.number(names.1, u64::from(second));
    }
}

fn put_pairs<M: Members>(name: &'static str, pairs: &Pairs, members: &mut M) {
    if members.is_brief() {
        members.number(name, pairs.as_slice().len() as u64);
        return;
    }
    members.open_list(name);
    for (name, data) in pairs.as_slice() {
        put_pair(name.as_slice(), data.as_slice(), members);
    }
    members.close_list();
}

fn put_pair<M: Members>(name: &[u8], data: &[u8], members: &mut M) {
    members.open();
    members.bytes("name", name);
    members.bytes("data", data);
    members.close();
}

/// The flags of OPEN with their names, from the lowest bit.
const FLAGS: [(u32, &str); 6] = [
    (0x01, "READ"),
    (0x02, "WRITE"),
    (0x04, "APPEND"),
    (0x08, "CREAT"),
    (0x10, "TRUNC"),
    (0x20, "EXCL"),
];

/// Writes the flags of OPEN: the names of those that have one, and the number of all.
fn put_flags<M: Members>(flags: u32, members: &mut M) {
    members.open_list("flags");
    for (flag, name) in FLAGS.as_slice() {
        if flags & *flag != 0 {
            members.item(name);
        }
    }
    members.close_list();
    members.number("flag_bits", u64::from(flags));
}
