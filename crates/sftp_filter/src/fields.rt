//! The fields of exchanges, by the names that `show --json` gives them.

/// A field of a request or of a reply.
#[derive(Clone, Copy)]
pub enum Field {
    /// The number of the record.
    Record,
    /// When the record was there, in nanoseconds from the start on.
    Time,
    /// How many bytes the packet has, its length field included.
    PacketLength,
    /// The packet, by its name; of a STATUS its code, too.
    Packet,
    Id,
    Path,
    OldPath,
    NewPath,
    Target,
    Handle,
    Offset,
    Length,
    Data,
    Flags,
    FlagBits,
    /// The name of an extension.
    Name,
    /// What follows the name of an extension, or what its reply has.
    Rest,
    Size,
    Uid,
    Gid,
    Permissions,
    Access,
    Modification,
    Code,
    Message,
    Language,
    /// How many items a NAME has.
    Items,
    /// How many nanoseconds the request took.
    Took,
    /// The number of the oldest request's record that was asked before, and is not answered yet.
    Overtook,
}

/// What the values of a field are.
#[derive(Clone, Copy)]
pub(crate) enum Kind {
    Number,
    /// A number, for which a code's name may stand.
    Code,
    Text,
    /// The name of a packet.
    Packet,
    /// The name of a packet, or of the code of a STATUS.
    Reply,
    Flags,
}

/// Whose field a name means.
#[derive(Clone, Copy)]
pub(crate) enum Part {
    /// The request's, or else the reply's.
    Either,
    Request,
    Reply,
}

/// What an expression calls a field, or the length of one.
#[derive(Clone, Copy)]
pub(crate) struct Name {
    pub(crate) part: Part,
    pub(crate) field: Field,
    pub(crate) kind: Kind,
    /// Whether the number of its bytes is meant.
    pub(crate) is_length: bool,
}

/// The reply itself.
pub(crate) const REPLY: Name = Name {
    part: Part::Reply,
    field: Field::Packet,
    kind: Kind::Reply,
    is_length: false,
};

/// The request's packet.
pub(crate) const ASKED: Name = Name {
    part: Part::Request,
    field: Field::Packet,
    kind: Kind::Packet,
    is_length: false,
};

/// The word that stands for the reply itself.
const REPLY_WORD: &str = "reply";

/// The fields by their names.
const FIELDS: [(&str, Field, Kind); 29] = [
    ("record", Field::Record, Kind::Number),
    ("time_ns", Field::Time, Kind::Number),
    ("packet_length", Field::PacketLength, Kind::Number),
    ("packet", Field::Packet, Kind::Packet),
    ("id", Field::Id, Kind::Number),
    ("path", Field::Path, Kind::Text),
    ("old_path", Field::OldPath, Kind::Text),
    ("new_path", Field::NewPath, Kind::Text),
    ("target", Field::Target, Kind::Text),
    ("handle", Field::Handle, Kind::Text),
    ("offset", Field::Offset, Kind::Number),
    ("length", Field::Length, Kind::Number),
    ("data", Field::Data, Kind::Text),
    ("flags", Field::Flags, Kind::Flags),
    ("flag_bits", Field::FlagBits, Kind::Number),
    ("name", Field::Name, Kind::Text),
    ("rest", Field::Rest, Kind::Text),
    ("attrs.size", Field::Size, Kind::Number),
    ("attrs.uid", Field::Uid, Kind::Number),
    ("attrs.gid", Field::Gid, Kind::Number),
    ("attrs.permissions", Field::Permissions, Kind::Number),
    ("attrs.access", Field::Access, Kind::Number),
    ("attrs.modification", Field::Modification, Kind::Number),
    ("code", Field::Code, Kind::Code),
    ("message", Field::Message, Kind::Text),
    ("language", Field::Language, Kind::Text),
    ("items", Field::Items, Kind::Number),
    ("took_ns", Field::Took, Kind::Number),
    ("overtook", Field::Overtook, Kind::Number),
];

/// The field that a word names, if it names one.
pub(crate) fn name_of(word: &str) -> Option<Name> {
    if word == REPLY_WORD {
        return Some(REPLY);
    }
    let (part, word) = parted(word);
    match named(part, word) {
        Some(name) => Some(name),
        None => length_named(part, word),
    }
}

/// Whose field a word means, and the word without that.
fn parted(word: &str) -> (Part, &str) {
    if let Some(rest) = word.strip_prefix("reply.") {
        return (Part::Reply, rest);
    }
    match word.strip_prefix("request.") {
        Some(rest) => (Part::Request, rest),
        None => (Part::Either, word),
    }
}

fn named(part: Part, word: &str) -> Option<Name> {
    for (name, field, kind) in FIELDS.as_slice() {
        if *name == word {
            return Some(Name {
                part,
                field: *field,
                kind: *kind,
                is_length: false,
            });
        }
    }
    None
}

/// The length of a text that a word names.
fn length_named(part: Part, word: &str) -> Option<Name> {
    let name = named(part, word.strip_suffix("_length")?)?;
    match name.kind {
        Kind::Text => Some(Name {
            kind: Kind::Number,
            is_length: true,
            ..name
        }),
        _ => None,
    }
}

/// The name of a field that is close to a word, if there is one.
pub(crate) fn close_to(word: &str) -> Option<&'static str> {
    let (_, word) = parted(word);
    if crate::words::is_close(word, REPLY_WORD) {
        return Some(REPLY_WORD);
    }
    for (name, _, _) in FIELDS.as_slice() {
        if is_meant(word, name) {
            return Some(*name);
        }
    }
    None
}

/// Whether a word may mean the field of this name: it is close to the name, or to what follows `attrs.` in it.
fn is_meant(word: &str, name: &str) -> bool {
    let short = name.strip_prefix("attrs.").unwrap_or(name);
    crate::words::is_close(word, name) || crate::words::is_close(word, short)
}
