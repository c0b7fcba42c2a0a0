//! What the server's VERSION announces (draft, section 4; OpenSSH's PROTOCOL, section 4).
ghost use Rattle.std.specs.Prelude.{◌≡◌, ◌&&◌, bytes_eq};
ghost use Rattle.std.specs.List.{list_any};
ghost use Rattle.sftp_client.specs.Announced.{is_named, named_in, announced_by, is_announced, may_be_sent};

use sftp_wire::{Ask, ByteString, KNOWN_EXTENSIONS, Packet, Pairs, extension_name};
use std::marker::Model;

/// The version of the protocol (draft, section 4).
pub(crate) const PROTOCOL_VERSION: u32 = 3;

/// Which of the known extensions a VERSION named.
#[derive(Drop)]
pub(crate) struct Announced {
    // the name of each, and whether VERSION named it
    extensions: [(&'static [u8], bool); KNOWN_EXTENSIONS.len()],
}

impl Model for Announced {
    ghost use Rattle.std.specs.Prelude.{map};
    ghost use Rattle.sftp_client.specs.Announced.{Announced};

    ghost Value = { Announced };

    ghost view = { λ a. map (λ extension. (extension.0.now, extension.1)) a.extensions };
}

/// Whether one of the extensions has this name.
fn is_named(name: &[u8], extensions: &[(ByteString, ByteString)]) -> bool
    ensures { result ≡ is_named name.now extensions.now }
{
    extensions
        .iter()
        .any(|extension| name == extension.0.as_slice())
}

/// Whether the extension of this name is among these, and marked.
fn is_marked(name: &[u8], extensions: &[(&'static [u8], bool)]) -> bool
    ensures { result ≡ list_any (λ extension. bytes_eq name.now extension.0.now && extension.1) extensions.now }
{
    extensions
        .iter()
        .any(|(known, is_marked)| name == *known && *is_marked)
}

/// Which of the known extensions are among these.
fn named_in(extensions: &Pairs) -> Announced
    ensures { result ≡ named_in extensions.now }
{
    let extensions = extensions.as_slice();
    Announced {
        extensions: KNOWN_EXTENSIONS.map(|name| (name, is_named(name, extensions))),
    }
}

/// What a packet announces, if it is a VERSION 3.
pub(crate) fn announced_by(packet: &Packet) -> Option<Announced>
    ensures { result ≡ announced_by packet.now }
{
    match packet {
        Packet::Version {
            version,
            extensions,
        } if *version == PROTOCOL_VERSION => Some(named_in(extensions)),
        Packet::Version { .. } | Packet::Init { .. } | Packet::Request(_) | Packet::Reply(_) =>
            None,
    }
}

impl Announced {
    /// Whether the extension of a name was announced.
    fn has(&self, name: &[u8]) -> bool
        ensures { result ≡ is_announced self.now name.now }
    {
        is_marked(name, &self.extensions)
    }

    /// Whether a request may be sent: an extension with a request of its own only if it was announced.
    pub(crate) fn may_be_sent(&self, ask: &Ask) -> bool
        ensures { result ≡ may_be_sent self.now ask.now }
    {
        match extension_name(ask) {
            Some(name) => self.has(name),
            None => true,
        }
    }
}
