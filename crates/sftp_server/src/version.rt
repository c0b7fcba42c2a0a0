//! The server's VERSION (draft, section 4).
ghost use Rattle.std.specs.Prelude.{◌≡◌, ◌∷◌, [], ◌++◌, codes, map, IfOk, IfErr, OnOk};
ghost use Rattle.sftp_server.specs.declared.ends.Stop.TheVariants as stops;
ghost use Rattle.sftp_server.specs.Served.{our_version};

use crate::ends::Stop;
use sftp_wire::{ByteString, KNOWN_EXTENSIONS, Packet, Pairs};
use std::alloc::Global;

/// The version of the protocol.
const VERSION: u32 = 3;

/// The version of each extension (OpenSSH's PROTOCOL, section 4).
const EXTENSION_VERSION: &[u8] = b"1";

/// The server's VERSION.
pub(crate) fn our_version(alloc: Global) -> Result<Packet, Stop>
    ensures ok { IfOk result (λ packet. packet ≡ our_version) }
    ensures err { IfErr result (λ stop. stop ≡ stops.NoMemory) }
{
    Ok(Packet::Version {
        version: VERSION,
        extensions: Pairs::new(extensions_of(alloc, &KNOWN_EXTENSIONS)?),
    })
}

/// The extensions of these names.
fn extensions_of(alloc: Global, names: &[&[u8]]) -> Result<Vec<(ByteString, ByteString)>, Stop>
    ensures ok { IfOk result (λ extensions. extensions.items ≡ map (λ name. (name.now, codes "1")) names.now) }
    ensures err { IfErr result (λ stop. stop ≡ stops.NoMemory) }
{
    let mut extensions = Vec::new(alloc);
    for name in names {
        push_extension(alloc, &mut extensions, name)?;
    }
    Ok(extensions)
}

/// Adds the extension of this name.
fn push_extension(
    alloc: Global,
    extensions: &mut Vec<(ByteString, ByteString)>,
    name: &[u8],
) -> Result<(), Stop>
    ensures ok { OnOk result (extensions.new.items ≡ extensions.old.items ++ (name.now, codes "1") ∷ []) }
    ensures err { IfErr result (λ stop. stop ≡ stops.NoMemory) }
{
    let name = ByteString::from_slice(alloc, name)?;
    let version = ByteString::from_slice(alloc, EXTENSION_VERSION)?;
    extensions.push((name, version))?;
    Ok(())
}
