//! What a profile takes a request for, where it is not allowed itself.
ghost use Rattle.std.specs.Prelude.{◌≡◌, IsTrue, IfOk, OnErr};
ghost use Rattle.std.specs.Option.{option_map};
ghost use Rattle.sftp_packets.specs.declared.requests.Ask.TheVariants as asks;
ghost use Rattle.sftp_profile.specs.Interpretations as spec;

use crate::copies::copied_as;
use crate::flags::{empties, mended_flags};
use crate::paths::is_loose;
use crate::profiles::Profile;
use crate::settings::set_as;
use sftp_handles::{GivenTable, Session};
use sftp_tree::{NoMemory, Refused, Tree};
use sftp_wire::{Ask, Attrs, ByteString};

/// The request that the profile takes this one for, where it is not allowed itself; `None` if it takes it for no other.
///
/// # Errors
///
/// `NoMemory` if memory runs out.
pub(crate) fn asked(
    profile: Profile,
    session: &Session<GivenTable>,
    ask: &Ask,
) -> Result<Option<Ask>, NoMemory>
    ensures { IfOk result (λ other. other ≡ spec.asked profile session.now ask.now) }
{
    match ask {
        Ask::Lstat { path } => asked_lstat(profile, session, path),
        Ask::Open {
            path,
            pflags,
            attrs,
        } => asked_open(profile, session, path, *pflags, attrs),
        Ask::Hardlink { oldpath, newpath } => asked_hardlink(profile, session, oldpath, newpath),
        Ask::Unknown { .. } => asked_extension(profile, session, ask),
        _ => Ok(None),
    }
}

/// What an extension is taken for.
///
/// # Errors
///
/// `NoMemory` if memory runs out.
fn asked_extension(
    profile: Profile,
    session: &Session<GivenTable>,
    ask: &Ask,
) -> Result<Option<Ask>, NoMemory>
    ensures { IfOk result (λ other. other ≡ spec.asked_extension profile session.now ask.now) }
{
    if profile.lsetstat
        && let Some(setstat) = set_as(profile, session, ask)?
    {
        return Ok(Some(setstat));
    }
    if !profile.copy_data {
        return Ok(None);
    }
    copied_as(session, ask)
}

/// An LSTAT of a path that ends loosely is a STAT.
///
/// # Errors
///
/// `NoMemory` if memory runs out.
fn asked_lstat(
    profile: Profile,
    session: &Session<GivenTable>,
    path: &ByteString,
) -> Result<Option<Ask>, NoMemory>
    ensures { IfOk result (λ other. other ≡ spec.asked profile session.now (asks.Lstat path.now)) }
{
    if !profile.slash || !is_loose(path.as_slice()) {
        return Ok(None);
    }
    let path = path.clone()?;
    Ok(Some(Ask::Stat { path }))
}

/// OPEN with the flags that a file system goes by.
///
/// # Errors
///
/// `NoMemory` if memory runs out.
fn asked_open(
    profile: Profile,
    session: &Session<GivenTable>,
    path: &ByteString,
    pflags: u32,
    attrs: &Attrs,
) -> Result<Option<Ask>, NoMemory>
    ensures { IfOk result (λ other. other ≡ spec.asked profile session.now (asks.Open path.now pflags attrs.now)) }
{
    if !profile.flags {
        return Ok(None);
    }
    let path = path.clone()?;
    let attrs = attrs.clone()?;
    Ok(Some(Ask::Open {
        path,
        pflags: mended_flags(pflags),
        attrs,
    }))
}

/// A hardlink of a link is a SYMLINK with its target.
///
/// # Errors
///
/// `NoMemory` if memory runs out.
fn asked_hardlink(
    profile: Profile,
    session: &Session<GivenTable>,
    oldpath: &ByteString,
    newpath: &ByteString,
) -> Result<Option<Ask>, NoMemory>
    ensures { IfOk result
        (λ other. other ≡ spec.asked profile session.now (asks.Hardlink oldpath.now newpath.now)) }
{
    if !profile.hardlink_link {
        return Ok(None);
    }
    let Some(target) = link_at(session.tree(), oldpath.as_slice())? else {
        return Ok(None);
    };
    let linkpath = newpath.clone()?;
    Ok(Some(Ask::Symlink {
        targetpath: ByteString::new(target),
        linkpath,
    }))
}

/// The target of the link at a path; `None` if READLINK of the path is refused.
///
/// # Errors
///
/// `NoMemory` if memory runs out.
fn link_at(tree: &Tree, path: &[u8]) -> Result<Option<Vec<u8>>, NoMemory>
    ensures { IfOk result
        (λ target. option_map (λ t. t.items) target ≡ spec.link_at tree.now path.now) }
{
    match tree.read_link(path) {
        Ok(target) => Ok(Some(target)),
        Err(Refused::Cause(_)) => Ok(None),
        Err(Refused::NoMemory) => Err(NoMemory),
    }
}

/// The SETSTAT that comes with an OPEN which empties a file, unless it both makes and writes it.
///
/// # Errors
///
/// `NoMemory` if memory runs out.
pub(crate) fn followed(profile: Profile, ask: &Ask) -> Result<Option<Ask>, NoMemory>
    ensures follows { IfOk result (λ other. other ≡ spec.followed profile ask.now) }
    ensures flags { OnErr result (IsTrue profile.flags) }
{
    match ask {
        Ask::Open { path, pflags, .. } => {
            if !profile.flags || !empties(*pflags) {
                return Ok(None);
            }
            let path = path.clone()?;
            Ok(Some(Ask::Setstat {
                path,
                attrs: emptied(),
            }))
        }
        _ => Ok(None),
    }
}

/// Attributes of a file without bytes.
fn emptied() -> Attrs
    ensures { result ≡ spec.emptied }
{
    Attrs {
        size: Some(0),
        owner: None,
        permissions: None,
        times: None,
        extended: None,
    }
}
