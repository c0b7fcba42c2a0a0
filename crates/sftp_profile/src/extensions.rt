//! Extensions that only look (OpenSSH's PROTOCOL, section 4): what they answer is free.
ghost use Rattle.std.specs.Prelude.{◌≡◌};
ghost use Rattle.sftp_profile.specs.BytesRead as spec;

use sftp_wire::{Answer, Ask};

/// Whether the request is an extension that only looks, and may have this answer.
pub(crate) fn is_looked_at(ask: &Ask, answer: &Answer) -> bool
    ensures { result ≡ spec.is_looked_at ask.now answer.now }
{
    match ask {
        Ask::Unknown { name, .. } => is_look(name.as_slice(), answer),
        _ => false,
    }
}

/// Whether the request is an extension that is not known.
pub(crate) fn is_unknown(ask: &Ask) -> bool
    ensures { result ≡ spec.is_unknown ask.now }
{
    match ask {
        Ask::Unknown { .. } => true,
        _ => false,
    }
}

/// Whether the request is an extension that only looks.
pub(crate) fn only_looks(ask: &Ask) -> bool
    ensures { result ≡ spec.only_looks ask.now }
{
    match ask {
        Ask::Unknown { name, .. } => {
            let name = name.as_slice();
            is_limits(name) || is_statvfs(name) || is_users_groups(name) || is_path_query(name)
        }
        _ => false,
    }
}

/// Whether the extension of this name may have this answer.
fn is_look(name: &[u8], answer: &Answer) -> bool
    ensures { result ≡ spec.is_look name.now answer.now }
{
    match answer {
        Answer::Extended(data) => carries(name, data.as_slice()),
        Answer::Name(names) => is_path_query(name) && names.as_slice().len() == 1,
        _ => false,
    }
}

/// Whether the reply to the extension of this name may carry this content.
fn carries(name: &[u8], content: &[u8]) -> bool
    ensures { result ≡ spec.carries name.now content.now }
{
    (is_limits(name) && content.len() == 32)
        || (is_statvfs(name) && content.len() == 88)
        || is_users_groups(name)
}

fn is_limits(name: &[u8]) -> bool
    ensures { result ≡ spec.is_limits name.now }
{
    name == b"limits@openssh.com".as_slice()
}

fn is_statvfs(name: &[u8]) -> bool
    ensures { result ≡ spec.is_statvfs name.now }
{
    name == b"statvfs@openssh.com".as_slice() || name == b"fstatvfs@openssh.com".as_slice()
}

fn is_users_groups(name: &[u8]) -> bool
    ensures { result ≡ spec.is_users_groups name.now }
{
    name == b"users-groups-by-id@openssh.com".as_slice()
}

fn is_path_query(name: &[u8]) -> bool
    ensures { result ≡ spec.is_path_query name.now }
{
    name == b"expand-path@openssh.com".as_slice() || name == b"home-directory".as_slice()
}
