//! Attributes that a reply gives, beside those of what it shows.
ghost use Rattle.std.specs.Prelude.{◌≡◌};
ghost use Rattle.sftp_listing.specs.Left as spec;

use sftp_packets::Attrs;

/// Whether the attributes have the size, the owner and the permissions of those shown. The rest is free.
pub fn same_attributes(shown: &Attrs, attrs: &Attrs) -> bool
    ensures { result ≡ spec.same_attributes shown.now attrs.now }
{
    same_sizes(shown.size, attrs.size)
        && same_owners(shown.owner, attrs.owner)
        && same_permissions(shown.permissions, attrs.permissions)
}

fn same_sizes(shown: Option<u64>, size: Option<u64>) -> bool
    ensures { result ≡ spec.same_number shown size }
{
    match (shown, size) {
        (Some(shown), Some(size)) => shown == size,
        _ => false,
    }
}

fn same_owners(shown: Option<(u32, u32)>, owner: Option<(u32, u32)>) -> bool
    ensures { result ≡ spec.same_numbers shown owner }
{
    match (shown, owner) {
        (Some(shown), Some(owner)) => shown.0 == owner.0 && shown.1 == owner.1,
        _ => false,
    }
}

fn same_permissions(shown: Option<u32>, permissions: Option<u32>) -> bool
    ensures { result ≡ spec.same_number shown permissions }
{
    match (shown, permissions) {
        (Some(shown), Some(permissions)) => shown == permissions,
        _ => false,
    }
}
