//! Owners, as attributes change them.
ghost use Rattle.std.specs.Prelude.{◌≡◌};
ghost use Rattle.sftp_treefile.specs.TreeFile.{IsOwner};
ghost use Rattle.sftp_tree.specs.Attributes as spec;

use sftp_packets::Attrs;
use sftp_treefile::Owner;

/// Permissions have twelve bits.
const PERMISSION_BITS: u32 = 0o7777;

/// The owner of an existing entry after attributes are set: what they give, and otherwise unchanged. Of the permissions
/// given the low twelve bits count.
pub(crate) fn changed_owner(attrs: &Attrs, owner: Owner) -> Owner
    requires { IsOwner owner }
    ensures owner { result ≡ spec.changed_owner attrs.now owner }
    ensures fits { IsOwner result }
{
    let (uid, gid) = attrs.owner.unwrap_or((owner.uid, owner.gid));
    let permissions = match attrs.permissions {
        Some(permissions) => permissions & PERMISSION_BITS,
        None => owner.permissions,
    };
    Owner {
        uid,
        gid,
        permissions,
    }
}
