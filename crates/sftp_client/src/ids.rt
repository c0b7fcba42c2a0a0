//! The ids of requests, which count up from 0 (draft, section 6).
ghost use Rattle.std.specs.Prelude.{◌<◌, ◌^◌, length};
ghost use Rattle.sftp_client.specs.Client.{IsFirstFree};

use indexmap::IndexMap;
use sftp_wire::Ask;

/// The first id from `next` on, modulo 2^32, that none of the open requests has.
pub(crate) fn first_free(requests: &IndexMap<u32, Ask>, next: u32) -> u32
    requires { length requests.now.entries < 2 ^ 32 }
    ensures { IsFirstFree requests.now.entries next result }
{
    let mut skipped: u32 = 0;
    while requests.contains_key(&next.wrapping_add(skipped)) {
        skipped += 1;
    }
    next.wrapping_add(skipped)
}
