//! What is in front of the bytes of an order: a number, a string, the name of a session, and a place.
ghost use Rattle.std.specs.Prelude.{◌≡◌, drop};
ghost use Rattle.std.specs.Option.{option_map};
ghost use Rattle.std.specs.Result.{result_map_both};
ghost use Rattle.sftp_orders.specs.Orders.{number_at, string_at, may_follow, name_at, place_at, placed};

use crate::errors::OrderError;
use bytes::Buf;
use std::cmp::Ordering;

/// How many bytes a place has: the number of a session, and that of a part.
pub(crate) const PLACE: usize = 4;

/// The number in front, and what follows it.
pub(crate) fn number_at(bytes: &[u8]) -> Option<(u32, &[u8])>
    ensures { option_map (λ found. (found.0, found.1.now)) result ≡ number_at bytes.now }
{
    let mut rest = bytes;
    match rest.try_get_u32() {
        Ok(number) => Some((number, rest)),
        Err(_) => None,
    }
}

/// The string in front, and what follows it.
fn string_at(bytes: &[u8]) -> Option<(&[u8], &[u8])>
    ensures { option_map (λ found. (found.0.now, found.1.now)) result ≡ string_at bytes.now }
{
    let (size, rest) = number_at(bytes)?;
    rest.split_at_checked(size as usize)
}

/// Whether a name may follow the one before it.
fn may_follow(last: Option<&[u8]>, name: &[u8]) -> bool
    ensures { result ≡ may_follow (option_map (λ text. text.now) last.entry) name.now }
{
    match last {
        None => true,
        Some(last) => match last.cmp(name) {
            Ordering::Less => true,
            Ordering::Equal => false,
            Ordering::Greater => false,
        },
    }
}

/// The place with this number in front, where so many sessions are.
pub(crate) fn place_at(count: u32, number: u64, bytes: &[u8]) -> Result<u16, OrderError>
    ensures { result ≡ place_at count number bytes.now }
{
    if bytes.len() < PLACE {
        return Err(OrderError::Truncated { place: number });
    }
    let mut rest = bytes;
    let session = rest.get_u16();
    let part = rest.get_u16();
    placed(count, number, session, part)
}

/// What a place with this number says.
fn placed(count: u32, number: u64, session: u16, part: u16) -> Result<u16, OrderError>
    ensures { result ≡ placed count number session part }
{
    if part != 0 {
        return Err(OrderError::Part { place: number });
    }
    if u32::from(session) < count {
        Ok(session)
    } else {
        Err(OrderError::Session { place: number })
    }
}

/// The name of this number in front, behind another one, and what follows it.
pub(crate) fn name_at<'a>(
    number: u64,
    last: Option<&[u8]>,
    bytes: &'a [u8],
) -> Result<(&'a [u8], &'a [u8]), OrderError>
    ensures { result_map_both (λ found. (found.0.now, found.1.now)) (λ error. error) result
        ≡ name_at number (option_map (λ text. text.now) last.entry) bytes.now }
{
    match string_at(bytes) {
        None => Err(OrderError::Truncated { place: 0 }),
        Some((name, rest)) => {
            if may_follow(last, name) {
                Ok((name, rest))
            } else {
                Err(OrderError::Name { number })
            }
        }
    }
}
