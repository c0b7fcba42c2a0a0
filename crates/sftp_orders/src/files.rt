//! Whole files of orders.
ghost use Rattle.std.specs.Prelude.{◌≡◌, [], drop, None};
ghost use Rattle.std.specs.Result.{result_map_both};
ghost use Rattle.sftp_orders.specs.Orders.{GivesNames, GivesPlaces, GivesOrder, names_in, places_in, order_at};
ghost use Rattle.sftp_orders.specs.Orders.{number_at, after_count, after_names, after_piece, with_places};

use crate::errors::OrderError;
use crate::fronts::{PLACE, name_at, number_at, place_at};
use sftp_strings::ByteString;
use std::alloc::Global;

/// What a file of an order begins with.
const OPENING: &[u8; 8] = b"SFTPOR01";

/// An order of the requests of several sessions: of whole requests, each of which has one place.
#[derive(Debug, Drop)]
pub struct Order {
    /// The names of the sessions, each greater than the one before; their positions are the numbers of the sessions.
    pub names: Vec<ByteString>,
    /// At each place the number of the session, from 0 on, whose next request comes there. There is a session of each.
    pub places: Vec<u16>,
}

/// Reads a file of an order. How many bytes it says that a piece of a READ has is passed over, since no request of it
/// is in pieces.
///
/// # Errors
///
/// The first fault of the bytes, or `NoMemory`.
pub fn read_order(alloc: Global, bytes: &[u8]) -> Result<Order, OrderError>
    ensures { GivesOrder result (order_at bytes.now) }
{
    match bytes.strip_prefix(OPENING) {
        Some(rest) => read_after_opening(alloc, rest),
        None => Err(OrderError::Magic),
    }
}

/// Reads what follows the opening.
fn read_after_opening(alloc: Global, bytes: &[u8]) -> Result<Order, OrderError>
    ensures { GivesOrder result (after_count (number_at bytes.now)) }
{
    match number_at(bytes) {
        Some((count, rest)) => read_after_count(alloc, count, rest),
        None => Err(OrderError::Truncated { place: 0 }),
    }
}

/// Reads what follows the number of the sessions.
fn read_after_count(alloc: Global, count: u32, bytes: &[u8]) -> Result<Order, OrderError>
    ensures { GivesOrder result (after_names count (names_in count 1 None bytes.now)) }
{
    let mut names = Vec::new(alloc);
    match read_names(alloc, count, bytes, &mut names) {
        Ok(rest) => read_after_names(alloc, count, names, rest),
        Err(error) => {
            drop(names);
            Err(error)
        }
    }
}

/// Reads what follows the names.
fn read_after_names(
    alloc: Global,
    count: u32,
    names: Vec<ByteString>,
    bytes: &[u8],
) -> Result<Order, OrderError>
    ensures { GivesOrder result (after_piece count names.items (number_at bytes.now)) }
{
    match number_at(bytes) {
        Some((_, rest)) => read_places_of(alloc, count, names, rest),
        None => {
            drop(names);
            Err(OrderError::Truncated { place: 0 })
        }
    }
}

/// Reads the places of sessions that have these names.
fn read_places_of(
    alloc: Global,
    count: u32,
    names: Vec<ByteString>,
    bytes: &[u8],
) -> Result<Order, OrderError>
    ensures { GivesOrder result (with_places names.items (places_in count 1 bytes.now)) }
{
    let mut places = Vec::new(alloc);
    match read_places(count, bytes, &mut places) {
        Ok(()) => Ok(Order { names, places }),
        Err(error) => {
            drop(names);
            drop(places);
            Err(error)
        }
    }
}

/// Appends so many names to none, and returns what follows them.
#[tactic(auto, using(crate::proofs::Reading::names_start, crate::proofs::Reading::names_kept, crate::proofs::Reading::names_end, crate::proofs::Reading::names_fault))]
fn read_names<'a>(
    alloc: Global,
    count: u32,
    bytes: &'a [u8],
    names: &mut Vec<ByteString>,
) -> Result<&'a [u8], OrderError>
    requires { names.old.items ≡ [] }
    ensures { GivesNames (result_map_both (λ rest. rest.now) (λ error. error) result) names.new.items
        (names_in count 1 None bytes.now) }
{
    let mut rest = bytes;
    let mut left = count;
    let mut last: Option<&[u8]> = None;
    'names: while left > 0 {
        let (name, behind) = name_at(names.len() as u64 + 1, last, rest)?;
        names.push(ByteString::new(Vec::from_slice(alloc, name)?))?;
        last = Some(name);
        rest = behind;
        left -= 1;
    }
    Ok(rest)
}

/// Appends the places to none.
#[tactic(auto, using(crate::proofs::Reading::places_start, crate::proofs::Reading::places_kept, crate::proofs::Reading::places_end, crate::proofs::Reading::places_fault))]
fn read_places(count: u32, bytes: &[u8], places: &mut Vec<u16>) -> Result<(), OrderError>
    requires { places.old.items ≡ [] }
    ensures { GivesPlaces result places.new.items (places_in count 1 bytes.now) }
{
    let mut rest = bytes;
    'places: while !rest.is_empty() {
        let session = place_at(count, places.len() as u64 + 1, rest)?;
        places.push(session)?;
        rest = behind_place(rest);
    }
    Ok(())
}

/// What follows the first place.
fn behind_place(bytes: &[u8]) -> &[u8]
    ensures { result.now ≡ drop 4 bytes.now }
{
    bytes.get(PLACE..).unwrap_or(&[])
}
