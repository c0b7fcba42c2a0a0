//! The order of a set, from its file.
ghost use Rattle.std.specs.Prelude.{◌≡◌, map, IfOk, IfErr};
ghost use Rattle.std.specs.Bool.{Decides};
ghost use Rattle.sftp_gathering.specs.Files.{HasPlaces};
ghost use Rattle.sftp_gathering.specs.Gathered.{IsPlacesFault};

use crate::errors::PlacesError;
use sftp_orders::{Order, read_order};
use sftp_strings::ByteString;
use std::alloc::Global;

/// Reads the file of an order of the sessions that have these names: at each place the number of the session whose next
/// request comes there, from 0.
///
/// # Errors
///
/// - `Order` with the first fault of the bytes, or `NoMemory`.
/// - `OtherSessions` if it does not have exactly these names in this order.
pub fn read_places(alloc: Global, bytes: &[u8], names: &[&[u8]]) -> Result<Vec<u16>, PlacesError>
    ensures read { IfOk result
        (λ places. HasPlaces bytes.now (map (λ name. name.now) names.now) places.items) }
    ensures refused { IfErr result (IsPlacesFault bytes.now (map (λ name. name.now) names.now)) }
{
    match read_order(alloc, bytes) {
        Ok(
            Order {
                names: found,
                places,
            },
        ) => {
            let are_same = are_same(found.as_slice(), names);
            drop(found);
            if are_same {
                return Ok(places);
            }
            drop(places);
            Err(PlacesError::OtherSessions)
        }
        Err(error) => Err(PlacesError::Order(error)),
    }
}

/// Whether two lists of names are the same.
fn are_same(found: &[ByteString], names: &[&[u8]]) -> bool
    ensures { Decides result (found.now ≡ map (λ name. name.now) names.now) }
{
    if found.len() != names.len() {
        return false;
    }
    'names: for (place, name) in found.iter().enumerate() {
        if name.as_slice() != names[place] {
            return false;
        }
    }
    true
}
