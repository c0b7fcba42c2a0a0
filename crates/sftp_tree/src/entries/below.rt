//! Whether a place is below another.
ghost use Rattle.std.specs.Prelude.{◌≡◌};
ghost use Rattle.sftp_path.specs.Place as places;

use sftp_path::Place;

/// Whether the second place is below the first.
pub(crate) fn is_below(place: &Place, other: &Place) -> bool
    ensures { result ≡ places.is_below place.now other.now }
{
    other.starts_with(place) && place.depth() < other.depth()
}
