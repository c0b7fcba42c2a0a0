//! Where the bytes that a READ or a WRITE names end (draft, section 6.4).
ghost use Rattle.std.specs.Prelude.{◌≡◌, ◌+◌, nat_le};

/// Whether so many bytes from an offset on end at `most` or before it, also where the offset after them has more than
/// 64 bits.
pub fn ends_within(offset: u64, count: u64, most: u64) -> bool
    ensures { result ≡ nat_le (offset + count) most }
{
    offset <= most && count <= most - offset
}
