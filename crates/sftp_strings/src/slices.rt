//! Numbers and strings in front of a slice (draft, section 3).
ghost use Rattle.std.specs.Prelude.{◌≡◌, List, ℕ, ◌++◌, ◌<◌, ◌≤◌, ◌^◌, length, IfSome, IfNone};
ghost use Rattle.sftp_strings.specs.Strings.{uint32, string};

use byteorder::{BigEndian, ByteOrder};

/// The uint32 in front of a slice, and what follows it. `None` where the slice has fewer than four bytes.
pub fn take_number(bytes: &[u8]) -> Option<(u32, &[u8])>
    ensures found { IfSome result (λ taken. bytes.now ≡ uint32 taken.0 ++ taken.1.now) }
    ensures none { IfNone result (length bytes.now < 4) }
{
    let (front, rest) = bytes.split_at_checked(4)?;
    Some((BigEndian::read_u32(front), rest))
}

/// The bytes of the string in front of a slice, and what follows it. `None` where no whole string is in
/// front.
pub fn take_string(bytes: &[u8]) -> Option<(&[u8], &[u8])>
    ensures found { IfSome result (λ taken. bytes.now ≡ string taken.0.now ++ taken.1.now) }
    ensures length_fits { IfSome result (λ taken. length taken.0.now < 2 ^ 32) }
    ensures none { IfNone result ((text rest : List ℕ) → length text < 2 ^ 32 → bytes.now ≡ string text ++ rest → ⊥) }
{
    let (length, rest) = take_number(bytes)?;
    rest.split_at_checked(length as usize)
}
