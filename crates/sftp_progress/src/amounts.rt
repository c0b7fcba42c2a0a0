//! Numbers of bytes for people.
ghost use Rattle.std.specs.Prelude.{◌≤◌};

use std::fmt;

/// A number of bytes in the largest unit of which there are ten thousand or more of the one below.
#[derive(Clone, Copy)]
pub(crate) struct Amount(pub(crate) u64);

impl Amount {
    fn scaled(self) -> (u64, &'static str) {
        match self.0 {
            0..=9_999 => (self.0, "bytes"),
            10_000..=9_999_999 => (self.0 / 1_000, "KB"),
            10_000_000..=9_999_999_999 => (self.0 / 1_000_000, "MB"),
            10_000_000_000..=9_999_999_999_999 => (self.0 / 1_000_000_000, "GB"),
            _ => (self.0 / 1_000_000_000_000, "TB"),
        }
    }
}

impl fmt::Display for Amount {
    fn fmt<W: fmt::Write>(&self, f: &mut fmt::Formatter<W>) -> fmt::Result {
        let (number, unit) = self.scaled();
        write!(f, "{number} {unit}")
    }
}

/// The hundredths of a total that so many bytes are.
pub(crate) fn percent(bytes: u64, total: u64) -> u64
    ensures { result ≤ 100 }
{
    bytes
        .saturating_mul(100)
        .checked_div(total)
        .unwrap_or(100)
        .min(100)
}
