//! The clock of a set.

/// The clock that the times of a session are on. Times on two clocks cannot be compared.
#[derive(Clone, Copy, Debug, PartialEq, Eq)]
pub enum SetClock {
    /// Dates, as the machine had them: nanoseconds from 1970 on.
    Dates,
    /// The clock of a machine from one boot on. The two numbers are the halves of the boot's identity.
    SinceBoot { high: u64, low: u64 },
}
