//! Files of times, on the clock of a set.
ghost use Rattle.std.specs.Prelude.{◌≡◌, IfOk, IfErr};
ghost use Rattle.std.specs.Bool.{Decides};
ghost use Rattle.sftp_gathering.specs.Files.{clock_of, start_of};
ghost use Rattle.sftp_gathering.specs.Gathered.{IsOnClock, IsReadOn, IsTimesFault};

use crate::clock::SetClock;
use crate::errors::MemberError;
use sftp_sets::RecordTimes;
use sftp_times::{Beginning, Times, read_times};
use std::alloc::Global;

/// The times of a session, and the clock that they are on.
#[derive(Drop)]
pub(crate) struct TimesOnClock {
    pub(crate) clock: SetClock,
    pub(crate) times: RecordTimes,
}

/// The clock of a file of times that begins so.
fn clock_of(beginning: &Beginning) -> SetClock
    ensures { result ≡ clock_of beginning.now.boot }
{
    match &beginning.boot {
        None => SetClock::Dates,
        Some(boot) => SetClock::SinceBoot {
            high: boot.high,
            low: boot.low,
        },
    }
}

/// When the session started, on the clock of a file of times that begins so.
fn start_of(beginning: &Beginning) -> u64
    ensures { result ≡ start_of beginning.now }
{
    match &beginning.boot {
        None => beginning.date,
        Some(boot) => boot.zero,
    }
}

/// Whether a clock is that of the sessions so far, if there are any.
fn is_on_clock(so_far: Option<SetClock>, clock: SetClock) -> bool
    ensures { Decides result (IsOnClock so_far clock) }
{
    match so_far {
        None => true,
        Some(so_far) => so_far == clock,
    }
}

/// Reads a file of times, on the clock of the sessions so far.
///
/// # Errors
///
/// - `Times` with the first fault of the bytes, or `NoMemory`.
/// - `OtherClock` if they are on another clock.
pub(crate) fn read_on_clock(
    alloc: Global,
    so_far: Option<SetClock>,
    bytes: &[u8],
) -> Result<TimesOnClock, MemberError>
    ensures read { IfOk result (IsReadOn so_far bytes.now) }
    ensures refused { IfErr result (IsTimesFault so_far bytes.now) }
{
    match read_times(alloc, bytes) {
        Ok(Times { beginning, entries }) => {
            let clock = clock_of(&beginning);
            if !is_on_clock(so_far, clock) {
                drop(entries);
                return Err(MemberError::OtherClock);
            }
            let start = start_of(&beginning);
            Ok(TimesOnClock {
                clock,
                times: RecordTimes { start, entries },
            })
        }
        Err(error) => Err(MemberError::Times(error)),
    }
}
