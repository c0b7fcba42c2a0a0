//! Whole files of times.
ghost use Rattle.std.specs.Prelude.{◌≡◌, ◌++◌, [], OnOk};
ghost use Rattle.sftp_times.specs.Times.{Gives, GivesTimes, entries_in, entries_text, spelled, times_at};

use crate::entries::{
    Beginning, ENTRY, beginning_length, behind, put_beginning, put_entry, read_beginning,
    read_entry,
};
use crate::errors::TimesError;
use std::alloc::{AllocError, Global};

/// The times of a session.
#[derive(Debug, Drop)]
pub struct Times {
    /// What comes before the entries: when the session started.
    pub beginning: Beginning,
    /// When each record was there: nanoseconds from the start on, none less than the one before.
    pub entries: Vec<u64>,
}

/// Reads a file of times.
///
/// # Errors
///
/// The first fault of the bytes, or `NoMemory`.
pub fn read_times(alloc: Global, bytes: &[u8]) -> Result<Times, TimesError>
    ensures { GivesTimes result (times_at bytes.now) }
{
    let beginning = read_beginning(bytes)?;
    let mut entries = Vec::new(alloc);
    match read_entries(behind(beginning_length(bytes), bytes), &mut entries) {
        Ok(()) => Ok(Times { beginning, entries }),
        Err(error) => {
            drop(entries);
            Err(error)
        }
    }
}

/// Appends the times of entries to none.
#[tactic(auto, using(crate::proofs::Reading::start_kept, crate::proofs::Reading::next_kept, crate::proofs::Reading::end_kept, crate::proofs::Reading::fault_gives))]
fn read_entries(bytes: &[u8], entries: &mut Vec<u64>) -> Result<(), TimesError>
    requires { entries.old.items ≡ [] }
    ensures { Gives result entries.new.items (entries_in 1 0 bytes.now) }
{
    let mut rest = bytes;
    let mut last: u64 = 0;
    'entries: while !rest.is_empty() {
        let time = read_entry(entries.len() as u64 + 1, last, rest)?;
        entries.push(time)?;
        rest = behind(ENTRY, rest);
        last = time;
    }
    Ok(())
}

/// Appends the bytes of a file of times.
///
/// # Errors
///
/// `AllocError` if memory runs out.
pub fn write_times(times: &Times, bytes: &mut Vec<u8>) -> Result<(), AllocError>
    ensures { OnOk result (bytes.new.items ≡ bytes.old.items ++ spelled times.now.beginning times.now.entries.items) }
{
    put_beginning(&times.beginning, bytes)?;
    put_entries(times.entries.as_slice(), bytes)
}

/// Appends entries.
fn put_entries(times: &[u64], bytes: &mut Vec<u8>) -> Result<(), AllocError>
    ensures { OnOk result (bytes.new.items ≡ bytes.old.items ++ entries_text times.now) }
{
    'entries: for time in times {
        put_entry(*time, bytes)?;
    }
    Ok(())
}
