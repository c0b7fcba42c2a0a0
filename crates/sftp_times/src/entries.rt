//! The parts of a file of times: its beginning, and each entry.
ghost use Rattle.std.specs.Prelude.{◌≡◌, ◌≤◌, ◌+◌, ◌++◌, length, drop, OnOk};
ghost use Rattle.std.specs.Int.{w64, to_be_bytes};
ghost use Rattle.sftp_times.specs.Times.{entry_at, beginning, beginning_at, beginning_length, dated_at};
ghost use Rattle.sftp_times.specs.Times.{booted_at, dated, booted, number_from};

use crate::errors::TimesError;
use bytes::{Buf, BufMut};
use std::alloc::AllocError;

/// What a file of times begins with whose times are not those of the machine's clock.
const OPENING: &[u8; 8] = b"SFTPTM01";

/// What a file of times begins with whose start is on the clock of a boot.
const BOOT_OPENING: &[u8; 8] = b"SFTPTM02";

/// How many bytes each of the two openings has.
pub const OPENING_LENGTH: usize = 8;

/// How many bytes come before the first entry: the opening and the date.
const BEGINNING: usize = 16;

/// The same where the start is on the clock of a boot: the opening, the boot, the date and the start.
const BOOT_BEGINNING: usize = 40;

/// How many bytes an entry has.
pub const ENTRY: usize = 8;

/// The clock of a machine from one boot on, and when a session started by it.
#[derive(Clone, Copy, Debug, PartialEq, Eq)]
pub struct Boot {
    /// The first eight bytes of the boot's identity, as a number whose most significant byte comes first.
    pub high: u64,
    /// The other eight.
    pub low: u64,
    /// When the session started: nanoseconds from the boot on.
    pub zero: u64,
}

/// What comes before the entries.
#[derive(Clone, Copy, Debug, PartialEq, Eq)]
pub struct Beginning {
    /// The date of the start: nanoseconds from 1970 on.
    pub date: u64,
    /// The start on the clock of a boot, in a file of the second form.
    pub boot: Option<Boot>,
}

/// How many bytes come before the first entry in a file that begins with these: 40 after the opening of the second
/// form, and else 16.
pub fn beginning_length(bytes: &[u8]) -> usize
    ensures { result ≡ beginning_length bytes.now }
{
    match bytes.strip_prefix(BOOT_OPENING) {
        Some(_) => BOOT_BEGINNING,
        None => BEGINNING,
    }
}

/// Reads the beginning of a file of times.
///
/// # Errors
///
/// `Magic` if the bytes do not begin with one of the two openings and all that comes before the entries.
pub fn read_beginning(bytes: &[u8]) -> Result<Beginning, TimesError>
    ensures { result ≡ beginning_at bytes.now }
{
    if let Some(rest) = bytes.strip_prefix(OPENING) {
        return read_dated(rest);
    }
    match bytes.strip_prefix(BOOT_OPENING) {
        Some(rest) => read_booted(rest),
        None => Err(TimesError::Magic),
    }
}

/// Reads what follows the opening of the first form.
fn read_dated(rest: &[u8]) -> Result<Beginning, TimesError>
    ensures { result ≡ dated_at rest.now }
{
    let mut rest = rest;
    match rest.try_get_u64() {
        Ok(date) => Ok(Beginning { date, boot: None }),
        Err(_) => Err(TimesError::Magic),
    }
}

/// Reads what follows the opening of the second form.
fn read_booted(rest: &[u8]) -> Result<Beginning, TimesError>
    ensures { result ≡ booted_at rest.now }
{
    if rest.len() < BOOT_BEGINNING - OPENING_LENGTH {
        return Err(TimesError::Magic);
    }
    Ok(Beginning {
        date: number_from(16, rest),
        boot: Some(Boot {
            high: number_from(0, rest),
            low: number_from(8, rest),
            zero: number_from(24, rest),
        }),
    })
}

/// The number of eight bytes from a place on.
fn number_from(place: usize, bytes: &[u8]) -> u64
    requires { place + 8 ≤ length bytes.now }
    ensures { result ≡ number_from place bytes.now }
{
    let mut rest = behind(place, bytes);
    rest.get_u64()
}

/// What follows so many bytes; nothing if there are fewer.
pub(crate) fn behind(count: usize, bytes: &[u8]) -> &[u8]
    ensures { result.now ≡ drop count bytes.now }
{
    bytes.get(count..).unwrap_or(&[])
}

/// Reads the entry with this number from the bytes that begin with it: nanoseconds from the start on, and no less than
/// those of the entry before, which is `last`.
///
/// # Errors
///
/// `Short` if there are fewer bytes than an entry has, and `Order` if the time is less than `last`.
pub fn read_entry(number: u64, last: u64, bytes: &[u8]) -> Result<u64, TimesError>
    ensures { result ≡ entry_at number last bytes.now }
{
    let mut rest = bytes;
    let Ok(time) = rest.try_get_u64() else {
        return Err(TimesError::Short { entry: number });
    };
    if time < last {
        return Err(TimesError::Order { entry: number });
    }
    Ok(time)
}

/// Appends the beginning of a file.
///
/// # Errors
///
/// `AllocError` if memory runs out.
pub fn put_beginning(first: &Beginning, bytes: &mut Vec<u8>) -> Result<(), AllocError>
    ensures { OnOk result (bytes.new.items ≡ bytes.old.items ++ beginning first.now) }
{
    match &first.boot {
        None => put_dated(first.date, bytes),
        Some(boot) => put_booted(first.date, boot, bytes),
    }
}

/// Appends the beginning of a file of the first form.
fn put_dated(date: u64, bytes: &mut Vec<u8>) -> Result<(), AllocError>
    ensures { OnOk result (bytes.new.items ≡ bytes.old.items ++ dated date) }
{
    bytes.extend_from_slice(OPENING)?;
    bytes.put_u64(date)
}

/// Appends the beginning of a file of the second form.
fn put_booted(date: u64, boot: &Boot, bytes: &mut Vec<u8>) -> Result<(), AllocError>
    ensures { OnOk result (bytes.new.items ≡ bytes.old.items ++ booted date boot.now) }
{
    bytes.extend_from_slice(BOOT_OPENING)?;
    bytes.put_u64(boot.high)?;
    bytes.put_u64(boot.low)?;
    bytes.put_u64(date)?;
    bytes.put_u64(boot.zero)
}

/// Appends an entry.
///
/// # Errors
///
/// `AllocError` if memory runs out.
pub fn put_entry(time: u64, bytes: &mut Vec<u8>) -> Result<(), AllocError>
    ensures { OnOk result (bytes.new.items ≡ bytes.old.items ++ to_be_bytes w64 time) }
{
    bytes.put_u64(time)
}
