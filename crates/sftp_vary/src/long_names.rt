//! Long names as `ls -l` writes them (draft-ietf-secsh-filexfer-02, section 7, has their columns).
use itoa::Buffer;
use sftp_tree::NoMemory;
use sftp_wire::{Attrs, ByteString};
use std::alloc::Global;

/// How wide the columns of the owner, the group and the size are at least.
const WIDTH: usize = 8;

/// Where the count of names is, and where the column of the owner begins.
const COUNT: usize = 13;

const OWNER: usize = 15;

/// Room for the columns before the date: those before the owner's, two numbers of ten digits, one of twenty, spaces.
const ROOM: usize = 64;

/// How many seconds a day has.
const DAY: u32 = 86_400;

/// How many days 400 years have, and from the first of March of the year 0 to the start of 1970.
const ERA: u32 = 146_097;

const BEFORE: u32 = 719_468;

/// The names of the months, three letters each.
const MONTHS: &[u8] = b"JanFebMarAprMayJunJulAugSepOctNovDec";

/// The line for a name with these attributes: type and permissions, the count of names, uid, gid, size, date, name. The
/// count is 1, since the attributes have none, and the date the first of 1970, if they have no time of modification.
pub(crate) fn long_name(alloc: Global, name: &[u8], attrs: &Attrs) -> Result<ByteString, NoMemory> {
    let (uid, gid) = attrs.owner.unwrap_or((0, 0));
    let mut columns = Columns::new(attrs.permissions.unwrap_or(0));
    columns.put_left(u64::from(uid));
    columns.put_left(u64::from(gid));
    columns.put_right(attrs.size.unwrap_or(0));
    let (_, modified) = attrs.times.unwrap_or((0, 0));
    let date = date(modified);
    let length = name.len().saturating_add(ROOM + date.len());
    let mut line = Vec::with_capacity(alloc, length)?;
    line.extend_from_slice(columns.written())?;
    line.extend_from_slice(&date)?;
    line.extend_from_slice(name)?;
    Ok(ByteString::new(line))
}

/// The columns of a line before the date.
#[derive(Drop)]
struct Columns {
    bytes: [u8; ROOM],
    /// Where the next one begins.
    end: usize,
}

impl Columns {
    /// The type and the permissions, in ten letters, and the count of names.
    fn new(permissions: u32) -> Columns {
        let mut bytes = [b' '; ROOM];
        bytes[0] = kind(permissions);
        bytes[1] = letter(permissions, 0o400, b'r');
        bytes[2] = letter(permissions, 0o200, b'w');
        bytes[3] = third_letter(permissions, 0o100, 0o4000, b's', b'S');
        bytes[4] = letter(permissions, 0o040, b'r');
        bytes[5] = letter(permissions, 0o020, b'w');
        bytes[6] = third_letter(permissions, 0o010, 0o2000, b's', b'S');
        bytes[7] = letter(permissions, 0o004, b'r');
        bytes[8] = letter(permissions, 0o002, b'w');
        bytes[9] = third_letter(permissions, 0o001, 0o1000, b't', b'T');
        bytes[COUNT] = b'1';
        Columns { bytes, end: OWNER }
    }

    /// A number at the left of its column, and a space.
    fn put_left(&mut self, number: u64) {
        let mut buffer = Buffer::new();
        let digits = buffer.format(number).as_bytes();
        put(&mut self.bytes, self.end, digits);
        let width = digits.len().max(WIDTH);
        self.end = self.end.saturating_add(width).saturating_add(1);
    }

    /// A number at the right of its column.
    fn put_right(&mut self, number: u64) {
        let mut buffer = Buffer::new();
        let digits = buffer.format(number).as_bytes();
        let start = self.end.saturating_add(WIDTH.saturating_sub(digits.len()));
        put(&mut self.bytes, start, digits);
        self.end = start.saturating_add(digits.len());
    }

    /// The columns so far.
    fn written(&self) -> &[u8] {
        self.bytes.get(..self.end).unwrap_or(&[])
    }
}

/// Puts digits into a line.
fn put(bytes: &mut [u8], start: usize, digits: &[u8]) {
    let mut at = start;
    for digit in digits {
        if let Some(place) = bytes.get_mut(at) {
            *place = *digit;
        }
        at = at.saturating_add(1);
    }
}

/// The letter of the type.
fn kind(permissions: u32) -> u8 {
    match permissions & 0o170_000 {
        0o040_000 => b'd',
        0o100_000 => b'-',
        0o120_000 => b'l',
        _ => b'?',
    }
}

fn letter(permissions: u32, bit: u32, letter: u8) -> u8 {
    if permissions & bit != 0 { letter } else { b'-' }
}

/// The letter of the permission to execute, which also shows a further bit: by `both` with the permission, and by
/// `alone` without it.
fn third_letter(permissions: u32, bit: u32, further: u32, both: u8, alone: u8) -> u8 {
    match (permissions & bit != 0, permissions & further != 0) {
        (true, true) => both,
        (false, true) => alone,
        (true, false) => b'x',
        (false, false) => b'-',
    }
}

/// A day.
#[derive(Clone, Copy)]
struct Day {
    year: u32,
    /// From 0, to 11.
    month: u32,
    /// From 1.
    day: u32,
}

impl Day {
    /// The day of a moment: so many seconds after the start of 1970. A year is counted from the first of March, so that
    /// a leap day is its last.
    fn of(seconds: u32) -> Day {
        let days = seconds / DAY + BEFORE;
        let in_era = days % ERA;
        let leaps = (in_era / 1_460).saturating_sub(in_era / 36_524) + in_era / 146_096;
        let year = in_era.saturating_sub(leaps) / 365;
        let before = year * 365 + (year / 4).saturating_sub(year / 100);
        let in_year = in_era.saturating_sub(before);
        let march = (5 * in_year.min(366) + 2) / 153;
        let month = (march + 2) % 12;
        let since_march = days / ERA * 400 + year;
        Day {
            year: if month < 2 {
                since_march + 1
            } else {
                since_march
            },
            month,
            day: in_year.saturating_sub((153 * march + 2) / 5) + 1,
        }
    }
}

/// The day of a moment as `ls` writes one that is not of late: ` Jan  1  1970 `.
pub(crate) fn date(seconds: u32) -> [u8; 14] {
    let Day { year, month, day } = Day::of(seconds);
    let name = 3 * (month as usize);
    let mut text = [b' '; 14];
    text[1] = month_letter(name);
    text[2] = month_letter(name + 1);
    text[3] = month_letter(name + 2);
    if day > 9 {
        text[5] = digit(day / 10);
    }
    text[6] = digit(day);
    text[9] = digit(year / 1_000);
    text[10] = digit(year / 100);
    text[11] = digit(year / 10);
    text[12] = digit(year);
    text
}

/// A letter of the names of months.
fn month_letter(place: usize) -> u8 {
    *MONTHS.get(place).unwrap_or(&b' ')
}

/// The last digit of a number.
fn digit(number: u32) -> u8 {
    b'0' + (number % 10) as u8
}
