//! How much memory the records of a transcript may make an audit take, by their bytes alone.
ghost use Rattle.std.specs.Prelude.{◌<◌, ◌≤◌, length};

use sftp_wire::take_number;

/// How many bytes come before the first record of a transcript.
const OPENING: u64 = 8;

/// How many bytes of a record come before its packet: those of its direction and of the packet's length.
const FRONT: usize = 5;

/// The direction of what the client sends.
const CLIENT: u8 = b'C';

/// How many bytes an audit takes at most for a record, and for each byte of it, but for what its numbers say.
const FOR_A_RECORD: u64 = 4_096;

const FOR_A_BYTE: u64 = 16;

/// The flag of attributes that have a size.
const SIZE: u32 = 1;

/// How much more memory the records that go by may make an audit take. What their bytes mean is not judged.
#[derive(Clone, Copy)]
pub(crate) struct Growth {
    /// How many bytes come before the next record.
    ahead: u64,
    /// How many bytes of its front went by.
    met: usize,
    /// The number that these bytes spell, and before them the direction.
    front: u64,
    /// How many bytes the process had when it was looked at.
    held: u64,
    /// How many more it may have until it is looked at again.
    room: u64,
    /// How many the record takes at most for which there was no room.
    due: Option<u64>,
}

impl Growth {
    /// Nothing went by, and there is no room.
    pub(crate) fn none() -> Growth {
        Growth {
            ahead: OPENING,
            met: 0,
            front: 0,
            held: 0,
            room: 0,
            due: Some(0),
        }
    }

    /// Whether the memory is to be looked at before more bytes go by.
    pub(crate) fn is_due(&self) -> bool {
        self.due.is_some()
    }

    /// How many bytes come before the next record.
    pub(crate) fn ahead(&self) -> u64 {
        self.ahead
    }

    /// The process has so many bytes, and may have so many more.
    pub(crate) fn allow(&mut self, held: u64, room: u64) {
        let due = self.due.take().unwrap_or(0);
        self.held = held;
        self.room = room.saturating_sub(due);
    }

    /// How many of these bytes may go by before the memory is looked at: at least one if there are any. They go by.
    pub(crate) fn pass(&mut self, bytes: &[u8]) -> usize
        ensures within { result ≤ length bytes.now }
        ensures some { 0 < length bytes.now → 0 < result }
    {
        let mut passed = 0;
        'pass: while passed < bytes.len() {
            passed += self.step(&bytes[passed..]);
            if self.is_due() {
                return passed;
            }
        }
        passed
    }

    /// Has the bytes before the next record go by, or its front, or one byte of it. Returns how many these are.
    fn step(&mut self, bytes: &[u8]) -> usize
        requires { 0 < length bytes.now }
        ensures { (0 < result) × (result ≤ length bytes.now) }
    {
        if self.ahead > 0 {
            let count = bytes.len().min(self.ahead.min(usize::MAX as u64) as usize);
            self.ahead -= count as u64;
            return count;
        }
        let count = FRONT.saturating_sub(self.met).clamp(1, bytes.len());
        self.meet(&bytes[..count]);
        if self.met >= FRONT {
            self.begin(&bytes[count..]);
        }
        count
    }

    /// Takes the next bytes of a front.
    fn meet(&mut self, bytes: &[u8]) {
        for byte in bytes {
            self.front = (self.front & 0xff_ff_ff_ff) << 8 | u64::from(*byte);
        }
        self.met = self.met.saturating_add(bytes.len());
    }

    /// Begins a packet, of which these bytes are there: it takes of the room, or it is due.
    fn begin(&mut self, packet: &[u8]) {
        self.met = 0;
        self.ahead = self.front & 0xff_ff_ff_ff;
        let taken = self.taken_by(packet);
        match self.room.checked_sub(taken) {
            Some(room) => self.room = room,
            None => self.due = Some(taken),
        }
    }

    /// How many bytes the packet that begins makes an audit take at most.
    fn taken_by(&self, packet: &[u8]) -> u64 {
        let said = if self.front >> 32 == u64::from(CLIENT) {
            said_by(packet, self.held)
        } else {
            Some(0)
        };
        let length = self
            .ahead
            .saturating_mul(FOR_A_BYTE)
            .saturating_add(FOR_A_RECORD);
        said.unwrap_or(u64::MAX).saturating_add(length)
    }
}

/// How many bytes a request makes a tree take at most, for what the numbers in it say; `held` if it is a listing of
/// what is there. `None` if the bytes that say so are not there.
fn said_by(request: &[u8], held: u64) -> Option<u64> {
    let (kind, rest) = request.split_first()?;
    let (_id, fields) = take_number(rest)?;
    match kind {
        // OPEN: the path, the flags, the attributes
        3 => twice(size_in(behind_string(fields)?.get(4..)?)?),
        // WRITE: the handle, the offset, the bytes
        6 => twice(end_in(behind_string(fields)?)?),
        // SETSTAT, FSETSTAT and MKDIR: a path or a handle, the attributes
        9 | 10 | 14 => twice(size_in(behind_string(fields)?)?),
        // OPENDIR
        11 => Some(held),
        // an extension, by its name: those of OpenSSH that copy data and set attributes
        200 => said_by_extension(fields),
        _ => Some(0),
    }
}

/// How many bytes an extension makes a tree take at most, beside those of the request. `None` if that is not known.
fn said_by_extension(fields: &[u8]) -> Option<u64> {
    let (length, rest) = take_number(fields)?;
    let (name, behind) = rest.split_at_checked(length as usize)?;
    if name == b"copy-data".as_slice() {
        return None;
    }
    if name == b"lsetstat@openssh.com".as_slice() {
        return twice(size_in(behind_string(behind)?)?);
    }
    Some(0)
}

/// What a file of so many bytes may have room for.
fn twice(bytes: u64) -> Option<u64> {
    Some(bytes.saturating_mul(2))
}

/// What is behind the string in front.
fn behind_string(bytes: &[u8]) -> Option<&[u8]> {
    let (length, rest) = take_number(bytes)?;
    rest.get(length as usize..)
}

/// The number of eight bytes in front, and what is behind it.
fn take_long_number(bytes: &[u8]) -> Option<(u64, &[u8])> {
    let (high, rest) = take_number(bytes)?;
    let (low, behind) = take_number(rest)?;
    Some((u64::from(high) << 32 | u64::from(low), behind))
}

/// The size in attributes, 0 if they have none.
fn size_in(attributes: &[u8]) -> Option<u64> {
    let (flags, rest) = take_number(attributes)?;
    if flags & SIZE == 0 {
        return Some(0);
    }
    let (size, _) = take_long_number(rest)?;
    Some(size)
}

/// Where the bytes end that are written at an offset.
fn end_in(bytes: &[u8]) -> Option<u64> {
    let (offset, rest) = take_long_number(bytes)?;
    let (length, _) = take_number(rest)?;
    Some(offset.saturating_add(u64::from(length)))
}
