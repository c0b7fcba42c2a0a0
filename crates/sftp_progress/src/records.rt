//! The records of a transcript, counted by its bytes alone.

/// How many bytes come before the first record of a transcript.
const OPENING_LENGTH: u64 = 8;

/// How many bytes of a record come before its packet: those of its direction and of the packet's length.
const FRONT_LENGTH: u32 = 5;

/// How many records of a transcript went by. What its bytes mean is not judged.
#[derive(Clone, Copy)]
pub(crate) struct Records {
    pub(crate) count: u64,
    /// How many bytes come before the next record.
    ahead: u64,
    /// How many bytes of its front went by.
    met: u32,
    /// The number that these bytes spell.
    front: u64,
}

impl Records {
    /// Nothing went by.
    pub(crate) fn none() -> Records {
        Records {
            count: 0,
            ahead: OPENING_LENGTH,
            met: 0,
            front: 0,
        }
    }

    /// Counts the records that these bytes begin.
    pub(crate) fn pass(&mut self, bytes: &[u8]) {
        let mut rest = bytes;
        for _ in 0..bytes.len() {
            match self.step(rest) {
                Some(behind) => rest = behind,
                None => return,
            }
        }
    }

    /// Passes one byte of a front, or all bytes before the next one. Returns what is behind, if there was anything.
    fn step<'b>(&mut self, bytes: &'b [u8]) -> Option<&'b [u8]> {
        let (byte, behind) = bytes.split_first()?;
        if self.ahead == 0 {
            self.meet(*byte);
            return Some(behind);
        }
        let count = self.ahead.min(bytes.len() as u64);
        self.ahead -= count;
        bytes.get(count as usize..)
    }

    /// Takes the next byte of a front. The last four are the length of the packet.
    fn meet(&mut self, byte: u8) {
        self.front = (self.front & 0xff_ff_ff) << 8 | u64::from(byte);
        self.met = self.met.saturating_add(1);
        if self.met >= FRONT_LENGTH {
            self.count = self.count.saturating_add(1);
            self.ahead = self.front;
            self.met = 0;
        }
    }
}
