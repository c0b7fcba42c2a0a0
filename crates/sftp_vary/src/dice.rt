//! Pseudorandom numbers.
ghost use Rattle.std.specs.Prelude.{◌<◌};

use sftp_server::{Schedule, Shuffle};

/// A source of numbers, which a seed fixes: the choices of `Shuffle`.
#[derive(Clone, Copy, Drop)]
pub(crate) struct Dice {
    source: Shuffle,
}

impl Dice {
    /// The source of this seed for the freedom of this number.
    pub(crate) fn new(seed: u64, number: u32) -> Dice {
        let far = u64::from(number).wrapping_mul(0x9E37_79B9_7F4A_7C15);
        let mut source = Shuffle(seed ^ far);
        // The first number would tell seeds apart that are close in their upper bits alone.
        source.pick(1);
        Dice { source }
    }

    /// A number below this one.
    pub(crate) fn below(&mut self, count: usize) -> usize
        requires { 0 < count }
        ensures { result < count }
    {
        self.source.pick(count) % count
    }

    /// Whether a number below this one is 0.
    pub(crate) fn one_in(&mut self, count: usize) -> bool
        requires { 0 < count }
    {
        self.below(count) == 0
    }

    /// Any byte.
    pub(crate) fn byte(&mut self) -> u8 {
        self.below(256) as u8
    }

    /// Any number of 32 bits.
    pub(crate) fn number(&mut self) -> u32 {
        u32::from_be_bytes([self.byte(), self.byte(), self.byte(), self.byte()])
    }
}
