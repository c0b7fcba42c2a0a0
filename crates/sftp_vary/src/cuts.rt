//! Where the output of a session is cut.
ghost use Rattle.std.specs.Prelude.{◌≤◌};

use crate::dice::Dice;
use crate::freedoms::Freedom;

/// The most bytes of a small piece: fewer than the head of a reply has.
const SMALL: usize = 8;

/// Chooses pseudorandomly where the output is cut into pieces: a seed fixes the choices.
#[derive(Clone, Copy, Drop)]
pub struct Cuts {
    lengths: Dice,
}

impl Cuts {
    /// The cuts that this seed fixes.
    pub(crate) fn new(seed: u64) -> Cuts {
        Cuts {
            lengths: Dice::new(seed, Freedom::Cuts.number()),
        }
    }

    /// The length of the next piece of so many bytes: from one byte up to all of them, and in one half of the pieces up
    /// to a few, so that heads are cut, too.
    pub fn next_length(&mut self, count: usize) -> usize
        ensures { result ≤ count }
    {
        if count == 0 {
            return 0;
        }
        let most = if self.lengths.one_in(2) {
            count.min(SMALL)
        } else {
            count
        };
        self.lengths.below(most) + 1
    }
}
