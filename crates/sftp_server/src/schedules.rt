//! The order in which a server does what it may do.
ghost use Rattle.std.specs.Prelude.{◌≡◌};
ghost use Rattle.sftp_server.specs.Machine.{next_state, upper_bits};

use sftp_wire::Request;

/// A step of a script.
#[derive(Clone, Copy, Debug)]
pub enum Step {
    /// Take the next request, and wait for it.
    Take,
    /// Send the reply of the unanswered request with this id, which is done first if it is pending.
    Reply(u32),
}

/// Chooses among what a server may do next. A schedule may begin with a script, which says when to wait for the client;
/// nothing is promised of what it says or chooses. A session whose script is over, or cannot be followed, answers what
/// it took, and goes on without one.
pub trait Schedule {
    /// A choice among `count` possible acts, numbered from 0 in the order of the queue: the act of the result's number
    /// modulo `count` is done.
    fn pick(&mut self, count: usize) -> usize;

    /// Whether each choice from now on is the first possible act. If so, that act is done without a call of `pick`, and
    /// no other is looked for.
    fn is_in_order(&self) -> bool {
        false
    }

    /// The next step of the script; `None` at its end. A schedule without a script has none.
    fn step(&mut self) -> Option<Step> {
        None
    }

    /// Whether the script goes on after this request, which a step took.
    fn expects(&mut self, _request: &Request) -> bool {
        true
    }
}

/// The schedule that always chooses the first act, so that requests are done and answered in the order asked. Its
/// choices do not allocate.
#[derive(Clone, Copy, Debug, Drop)]
pub struct InOrder;

impl Schedule for InOrder {
    fn pick(&mut self, _count: usize) -> usize
        ensures first { result ≡ 0 }
    {
        0
    }

    fn is_in_order(&self) -> bool {
        true
    }
}

/// A schedule of pseudorandom choices, by a linear congruential generator of this state (this profile's own). For each
/// choice the state is multiplied by 6364136223846793005 and increased by 1442695040888963407, modulo 2^64; the choice
/// is its upper 31 bits. Its choices do not allocate.
#[derive(Clone, Copy, Debug, Drop)]
pub struct Shuffle(pub u64);

impl Schedule for Shuffle {
    fn pick(&mut self, _count: usize) -> usize
        ensures state { self.new.0 ≡ next_state self.old.0 }
        ensures choice { result ≡ upper_bits self.new.0 }
    {
        self.0 = self
            .0
            .wrapping_mul(6_364_136_223_846_793_005)
            .wrapping_add(1_442_695_040_888_963_407);
        (self.0 >> 33) as usize
    }
}
