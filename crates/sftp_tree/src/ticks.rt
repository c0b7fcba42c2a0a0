//! A count of the components that a walk looks at.
ghost use Rattle.std.specs.Prelude.{◌≡◌, ◌+◌, ◌≤◌};

use std::marker::Model;

/// How many components a walk has looked at.
#[derive(Debug, Drop)]
pub struct Ticks {
    count: u64,
}

impl Model for Ticks {
    ghost use Rattle.std.specs.Prelude.{ℕ};

    ghost Value = { ℕ };

    ghost view = { λ t. t.count };
}

impl Ticks {
    /// A count of 0. Does not allocate.
    pub fn new() -> Ticks
        ensures { result ≡ 0 }
    {
        Ticks { count: 0 }
    }

    /// How many components were looked at. Does not allocate.
    pub fn count(&self) -> u64
        ensures { result ≡ self.now }
    {
        self.count
    }

    /// Counts a component. A walk looks at no more than 84,032.
    pub(crate) fn add(&mut self)
        requires { self.old ≤ 84032 }
        ensures { self.new ≡ self.old + 1 }
    {
        self.count += 1;
    }
}
