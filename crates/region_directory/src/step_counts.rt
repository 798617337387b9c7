//! How many steps a look-up took.

ghost use Rattle.std.specs.Prelude.{◌≡◌, ◌+◌, ◌<◌, ◌^◌};

use std::marker::Model;

/// A counter of the steps of look-ups. Contracts see its number.
#[derive(Debug, Drop)]
pub struct Steps {
    taken: u64,
}

impl Model for Steps {
    ghost use Rattle.std.specs.Prelude.{ℕ};

    ghost Value = { ℕ };

    ghost view = { λ steps. steps.taken };
}

impl Steps {
    /// No step yet.
    pub fn new() -> Steps
        ensures { result ≡ 0 }
    {
        Steps { taken: 0 }
    }

    /// How many steps there were.
    pub fn count(&self) -> u64
        ensures { result ≡ self.now }
    {
        self.taken
    }

    /// One more step.
    pub fn tick(&mut self)
        requires { self.old < 2 ^ 63 + 64 }
        ensures { self.new ≡ self.old + 1 }
    {
        self.taken += 1;
    }
}
