//! The generator of numbers.

ghost use Rattle.std.specs.Prelude.{◌≡◌, ◌/◌};
ghost use Rattle.rack_gen.specs.Draw.{next};

/// A generator of numbers: a state of 32 bits, of which each draw gives the upper 16 bits.
#[derive(Clone, Copy, Debug)]
pub struct Generator {
    pub state: u32,
}

impl Generator {
    /// Goes on to the next state, and gives the number that is drawn there, below 65,536.
    pub fn next(&mut self) -> u32
        ensures state { self.new.state ≡ next self.old.state }
        ensures drawn { result ≡ next self.old.state / 65536 }
    {
        self.state = self
            .state
            .wrapping_mul(1_664_525)
            .wrapping_add(1_013_904_223);
        self.state / 65536
    }
}
