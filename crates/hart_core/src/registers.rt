//! The integer registers of a hart.

ghost use Rattle.std.specs.Prelude.{◌≡◌, ◌≢◌, ◌<◌, ℕ};
ghost use Rattle.hart_core.specs.Registers.{register, with_register, zero_registers};

use std::marker::Model;

/// The registers x0 to x31, each a word. Contracts see the list of the 32 words.
#[derive(Clone, Copy)]
pub struct Regs {
    words: [u32; 32],
}

impl Model for Regs {
    ghost use Rattle.std.specs.Prelude.{List, ℕ};

    ghost Value = { List ℕ };

    ghost view = { λ r. r.words };

    ghost inverse = { λ words. record { words = words } };
}

impl Regs {
    /// All registers 0.
    #[tactic(auto, unfolding(crate::specs::Registers::zero_registers))]
    pub fn new() -> Regs
        ensures { result ≡ zero_registers }
    {
        Regs { words: [0; 32] }
    }

    /// The word in register `r`; x0 reads 0.
    #[tactic(auto, unfolding(crate::specs::Registers::register))]
    pub fn get(&self, r: u8) -> u32
        requires { r < 32 }
        ensures { result ≡ register self.now r }
    {
        if r == 0 {
            0
        } else {
            self.words[usize::from(r)]
        }
    }

    /// Writes register `r`; a write of x0 changes nothing.
    #[tactic(auto, unfolding(crate::specs::Registers::with_register, crate::specs::Registers::register))]
    pub fn set(&mut self, r: u8, value: u32)
        requires { r < 32 }
        ensures written { self.new ≡ with_register self.old r value }
        ensures kept { (s : ℕ) → s ≢ r → register self.new s ≡ register self.old s }
        ensures zero { register self.new 0 ≡ 0 }
        ensures read_back { 0 < r → register self.new r ≡ value }
    {
        if r != 0 {
            self.words[usize::from(r)] = value;
        }
    }
}
