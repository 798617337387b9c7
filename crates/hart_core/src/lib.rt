//! What an instruction of RV32IA asks, given a hart's registers and its pc.
//! It names loads, stores and locked operations, and leaves them to who has the memory.
#![tactic(auto)]

mod memory;
mod outcome;
mod perform;
mod registers;
mod values;

pub use memory::{amo, extend, load_size};
pub use outcome::{Act, LockedKind};
pub use perform::act;
pub use registers::Regs;
