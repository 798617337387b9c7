//! The 32-bit words of RV32IA: which instruction a word spells, and which word spells an instruction.
//! The rows are those of the RISC-V unprivileged manual, chapters "RV32I Base Integer Instruction Set" and
//! "'A' Standard Extension for Atomic Instructions".
#![tactic(auto)]

mod bits;
mod instruction;
mod kinds;
mod laws;
mod reading;
mod writing;

pub use instruction::{AmoKind, BranchKind, Instr, LoadKind, OpImmKind, OpKind, StoreKind};
pub use laws::one_word_one_meaning;
pub use reading::decode;
pub use writing::encode;
