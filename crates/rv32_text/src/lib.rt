//! Texts of RV32IA: an assembler, from lines of items to the words of an image, and a disassembler, back to lines.
#![tactic(auto)]

mod assembling;
mod blanks;
mod cuts;
mod disassembling;
mod faults;
mod images;
mod items;
mod labels;
mod names;
mod numbers;
mod operands;
mod reading;
mod rows;
mod statements;
mod writing;

pub use assembling::assemble;
pub use disassembling::disassemble;
pub use faults::{TextFault, TextRefusal};
pub use items::Item;
