//! An item: an instruction, or a word.

use rv32_decode::Instr;

/// What a line puts into an image: an instruction, or a word as it stands.
#[derive(Clone, Copy, Debug, PartialEq, Eq)]
pub enum Item {
    Instr(Instr),
    Word(u32),
}
