//! The rows of the table of instructions.

ghost use Rattle.std.specs.Prelude.{◌≡◌};
ghost use Rattle.rv32_text.specs.Statement.{operands_wanted as operands_of_row};

use rv32_decode::{AmoKind, BranchKind, LoadKind, OpImmKind, OpKind, StoreKind};

/// A row of the atomic instructions, without its ordering.
#[derive(Clone, Copy, Debug, PartialEq, Eq)]
pub enum Atomic {
    Lr,
    Sc,
    Amo(AmoKind),
}

/// What the name of an item says: a row of the instruction table, or a plain word.
#[derive(Clone, Copy, Debug, PartialEq, Eq)]
pub enum Row {
    Lui,
    Auipc,
    Jal,
    Jalr,
    Branch(BranchKind),
    Load(LoadKind),
    Store(StoreKind),
    OpImm(OpImmKind),
    Op(OpKind),
    Fence,
    FenceTso,
    Ecall,
    Ebreak,
    /// With acquire (`aq`) and release (`rl`) behind the name.
    Atomic { kind: Atomic, aq: bool, rl: bool },
    Word,
}

/// How many operands an item of the row has.
pub fn operands_wanted(row: Row) -> usize
    ensures { result ≡ operands_of_row row }
{
    match row {
        Row::FenceTso | Row::Ecall | Row::Ebreak => 0,
        Row::Word => 1,
        Row::Lui | Row::Auipc | Row::Jal | Row::Jalr | Row::Load(_) | Row::Store(_) | Row::Fence =>
            2,
        Row::Branch(_) | Row::OpImm(_) | Row::Op(_) => 3,
        Row::Atomic { kind, .. } => match kind {
            Atomic::Lr => 2,
            Atomic::Sc | Atomic::Amo(_) => 3,
        },
    }
}
