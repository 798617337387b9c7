//! What the register instructions compute.

ghost use Rattle.std.specs.Prelude.{◌≡◌};
ghost use Rattle.hart_core.specs.Values.{op_value, register_kind as register_kind_of, is_taken, is_ordering};

use rv32_decode::{BranchKind, OpImmKind, OpKind};

/// What an operation makes of two words. Shifts are by the low five bits of `b`.
pub(crate) fn op(kind: OpKind, a: u32, b: u32) -> u32
    ensures { result ≡ op_value kind a b }
{
    match kind {
        OpKind::Add => a.wrapping_add(b),
        OpKind::Sll => a << (b % 32),
        OpKind::Slt => u32::from(a.cast_signed() < b.cast_signed()),
        OpKind::Sltu => u32::from(a < b),
        OpKind::Xor => a ^ b,
        OpKind::Srl => a >> (b % 32),
        OpKind::Or => a | b,
        OpKind::And => a & b,
        OpKind::Sub => a.wrapping_sub(b),
        OpKind::Sra => (a.cast_signed() >> (b % 32)).cast_unsigned(),
    }
}

/// The operation of two registers that an operation with an immediate is.
pub(crate) fn register_kind(kind: OpImmKind) -> OpKind
    ensures { result ≡ register_kind_of kind }
{
    match kind {
        OpImmKind::Addi => OpKind::Add,
        OpImmKind::Slti => OpKind::Slt,
        OpImmKind::Sltiu => OpKind::Sltu,
        OpImmKind::Xori => OpKind::Xor,
        OpImmKind::Ori => OpKind::Or,
        OpImmKind::Andi => OpKind::And,
        OpImmKind::Slli => OpKind::Sll,
        OpImmKind::Srli => OpKind::Srl,
        OpImmKind::Srai => OpKind::Sra,
    }
}

/// Whether the branch is taken.
pub(crate) fn taken(kind: BranchKind, a: u32, b: u32) -> bool
    ensures { result ≡ is_taken kind a b }
{
    match kind {
        BranchKind::Beq => a == b,
        BranchKind::Bne => a != b,
        BranchKind::Blt => a.cast_signed() < b.cast_signed(),
        BranchKind::Bge => a.cast_signed() >= b.cast_signed(),
        BranchKind::Bltu => a < b,
        BranchKind::Bgeu => a >= b,
    }
}

/// Whether a fence is ordering: stores before it (W of `pred`) wait before loads after it (R of `succ`).
pub(crate) fn ordering(fm: u8, pred: u8, succ: u8) -> bool
    ensures { result ≡ is_ordering fm pred succ }
{
    let tso = fm == 0b1000 && pred == 0b0011 && succ == 0b0011;
    !tso && pred % 2 == 1 && succ / 2 % 2 == 1
}
