//! The codes that tell the rows of one opcode apart.

ghost use Rattle.std.specs.Prelude.{◌≡◌, ◌<◌};
ghost use Rattle.rv32_decode.specs.Kinds.{branch_funct3, load_funct3, store_funct3, op_imm_funct3, is_shift, shift_funct7, op_funct3, op_funct7, amo_funct5, branch_kind, load_kind, store_kind, op_imm_kind, op_kind, amo_kind};

use crate::instruction::{AmoKind, BranchKind, LoadKind, OpImmKind, OpKind, StoreKind};

pub(crate) fn branch_of(funct3: u32) -> Option<BranchKind>
    ensures { result ≡ branch_kind funct3 }
{
    match funct3 {
        0b000 => Some(BranchKind::Beq),
        0b001 => Some(BranchKind::Bne),
        0b100 => Some(BranchKind::Blt),
        0b101 => Some(BranchKind::Bge),
        0b110 => Some(BranchKind::Bltu),
        0b111 => Some(BranchKind::Bgeu),
        _ => None,
    }
}

pub(crate) fn branch_code(kind: BranchKind) -> u32
    ensures code { result ≡ branch_funct3 kind }
    ensures below { result < 8 }
{
    match kind {
        BranchKind::Beq => 0b000,
        BranchKind::Bne => 0b001,
        BranchKind::Blt => 0b100,
        BranchKind::Bge => 0b101,
        BranchKind::Bltu => 0b110,
        BranchKind::Bgeu => 0b111,
    }
}

pub(crate) fn load_of(funct3: u32) -> Option<LoadKind>
    ensures { result ≡ load_kind funct3 }
{
    match funct3 {
        0b000 => Some(LoadKind::Lb),
        0b001 => Some(LoadKind::Lh),
        0b010 => Some(LoadKind::Lw),
        0b100 => Some(LoadKind::Lbu),
        0b101 => Some(LoadKind::Lhu),
        _ => None,
    }
}

pub(crate) fn load_code(kind: LoadKind) -> u32
    ensures code { result ≡ load_funct3 kind }
    ensures below { result < 8 }
{
    match kind {
        LoadKind::Lb => 0b000,
        LoadKind::Lh => 0b001,
        LoadKind::Lw => 0b010,
        LoadKind::Lbu => 0b100,
        LoadKind::Lhu => 0b101,
    }
}

pub(crate) fn store_of(funct3: u32) -> Option<StoreKind>
    ensures { result ≡ store_kind funct3 }
{
    match funct3 {
        0b000 => Some(StoreKind::Sb),
        0b001 => Some(StoreKind::Sh),
        0b010 => Some(StoreKind::Sw),
        _ => None,
    }
}

pub(crate) fn store_code(kind: StoreKind) -> u32
    ensures code { result ≡ store_funct3 kind }
    ensures below { result < 8 }
{
    match kind {
        StoreKind::Sb => 0b000,
        StoreKind::Sh => 0b001,
        StoreKind::Sw => 0b010,
    }
}

/// A shift has a funct7; the other operations use those bits for the immediate.
pub(crate) fn op_imm_of(funct3: u32, funct7: u32) -> Option<OpImmKind>
    ensures { result ≡ op_imm_kind funct3 funct7 }
{
    match (funct3, funct7) {
        (0b000, _) => Some(OpImmKind::Addi),
        (0b010, _) => Some(OpImmKind::Slti),
        (0b011, _) => Some(OpImmKind::Sltiu),
        (0b100, _) => Some(OpImmKind::Xori),
        (0b110, _) => Some(OpImmKind::Ori),
        (0b111, _) => Some(OpImmKind::Andi),
        (0b001, 0b0000000) => Some(OpImmKind::Slli),
        (0b101, 0b0000000) => Some(OpImmKind::Srli),
        (0b101, 0b0100000) => Some(OpImmKind::Srai),
        _ => None,
    }
}

pub(crate) fn op_imm_code(kind: OpImmKind) -> u32
    ensures code { result ≡ op_imm_funct3 kind }
    ensures below { result < 8 }
{
    match kind {
        OpImmKind::Addi => 0b000,
        OpImmKind::Slti => 0b010,
        OpImmKind::Sltiu => 0b011,
        OpImmKind::Xori => 0b100,
        OpImmKind::Ori => 0b110,
        OpImmKind::Andi => 0b111,
        OpImmKind::Slli => 0b001,
        OpImmKind::Srli => 0b101,
        OpImmKind::Srai => 0b101,
    }
}

/// Whether the immediate is a shift amount.
pub(crate) fn shifts(kind: OpImmKind) -> bool
    ensures { result ≡ is_shift kind }
{
    matches!(kind, OpImmKind::Slli | OpImmKind::Srli | OpImmKind::Srai)
}

pub(crate) fn shift_code(kind: OpImmKind) -> u32
    ensures code { result ≡ shift_funct7 kind }
    ensures below { result < 128 }
{
    match kind {
        OpImmKind::Srai => 0b0100000,
        _ => 0b0000000,
    }
}

pub(crate) fn op_of(funct3: u32, funct7: u32) -> Option<OpKind>
    ensures { result ≡ op_kind funct3 funct7 }
{
    match (funct3, funct7) {
        (0b000, 0b0000000) => Some(OpKind::Add),
        (0b001, 0b0000000) => Some(OpKind::Sll),
        (0b010, 0b0000000) => Some(OpKind::Slt),
        (0b011, 0b0000000) => Some(OpKind::Sltu),
        (0b100, 0b0000000) => Some(OpKind::Xor),
        (0b101, 0b0000000) => Some(OpKind::Srl),
        (0b110, 0b0000000) => Some(OpKind::Or),
        (0b111, 0b0000000) => Some(OpKind::And),
        (0b000, 0b0100000) => Some(OpKind::Sub),
        (0b101, 0b0100000) => Some(OpKind::Sra),
        _ => None,
    }
}

pub(crate) fn op_code(kind: OpKind) -> u32
    ensures code { result ≡ op_funct3 kind }
    ensures below { result < 8 }
{
    match kind {
        OpKind::Add => 0b000,
        OpKind::Sll => 0b001,
        OpKind::Slt => 0b010,
        OpKind::Sltu => 0b011,
        OpKind::Xor => 0b100,
        OpKind::Srl => 0b101,
        OpKind::Or => 0b110,
        OpKind::And => 0b111,
        OpKind::Sub => 0b000,
        OpKind::Sra => 0b101,
    }
}

pub(crate) fn op_high_code(kind: OpKind) -> u32
    ensures code { result ≡ op_funct7 kind }
    ensures below { result < 128 }
{
    match kind {
        OpKind::Sub => 0b0100000,
        OpKind::Sra => 0b0100000,
        _ => 0b0000000,
    }
}

pub(crate) fn amo_of(funct5: u32) -> Option<AmoKind>
    ensures { result ≡ amo_kind funct5 }
{
    match funct5 {
        0b00001 => Some(AmoKind::Swap),
        0b00000 => Some(AmoKind::Add),
        0b00100 => Some(AmoKind::Xor),
        0b01100 => Some(AmoKind::And),
        0b01000 => Some(AmoKind::Or),
        0b10000 => Some(AmoKind::Min),
        0b10100 => Some(AmoKind::Max),
        0b11000 => Some(AmoKind::Minu),
        0b11100 => Some(AmoKind::Maxu),
        _ => None,
    }
}

pub(crate) fn amo_code(kind: AmoKind) -> u32
    ensures code { result ≡ amo_funct5 kind }
    ensures below { result < 32 }
{
    match kind {
        AmoKind::Swap => 0b00001,
        AmoKind::Add => 0b00000,
        AmoKind::Xor => 0b00100,
        AmoKind::And => 0b01100,
        AmoKind::Or => 0b01000,
        AmoKind::Min => 0b10000,
        AmoKind::Max => 0b10100,
        AmoKind::Minu => 0b11000,
        AmoKind::Maxu => 0b11100,
    }
}
