//! The instructions, one variant for each group of rows.

/// The comparison of a branch: equal, not equal, and below or not below, with signs and (`u`) without.
#[derive(Clone, Copy, Debug, PartialEq, Eq)]
pub enum BranchKind {
    Beq,
    Bne,
    Blt,
    Bge,
    Bltu,
    Bgeu,
}

/// The width of a load, in bytes (`b` 1, `h` 2, `w` 4), and whether it extends by zeros (`u`) or by the sign.
#[derive(Clone, Copy, Debug, PartialEq, Eq)]
pub enum LoadKind {
    Lb,
    Lh,
    Lw,
    Lbu,
    Lhu,
}

/// The width of a store: 1, 2 or 4 bytes.
#[derive(Clone, Copy, Debug, PartialEq, Eq)]
pub enum StoreKind {
    Sb,
    Sh,
    Sw,
}

/// An operation of a register and an immediate.
#[derive(Clone, Copy, Debug, PartialEq, Eq)]
pub enum OpImmKind {
    Addi,
    Slti,
    Sltiu,
    Xori,
    Ori,
    Andi,
    Slli,
    Srli,
    Srai,
}

/// An operation of two registers.
#[derive(Clone, Copy, Debug, PartialEq, Eq)]
pub enum OpKind {
    Add,
    Sll,
    Slt,
    Sltu,
    Xor,
    Srl,
    Or,
    And,
    Sub,
    Sra,
}

/// What an atomic memory operation makes of the old word and its operand.
#[derive(Clone, Copy, Debug, PartialEq, Eq)]
pub enum AmoKind {
    Swap,
    Add,
    Xor,
    And,
    Or,
    Min,
    Max,
    Minu,
    Maxu,
}

/// An instruction of RV32IA. Register fields are numbers of registers, 0 to 31.
/// `Fits` of the definitions says which values of the fields have a place in a word.
#[derive(Clone, Copy, Debug, PartialEq, Eq)]
pub enum Instr {
    /// `imm` is the whole value: its low twelve bits are zero.
    Lui {
        rd: u8,
        imm: u32,
    },
    /// `imm` as in `Lui`; it is added to the pc.
    Auipc {
        rd: u8,
        imm: u32,
    },
    /// `offset` is even and in bytes from the pc, below 2 ^ 20 either way.
    Jal {
        rd: u8,
        offset: i32,
    },
    /// `offset` is in bytes from the register, -2048 to 2047.
    Jalr {
        rd: u8,
        rs1: u8,
        offset: i32,
    },
    /// `offset` is even and in bytes from the pc, -4096 to 4094.
    Branch {
        kind: BranchKind,
        rs1: u8,
        rs2: u8,
        offset: i32,
    },
    /// `offset` is in bytes from the register, -2048 to 2047.
    Load {
        kind: LoadKind,
        rd: u8,
        rs1: u8,
        offset: i32,
    },
    /// Stores `rs2` at `rs1` and the offset, which is -2048 to 2047.
    Store {
        kind: StoreKind,
        rs1: u8,
        rs2: u8,
        offset: i32,
    },
    /// `imm` is -2048 to 2047, and a shift's is 0 to 31.
    OpImm {
        kind: OpImmKind,
        rd: u8,
        rs1: u8,
        imm: i32,
    },
    Op {
        kind: OpKind,
        rd: u8,
        rs1: u8,
        rs2: u8,
    },
    /// `fm`, `pred` and `succ` have four bits each; those of `pred` and `succ` are I, O, R, W from the highest.
    Fence {
        fm: u8,
        pred: u8,
        succ: u8,
        rd: u8,
        rs1: u8,
    },
    Ecall,
    Ebreak,
    /// The address of LR, SC and the AMOs is `rs1`.
    Lr {
        rd: u8,
        rs1: u8,
        aq: bool,
        rl: bool,
    },
    Sc {
        rd: u8,
        rs1: u8,
        rs2: u8,
        aq: bool,
        rl: bool,
    },
    Amo {
        kind: AmoKind,
        rd: u8,
        rs1: u8,
        rs2: u8,
        aq: bool,
        rl: bool,
    },
}
