//! From an instruction to its word.

ghost use Rattle.std.specs.Prelude.{◌≡◌, ◌<◌, ◌+◌, ◌*◌, ◌/◌, ◌^◌, ◌%◌, Some};
ghost use Rattle.rv32_decode.specs.Fields.{complement};
ghost use Rattle.rv32_decode.specs.Instr.{Spells, Fits, FitsImmediate, IsSigned, IsEven, instr_of, word_of, word_with, i_word, u_word, j_word, ordered, op_imm_word};

use crate::bits::unsigned;
use crate::instruction::{BranchKind, Instr, OpImmKind, StoreKind};
use crate::kinds;

/// The word that spells an instruction whose fields fit their places.
pub fn encode(instr: &Instr) -> u32
    requires { Fits instr.now }
    ensures word { result ≡ word_of instr.now }
    ensures row { Spells result instr.now }
    ensures again { instr_of result ≡ Some instr.now }
{
    word(instr)
}

#[tactic(auto, unfolding(crate::specs::Instr::word_of, crate::specs::Instr::Fits))]
fn word(instr: &Instr) -> u32
    requires { Fits instr.now }
    ensures { result ≡ word_of instr.now }
{
    match *instr {
        Instr::Lui { rd, imm } => upper(imm, rd, 0b0110111),
        Instr::Auipc { rd, imm } => upper(imm, rd, 0b0010111),
        Instr::Jal { rd, offset } => jump(offset, rd, 0b1101111),
        Instr::Jalr { rd, rs1, offset } => immediate(low_bits(offset), rs1, 0b000, rd, 0b1100111),
        Instr::Branch {
            kind,
            rs1,
            rs2,
            offset,
        } => branch(kind, rs1, rs2, offset),
        Instr::Load {
            kind,
            rd,
            rs1,
            offset,
        } => immediate(low_bits(offset), rs1, kinds::load_code(kind), rd, 0b0000011),
        Instr::Store {
            kind,
            rs1,
            rs2,
            offset,
        } => store(kind, rs1, rs2, offset),
        Instr::OpImm { kind, rd, rs1, imm } => op_imm(kind, rd, rs1, imm),
        Instr::Op { kind, rd, rs1, rs2 } => joined(
            kinds::op_high_code(kind),
            rs2,
            rs1,
            kinds::op_code(kind),
            rd,
            0b0110011,
        ),
        Instr::Fence {
            fm,
            pred,
            succ,
            rd,
            rs1,
        } => fence(fm, pred, succ, rd, rs1),
        Instr::Ecall => 0x0000_0073,
        Instr::Ebreak => 0x0010_0073,
        Instr::Lr { rd, rs1, aq, rl } => atomic(0b00010, aq, rl, 0, rs1, rd),
        Instr::Sc {
            rd,
            rs1,
            rs2,
            aq,
            rl,
        } => atomic(0b00011, aq, rl, rs2, rs1, rd),
        Instr::Amo {
            kind,
            rd,
            rs1,
            rs2,
            aq,
            rl,
        } => atomic(kinds::amo_code(kind), aq, rl, rs2, rs1, rd),
    }
}

/// A word with these fields, from the highest.
fn joined(funct7: u32, rs2: u8, rs1: u8, funct3: u32, rd: u8, opcode: u32) -> u32
    requires funct7 { funct7 < 128 }
    requires rs2 { rs2 < 32 }
    requires rs1 { rs1 < 32 }
    requires funct3 { funct3 < 8 }
    requires rd { rd < 32 }
    requires opcode { opcode < 128 }
    ensures { result ≡ word_with funct7 rs2 rs1 funct3 rd opcode }
{
    (funct7 << 25)
        + (u32::from(rs2) << 20)
        + (u32::from(rs1) << 15)
        + (funct3 << 12)
        + (u32::from(rd) << 7)
        + opcode
}

/// Format I, where `bits` are those of the immediate.
fn immediate(bits: u32, rs1: u8, funct3: u32, rd: u8, opcode: u32) -> u32
    requires bits { bits < 2 ^ 12 }
    requires rs1 { rs1 < 32 }
    requires funct3 { funct3 < 8 }
    requires rd { rd < 32 }
    requires opcode { opcode < 128 }
    ensures { result ≡ i_word bits rs1 funct3 rd opcode }
{
    joined(bits / 32, (bits % 32) as u8, rs1, funct3, rd, opcode)
}

/// The twelve bits of an immediate of formats I and S.
fn low_bits(immediate: i32) -> u32
    requires { IsSigned (2 ^ 11) immediate }
    ensures bits { result ≡ complement (2 ^ 11) immediate }
    ensures below { result < 2 ^ 12 }
{
    unsigned(immediate, 1 << 11)
}

/// A store: format S.
#[tactic(auto, unfolding(crate::specs::Instr::word_of, crate::specs::Instr::Fits))]
fn store(kind: StoreKind, rs1: u8, rs2: u8, offset: i32) -> u32
    requires { Fits (Instr.Store kind rs1 rs2 offset) }
    ensures { result ≡ word_of (Instr.Store kind rs1 rs2 offset) }
{
    let bits = low_bits(offset);
    let funct3 = kinds::store_code(kind);
    joined(bits / 32, rs2, rs1, funct3, (bits % 32) as u8, 0b0100011)
}

/// A branch: format B.
#[tactic(auto, unfolding(crate::specs::Instr::word_of, crate::specs::Instr::Fits))]
fn branch(kind: BranchKind, rs1: u8, rs2: u8, offset: i32) -> u32
    requires { Fits (Instr.Branch kind rs1 rs2 offset) }
    ensures { result ≡ word_of (Instr.Branch kind rs1 rs2 offset) }
{
    let bits = unsigned(offset, 1 << 12);
    let high = (bits / 4096) * 64 + bits / 32 % 64;
    let low = (bits / 2 % 16) * 2 + bits / 2048 % 2;
    let funct3 = kinds::branch_code(kind);
    joined(high, rs2, rs1, funct3, low as u8, 0b1100011)
}

/// Format U.
fn upper(imm: u32, rd: u8, opcode: u32) -> u32
    requires imm { imm % 2 ^ 12 ≡ 0 }
    requires rd { rd < 32 }
    requires opcode { opcode < 128 }
    ensures { result ≡ u_word imm rd opcode }
{
    imm + (u32::from(rd) << 7) + opcode
}

/// Format J.
fn jump(offset: i32, rd: u8, opcode: u32) -> u32
    requires offset { IsSigned (2 ^ 20) offset }
    requires rd { rd < 32 }
    requires opcode { opcode < 128 }
    ensures { result ≡ j_word (complement (2 ^ 20) offset) rd opcode }
{
    let bits = unsigned(offset, 1 << 20);
    let high = ((bits >> 20) << 31) + ((bits / 2 % 1024) << 21);
    let low = ((bits / 2048 % 2) << 20) + ((bits / 4096 % 256) << 12);
    high + low + (u32::from(rd) << 7) + opcode
}

/// A shift, or format I.
fn op_imm(kind: OpImmKind, rd: u8, rs1: u8, imm: i32) -> u32
    requires rd { rd < 32 }
    requires rs1 { rs1 < 32 }
    requires imm { FitsImmediate kind imm }
    ensures { result ≡ op_imm_word kind rd rs1 imm }
{
    let funct3 = kinds::op_imm_code(kind);
    if kinds::shifts(kind) {
        joined(
            kinds::shift_code(kind),
            imm as u8,
            rs1,
            funct3,
            rd,
            0b0010011,
        )
    } else {
        immediate(low_bits(imm), rs1, funct3, rd, 0b0010011)
    }
}

fn fence(fm: u8, pred: u8, succ: u8, rd: u8, rs1: u8) -> u32
    requires fm { fm < 16 }
    requires pred { pred < 16 }
    requires succ { succ < 16 }
    requires rd { rd < 32 }
    requires rs1 { rs1 < 32 }
    ensures { result ≡ i_word (fm * 2 ^ 8 + pred * 2 ^ 4 + succ) rs1 0 rd 15 }
{
    let bits = (u32::from(fm) << 8) + (u32::from(pred) << 4) + u32::from(succ);
    immediate(bits, rs1, 0b000, rd, 0b0001111)
}

fn atomic(funct5: u32, aq: bool, rl: bool, rs2: u8, rs1: u8, rd: u8) -> u32
    requires funct5 { funct5 < 32 }
    requires rs2 { rs2 < 32 }
    requires rs1 { rs1 < 32 }
    requires rd { rd < 32 }
    ensures { result ≡ word_with (ordered funct5 aq rl) rs2 rs1 2 rd 47 }
{
    let funct7 = (funct5 << 2) + (u32::from(aq) << 1) + u32::from(rl);
    joined(funct7, rs2, rs1, 0b010, rd, 0b0101111)
}
