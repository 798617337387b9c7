//! From a word to its instruction.

ghost use Rattle.std.specs.Prelude.{◌≡◌, ◌<◌, ◌^◌, ◌↔◌, Some, IsNone, IfSome};
ghost use Rattle.rv32_decode.specs.declared.instruction.Instr.{Instr};
ghost use Rattle.rv32_decode.specs.Fields.{rd_of, rs1_of, rs2_of, imm_i as imm_i_of, imm_s as imm_s_of, imm_b as imm_b_of, imm_u as imm_u_of, imm_j as imm_j_of};
ghost use Rattle.rv32_decode.specs.Instr.{Spells, Fits, instr_of, word_of, row_of, jalr_of, branch_of, load_of, store_of, op_imm_of, op_of, fence_of, system_of, lr_of, amo_of, atomic_of, immediate_of};

use crate::bits::{bits, signed};
use crate::instruction::{Instr, OpImmKind};
use crate::kinds;

/// The instruction that a word spells, None exactly where no row of the table matches the word.
#[tactic(auto, unfolding(crate::specs::Instr::instr_of))]
pub fn decode(word: u32) -> Option<Instr>
    ensures meaning { result ≡ instr_of word }
    ensures row { (instr : Instr) → (result ≡ Some instr) ↔ Spells word instr }
    ensures none { IsNone result ↔ ((instr : Instr) → Spells word instr → ⊥) }
    ensures fits { IfSome result Fits }
    ensures again { IfSome result (λ instr. word_of instr ≡ word) }
{
    row(bits(word, 6, 0), word)
}

#[tactic(auto, unfolding(crate::specs::Instr::row_of))]
fn row(opcode: u32, word: u32) -> Option<Instr>
    ensures { result ≡ row_of opcode word }
{
    match opcode {
        0b0110111 => Some(Instr::Lui {
            rd: rd(word),
            imm: imm_u(word),
        }),
        0b0010111 => Some(Instr::Auipc {
            rd: rd(word),
            imm: imm_u(word),
        }),
        0b1101111 => Some(Instr::Jal {
            rd: rd(word),
            offset: imm_j(word),
        }),
        0b1100111 => jalr(word),
        0b1100011 => branch(word),
        0b0000011 => load(word),
        0b0100011 => store(word),
        0b0010011 => op_imm(word),
        0b0110011 => op(word),
        0b0001111 => fence(word),
        0b1110011 => system(word),
        0b0101111 => atomic(word),
        _ => None,
    }
}

#[tactic(auto, unfolding(crate::specs::Instr::jalr_of))]
fn jalr(word: u32) -> Option<Instr>
    ensures { result ≡ jalr_of word }
{
    if bits(word, 14, 12) != 0b000 {
        return None;
    }
    Some(Instr::Jalr {
        rd: rd(word),
        rs1: rs1(word),
        offset: imm_i(word),
    })
}

#[tactic(auto, unfolding(crate::specs::Instr::branch_of))]
fn branch(word: u32) -> Option<Instr>
    ensures { result ≡ branch_of word }
{
    let kind = kinds::branch_of(bits(word, 14, 12))?;
    Some(Instr::Branch {
        kind,
        rs1: rs1(word),
        rs2: rs2(word),
        offset: imm_b(word),
    })
}

#[tactic(auto, unfolding(crate::specs::Instr::load_of))]
fn load(word: u32) -> Option<Instr>
    ensures { result ≡ load_of word }
{
    let kind = kinds::load_of(bits(word, 14, 12))?;
    Some(Instr::Load {
        kind,
        rd: rd(word),
        rs1: rs1(word),
        offset: imm_i(word),
    })
}

#[tactic(auto, unfolding(crate::specs::Instr::store_of))]
fn store(word: u32) -> Option<Instr>
    ensures { result ≡ store_of word }
{
    let kind = kinds::store_of(bits(word, 14, 12))?;
    Some(Instr::Store {
        kind,
        rs1: rs1(word),
        rs2: rs2(word),
        offset: imm_s(word),
    })
}

#[tactic(auto, unfolding(crate::specs::Instr::op_imm_of))]
fn op_imm(word: u32) -> Option<Instr>
    ensures { result ≡ op_imm_of word }
{
    let kind = kinds::op_imm_of(bits(word, 14, 12), bits(word, 31, 25))?;
    Some(Instr::OpImm {
        kind,
        rd: rd(word),
        rs1: rs1(word),
        imm: immediate(kind, word),
    })
}

#[tactic(auto, unfolding(crate::specs::Instr::op_of))]
fn op(word: u32) -> Option<Instr>
    ensures { result ≡ op_of word }
{
    let kind = kinds::op_of(bits(word, 14, 12), bits(word, 31, 25))?;
    Some(Instr::Op {
        kind,
        rd: rd(word),
        rs1: rs1(word),
        rs2: rs2(word),
    })
}

#[tactic(auto, unfolding(crate::specs::Instr::fence_of))]
fn fence(word: u32) -> Option<Instr>
    ensures { result ≡ fence_of word }
{
    if bits(word, 14, 12) != 0b000 {
        return None;
    }
    Some(Instr::Fence {
        fm: bits(word, 31, 28) as u8,
        pred: bits(word, 27, 24) as u8,
        succ: bits(word, 23, 20) as u8,
        rd: rd(word),
        rs1: rs1(word),
    })
}

#[tactic(auto, unfolding(crate::specs::Instr::system_of))]
fn system(word: u32) -> Option<Instr>
    ensures { result ≡ system_of word }
{
    match word {
        0x0000_0073 => Some(Instr::Ecall),
        0x0010_0073 => Some(Instr::Ebreak),
        _ => None,
    }
}

#[tactic(auto, unfolding(crate::specs::Instr::atomic_of))]
fn atomic(word: u32) -> Option<Instr>
    ensures { result ≡ atomic_of word }
{
    if bits(word, 14, 12) != 0b010 {
        return None;
    }
    match bits(word, 31, 27) {
        0b00010 => lr(word),
        0b00011 => Some(Instr::Sc {
            rd: rd(word),
            rs1: rs1(word),
            rs2: rs2(word),
            aq: bits(word, 26, 26) == 1,
            rl: bits(word, 25, 25) == 1,
        }),
        _ => amo(word),
    }
}

#[tactic(auto, unfolding(crate::specs::Instr::lr_of))]
fn lr(word: u32) -> Option<Instr>
    ensures { result ≡ lr_of word }
{
    if rs2(word) != 0 {
        return None;
    }
    Some(Instr::Lr {
        rd: rd(word),
        rs1: rs1(word),
        aq: bits(word, 26, 26) == 1,
        rl: bits(word, 25, 25) == 1,
    })
}

#[tactic(auto, unfolding(crate::specs::Instr::amo_of))]
fn amo(word: u32) -> Option<Instr>
    ensures { result ≡ amo_of word }
{
    let kind = kinds::amo_of(bits(word, 31, 27))?;
    Some(Instr::Amo {
        kind,
        rd: rd(word),
        rs1: rs1(word),
        rs2: rs2(word),
        aq: bits(word, 26, 26) == 1,
        rl: bits(word, 25, 25) == 1,
    })
}

fn rd(word: u32) -> u8
    ensures { result ≡ rd_of word }
{
    bits(word, 11, 7) as u8
}

fn rs1(word: u32) -> u8
    ensures { result ≡ rs1_of word }
{
    bits(word, 19, 15) as u8
}

fn rs2(word: u32) -> u8
    ensures { result ≡ rs2_of word }
{
    bits(word, 24, 20) as u8
}

fn immediate(kind: OpImmKind, word: u32) -> i32
    ensures { result ≡ immediate_of kind word }
{
    if kinds::shifts(kind) {
        i32::from(rs2(word))
    } else {
        imm_i(word)
    }
}

fn imm_i(word: u32) -> i32
    ensures { result ≡ imm_i_of word }
{
    signed(bits(word, 31, 20), 1 << 11)
}

fn imm_s(word: u32) -> i32
    ensures { result ≡ imm_s_of word }
{
    signed((bits(word, 31, 25) << 5) + bits(word, 11, 7), 1 << 11)
}

fn imm_b(word: u32) -> i32
    ensures { result ≡ imm_b_of word }
{
    let high = (bits(word, 31, 31) << 12) + (bits(word, 7, 7) << 11);
    let low = (bits(word, 30, 25) << 5) + (bits(word, 11, 8) << 1);
    signed(high + low, 1 << 12)
}

fn imm_u(word: u32) -> u32
    ensures { result ≡ imm_u_of word }
{
    bits(word, 31, 12) << 12
}

fn imm_j(word: u32) -> i32
    ensures { result ≡ imm_j_of word }
{
    let high = (bits(word, 31, 31) << 20) + (bits(word, 19, 12) << 12);
    let low = (bits(word, 20, 20) << 11) + (bits(word, 30, 21) << 1);
    signed(high + low, 1 << 20)
}
