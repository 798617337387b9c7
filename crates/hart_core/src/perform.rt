//! From an instruction, registers and pc to what is asked.

ghost use Rattle.std.specs.Prelude.{◌≡◌, ◌%◌};
ghost use Rattle.rv32_decode.specs.Instr.{Fits};
ghost use Rattle.hart_core.specs.Values.{word_sum, word_from};
ghost use Rattle.hart_core.specs.Memory.{store_size as store_size_of};
ghost use Rattle.hart_core.specs.Act.{act_of, branches, continues, goes_to, IsWellFormedAct, IsAligned};

use crate::memory::store_size;
use crate::outcome::{Act, LockedKind};
use crate::registers::Regs;
use crate::values::{op, ordering, register_kind, taken};
use rv32_decode::{BranchKind, Instr, LoadKind, StoreKind};

/// What the instruction asks of a hart with these registers at this pc.
#[tactic(auto, unfolding(crate::specs::Act::act_of, rv32_decode::specs::Instr::Fits))]
pub fn act(instr: &Instr, regs: &Regs, pc: u32) -> Act
    requires { Fits instr.now }
    ensures asked { result ≡ act_of instr.now regs.now pc }
    ensures well_formed { IsWellFormedAct result }
    ensures aligned { pc % 4 ≡ 0 → IsAligned result }
{
    match *instr {
        Instr::Lui { rd, imm } => next(rd, imm, pc),
        Instr::Auipc { rd, imm } => next(rd, pc.wrapping_add(imm), pc),
        Instr::Jal { rd, offset } => jump(rd, pc.wrapping_add(4), sum(pc, offset)),
        Instr::Jalr { rd, rs1, offset } => {
            let target = sum(regs.get(rs1), offset) & !1;
            jump(rd, pc.wrapping_add(4), target)
        }
        Instr::Branch {
            kind,
            rs1,
            rs2,
            offset,
        } => branch(kind, regs.get(rs1), regs.get(rs2), offset, pc),
        Instr::Load {
            kind,
            rd,
            rs1,
            offset,
        } => load(kind, rd, regs.get(rs1), offset),
        Instr::Store {
            kind,
            rs1,
            rs2,
            offset,
        } => store(kind, regs.get(rs1), offset, regs.get(rs2)),
        Instr::OpImm { kind, rd, rs1, imm } => {
            let value = op(register_kind(kind), regs.get(rs1), imm.cast_unsigned());
            next(rd, value, pc)
        }
        Instr::Op { kind, rd, rs1, rs2 } => { next(rd, op(kind, regs.get(rs1), regs.get(rs2)), pc) }
        Instr::Fence { fm, pred, succ, .. } => Act::Fence {
            drains: ordering(fm, pred, succ),
        },
        Instr::Ecall => Act::Call,
        Instr::Ebreak => Act::Broke,
        Instr::Lr { rd, rs1, .. } => locked(LockedKind::Lr, rd, regs.get(rs1), 0),
        Instr::Sc { rd, rs1, rs2, .. } => locked(LockedKind::Sc, rd, regs.get(rs1), regs.get(rs2)),
        Instr::Amo {
            kind,
            rd,
            rs1,
            rs2,
            ..
        } => locked(LockedKind::Amo { kind }, rd, regs.get(rs1), regs.get(rs2)),
    }
}

/// The hart goes on at the next word.
fn next(rd: u8, value: u32, pc: u32) -> Act
    ensures { result ≡ continues rd value pc }
{
    Act::Next {
        rd,
        value,
        pc: pc.wrapping_add(4),
    }
}

/// The hart goes on at the target, unless that is no multiple of 4.
fn jump(rd: u8, value: u32, target: u32) -> Act
    ensures { result ≡ goes_to rd value target }
{
    if target % 4 != 0 {
        return Act::Jumped { target };
    }
    Act::Next {
        rd,
        value,
        pc: target,
    }
}

/// The hart goes on at the offset if the words compare so, and else at the next word.
fn branch(kind: BranchKind, a: u32, b: u32, offset: i32, pc: u32) -> Act
    ensures { result ≡ branches kind a b offset pc }
{
    if taken(kind, a, b) {
        jump(0, 0, sum(pc, offset))
    } else {
        next(0, 0, pc)
    }
}

/// A register takes the bytes at the offset from a word.
fn load(kind: LoadKind, rd: u8, word: u32, offset: i32) -> Act
    ensures { result ≡ Act.Load kind rd (word_sum word (word_from offset)) }
{
    Act::Load {
        kind,
        rd,
        address: sum(word, offset),
    }
}

/// The low bytes of the value go to the offset from a word.
fn store(kind: StoreKind, word: u32, offset: i32, value: u32) -> Act
    ensures store { result ≡ Act.Store (store_size_of kind) (word_sum word (word_from offset)) value }
    ensures well_formed { IsWellFormedAct result }
{
    Act::Store {
        size: store_size(kind),
        address: sum(word, offset),
        value,
    }
}

/// A word and an offset, which wraps at 32 bits.
fn sum(word: u32, offset: i32) -> u32
    ensures { result ≡ word_sum word (word_from offset) }
{
    word.wrapping_add(offset.cast_unsigned())
}

fn locked(kind: LockedKind, rd: u8, address: u32, operand: u32) -> Act
    ensures { result ≡ Act.Locked kind rd address operand }
{
    Act::Locked {
        kind,
        rd,
        address,
        operand,
    }
}
