//! The operands of a statement, one by one.

ghost use Rattle.std.specs.Prelude.{◌≡◌, ℕ, ◌<◌, ◌≤◌, ◌^◌, ◌%◌, ◌==◌, length, count_by, IfOk};
ghost use Rattle.rv32_decode.specs.Kinds.{is_shift as is_shift_of};
ghost use Rattle.rv32_decode.specs.Instr.{Fits, IsSigned, FitsImmediate};
ghost use Rattle.rv32_text.specs.Found.{found_in};
ghost use Rattle.rv32_text.specs.Operand.{operand_count as operand_count_of, first_operand, second_operand, third_operand, register_in, set_in, enclosed_in, address_in, based_in, distance_to, target_in, pair_at, upper_at, jump_at, branch_at, based_at, immediate_within as immediate_within_of, immediate_at, registers_at, sets_at, address_at, exchange_at, plain_at};

use crate::blanks::trimmed;
use crate::cuts::{before, behind};
use crate::faults::TextFault;
use crate::labels::{Defined, found, is_label};
use crate::names;
use crate::numbers::{even_within, number_operand, signed_within, up_to};
use rv32_decode::{BranchKind, Instr, OpImmKind, OpKind};
use std::collections::BTreeMap;

fn commas(text: &[u8]) -> usize
    ensures count { result ≡ count_by (λ b. b == 44) text.now }
    ensures within { result ≤ length text.now }
{
    text.iter().filter(|b| **b == b',').count()
}

/// How many operands there are: one more than commas, or none.
#[tactic(auto, unfolding(crate::specs::Operand::operand_count))]
pub fn operand_count(text: &[u8]) -> usize
    requires { length text.now < 2 ^ 32 }
    ensures { result ≡ operand_count_of text.now }
{
    if trimmed(text).is_empty() {
        return 0;
    }
    1 + commas(text)
}

#[tactic(auto, unfolding(crate::specs::Operand::first_operand))]
fn first(text: &[u8]) -> &[u8]
    ensures part { result.now ≡ first_operand text.now }
    ensures short { length result.now ≤ length text.now }
{
    trimmed(before(text, b','))
}

#[tactic(auto, unfolding(crate::specs::Operand::second_operand))]
fn second(text: &[u8]) -> &[u8]
    ensures part { result.now ≡ second_operand text.now }
    ensures short { length result.now ≤ length text.now }
{
    first(behind(text, b','))
}

#[tactic(auto, unfolding(crate::specs::Operand::third_operand))]
fn third(text: &[u8]) -> &[u8]
    ensures part { result.now ≡ third_operand text.now }
    ensures short { length result.now ≤ length text.now }
{
    second(behind(text, b','))
}

fn register(text: &[u8]) -> Result<u8, TextFault>
    ensures register { result ≡ register_in text.now }
    ensures within { IfOk result (λ number. number < 32) }
{
    names::register(text).ok_or(TextFault::Operand)
}

fn set(text: &[u8]) -> Result<u8, TextFault>
    ensures set { result ≡ set_in text.now }
    ensures within { IfOk result (λ set. set < 16) }
{
    names::set(text).ok_or(TextFault::Operand)
}

/// A register before the closing parenthesis at the end.
#[tactic(auto, unfolding(crate::specs::Operand::enclosed_in))]
fn enclosed(text: &[u8]) -> Result<u8, TextFault>
    ensures register { result ≡ enclosed_in text.now }
    ensures within { IfOk result (λ number. number < 32) }
{
    match text.strip_suffix(b")") {
        Some(inside) => register(trimmed(inside)),
        None => Err(TextFault::Operand),
    }
}

/// A register in parentheses.
#[tactic(auto, unfolding(crate::specs::Operand::address_in))]
fn address(text: &[u8]) -> Result<u8, TextFault>
    ensures register { result ≡ address_in text.now }
    ensures within { IfOk result (λ number. number < 32) }
{
    if !before(text, b'(').is_empty() {
        return Err(TextFault::Operand);
    }
    enclosed(behind(text, b'('))
}

/// A number, and a register in parentheses.
#[tactic(auto, unfolding(crate::specs::Operand::based_in))]
fn based(text: &[u8]) -> Result<(i64, u8), TextFault>
    requires { length text.now < 2 ^ 32 }
    ensures reads { result ≡ based_in text.now }
    ensures within { IfOk result (λ read. read.1 < 32) }
{
    let offset = number_operand(trimmed(before(text, b'(')))?;
    let base = enclosed(behind(text, b'('))?;
    Ok((offset, base))
}

/// How many bytes a definition is from the item before which so many stand.
fn distance(items: u32, place: Option<Defined>) -> Result<i64, TextFault>
    ensures { result ≡ distance_to items place }
{
    match place {
        None => Err(TextFault::Target),
        Some(place) => Ok(4 * i64::from(place.items) - 4 * i64::from(items)),
    }
}

/// The distance to a label, or the number itself.
#[tactic(auto, unfolding(crate::specs::Operand::target_in))]
fn target(labels: &BTreeMap<&[u8], Defined>, items: u32, text: &[u8]) -> Result<i64, TextFault>
    requires { length text.now < 2 ^ 32 }
    ensures { result ≡ target_in (found_in labels.now) items text.now }
{
    if is_label(text) {
        return distance(items, found(labels, text));
    }
    number_operand(text)
}

/// The registers of the first two operands.
#[tactic(auto, unfolding(crate::specs::Operand::pair_at))]
fn pair(text: &[u8]) -> Result<(u8, u8), TextFault>
    ensures reads { result ≡ pair_at text.now }
    ensures first { IfOk result (λ read. read.0 < 32) }
    ensures second { IfOk result (λ read. read.1 < 32) }
{
    let a = register(first(text))?;
    let b = register(second(text))?;
    Ok((a, b))
}

/// A register and the upper twenty bits of a word.
#[tactic(auto, unfolding(crate::specs::Operand::upper_at))]
pub fn upper(text: &[u8]) -> Result<(u8, u32), TextFault>
    requires { length text.now < 2 ^ 32 }
    ensures reads { result ≡ upper_at text.now }
    ensures register { IfOk result (λ read. read.0 < 32) }
    ensures below { IfOk result (λ read. read.1 < 2 ^ 32) }
    ensures upper { IfOk result (λ read. read.1 % 2 ^ 12 ≡ 0) }
{
    let rd = register(first(text))?;
    let number = number_operand(second(text))?;
    let high = up_to((1 << 20) - 1, number)?;
    Ok((rd, high << 12))
}

/// A register and where to go.
#[tactic(auto, unfolding(crate::specs::Operand::jump_at, rv32_decode::specs::Instr::Fits))]
pub fn jump(labels: &BTreeMap<&[u8], Defined>, items: u32, text: &[u8]) -> Result<Instr, TextFault>
    requires { length text.now < 2 ^ 32 }
    ensures reads { result ≡ jump_at (found_in labels.now) items text.now }
    ensures fits { IfOk result Fits }
{
    let rd = register(first(text))?;
    let distance = target(labels, items, second(text))?;
    let offset = even_within(1 << 20, distance)?;
    Ok(Instr::Jal { rd, offset })
}

/// Two registers and where to go.
#[tactic(auto, unfolding(crate::specs::Operand::branch_at, rv32_decode::specs::Instr::Fits))]
pub fn branch(
    kind: BranchKind,
    labels: &BTreeMap<&[u8], Defined>,
    items: u32,
    text: &[u8],
) -> Result<Instr, TextFault>
    requires { length text.now < 2 ^ 32 }
    ensures reads { result ≡ branch_at kind (found_in labels.now) items text.now }
    ensures fits { IfOk result Fits }
{
    let (rs1, rs2) = pair(text)?;
    let distance = target(labels, items, third(text))?;
    let offset = even_within(1 << 12, distance)?;
    Ok(Instr::Branch {
        kind,
        rs1,
        rs2,
        offset,
    })
}

/// A register, and an offset from another; the second register comes before the offset.
#[tactic(auto, unfolding(crate::specs::Operand::based_at))]
pub fn based_on(text: &[u8]) -> Result<(u8, u8, i32), TextFault>
    requires { length text.now < 2 ^ 32 }
    ensures reads { result ≡ based_at text.now }
    ensures first { IfOk result (λ read. read.0 < 32) }
    ensures second { IfOk result (λ read. read.1 < 32) }
    ensures offset { IfOk result (λ read. IsSigned (2 ^ 11) read.2) }
{
    let register = register(first(text))?;
    let (number, base) = based(second(text))?;
    let offset = signed_within(1 << 11, number)?;
    Ok((register, base, offset))
}

/// Whether the number is a shift's amount.
fn is_shift(kind: OpImmKind) -> bool
    ensures { result ≡ is_shift_of kind }
{
    matches!(kind, OpImmKind::Slli | OpImmKind::Srli | OpImmKind::Srai)
}

/// A shift's amount, or a signed number.
#[tactic(auto, unfolding(crate::specs::Operand::immediate_within))]
fn immediate_within(kind: OpImmKind, number: i64) -> Result<i32, TextFault>
    ensures reads { result ≡ immediate_within_of kind number }
    ensures fits { IfOk result (FitsImmediate kind) }
{
    if is_shift(kind) {
        let amount = up_to(31, number)?;
        return Ok(amount as i32);
    }
    signed_within(1 << 11, number)
}

/// Two registers and a number.
#[tactic(auto, unfolding(crate::specs::Operand::immediate_at, rv32_decode::specs::Instr::Fits))]
pub fn immediate(kind: OpImmKind, text: &[u8]) -> Result<Instr, TextFault>
    requires { length text.now < 2 ^ 32 }
    ensures reads { result ≡ immediate_at kind text.now }
    ensures fits { IfOk result Fits }
{
    let (rd, rs1) = pair(text)?;
    let number = number_operand(third(text))?;
    let imm = immediate_within(kind, number)?;
    Ok(Instr::OpImm { kind, rd, rs1, imm })
}

/// Three registers.
#[tactic(auto, unfolding(crate::specs::Operand::registers_at, rv32_decode::specs::Instr::Fits))]
pub fn registers(kind: OpKind, text: &[u8]) -> Result<Instr, TextFault>
    ensures reads { result ≡ registers_at kind text.now }
    ensures fits { IfOk result Fits }
{
    let (rd, rs1) = pair(text)?;
    let rs2 = register(third(text))?;
    Ok(Instr::Op { kind, rd, rs1, rs2 })
}

/// Two sets of accesses.
#[tactic(auto, unfolding(crate::specs::Operand::sets_at, rv32_decode::specs::Instr::Fits))]
pub fn sets(text: &[u8]) -> Result<Instr, TextFault>
    ensures reads { result ≡ sets_at text.now }
    ensures fits { IfOk result Fits }
{
    let pred = set(first(text))?;
    let succ = set(second(text))?;
    Ok(Instr::Fence {
        fm: 0,
        pred,
        succ,
        rd: 0,
        rs1: 0,
    })
}

/// A register, and another in parentheses.
#[tactic(auto, unfolding(crate::specs::Operand::address_at, rv32_decode::specs::Instr::Fits))]
pub fn addressed(aq: bool, rl: bool, text: &[u8]) -> Result<Instr, TextFault>
    ensures reads { result ≡ address_at aq rl text.now }
    ensures fits { IfOk result Fits }
{
    let rd = register(first(text))?;
    let rs1 = address(second(text))?;
    Ok(Instr::Lr { rd, rs1, aq, rl })
}

/// The registers of an exchange with memory: where the old value goes, the address, and what is stored.
#[derive(Clone, Copy)]
pub struct Exchange {
    pub rd: u8,
    pub rs1: u8,
    pub rs2: u8,
}

/// Two registers, and another in parentheses, which comes before the second.
#[tactic(auto, unfolding(crate::specs::Operand::exchange_at))]
pub fn exchanged(text: &[u8]) -> Result<Exchange, TextFault>
    ensures reads { result ≡ exchange_at text.now }
    ensures first { IfOk result (λ read. read.rd < 32) }
    ensures second { IfOk result (λ read. read.rs1 < 32) }
    ensures third { IfOk result (λ read. read.rs2 < 32) }
{
    let (rd, rs2) = pair(text)?;
    let rs1 = address(third(text))?;
    Ok(Exchange { rd, rs1, rs2 })
}

/// A word.
#[tactic(auto, unfolding(crate::specs::Operand::plain_at))]
pub fn plain(text: &[u8]) -> Result<u32, TextFault>
    requires { length text.now < 2 ^ 32 }
    ensures reads { result ≡ plain_at text.now }
    ensures below { IfOk result (λ word. word < 2 ^ 32) }
{
    let number = number_operand(first(text))?;
    up_to(u32::MAX, number)
}
