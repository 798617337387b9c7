//! A statement, read into its instruction.

ghost use Rattle.std.specs.Prelude.{◌≡◌, ◌<◌, ◌≤◌, ◌^◌, length, ok_or, IfOk};
ghost use Rattle.rv32_decode.specs.Instr.{Fits};
ghost use Rattle.rv32_text.specs.Found.{found_in};
ghost use Rattle.rv32_text.specs.Name.{row_named};
ghost use Rattle.rv32_text.specs.Statement.{atomic_at, item_at, item_in, is_labelled as is_labelled_at, line_item, stored_at, as_item as as_item_of, FitsItem, FitsLine, item_name, operands_of};

use crate::faults::TextFault;
use crate::items::Item;
use crate::labels::{Defined, code, found, has_colon, is_label, label_before, statement};
use crate::names;
use crate::operands::{
    addressed, based_on, branch, exchanged, immediate, jump, operand_count, plain, registers, sets,
    upper,
};
use crate::rows::{Atomic, Row, operands_wanted};
use plain_text::{first_blank, is_text};
use rv32_decode::{Instr, StoreKind};
use std::collections::BTreeMap;

/// The fence of total store order.
const FENCE_TSO: Instr = Instr::Fence {
    fm: 8,
    pred: 3,
    succ: 3,
    rd: 0,
    rs1: 0,
};

/// The store with these operands: the register that is stored comes before its base.
#[tactic(auto, unfolding(crate::specs::Statement::stored_at, rv32_decode::specs::Instr::Fits))]
fn store(kind: StoreKind, text: &[u8]) -> Result<Instr, TextFault>
    requires { length text.now < 2 ^ 32 }
    ensures reads { result ≡ stored_at kind text.now }
    ensures fits { IfOk result Fits }
{
    let (rs2, rs1, offset) = based_on(text)?;
    Ok(Instr::Store {
        kind,
        rs1,
        rs2,
        offset,
    })
}

/// The atomic instruction with these operands.
#[tactic(auto, unfolding(crate::specs::Statement::atomic_at, rv32_decode::specs::Instr::Fits))]
fn atomic(kind: Atomic, aq: bool, rl: bool, text: &[u8]) -> Result<Instr, TextFault>
    ensures reads { result ≡ atomic_at kind aq rl text.now }
    ensures fits { IfOk result Fits }
{
    match kind {
        Atomic::Lr => addressed(aq, rl, text),
        Atomic::Sc => {
            let registers = exchanged(text)?;
            Ok(Instr::Sc {
                rd: registers.rd,
                rs1: registers.rs1,
                rs2: registers.rs2,
                aq,
                rl,
            })
        }
        Atomic::Amo(kind) => {
            let registers = exchanged(text)?;
            Ok(Instr::Amo {
                kind,
                rd: registers.rd,
                rs1: registers.rs1,
                rs2: registers.rs2,
                aq,
                rl,
            })
        }
    }
}

/// The item of an instruction that was read.
#[tactic(auto, unfolding(crate::specs::Statement::FitsItem))]
fn as_item(read: Result<Instr, TextFault>) -> Result<Item, TextFault>
    requires { IfOk read Fits }
    ensures item { result ≡ as_item_of read }
    ensures fits { IfOk result FitsItem }
{
    match read {
        Ok(instr) => Ok(Item::Instr(instr)),
        Err(fault) => Err(fault),
    }
}

/// The item of a row with these operands, where so many items stand before it.
#[tactic(auto, unfolding(crate::specs::Statement::item_at, crate::specs::Statement::FitsItem, rv32_decode::specs::Instr::Fits))]
fn item_with(
    labels: &BTreeMap<&[u8], Defined>,
    items: u32,
    row: Row,
    text: &[u8],
) -> Result<Item, TextFault>
    requires { length text.now < 2 ^ 32 }
    ensures reads { result ≡ item_at (found_in labels.now) items row text.now }
    ensures fits { IfOk result FitsItem }
{
    match row {
        Row::Lui => {
            let (rd, imm) = upper(text)?;
            Ok(Item::Instr(Instr::Lui { rd, imm }))
        }
        Row::Auipc => {
            let (rd, imm) = upper(text)?;
            Ok(Item::Instr(Instr::Auipc { rd, imm }))
        }
        Row::Jal => as_item(jump(labels, items, text)),
        Row::Jalr => {
            let (rd, rs1, offset) = based_on(text)?;
            Ok(Item::Instr(Instr::Jalr { rd, rs1, offset }))
        }
        Row::Branch(kind) => as_item(branch(kind, labels, items, text)),
        Row::Load(kind) => {
            let (rd, rs1, offset) = based_on(text)?;
            Ok(Item::Instr(Instr::Load {
                kind,
                rd,
                rs1,
                offset,
            }))
        }
        Row::Store(kind) => as_item(store(kind, text)),
        Row::OpImm(kind) => as_item(immediate(kind, text)),
        Row::Op(kind) => as_item(registers(kind, text)),
        Row::Fence => as_item(sets(text)),
        Row::FenceTso => Ok(Item::Instr(FENCE_TSO)),
        Row::Ecall => Ok(Item::Instr(Instr::Ecall)),
        Row::Ebreak => Ok(Item::Instr(Instr::Ebreak)),
        Row::Atomic { kind, aq, rl } => as_item(atomic(kind, aq, rl, text)),
        Row::Word => Ok(Item::Word(plain(text)?)),
    }
}

fn row(name: &[u8]) -> Result<Row, TextFault>
    ensures { result ≡ ok_or (row_named name.now) (TextFault.Word) }
{
    names::row(name).ok_or(TextFault::Word)
}

/// The name of an item, which ends at the first blank.
fn name(statement: &[u8]) -> &[u8]
    ensures { result.now ≡ item_name statement.now }
{
    &statement[..first_blank(statement)]
}

/// What stands behind the name of an item.
fn operands(statement: &[u8]) -> &[u8]
    ensures part { result.now ≡ operands_of statement.now }
    ensures short { length result.now ≤ length statement.now }
{
    &statement[first_blank(statement)..]
}

/// The item of a statement, where so many items stand before it.
#[tactic(auto, unfolding(crate::specs::Statement::item_in))]
fn item(labels: &BTreeMap<&[u8], Defined>, items: u32, statement: &[u8]) -> Result<Item, TextFault>
    requires { length statement.now < 2 ^ 32 }
    ensures reads { result ≡ item_in (found_in labels.now) items statement.now }
    ensures fits { IfOk result FitsItem }
{
    let row = row(name(statement))?;
    let operands = operands(statement);
    if operand_count(operands) != operands_wanted(row) {
        return Err(TextFault::Operand);
    }
    item_with(labels, items, row, operands)
}

/// Whether the label of a line, if it has one, is well formed and defined on no earlier line.
#[tactic(auto, unfolding(crate::specs::Statement::is_labelled))]
fn is_labelled(labels: &BTreeMap<&[u8], Defined>, line: u32, code: &[u8]) -> bool
    ensures { result ≡ is_labelled_at (found_in labels.now) line code.now }
{
    if !has_colon(code) {
        return true;
    }
    let label = label_before(code);
    if !is_label(label) {
        return false;
    }
    match found(labels, label) {
        Some(place) => place.line == line,
        None => false,
    }
}

/// The item of a line with this number, where so many items stand before it.
#[tactic(auto, unfolding(crate::specs::Statement::line_item))]
pub fn item_of_line(
    labels: &BTreeMap<&[u8], Defined>,
    line: u32,
    items: u32,
    text: &[u8],
) -> Result<Option<Item>, TextFault>
    requires { length text.now < 2 ^ 32 }
    ensures reads { result ≡ line_item (found_in labels.now) line items text.now }
    ensures fits { IfOk result FitsLine }
{
    if !is_text(text) {
        return Err(TextFault::Text);
    }
    let code = code(text);
    if !is_labelled(labels, line, code) {
        return Err(TextFault::Label);
    }
    let statement = statement(code);
    if statement.is_empty() {
        return Ok(None);
    }
    let item = item(labels, items, statement)?;
    Ok(Some(item))
}
