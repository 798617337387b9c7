//! An instruction, written as a statement.

ghost use Rattle.std.specs.Prelude.{◌≡◌, ◌<◌, ◌++◌, codes, OnOk};
ghost use Rattle.std.specs.Fmt.{signed_decimal};
ghost use Rattle.rv32_decode.specs.Instr.{Fits};
ghost use Rattle.rv32_text.specs.Name.{register_name as register_name_of, set_name as set_name_of, row_name as row_name_of};
ghost use Rattle.rv32_text.specs.declared.rows.Row.TheVariants as row;
ghost use Rattle.rv32_text.specs.Statement.{FitsItem};
ghost use Rattle.rv32_text.specs.Written.{has_text as has_text_of, is_tso as is_tso_of, based_text, address_text, last_text, FitsLast, hex_glyph, word_text, with_one, with_two, with_three, FitsOperands, row_text, instr_row, instr_text, item_text};

use crate::items::Item;
use crate::names::{base_name, ending_name, register_name, set_name};
use crate::rows::{Atomic, Row};
use mind_base::NoMemory;
use plain_text::put_decimal;
use rv32_decode::Instr;
use std::alloc::Global;

/// An operand that comes last, by how it is written, or the second register of three operands.
#[derive(Clone, Copy)]
pub enum Last {
    Register(u8),
    Unsigned(u32),
    Signed(i32),
    /// A register in parentheses.
    Address(u8),
    /// An offset, and a register in parentheses.
    Based(i32, u8),
}

/// The operands of an instruction, as they are written.
#[derive(Clone, Copy)]
pub enum Operands {
    Bare,
    /// Two sets of accesses.
    Sets(u8, u8),
    /// A register and a last operand.
    Two(u8, Last),
    /// Two registers and a last operand.
    Three(u8, u8, Last),
}

/// Whether an instruction has a text: every one but the fences whose fields are not all told by theirs.
pub fn has_text(instr: &Instr) -> bool
    ensures { result ≡ has_text_of instr.now }
{
    match *instr {
        Instr::Fence { fm, rd, rs1, .. } => rd == 0 && rs1 == 0 && (fm == 0 || is_tso(instr)),
        _ => true,
    }
}

/// Whether an instruction is the fence of total store order, whatever its registers.
fn is_tso(instr: &Instr) -> bool
    ensures { result ≡ is_tso_of instr.now }
{
    match *instr {
        Instr::Fence { fm, pred, succ, .. } => fm == 8 && pred == 3 && succ == 3,
        _ => false,
    }
}

fn put_row(out: &mut Vec<u8>, row: Row) -> Result<(), NoMemory>
    ensures { OnOk result (out.new.items ≡ out.old.items ++ row_name_of row) }
{
    out.extend_from_slice(base_name(row))?;
    out.extend_from_slice(ending_name(row))?;
    Ok(())
}

/// A row and the register behind it.
fn put_front(out: &mut Vec<u8>, row: Row, register: u8) -> Result<(), NoMemory>
    requires { register < 32 }
    ensures { OnOk result (out.new.items ≡ out.old.items ++ (row_name_of row ++ codes " " ++ register_name_of register)) }
{
    put_row(out, row)?;
    out.extend_from_slice(b" ")?;
    out.extend_from_slice(register_name(register))?;
    Ok(())
}

fn put_signed(alloc: Global, out: &mut Vec<u8>, n: i32) -> Result<(), NoMemory>
    ensures { OnOk result (out.new.items ≡ out.old.items ++ signed_decimal n) }
{
    let text = format!(in alloc; "{n}")?;
    out.extend_from_slice(text.as_bytes())?;
    Ok(())
}

/// A register in parentheses.
fn put_address(out: &mut Vec<u8>, base: u8) -> Result<(), NoMemory>
    requires { base < 32 }
    ensures { OnOk result (out.new.items ≡ out.old.items ++ address_text base) }
{
    out.extend_from_slice(b"(")?;
    out.extend_from_slice(register_name(base))?;
    out.extend_from_slice(b")")?;
    Ok(())
}

fn put_based(alloc: Global, out: &mut Vec<u8>, offset: i32, base: u8) -> Result<(), NoMemory>
    requires { base < 32 }
    ensures { OnOk result (out.new.items ≡ out.old.items ++ based_text offset base) }
{
    put_signed(alloc, out, offset)?;
    put_address(out, base)
}

/// A comma and an operand behind it.
fn put_last(alloc: Global, out: &mut Vec<u8>, last: Last) -> Result<(), NoMemory>
    requires { FitsLast last }
    ensures { OnOk result (out.new.items ≡ out.old.items ++ (codes ", " ++ last_text last)) }
{
    out.extend_from_slice(b", ")?;
    match last {
        Last::Register(number) => {
            out.extend_from_slice(register_name(number))?;
            Ok(())
        }
        Last::Unsigned(n) => put_decimal(alloc, out, u64::from(n)),
        Last::Signed(n) => put_signed(alloc, out, n),
        Last::Address(base) => put_address(out, base),
        Last::Based(offset, base) => put_based(alloc, out, offset, base),
    }
}

/// A row, a register and a last operand.
fn put_two(
    alloc: Global,
    out: &mut Vec<u8>,
    row: Row,
    register: u8,
    last: Last,
) -> Result<(), NoMemory>
    requires register { register < 32 }
    requires last { FitsLast last }
    ensures { OnOk result (out.new.items ≡ out.old.items ++ with_two row (register_name_of register) (last_text last)) }
{
    put_front(out, row, register)?;
    put_last(alloc, out, last)
}

/// A row, two registers and a last operand.
fn put_three(
    alloc: Global,
    out: &mut Vec<u8>,
    row: Row,
    first: u8,
    second: u8,
    last: Last,
) -> Result<(), NoMemory>
    requires first { first < 32 }
    requires second { second < 32 }
    requires last { FitsLast last }
    ensures { OnOk result (out.new.items ≡ out.old.items ++ with_three row (register_name_of first) (register_name_of second) (last_text last)) }
{
    put_two(alloc, out, row, first, Last::Register(second))?;
    put_last(alloc, out, last)
}

/// A row and two sets of accesses.
fn put_sets(out: &mut Vec<u8>, row: Row, pred: u8, succ: u8) -> Result<(), NoMemory>
    requires pred { pred < 16 }
    requires succ { succ < 16 }
    ensures { OnOk result (out.new.items ≡ out.old.items ++ with_two row (set_name_of pred) (set_name_of succ)) }
{
    put_row(out, row)?;
    out.extend_from_slice(b" ")?;
    out.extend_from_slice(set_name(pred))?;
    out.extend_from_slice(b", ")?;
    out.extend_from_slice(set_name(succ))?;
    Ok(())
}

/// A row and its operands.
fn put_operands(
    alloc: Global,
    out: &mut Vec<u8>,
    row: Row,
    operands: Operands,
) -> Result<(), NoMemory>
    requires { FitsOperands operands }
    ensures { OnOk result (out.new.items ≡ out.old.items ++ row_text (row, operands)) }
{
    match operands {
        Operands::Bare => put_row(out, row),
        Operands::Sets(pred, succ) => put_sets(out, row, pred, succ),
        Operands::Two(register, last) => put_two(alloc, out, row, register, last),
        Operands::Three(first, second, last) => put_three(alloc, out, row, first, second, last),
    }
}

/// The row of an instruction.
#[tactic(auto, unfolding(crate::specs::Written::instr_row))]
fn row_of(instr: &Instr) -> Row
    ensures { result ≡ (instr_row instr.now).0 }
{
    match *instr {
        Instr::Lui { .. } => Row::Lui,
        Instr::Auipc { .. } => Row::Auipc,
        Instr::Jal { .. } => Row::Jal,
        Instr::Jalr { .. } => Row::Jalr,
        Instr::Branch { kind, .. } => Row::Branch(kind),
        Instr::Load { kind, .. } => Row::Load(kind),
        Instr::Store { kind, .. } => Row::Store(kind),
        Instr::OpImm { kind, .. } => Row::OpImm(kind),
        Instr::Op { kind, .. } => Row::Op(kind),
        Instr::Fence { fm: 0, .. } => Row::Fence,
        Instr::Fence { .. } => Row::FenceTso,
        Instr::Ecall => Row::Ecall,
        Instr::Ebreak => Row::Ebreak,
        Instr::Lr { aq, rl, .. } => atomic(Atomic::Lr, aq, rl),
        Instr::Sc { aq, rl, .. } => atomic(Atomic::Sc, aq, rl),
        Instr::Amo { kind, aq, rl, .. } => atomic(Atomic::Amo(kind), aq, rl),
    }
}

fn atomic(kind: Atomic, aq: bool, rl: bool) -> Row
    ensures { result ≡ row.Atomic kind aq rl }
{
    Row::Atomic { kind, aq, rl }
}

/// The operands of an instruction.
#[tactic(auto, unfolding(crate::specs::Written::instr_row, rv32_decode::specs::Instr::Fits))]
fn operands_of(instr: &Instr) -> Operands
    requires { Fits instr.now }
    ensures form { result ≡ (instr_row instr.now).1 }
    ensures fits { FitsOperands result }
{
    match *instr {
        Instr::Lui { rd, imm } | Instr::Auipc { rd, imm } => {
            Operands::Two(rd, Last::Unsigned(imm >> 12))
        }
        Instr::Jal { rd, offset } => Operands::Two(rd, Last::Signed(offset)),
        Instr::Jalr { rd, rs1, offset }
        | Instr::Load {
            rd,
            rs1,
            offset,
            ..
        } => Operands::Two(rd, Last::Based(offset, rs1)),
        Instr::Branch {
            rs1,
            rs2,
            offset,
            ..
        } => Operands::Three(rs1, rs2, Last::Signed(offset)),
        Instr::Store {
            rs1,
            rs2,
            offset,
            ..
        } => Operands::Two(rs2, Last::Based(offset, rs1)),
        Instr::OpImm { rd, rs1, imm, .. } => Operands::Three(rd, rs1, Last::Signed(imm)),
        Instr::Op { rd, rs1, rs2, .. } => Operands::Three(rd, rs1, Last::Register(rs2)),
        Instr::Fence {
            fm: 0,
            pred,
            succ,
            ..
        } => Operands::Sets(pred, succ),
        Instr::Fence { .. } | Instr::Ecall | Instr::Ebreak => Operands::Bare,
        Instr::Lr { rd, rs1, .. } => Operands::Two(rd, Last::Address(rs1)),
        Instr::Sc { rd, rs1, rs2, .. } | Instr::Amo { rd, rs1, rs2, .. } => {
            Operands::Three(rd, rs2, Last::Address(rs1))
        }
    }
}

#[tactic(auto, unfolding(crate::specs::Written::instr_text))]
fn put_instr(alloc: Global, out: &mut Vec<u8>, instr: &Instr) -> Result<(), NoMemory>
    requires { Fits instr.now }
    ensures { OnOk result (out.new.items ≡ out.old.items ++ instr_text instr.now) }
{
    put_operands(alloc, out, row_of(instr), operands_of(instr))
}

/// The hexadecimal digit of a word at a place, counted from the lowest.
fn glyph(word: u32, place: u32) -> u8
    requires { place < 8 }
    ensures { result ≡ hex_glyph word place }
{
    let digit = (word >> (4 * place)) % 16;
    if digit < 10 {
        48 + digit as u8
    } else {
        87 + digit as u8
    }
}

/// A word in eight hexadecimal digits.
fn put_word(out: &mut Vec<u8>, word: u32) -> Result<(), NoMemory>
    ensures { OnOk result (out.new.items ≡ out.old.items ++ with_one row.Word (word_text word)) }
{
    put_row(out, Row::Word)?;
    out.extend_from_slice(b" ")?;
    let text = [
        b'0',
        b'x',
        glyph(word, 7),
        glyph(word, 6),
        glyph(word, 5),
        glyph(word, 4),
        glyph(word, 3),
        glyph(word, 2),
        glyph(word, 1),
        glyph(word, 0),
    ];
    out.extend_from_slice(&text)?;
    Ok(())
}

/// The text of an item.
#[tactic(auto, unfolding(crate::specs::Written::item_text, crate::specs::Statement::FitsItem))]
pub fn put_item(alloc: Global, out: &mut Vec<u8>, item: &Item) -> Result<(), NoMemory>
    requires { FitsItem item.now }
    ensures { OnOk result (out.new.items ≡ out.old.items ++ item_text item.now) }
{
    match item {
        Item::Instr(instr) => put_instr(alloc, out, instr),
        Item::Word(word) => put_word(out, *word),
    }
}
