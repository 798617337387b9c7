//! The names of registers, sets of fences and instructions.

ghost use Rattle.std.specs.Prelude.{◌≡◌, ◌<◌, [], length, map, slice_index_or, IfSome};
ghost use Rattle.std.specs.List.{position};
ghost use Rattle.std.specs.Str.{bytes_eq};
ghost use Rattle.rv32_text.specs.Name.{number_named as number_named_of, use_named as use_named_of, register_of, register_name as register_name_of, set_of, set_name as set_name_of, branch_name as branch_name_of, load_name as load_name_of, store_name as store_name_of, op_imm_name as op_imm_name_of, op_name as op_name_of, amo_name as amo_name_of, atomic_name as atomic_name_of, ordering_name as ordering_name_of, ending_name as ending_name_of, base_name as base_name_of, named_among as named_among_of, plain_of, ordered_of, atomic_named, row_named};

use crate::rows::{Atomic, Row};
use rv32_decode::{AmoKind, BranchKind, LoadKind, OpImmKind, OpKind, StoreKind};

/// The registers by number.
const NUMBER_NAMES: [&[u8]; 32] = [
    b"x0", b"x1", b"x2", b"x3", b"x4", b"x5", b"x6", b"x7", b"x8", b"x9", b"x10", b"x11", b"x12",
    b"x13", b"x14", b"x15", b"x16", b"x17", b"x18", b"x19", b"x20", b"x21", b"x22", b"x23", b"x24",
    b"x25", b"x26", b"x27", b"x28", b"x29", b"x30", b"x31",
];

/// The registers by use, as the calling convention of RISC-V names them.
const USE_NAMES: [&[u8]; 32] = [
    b"zero", b"ra", b"sp", b"gp", b"tp", b"t0", b"t1", b"t2", b"s0", b"s1", b"a0", b"a1", b"a2",
    b"a3", b"a4", b"a5", b"a6", b"a7", b"s2", b"s3", b"s4", b"s5", b"s6", b"s7", b"s8", b"s9",
    b"s10", b"s11", b"t3", b"t4", b"t5", b"t6",
];

/// The sets of accesses by number: `i` is worth 8, `o` 4, `r` 2 and `w` 1.
const SET_NAMES: [&[u8]; 16] = [
    b"0", b"w", b"r", b"rw", b"o", b"ow", b"or", b"orw", b"i", b"iw", b"ir", b"irw", b"io", b"iow",
    b"ior", b"iorw",
];

/// The place of a text among names.
fn place_among(names: &[&[u8]], text: &[u8]) -> Option<usize>
    ensures place { result ≡ position (λ name. bytes_eq text.now name.now) names.now }
    ensures within { IfSome result (λ place. place < length names.now) }
{
    names.iter().position(|name| text == *name)
}

#[tactic(auto, unfolding(crate::specs::Name::number_named))]
fn number_named(text: &[u8]) -> Option<usize>
    ensures register { result ≡ number_named_of text.now }
    ensures within { IfSome result (λ number. number < 32) }
{
    place_among(&NUMBER_NAMES, text)
}

#[tactic(auto, unfolding(crate::specs::Name::use_named))]
fn use_named(text: &[u8]) -> Option<usize>
    ensures register { result ≡ use_named_of text.now }
    ensures within { IfSome result (λ number. number < 32) }
{
    place_among(&USE_NAMES, text)
}

/// The register that a text names; `s0` is also called `fp`.
#[tactic(auto, unfolding(crate::specs::Name::register_of))]
pub fn register(text: &[u8]) -> Option<u8>
    ensures register { result ≡ register_of text.now }
    ensures within { IfSome result (λ number. number < 32) }
{
    if let Some(number) = number_named(text) {
        return Some(number as u8);
    }
    if let Some(number) = use_named(text) {
        return Some(number as u8);
    }
    if text == b"fp".as_slice() {
        return Some(8);
    }
    None
}

/// The name at a place of a table.
fn name_at(names: &[&'static [u8]], place: u8) -> &'static [u8]
    requires { place < length names.now }
    ensures { result.now ≡ slice_index_or (map (λ name. name.now) names.now) place [] }
{
    names[usize::from(place)]
}

/// The name of a register by its number.
pub fn register_name(number: u8) -> &'static [u8]
    requires { number < 32 }
    ensures { result.now ≡ register_name_of number }
{
    name_at(&NUMBER_NAMES, number)
}

#[tactic(auto, unfolding(crate::specs::Name::set_of))]
fn set_named(text: &[u8]) -> Option<usize>
    ensures set { result ≡ set_of text.now }
    ensures within { IfSome result (λ set. set < 16) }
{
    place_among(&SET_NAMES, text)
}

/// The set of accesses that a text names.
pub fn set(text: &[u8]) -> Option<u8>
    ensures set { result ≡ set_of text.now }
    ensures within { IfSome result (λ set. set < 16) }
{
    let set = set_named(text)?;
    Some(set as u8)
}

/// The name of a set of accesses.
pub fn set_name(set: u8) -> &'static [u8]
    requires { set < 16 }
    ensures { result.now ≡ set_name_of set }
{
    name_at(&SET_NAMES, set)
}

/// The name of a branch.
fn branch_name(kind: BranchKind) -> &'static [u8]
    ensures { result.now ≡ branch_name_of kind }
{
    match kind {
        BranchKind::Beq => b"beq",
        BranchKind::Bne => b"bne",
        BranchKind::Blt => b"blt",
        BranchKind::Bge => b"bge",
        BranchKind::Bltu => b"bltu",
        BranchKind::Bgeu => b"bgeu",
    }
}

/// The name of a load.
fn load_name(kind: LoadKind) -> &'static [u8]
    ensures { result.now ≡ load_name_of kind }
{
    match kind {
        LoadKind::Lb => b"lb",
        LoadKind::Lh => b"lh",
        LoadKind::Lw => b"lw",
        LoadKind::Lbu => b"lbu",
        LoadKind::Lhu => b"lhu",
    }
}

/// The name of a store.
fn store_name(kind: StoreKind) -> &'static [u8]
    ensures { result.now ≡ store_name_of kind }
{
    match kind {
        StoreKind::Sb => b"sb",
        StoreKind::Sh => b"sh",
        StoreKind::Sw => b"sw",
    }
}

/// The name of an operation with an immediate.
fn op_imm_name(kind: OpImmKind) -> &'static [u8]
    ensures { result.now ≡ op_imm_name_of kind }
{
    match kind {
        OpImmKind::Addi => b"addi",
        OpImmKind::Slti => b"slti",
        OpImmKind::Sltiu => b"sltiu",
        OpImmKind::Xori => b"xori",
        OpImmKind::Ori => b"ori",
        OpImmKind::Andi => b"andi",
        OpImmKind::Slli => b"slli",
        OpImmKind::Srli => b"srli",
        OpImmKind::Srai => b"srai",
    }
}

/// The name of an operation of two registers.
fn op_name(kind: OpKind) -> &'static [u8]
    ensures { result.now ≡ op_name_of kind }
{
    match kind {
        OpKind::Add => b"add",
        OpKind::Sll => b"sll",
        OpKind::Slt => b"slt",
        OpKind::Sltu => b"sltu",
        OpKind::Xor => b"xor",
        OpKind::Srl => b"srl",
        OpKind::Or => b"or",
        OpKind::And => b"and",
        OpKind::Sub => b"sub",
        OpKind::Sra => b"sra",
    }
}

/// The name of an atomic memory operation, without its ordering.
fn amo_name(kind: AmoKind) -> &'static [u8]
    ensures { result.now ≡ amo_name_of kind }
{
    match kind {
        AmoKind::Swap => b"amoswap.w",
        AmoKind::Add => b"amoadd.w",
        AmoKind::Xor => b"amoxor.w",
        AmoKind::And => b"amoand.w",
        AmoKind::Or => b"amoor.w",
        AmoKind::Min => b"amomin.w",
        AmoKind::Max => b"amomax.w",
        AmoKind::Minu => b"amominu.w",
        AmoKind::Maxu => b"amomaxu.w",
    }
}

/// The name of an atomic row, without its ordering.
fn atomic_name(kind: Atomic) -> &'static [u8]
    ensures { result.now ≡ atomic_name_of kind }
{
    match kind {
        Atomic::Lr => b"lr.w",
        Atomic::Sc => b"sc.w",
        Atomic::Amo(kind) => amo_name(kind),
    }
}

/// What stands behind the name of an atomic row for acquire and release.
fn ordering_name(aq: bool, rl: bool) -> &'static [u8]
    ensures { result.now ≡ ordering_name_of aq rl }
{
    match (aq, rl) {
        (true, true) => b".aqrl",
        (true, false) => b".aq",
        (false, true) => b".rl",
        (false, false) => b"",
    }
}

/// The name of a row; of an atomic one without its ordering.
pub fn base_name(row: Row) -> &'static [u8]
    ensures { result.now ≡ base_name_of row }
{
    match row {
        Row::Lui => b"lui",
        Row::Auipc => b"auipc",
        Row::Jal => b"jal",
        Row::Jalr => b"jalr",
        Row::Branch(kind) => branch_name(kind),
        Row::Load(kind) => load_name(kind),
        Row::Store(kind) => store_name(kind),
        Row::OpImm(kind) => op_imm_name(kind),
        Row::Op(kind) => op_name(kind),
        Row::Fence => b"fence",
        Row::FenceTso => b"fence.tso",
        Row::Ecall => b"ecall",
        Row::Ebreak => b"ebreak",
        Row::Atomic { kind, .. } => atomic_name(kind),
        Row::Word => b".word",
    }
}

/// What stands behind the name of a row: the ordering of an atomic one.
pub fn ending_name(row: Row) -> &'static [u8]
    ensures { result.now ≡ ending_name_of row }
{
    match row {
        Row::Atomic { aq, rl, .. } => ordering_name(aq, rl),
        Row::Lui
        | Row::Auipc
        | Row::Jal
        | Row::Jalr
        | Row::Branch(_)
        | Row::Load(_)
        | Row::Store(_)
        | Row::OpImm(_)
        | Row::Op(_)
        | Row::Fence
        | Row::FenceTso
        | Row::Ecall
        | Row::Ebreak
        | Row::Word => b"",
    }
}

/// The rows without an ordering.
const PLAIN: [Row; 42] = [
    Row::Lui,
    Row::Auipc,
    Row::Jal,
    Row::Jalr,
    Row::Branch(BranchKind::Beq),
    Row::Branch(BranchKind::Bne),
    Row::Branch(BranchKind::Blt),
    Row::Branch(BranchKind::Bge),
    Row::Branch(BranchKind::Bltu),
    Row::Branch(BranchKind::Bgeu),
    Row::Load(LoadKind::Lb),
    Row::Load(LoadKind::Lh),
    Row::Load(LoadKind::Lw),
    Row::Load(LoadKind::Lbu),
    Row::Load(LoadKind::Lhu),
    Row::Store(StoreKind::Sb),
    Row::Store(StoreKind::Sh),
    Row::Store(StoreKind::Sw),
    Row::OpImm(OpImmKind::Addi),
    Row::OpImm(OpImmKind::Slti),
    Row::OpImm(OpImmKind::Sltiu),
    Row::OpImm(OpImmKind::Xori),
    Row::OpImm(OpImmKind::Ori),
    Row::OpImm(OpImmKind::Andi),
    Row::OpImm(OpImmKind::Slli),
    Row::OpImm(OpImmKind::Srli),
    Row::OpImm(OpImmKind::Srai),
    Row::Op(OpKind::Add),
    Row::Op(OpKind::Sll),
    Row::Op(OpKind::Slt),
    Row::Op(OpKind::Sltu),
    Row::Op(OpKind::Xor),
    Row::Op(OpKind::Srl),
    Row::Op(OpKind::Or),
    Row::Op(OpKind::And),
    Row::Op(OpKind::Sub),
    Row::Op(OpKind::Sra),
    Row::Fence,
    Row::FenceTso,
    Row::Ecall,
    Row::Ebreak,
    Row::Word,
];

/// The atomic rows.
const ATOMICS: [Atomic; 11] = [
    Atomic::Lr,
    Atomic::Sc,
    Atomic::Amo(AmoKind::Swap),
    Atomic::Amo(AmoKind::Add),
    Atomic::Amo(AmoKind::Xor),
    Atomic::Amo(AmoKind::And),
    Atomic::Amo(AmoKind::Or),
    Atomic::Amo(AmoKind::Min),
    Atomic::Amo(AmoKind::Max),
    Atomic::Amo(AmoKind::Minu),
    Atomic::Amo(AmoKind::Maxu),
];

/// The first of these rows that has the name.
#[tactic(auto, unfolding(crate::specs::Name::named_among))]
fn named_among(rows: &[Row], text: &[u8]) -> Option<Row>
    ensures { result ≡ named_among_of rows.now text.now }
{
    rows.iter().find(|row| text == base_name(**row)).copied()
}

/// A row without an ordering, by its name.
#[tactic(auto, unfolding(crate::specs::Name::plain_of))]
fn plain(text: &[u8]) -> Option<Row>
    ensures { result ≡ plain_of text.now }
{
    named_among(&PLAIN, text)
}

/// An atomic row with this ordering, by its name without it.
#[tactic(auto, unfolding(crate::specs::Name::ordered_of))]
fn ordered(text: &[u8], aq: bool, rl: bool) -> Option<Row>
    ensures { result ≡ ordered_of text.now aq rl }
{
    let kind = ATOMICS
        .iter()
        .find(|kind| text == atomic_name(**kind))
        .copied()?;
    Some(Row::Atomic { kind, aq, rl })
}

#[tactic(auto, unfolding(crate::specs::Name::atomic_named))]
fn atomic(text: &[u8]) -> Option<Row>
    ensures { result ≡ atomic_named text.now }
{
    if let Some(name) = text.strip_suffix(b".aqrl") {
        return ordered(name, true, true);
    }
    if let Some(name) = text.strip_suffix(b".aq") {
        return ordered(name, true, false);
    }
    if let Some(name) = text.strip_suffix(b".rl") {
        return ordered(name, false, true);
    }
    ordered(text, false, false)
}

/// The row that a text names.
#[tactic(auto, unfolding(crate::specs::Name::row_named))]
pub fn row(text: &[u8]) -> Option<Row>
    ensures { result ≡ row_named text.now }
{
    if let Some(row) = plain(text) {
        return Some(row);
    }
    atomic(text)
}
