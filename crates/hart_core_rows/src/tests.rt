//! Worked values of what instructions ask, from outside the crate.
//!
//! The words are those of GNU binutils 2.40 for the assembly of each row, and the fences' by their fields; the
//! answers were worked out from the RISC-V manual's text by a small script that knows nothing of this crate.

use hart_core::{Act, Regs, act, amo, extend, load_size};
use rv32_decode::{AmoKind, LoadKind, decode};
use std::alloc::Global;
use std::process::Abort;
use std::test::Fail;

// A word, what x5 and x6 contain, the pc, and the value for x7.
static VALUES: [(u32, u32, u32, u32, u32); 57] = [
    (0x0062_83b3, 0x8000_0001, 3, 0x1000, 0x8000_0004),
    (0x0062_83b3, 3, 0xffff_ffff, 0x1000, 2),
    (0x0062_83b3, 0x7fff_fff0, 0x8000_0020, 0x1000, 16),
    (0x0062_93b3, 0x8000_0001, 3, 0x1000, 8),
    (0x0062_93b3, 3, 0xffff_ffff, 0x1000, 0x8000_0000),
    (0x0062_93b3, 0x7fff_fff0, 0x8000_0020, 0x1000, 0x7fff_fff0),
    (0x0062_a3b3, 0x8000_0001, 3, 0x1000, 1),
    (0x0062_a3b3, 3, 0xffff_ffff, 0x1000, 0),
    (0x0062_a3b3, 0x7fff_fff0, 0x8000_0020, 0x1000, 0),
    (0x0062_b3b3, 0x8000_0001, 3, 0x1000, 0),
    (0x0062_b3b3, 3, 0xffff_ffff, 0x1000, 1),
    (0x0062_b3b3, 0x7fff_fff0, 0x8000_0020, 0x1000, 1),
    (0x0062_c3b3, 0x8000_0001, 3, 0x1000, 0x8000_0002),
    (0x0062_c3b3, 3, 0xffff_ffff, 0x1000, 0xffff_fffc),
    (0x0062_c3b3, 0x7fff_fff0, 0x8000_0020, 0x1000, 0xffff_ffd0),
    (0x0062_d3b3, 0x8000_0001, 3, 0x1000, 0x1000_0000),
    (0x0062_d3b3, 3, 0xffff_ffff, 0x1000, 0),
    (0x0062_d3b3, 0x7fff_fff0, 0x8000_0020, 0x1000, 0x7fff_fff0),
    (0x0062_e3b3, 0x8000_0001, 3, 0x1000, 0x8000_0003),
    (0x0062_e3b3, 3, 0xffff_ffff, 0x1000, 0xffff_ffff),
    (0x0062_e3b3, 0x7fff_fff0, 0x8000_0020, 0x1000, 0xffff_fff0),
    (0x0062_f3b3, 0x8000_0001, 3, 0x1000, 1),
    (0x0062_f3b3, 3, 0xffff_ffff, 0x1000, 3),
    (0x0062_f3b3, 0x7fff_fff0, 0x8000_0020, 0x1000, 32),
    (0x4062_83b3, 0x8000_0001, 3, 0x1000, 0x7fff_fffe),
    (0x4062_83b3, 3, 0xffff_ffff, 0x1000, 4),
    (0x4062_83b3, 0x7fff_fff0, 0x8000_0020, 0x1000, 0xffff_ffd0),
    (0x4062_d3b3, 0x8000_0001, 3, 0x1000, 0xf000_0000),
    (0x4062_d3b3, 3, 0xffff_ffff, 0x1000, 0),
    (0x4062_d3b3, 0x7fff_fff0, 0x8000_0020, 0x1000, 0x7fff_fff0),
    (0xfff2_8393, 0x8000_0001, 0, 0xffff_fffc, 0x8000_0000),
    (0x7ff2_8393, 5, 0, 0xffff_fffc, 0x804),
    (0x8002_8393, 0xffff_f801, 0, 0xffff_fffc, 0xffff_f001),
    (0xfff2_a393, 0x8000_0001, 0, 0xffff_fffc, 1),
    (0x7ff2_a393, 5, 0, 0xffff_fffc, 1),
    (0x8002_a393, 0xffff_f801, 0, 0xffff_fffc, 0),
    (0xfff2_b393, 0x8000_0001, 0, 0xffff_fffc, 1),
    (0x7ff2_b393, 5, 0, 0xffff_fffc, 1),
    (0x8002_b393, 0xffff_f801, 0, 0xffff_fffc, 0),
    (0xfff2_c393, 0x8000_0001, 0, 0xffff_fffc, 0x7fff_fffe),
    (0x7ff2_c393, 5, 0, 0xffff_fffc, 0x7fa),
    (0x8002_c393, 0xffff_f801, 0, 0xffff_fffc, 1),
    (0xfff2_e393, 0x8000_0001, 0, 0xffff_fffc, 0xffff_ffff),
    (0x7ff2_e393, 5, 0, 0xffff_fffc, 0x7ff),
    (0x8002_e393, 0xffff_f801, 0, 0xffff_fffc, 0xffff_f801),
    (0xfff2_f393, 0x8000_0001, 0, 0xffff_fffc, 0x8000_0001),
    (0x7ff2_f393, 5, 0, 0xffff_fffc, 5),
    (0x8002_f393, 0xffff_f801, 0, 0xffff_fffc, 0xffff_f800),
    (0x01f2_9393, 0x8000_0001, 0, 0xffff_fffc, 0x8000_0000),
    (0x0042_9393, 0xffff_f0ff, 0, 0xffff_fffc, 0xffff_0ff0),
    (0x01f2_d393, 0x8000_0001, 0, 0xffff_fffc, 1),
    (0x0042_d393, 0xffff_f0ff, 0, 0xffff_fffc, 0xfff_ff0f),
    (0x41f2_d393, 0x8000_0001, 0, 0xffff_fffc, 0xffff_ffff),
    (0x4042_d393, 0xffff_f0ff, 0, 0xffff_fffc, 0xffff_ff0f),
    (0x0060_03b3, 9, 4, 8, 4),
    (0xffff_f3b7, 0, 0, 4, 0xffff_f000),
    (0xffff_f397, 0, 0, 0x2000, 0x1000),
];

// What x5 and x6 contain.
static PAIRS: [(u32, u32); 3] = [(5, 5), (0xffff_ffff, 1), (1, 0xffff_ffff)];

// A branch at 256 by -8, and where it leads with each of the pairs.
static BRANCHES: [(u32, [u32; 3]); 6] = [
    (0xfe62_8ce3, [248, 260, 260]),
    (0xfe62_9ce3, [260, 248, 248]),
    (0xfe62_cce3, [260, 248, 260]),
    (0xfe62_dce3, [248, 260, 248]),
    (0xfe62_ece3, [260, 260, 248]),
    (0xfe62_fce3, [248, 248, 260]),
];

// A branch, what x5 and x6 contain, the pc, and where it leads.
static FAR_BRANCHES: [(u32, u32, u32, u32, u32); 3] = [
    (0x0062_8363, 1, 1, 256, 262),
    (0x0062_8363, 1, 2, 256, 260),
    (0x8062_9063, 1, 2, 0, 0xffff_f000),
];

// A jump, what x5 contains, the pc, and where it leads.
static JUMPS: [(u32, u32, u32, u32); 7] = [
    (0xff9f_f3ef, 0, 0, 0xffff_fff8),
    (0x7fff_f3ef, 0, 4, 0x10_0002),
    (0x0020_006f, 0, 0, 2),
    (0x0012_83e7, 0x2000, 8, 0x2000),
    (0xfff2_83e7, 0x2000, 8, 0x1ffe),
    (0xffc2_82e7, 0, 8, 0xffff_fffc),
    (0x0060_0067, 0, 24, 6),
];

// A fence, and whether it is ordering.
static FENCES: [(u32, bool); 16] = [
    (0x0120_000f, true),
    (0x0330_000f, true),
    (0x0ff0_000f, true),
    (0x0110_000f, false),
    (0x0220_000f, false),
    (0x0130_000f, true),
    (0x0320_000f, true),
    (0x0cc0_000f, false),
    (0x0000_000f, false),
    (0x8330_000f, false),
    (0x8320_000f, true),
    (0x8130_000f, true),
    (0x8ff0_000f, true),
    (0x9330_000f, true),
    (0xf120_000f, true),
    (0x8230_000f, false),
];

// Any other word, what x5 and x6 contain, and what is asked.
static ACTS: [(u32, u32, u32, &str); 22] = [
    (
        0xffc2_8383,
        2,
        0,
        "Load { kind: Lb, rd: 7, address: 4294967294 }",
    ),
    (
        0xffc2_9383,
        2,
        0,
        "Load { kind: Lh, rd: 7, address: 4294967294 }",
    ),
    (
        0xffc2_a383,
        2,
        0,
        "Load { kind: Lw, rd: 7, address: 4294967294 }",
    ),
    (
        0xffc2_c383,
        2,
        0,
        "Load { kind: Lbu, rd: 7, address: 4294967294 }",
    ),
    (
        0xffc2_d383,
        2,
        0,
        "Load { kind: Lhu, rd: 7, address: 4294967294 }",
    ),
    (
        0x7e62_8fa3,
        0xffff_f901,
        0x1234_5678,
        "Store { size: 1, address: 256, value: 305419896 }",
    ),
    (
        0x7e62_9fa3,
        0xffff_f901,
        0x1234_5678,
        "Store { size: 2, address: 256, value: 305419896 }",
    ),
    (
        0x7e62_afa3,
        0xffff_f901,
        0x1234_5678,
        "Store { size: 4, address: 256, value: 305419896 }",
    ),
    (0x0002_a023, 8, 7, "Store { size: 4, address: 8, value: 0 }"),
    (
        0x1002_a3af,
        0x1000,
        9,
        "Locked { kind: Lr, rd: 7, address: 4096, operand: 0 }",
    ),
    (
        0x1862_a3af,
        0x1001,
        9,
        "Locked { kind: Sc, rd: 7, address: 4097, operand: 9 }",
    ),
    (
        0x0862_a3af,
        0x1000,
        9,
        "Locked { kind: Amo { kind: Swap }, rd: 7, address: 4096, operand: 9 }",
    ),
    (
        0x0062_a3af,
        0x1000,
        9,
        "Locked { kind: Amo { kind: Add }, rd: 7, address: 4096, operand: 9 }",
    ),
    (
        0x2062_a3af,
        0x1000,
        9,
        "Locked { kind: Amo { kind: Xor }, rd: 7, address: 4096, operand: 9 }",
    ),
    (
        0x6062_a3af,
        0x1000,
        9,
        "Locked { kind: Amo { kind: And }, rd: 7, address: 4096, operand: 9 }",
    ),
    (
        0x4062_a3af,
        0x1000,
        9,
        "Locked { kind: Amo { kind: Or }, rd: 7, address: 4096, operand: 9 }",
    ),
    (
        0x8062_a3af,
        0x1000,
        9,
        "Locked { kind: Amo { kind: Min }, rd: 7, address: 4096, operand: 9 }",
    ),
    (
        0xa062_a3af,
        0x1000,
        9,
        "Locked { kind: Amo { kind: Max }, rd: 7, address: 4096, operand: 9 }",
    ),
    (
        0xc062_a3af,
        0x1000,
        9,
        "Locked { kind: Amo { kind: Minu }, rd: 7, address: 4096, operand: 9 }",
    ),
    (
        0xe062_a3af,
        0x1000,
        9,
        "Locked { kind: Amo { kind: Maxu }, rd: 7, address: 4096, operand: 9 }",
    ),
    (0x0000_0073, 0, 0, "Call"),
    (0x0010_0073, 0, 0, "Broke"),
];

// An old word, an operand and the new word.
static AMOS: [(AmoKind, u32, u32, u32); 27] = [
    (AmoKind::Swap, 0xffff_ffff, 0x0000_0001, 0x0000_0001),
    (AmoKind::Swap, 0x0000_0005, 0x8000_0000, 0x8000_0000),
    (AmoKind::Swap, 0x0000_0ff0, 0x0000_f00f, 0x0000_f00f),
    (AmoKind::Add, 0xffff_ffff, 0x0000_0001, 0x0000_0000),
    (AmoKind::Add, 0x0000_0005, 0x8000_0000, 0x8000_0005),
    (AmoKind::Add, 0x0000_0ff0, 0x0000_f00f, 0x0000_ffff),
    (AmoKind::Xor, 0xffff_ffff, 0x0000_0001, 0xffff_fffe),
    (AmoKind::Xor, 0x0000_0005, 0x8000_0000, 0x8000_0005),
    (AmoKind::Xor, 0x0000_0ff0, 0x0000_f00f, 0x0000_ffff),
    (AmoKind::And, 0xffff_ffff, 0x0000_0001, 0x0000_0001),
    (AmoKind::And, 0x0000_0005, 0x8000_0000, 0x0000_0000),
    (AmoKind::And, 0x0000_0ff0, 0x0000_f00f, 0x0000_0000),
    (AmoKind::Or, 0xffff_ffff, 0x0000_0001, 0xffff_ffff),
    (AmoKind::Or, 0x0000_0005, 0x8000_0000, 0x8000_0005),
    (AmoKind::Or, 0x0000_0ff0, 0x0000_f00f, 0x0000_ffff),
    (AmoKind::Min, 0xffff_ffff, 0x0000_0001, 0xffff_ffff),
    (AmoKind::Min, 0x0000_0005, 0x8000_0000, 0x8000_0000),
    (AmoKind::Min, 0x0000_0ff0, 0x0000_f00f, 0x0000_0ff0),
    (AmoKind::Max, 0xffff_ffff, 0x0000_0001, 0x0000_0001),
    (AmoKind::Max, 0x0000_0005, 0x8000_0000, 0x0000_0005),
    (AmoKind::Max, 0x0000_0ff0, 0x0000_f00f, 0x0000_f00f),
    (AmoKind::Minu, 0xffff_ffff, 0x0000_0001, 0x0000_0001),
    (AmoKind::Minu, 0x0000_0005, 0x8000_0000, 0x0000_0005),
    (AmoKind::Minu, 0x0000_0ff0, 0x0000_f00f, 0x0000_0ff0),
    (AmoKind::Maxu, 0xffff_ffff, 0x0000_0001, 0xffff_ffff),
    (AmoKind::Maxu, 0x0000_0005, 0x8000_0000, 0x8000_0000),
    (AmoKind::Maxu, 0x0000_0ff0, 0x0000_f00f, 0x0000_f00f),
];

// What was read, and what the register takes.
static LOADS: [(LoadKind, u32, u32); 35] = [
    (LoadKind::Lb, 0x0000_007f, 0x0000_007f),
    (LoadKind::Lb, 0x0000_0080, 0xffff_ff80),
    (LoadKind::Lb, 0x0000_00ff, 0xffff_ffff),
    (LoadKind::Lb, 0x0000_7fff, 0xffff_ffff),
    (LoadKind::Lb, 0x0000_8000, 0x0000_0000),
    (LoadKind::Lb, 0xfffe_1234, 0x0000_0034),
    (LoadKind::Lb, 0x0001_ff80, 0xffff_ff80),
    (LoadKind::Lh, 0x0000_007f, 0x0000_007f),
    (LoadKind::Lh, 0x0000_0080, 0x0000_0080),
    (LoadKind::Lh, 0x0000_00ff, 0x0000_00ff),
    (LoadKind::Lh, 0x0000_7fff, 0x0000_7fff),
    (LoadKind::Lh, 0x0000_8000, 0xffff_8000),
    (LoadKind::Lh, 0xfffe_1234, 0x0000_1234),
    (LoadKind::Lh, 0x0001_ff80, 0xffff_ff80),
    (LoadKind::Lw, 0x0000_007f, 0x0000_007f),
    (LoadKind::Lw, 0x0000_0080, 0x0000_0080),
    (LoadKind::Lw, 0x0000_00ff, 0x0000_00ff),
    (LoadKind::Lw, 0x0000_7fff, 0x0000_7fff),
    (LoadKind::Lw, 0x0000_8000, 0x0000_8000),
    (LoadKind::Lw, 0xfffe_1234, 0xfffe_1234),
    (LoadKind::Lw, 0x0001_ff80, 0x0001_ff80),
    (LoadKind::Lbu, 0x0000_007f, 0x0000_007f),
    (LoadKind::Lbu, 0x0000_0080, 0x0000_0080),
    (LoadKind::Lbu, 0x0000_00ff, 0x0000_00ff),
    (LoadKind::Lbu, 0x0000_7fff, 0x0000_00ff),
    (LoadKind::Lbu, 0x0000_8000, 0x0000_0000),
    (LoadKind::Lbu, 0xfffe_1234, 0x0000_0034),
    (LoadKind::Lbu, 0x0001_ff80, 0x0000_0080),
    (LoadKind::Lhu, 0x0000_007f, 0x0000_007f),
    (LoadKind::Lhu, 0x0000_0080, 0x0000_0080),
    (LoadKind::Lhu, 0x0000_00ff, 0x0000_00ff),
    (LoadKind::Lhu, 0x0000_7fff, 0x0000_7fff),
    (LoadKind::Lhu, 0x0000_8000, 0x0000_8000),
    (LoadKind::Lhu, 0xfffe_1234, 0x0000_1234),
    (LoadKind::Lhu, 0x0001_ff80, 0x0000_ff80),
];

/// What the word asks with these words in x5 and x6.
fn asked(word: u32, x5: u32, x6: u32, pc: u32) -> Option<Act> {
    let mut regs = Regs::new();
    regs.set(5, x5);
    regs.set(6, x6);
    let instr = decode(word)?;
    Some(act(&instr, &regs, pc))
}

#[test]
fn operations_compute_values(rt: HostRuntime) {
    for (word, x5, x6, pc, value) in &VALUES {
        let next = Act::Next {
            rd: 7,
            value: *value,
            pc: pc.wrapping_add(4),
        };
        assert_eq!(rt;
            asked(*word, *x5, *x6, *pc),
            Some(next),
            "{word:08x} of {x5:08x}"
        );
    }
}

/// The jump or branch leads there with these words in x5 and x6, or would, where that is no multiple of 4.
fn leads(rt: &impl Abort, word: u32, operands: (u32, u32), pc: u32, target: u32) {
    let (x5, x6) = operands;
    let led = match asked(word, x5, x6, pc) {
        Some(Act::Next { pc: next, .. }) => (true, next),
        Some(Act::Jumped { target: fault }) => (false, fault),
        _ => (false, 0),
    };
    assert_eq!(rt; led, (target % 4 == 0, target), "{word:08x} of {x5:08x}");
}

#[test]
fn branches_lead_on(rt: HostRuntime) {
    for (word, targets) in &BRANCHES {
        for (operands, target) in PAIRS.iter().zip(targets) {
            leads(&rt, *word, *operands, 256, *target);
        }
    }
    for (word, x5, x6, pc, target) in &FAR_BRANCHES {
        leads(&rt, *word, (*x5, *x6), *pc, *target);
    }
}

#[test]
fn jumps_lead_on(rt: HostRuntime) {
    for (word, x5, pc, target) in &JUMPS {
        leads(&rt, *word, (*x5, 0), *pc, *target);
    }
}

#[test]
fn ordering_fences_drain(rt: HostRuntime) {
    for (word, drains) in &FENCES {
        let fence = Act::Fence { drains: *drains };
        assert_eq!(rt; asked(*word, 1, 2, 3), Some(fence), "at {word:08x}");
    }
}

#[test]
fn other_rows_ask(rt: HostRuntime) -> Result<(), Fail> {
    for (word, x5, x6, text) in &ACTS {
        let found = text_of(rt.alloc(), asked(*word, *x5, *x6, 0))?;
        assert_eq!(rt; found.as_str(), *text, "at {word:08x}");
    }
    Ok(())
}

fn text_of(alloc: Global, asked: Option<Act>) -> Result<String, Fail> {
    match asked {
        Some(found) => Ok(format!(in alloc; "{found:?}")?),
        None => Ok(format!(in alloc; "no row")?),
    }
}

#[test]
fn links_and_register_zero(rt: HostRuntime) {
    let link = Act::Next {
        rd: 7,
        value: 12,
        pc: 0x2000,
    };
    // jalr x7,1(x5), whose target loses its bit 0
    assert_eq!(rt; asked(0x0012_83e7, 0x2000, 0, 8), Some(link));
    let none = Act::Next {
        rd: 0,
        value: 10,
        pc: 12,
    };
    // addi x0,x5,1
    assert_eq!(rt; asked(0x0012_8013, 9, 4, 8), Some(none));
}

#[test]
fn atomic_operations_combine_words(rt: HostRuntime) {
    for (kind, old, operand, new) in &AMOS {
        assert_eq!(rt; amo(*kind, *old, *operand), *new, "{kind:?} of {old:08x}");
    }
}

#[test]
fn loads_extend(rt: HostRuntime) {
    for (kind, raw, word) in &LOADS {
        assert_eq!(rt; extend(*kind, *raw), *word, "{kind:?} of {raw:08x}");
    }
    assert_eq!(rt; load_size(LoadKind::Lhu), 2);
}

#[test]
fn register_zero_is_never_written(rt: HostRuntime) {
    let mut regs = Regs::new();
    regs.set(0, 7);
    regs.set(31, 9);
    let kept = regs;
    regs.set(31, 10);
    assert_eq!(rt; (regs.get(0), regs.get(1), regs.get(31)), (0, 0, 10));
    assert_eq!(rt; kept.get(31), 9);
}
