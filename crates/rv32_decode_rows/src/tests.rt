//! Words and the instructions that they spell, from outside the crate.
//!
//! The words of the programs were written by hand beside their assembly; each stands once. The other words
//! were made from the assembly of each row at its extreme operands by GNU binutils 2.40
//! (`riscv64-unknown-elf-as -march=rv32ia -mabi=ilp32`; `.insn` where the assembler has no spelling). The text
//! of a row was made from the assembly by a small script, and not by this crate.

use rv32_decode::{decode, encode, one_word_one_meaning};
use std::alloc::Global;
use std::process::Abort;
use std::test::Fail;

static PROGRAMS: [(u32, &str); 43] = [
    // A letter is put, and the hart exits.
    (0x0410_0513, "OpImm { kind: Addi, rd: 10, rs1: 0, imm: 65 }"),
    (0x0010_0893, "OpImm { kind: Addi, rd: 17, rs1: 0, imm: 1 }"),
    (0x0000_0073, "Ecall"),
    (0x0000_0513, "OpImm { kind: Addi, rd: 10, rs1: 0, imm: 0 }"),
    (0x0020_0893, "OpImm { kind: Addi, rd: 17, rs1: 0, imm: 2 }"),
    // Each hart stores to one page and loads from the other.
    (0x0000_12b7, "Lui { rd: 5, imm: 4096 }"),
    (0x0000_2337, "Lui { rd: 6, imm: 8192 }"),
    (0x0010_0393, "OpImm { kind: Addi, rd: 7, rs1: 0, imm: 1 }"),
    (0x0072_a023, "Store { kind: Sw, rs1: 5, rs2: 7, offset: 0 }"),
    (0x0003_2503, "Load { kind: Lw, rd: 10, rs1: 6, offset: 0 }"),
    (0x0000_22b7, "Lui { rd: 5, imm: 8192 }"),
    (0x0000_1337, "Lui { rd: 6, imm: 4096 }"),
    // A byte is stored over a word, and the word is put byte by byte.
    (0x1122_33b7, "Lui { rd: 7, imm: 287453184 }"),
    (0x3443_8393, "OpImm { kind: Addi, rd: 7, rs1: 7, imm: 836 }"),
    (0x07f0_0413, "OpImm { kind: Addi, rd: 8, rs1: 0, imm: 127 }"),
    (0x0082_80a3, "Store { kind: Sb, rs1: 5, rs2: 8, offset: 1 }"),
    (0x0002_a503, "Load { kind: Lw, rd: 10, rs1: 5, offset: 0 }"),
    (0x0085_5513, "OpImm { kind: Srli, rd: 10, rs1: 10, imm: 8 }"),
    // Each hart stores, fences and loads.
    (
        0x0120_000f,
        "Fence { fm: 0, pred: 1, succ: 2, rd: 0, rs1: 0 }",
    ),
    // Two stores of one hart, seen by two loads of another.
    (0x0073_2023, "Store { kind: Sw, rs1: 6, rs2: 7, offset: 0 }"),
    (0x0002_a403, "Load { kind: Lw, rd: 8, rs1: 5, offset: 0 }"),
    // A word is reserved, and stored to where the reservation holds.
    (0x1002_a3af, "Lr { rd: 7, rs1: 5, aq: false, rl: false }"),
    (
        0x1872_a52f,
        "Sc { rd: 10, rs1: 5, rs2: 7, aq: false, rl: false }",
    ),
    (0x0002_a023, "Store { kind: Sw, rs1: 5, rs2: 0, offset: 0 }"),
    // A store to a page that is read only.
    (0x0000_3337, "Lui { rd: 6, imm: 12288 }"),
    (0x0073_2223, "Store { kind: Sw, rs1: 6, rs2: 7, offset: 4 }"),
    // Two pages of one region.
    (0x0003_2483, "Load { kind: Lw, rd: 9, rs1: 6, offset: 0 }"),
    (0x0053_2023, "Store { kind: Sw, rs1: 6, rs2: 5, offset: 0 }"),
    // A jump to a target that is no multiple of 4.
    (0xffc0_0293, "OpImm { kind: Addi, rd: 5, rs1: 0, imm: -4 }"),
    (0x0060_0067, "Jalr { rd: 0, rs1: 0, offset: 6 }"),
    // A spin lock and a counter.
    (0x0190_0493, "OpImm { kind: Addi, rd: 9, rs1: 0, imm: 25 }"),
    (0x0030_0893, "OpImm { kind: Addi, rd: 17, rs1: 0, imm: 3 }"),
    (0x0005_0613, "OpImm { kind: Addi, rd: 12, rs1: 10, imm: 0 }"),
    (
        0x0c72_a42f,
        "Amo { kind: Swap, rd: 8, rs1: 5, rs2: 7, aq: true, rl: false }",
    ),
    (
        0xfe04_1ee3,
        "Branch { kind: Bne, rs1: 8, rs2: 0, offset: -4 }",
    ),
    (0x0003_2583, "Load { kind: Lw, rd: 11, rs1: 6, offset: 0 }"),
    (0x0015_8593, "OpImm { kind: Addi, rd: 11, rs1: 11, imm: 1 }"),
    (
        0x00b3_2023,
        "Store { kind: Sw, rs1: 6, rs2: 11, offset: 0 }",
    ),
    (0xfff4_8493, "OpImm { kind: Addi, rd: 9, rs1: 9, imm: -1 }"),
    (
        0xfe04_92e3,
        "Branch { kind: Bne, rs1: 9, rs2: 0, offset: -28 }",
    ),
    (
        0x0006_1c63,
        "Branch { kind: Bne, rs1: 12, rs2: 0, offset: 24 }",
    ),
    (
        0x0c80_0693,
        "OpImm { kind: Addi, rd: 13, rs1: 0, imm: 200 }",
    ),
    (
        0xfed5_1ee3,
        "Branch { kind: Bne, rs1: 10, rs2: 13, offset: -4 }",
    ),
];

static EXTREMES: [(u32, &str); 138] = [
    (0x0000_0fb7, "Lui { rd: 31, imm: 0 }"),
    (0x7fff_f0b7, "Lui { rd: 1, imm: 2147479552 }"),
    (0x8000_0837, "Lui { rd: 16, imm: 2147483648 }"),
    (0xffff_ffb7, "Lui { rd: 31, imm: 4294963200 }"),
    (0x0000_0f97, "Auipc { rd: 31, imm: 0 }"),
    (0x7fff_f097, "Auipc { rd: 1, imm: 2147479552 }"),
    (0x8000_0817, "Auipc { rd: 16, imm: 2147483648 }"),
    (0xffff_ff97, "Auipc { rd: 31, imm: 4294963200 }"),
    (0x7fff_ffef, "Jal { rd: 31, offset: 1048574 }"),
    (0x8000_006f, "Jal { rd: 0, offset: -1048576 }"),
    (0x0020_00ef, "Jal { rd: 1, offset: 2 }"),
    (0xffff_f86f, "Jal { rd: 16, offset: -2 }"),
    (0x0010_02ef, "Jal { rd: 5, offset: 2048 }"),
    (0x801f_f2ef, "Jal { rd: 5, offset: -2048 }"),
    (0x0000_12ef, "Jal { rd: 5, offset: 4096 }"),
    (0x5545_556f, "Jal { rd: 10, offset: 349524 }"),
    (0xaaba_a56f, "Jal { rd: 10, offset: -349526 }"),
    (0x7ff8_0fe7, "Jalr { rd: 31, rs1: 16, offset: 2047 }"),
    (0x800f_8067, "Jalr { rd: 0, rs1: 31, offset: -2048 }"),
    (0xfff0_00e7, "Jalr { rd: 1, rs1: 0, offset: -1 }"),
    (
        0x7e1f_8fe3,
        "Branch { kind: Beq, rs1: 31, rs2: 1, offset: 4094 }",
    ),
    (
        0x81f0_8063,
        "Branch { kind: Beq, rs1: 1, rs2: 31, offset: -4096 }",
    ),
    (
        0x7e2f_9fe3,
        "Branch { kind: Bne, rs1: 31, rs2: 2, offset: 4094 }",
    ),
    (
        0x81f1_1063,
        "Branch { kind: Bne, rs1: 2, rs2: 31, offset: -4096 }",
    ),
    (
        0x7e4f_cfe3,
        "Branch { kind: Blt, rs1: 31, rs2: 4, offset: 4094 }",
    ),
    (
        0x81f2_4063,
        "Branch { kind: Blt, rs1: 4, rs2: 31, offset: -4096 }",
    ),
    (
        0x7e8f_dfe3,
        "Branch { kind: Bge, rs1: 31, rs2: 8, offset: 4094 }",
    ),
    (
        0x81f4_5063,
        "Branch { kind: Bge, rs1: 8, rs2: 31, offset: -4096 }",
    ),
    (
        0x7f0f_efe3,
        "Branch { kind: Bltu, rs1: 31, rs2: 16, offset: 4094 }",
    ),
    (
        0x81f8_6063,
        "Branch { kind: Bltu, rs1: 16, rs2: 31, offset: -4096 }",
    ),
    (
        0x7e1f_ffe3,
        "Branch { kind: Bgeu, rs1: 31, rs2: 1, offset: 4094 }",
    ),
    (
        0x81f0_f063,
        "Branch { kind: Bgeu, rs1: 1, rs2: 31, offset: -4096 }",
    ),
    (
        0x0000_0163,
        "Branch { kind: Beq, rs1: 0, rs2: 0, offset: 2 }",
    ),
    (
        0xfe00_0fe3,
        "Branch { kind: Beq, rs1: 0, rs2: 0, offset: -2 }",
    ),
    (
        0x0000_00e3,
        "Branch { kind: Beq, rs1: 0, rs2: 0, offset: 2048 }",
    ),
    (
        0x8000_00e3,
        "Branch { kind: Beq, rs1: 0, rs2: 0, offset: -2048 }",
    ),
    (
        0x5400_0a63,
        "Branch { kind: Beq, rs1: 0, rs2: 0, offset: 1364 }",
    ),
    (
        0xaa00_05e3,
        "Branch { kind: Beq, rs1: 0, rs2: 0, offset: -1366 }",
    ),
    (
        0x4000_0063,
        "Branch { kind: Beq, rs1: 0, rs2: 0, offset: 1024 }",
    ),
    (
        0x0200_0063,
        "Branch { kind: Beq, rs1: 0, rs2: 0, offset: 32 }",
    ),
    (
        0x7ff0_8f83,
        "Load { kind: Lb, rd: 31, rs1: 1, offset: 2047 }",
    ),
    (
        0x800f_8083,
        "Load { kind: Lb, rd: 1, rs1: 31, offset: -2048 }",
    ),
    (
        0x7ff1_1f83,
        "Load { kind: Lh, rd: 31, rs1: 2, offset: 2047 }",
    ),
    (
        0x800f_9103,
        "Load { kind: Lh, rd: 2, rs1: 31, offset: -2048 }",
    ),
    (
        0x7ff2_2f83,
        "Load { kind: Lw, rd: 31, rs1: 4, offset: 2047 }",
    ),
    (
        0x800f_a203,
        "Load { kind: Lw, rd: 4, rs1: 31, offset: -2048 }",
    ),
    (
        0x7ff4_4f83,
        "Load { kind: Lbu, rd: 31, rs1: 8, offset: 2047 }",
    ),
    (
        0x800f_c403,
        "Load { kind: Lbu, rd: 8, rs1: 31, offset: -2048 }",
    ),
    (
        0x7ff8_5f83,
        "Load { kind: Lhu, rd: 31, rs1: 16, offset: 2047 }",
    ),
    (
        0x800f_d803,
        "Load { kind: Lhu, rd: 16, rs1: 31, offset: -2048 }",
    ),
    (
        0x7ff0_8fa3,
        "Store { kind: Sb, rs1: 1, rs2: 31, offset: 2047 }",
    ),
    (
        0x801f_8023,
        "Store { kind: Sb, rs1: 31, rs2: 1, offset: -2048 }",
    ),
    (
        0xfe00_0fa3,
        "Store { kind: Sb, rs1: 0, rs2: 0, offset: -1 }",
    ),
    (
        0x7ff1_1fa3,
        "Store { kind: Sh, rs1: 2, rs2: 31, offset: 2047 }",
    ),
    (
        0x802f_9023,
        "Store { kind: Sh, rs1: 31, rs2: 2, offset: -2048 }",
    ),
    (
        0xfe00_1fa3,
        "Store { kind: Sh, rs1: 0, rs2: 0, offset: -1 }",
    ),
    (
        0x7ff2_2fa3,
        "Store { kind: Sw, rs1: 4, rs2: 31, offset: 2047 }",
    ),
    (
        0x804f_a023,
        "Store { kind: Sw, rs1: 31, rs2: 4, offset: -2048 }",
    ),
    (
        0xfe00_2fa3,
        "Store { kind: Sw, rs1: 0, rs2: 0, offset: -1 }",
    ),
    (
        0x0100_afa3,
        "Store { kind: Sw, rs1: 1, rs2: 16, offset: 31 }",
    ),
    (
        0x0300_a023,
        "Store { kind: Sw, rs1: 1, rs2: 16, offset: 32 }",
    ),
    (
        0xff00_a023,
        "Store { kind: Sw, rs1: 1, rs2: 16, offset: -32 }",
    ),
    (
        0x7ff0_8f93,
        "OpImm { kind: Addi, rd: 31, rs1: 1, imm: 2047 }",
    ),
    (
        0x800f_8093,
        "OpImm { kind: Addi, rd: 1, rs1: 31, imm: -2048 }",
    ),
    (
        0x7ff1_2f93,
        "OpImm { kind: Slti, rd: 31, rs1: 2, imm: 2047 }",
    ),
    (
        0x800f_a113,
        "OpImm { kind: Slti, rd: 2, rs1: 31, imm: -2048 }",
    ),
    (
        0x7ff2_3f93,
        "OpImm { kind: Sltiu, rd: 31, rs1: 4, imm: 2047 }",
    ),
    (
        0x800f_b213,
        "OpImm { kind: Sltiu, rd: 4, rs1: 31, imm: -2048 }",
    ),
    (
        0x7ff4_4f93,
        "OpImm { kind: Xori, rd: 31, rs1: 8, imm: 2047 }",
    ),
    (
        0x800f_c413,
        "OpImm { kind: Xori, rd: 8, rs1: 31, imm: -2048 }",
    ),
    (
        0x7ff8_6f93,
        "OpImm { kind: Ori, rd: 31, rs1: 16, imm: 2047 }",
    ),
    (
        0x800f_e813,
        "OpImm { kind: Ori, rd: 16, rs1: 31, imm: -2048 }",
    ),
    (
        0x7ff0_ff93,
        "OpImm { kind: Andi, rd: 31, rs1: 1, imm: 2047 }",
    ),
    (
        0x800f_f093,
        "OpImm { kind: Andi, rd: 1, rs1: 31, imm: -2048 }",
    ),
    (0x01f0_9f93, "OpImm { kind: Slli, rd: 31, rs1: 1, imm: 31 }"),
    (0x000f_9093, "OpImm { kind: Slli, rd: 1, rs1: 31, imm: 0 }"),
    (0x0100_9093, "OpImm { kind: Slli, rd: 1, rs1: 1, imm: 16 }"),
    (0x01f1_5f93, "OpImm { kind: Srli, rd: 31, rs1: 2, imm: 31 }"),
    (0x000f_d113, "OpImm { kind: Srli, rd: 2, rs1: 31, imm: 0 }"),
    (0x0100_d093, "OpImm { kind: Srli, rd: 1, rs1: 1, imm: 16 }"),
    (0x41f2_5f93, "OpImm { kind: Srai, rd: 31, rs1: 4, imm: 31 }"),
    (0x400f_d213, "OpImm { kind: Srai, rd: 4, rs1: 31, imm: 0 }"),
    (0x4100_d093, "OpImm { kind: Srai, rd: 1, rs1: 1, imm: 16 }"),
    (0x0040_8fb3, "Op { kind: Add, rd: 31, rs1: 1, rs2: 4 }"),
    (0x01f0_0033, "Op { kind: Add, rd: 0, rs1: 0, rs2: 31 }"),
    (0x0081_1fb3, "Op { kind: Sll, rd: 31, rs1: 2, rs2: 8 }"),
    (0x01f0_1033, "Op { kind: Sll, rd: 0, rs1: 0, rs2: 31 }"),
    (0x0102_2fb3, "Op { kind: Slt, rd: 31, rs1: 4, rs2: 16 }"),
    (0x01f0_2033, "Op { kind: Slt, rd: 0, rs1: 0, rs2: 31 }"),
    (0x0014_3fb3, "Op { kind: Sltu, rd: 31, rs1: 8, rs2: 1 }"),
    (0x01f0_3033, "Op { kind: Sltu, rd: 0, rs1: 0, rs2: 31 }"),
    (0x0028_4fb3, "Op { kind: Xor, rd: 31, rs1: 16, rs2: 2 }"),
    (0x01f0_4033, "Op { kind: Xor, rd: 0, rs1: 0, rs2: 31 }"),
    (0x0040_dfb3, "Op { kind: Srl, rd: 31, rs1: 1, rs2: 4 }"),
    (0x01f0_5033, "Op { kind: Srl, rd: 0, rs1: 0, rs2: 31 }"),
    (0x0081_6fb3, "Op { kind: Or, rd: 31, rs1: 2, rs2: 8 }"),
    (0x01f0_6033, "Op { kind: Or, rd: 0, rs1: 0, rs2: 31 }"),
    (0x0102_7fb3, "Op { kind: And, rd: 31, rs1: 4, rs2: 16 }"),
    (0x01f0_7033, "Op { kind: And, rd: 0, rs1: 0, rs2: 31 }"),
    (0x4014_0fb3, "Op { kind: Sub, rd: 31, rs1: 8, rs2: 1 }"),
    (0x41f0_0033, "Op { kind: Sub, rd: 0, rs1: 0, rs2: 31 }"),
    (0x4028_5fb3, "Op { kind: Sra, rd: 31, rs1: 16, rs2: 2 }"),
    (0x41f0_5033, "Op { kind: Sra, rd: 0, rs1: 0, rs2: 31 }"),
    (
        0x0840_000f,
        "Fence { fm: 0, pred: 8, succ: 4, rd: 0, rs1: 0 }",
    ),
    (
        0x0210_000f,
        "Fence { fm: 0, pred: 2, succ: 1, rd: 0, rs1: 0 }",
    ),
    (
        0x0120_000f,
        "Fence { fm: 0, pred: 1, succ: 2, rd: 0, rs1: 0 }",
    ),
    (
        0x0ff0_000f,
        "Fence { fm: 0, pred: 15, succ: 15, rd: 0, rs1: 0 }",
    ),
    (
        0x8330_000f,
        "Fence { fm: 8, pred: 3, succ: 3, rd: 0, rs1: 0 }",
    ),
    (
        0x0330_000f,
        "Fence { fm: 0, pred: 3, succ: 3, rd: 0, rs1: 0 }",
    ),
    (
        0x0480_000f,
        "Fence { fm: 0, pred: 4, succ: 8, rd: 0, rs1: 0 }",
    ),
    (0x0000_0073, "Ecall"),
    (0x0010_0073, "Ebreak"),
    (0x1008_2faf, "Lr { rd: 31, rs1: 16, aq: false, rl: false }"),
    (0x140f_a0af, "Lr { rd: 1, rs1: 31, aq: true, rl: false }"),
    (0x1600_202f, "Lr { rd: 0, rs1: 0, aq: true, rl: true }"),
    (
        0x1900_afaf,
        "Sc { rd: 31, rs1: 1, rs2: 16, aq: false, rl: false }",
    ),
    (
        0x1bf8_20af,
        "Sc { rd: 1, rs1: 16, rs2: 31, aq: false, rl: true }",
    ),
    (
        0x1e1f_a82f,
        "Sc { rd: 16, rs1: 31, rs2: 1, aq: true, rl: true }",
    ),
    (
        0x0811_2faf,
        "Amo { kind: Swap, rd: 31, rs1: 2, rs2: 1, aq: false, rl: false }",
    ),
    (
        0x09f0_202f,
        "Amo { kind: Swap, rd: 0, rs1: 0, rs2: 31, aq: false, rl: false }",
    ),
    (
        0x0422_2faf,
        "Amo { kind: Add, rd: 31, rs1: 4, rs2: 2, aq: true, rl: false }",
    ),
    (
        0x01f0_202f,
        "Amo { kind: Add, rd: 0, rs1: 0, rs2: 31, aq: false, rl: false }",
    ),
    (
        0x2244_2faf,
        "Amo { kind: Xor, rd: 31, rs1: 8, rs2: 4, aq: false, rl: true }",
    ),
    (
        0x21f0_202f,
        "Amo { kind: Xor, rd: 0, rs1: 0, rs2: 31, aq: false, rl: false }",
    ),
    (
        0x6688_2faf,
        "Amo { kind: And, rd: 31, rs1: 16, rs2: 8, aq: true, rl: true }",
    ),
    (
        0x61f0_202f,
        "Amo { kind: And, rd: 0, rs1: 0, rs2: 31, aq: false, rl: false }",
    ),
    (
        0x4100_afaf,
        "Amo { kind: Or, rd: 31, rs1: 1, rs2: 16, aq: false, rl: false }",
    ),
    (
        0x41f0_202f,
        "Amo { kind: Or, rd: 0, rs1: 0, rs2: 31, aq: false, rl: false }",
    ),
    (
        0x8411_2faf,
        "Amo { kind: Min, rd: 31, rs1: 2, rs2: 1, aq: true, rl: false }",
    ),
    (
        0x81f0_202f,
        "Amo { kind: Min, rd: 0, rs1: 0, rs2: 31, aq: false, rl: false }",
    ),
    (
        0xa222_2faf,
        "Amo { kind: Max, rd: 31, rs1: 4, rs2: 2, aq: false, rl: true }",
    ),
    (
        0xa1f0_202f,
        "Amo { kind: Max, rd: 0, rs1: 0, rs2: 31, aq: false, rl: false }",
    ),
    (
        0xc644_2faf,
        "Amo { kind: Minu, rd: 31, rs1: 8, rs2: 4, aq: true, rl: true }",
    ),
    (
        0xc1f0_202f,
        "Amo { kind: Minu, rd: 0, rs1: 0, rs2: 31, aq: false, rl: false }",
    ),
    (
        0xe088_2faf,
        "Amo { kind: Maxu, rd: 31, rs1: 16, rs2: 8, aq: false, rl: false }",
    ),
    (
        0xe1f0_202f,
        "Amo { kind: Maxu, rd: 0, rs1: 0, rs2: 31, aq: false, rl: false }",
    ),
    (
        0xfff8_0f8f,
        "Fence { fm: 15, pred: 15, succ: 15, rd: 31, rs1: 16 }",
    ),
    (
        0x123f_880f,
        "Fence { fm: 1, pred: 2, succ: 3, rd: 16, rs1: 31 }",
    ),
];

static RESERVED: [(u32, &str); 30] = [
    (0x0001_10e7, "JALR with funct3 1"),
    (0x0020_a463, "a branch with funct3 2"),
    (0x0020_b463, "a branch with funct3 3"),
    (0x0001_3083, "a load of 8 bytes"),
    (0x0001_6083, "LWU"),
    (0x0001_7083, "a load with funct3 7"),
    (0x0011_3023, "a store of 8 bytes"),
    (0x0011_4023, "a store with funct3 4"),
    (0x0231_1093, "SLLI with a shift amount of 32 and more"),
    (0x4031_1093, "SLLI with the funct7 of SRAI"),
    (0x4231_5093, "SRAI with a shift amount of 32 and more"),
    (0x0231_00b3, "MUL"),
    (0x4031_40b3, "XNOR"),
    (0x4031_70b3, "ANDN"),
    (0x8031_00b3, "ADD with funct7 64"),
    (0x0000_100f, "FENCE.I"),
    (0x0000_00f3, "ECALL with a register"),
    (0x0010_8073, "EBREAK with a register"),
    (0x0020_0073, "URET"),
    (0x3001_10f3, "CSRRW"),
    (0x1001_30af, "LR.D"),
    (0x1031_20af, "LR.W with rs2"),
    (0x1831_00af, "SC with funct3 0"),
    (0x2831_20af, "AMO with funct5 5"),
    (0xf831_20af, "AMO with funct5 31"),
    (0x0000_0000, "zeros"),
    (0xffff_ffff, "ones"),
    (0x0000_0001, "a compressed word"),
    (0x0011_009b, "ADDIW"),
    (0x0011_2087, "FLW"),
];

/// The text of the instruction that the word spells, and the word of that instruction.
fn read(alloc: Global, word: u32) -> Result<(String, u32), Fail> {
    match decode(word) {
        Some(instr) => Ok((format!(in alloc; "{instr:?}")?, encode(&instr))),
        None => Ok((format!(in alloc; "no row")?, 0)),
    }
}

/// Each word is read as its instruction, which is written as that word.
fn both_ways(rt: &impl Abort, alloc: Global, rows: &[(u32, &str)]) -> Result<(), Fail> {
    for (word, text) in rows {
        let (found, again) = read(alloc, *word)?;
        assert_eq!(rt; found.as_str(), *text, "at {word:08x}");
        assert_eq!(rt; again, *word, "at {word:08x}");
    }
    Ok(())
}

#[test]
fn words_of_programs_are_read_and_written(rt: HostRuntime) -> Result<(), Fail> {
    both_ways(&rt, rt.alloc(), &PROGRAMS)
}

#[test]
fn each_row_at_its_extremes_is_read_and_written(rt: HostRuntime) -> Result<(), Fail> {
    both_ways(&rt, rt.alloc(), &EXTREMES)
}

#[test]
fn words_of_no_row_spell_nothing(rt: HostRuntime) {
    for (word, name) in &RESERVED {
        assert_eq!(rt; decode(*word), None, "{name}");
    }
}

#[test]
fn the_laws_are_called(_rt: HostRuntime) {
    one_word_one_meaning();
}
