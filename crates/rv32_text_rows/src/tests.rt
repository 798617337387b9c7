//! Texts and words from outside the crate, and refusals by hand.
//!
//! The words of `ROWS` and `SPELLINGS` were made by GNU binutils 2.40 (`riscv64-unknown-elf-as -march=rv32ia
//! -mabi=ilp32 -mno-relax`), and so were those of the programs. The texts of `ROWS` are what
//! `riscv64-unknown-elf-objdump -d -M no-aliases,numeric` writes for the words, with a space behind each comma,
//! offsets in place of addresses and decimal digits in place of hexadecimal ones, by a small script.
use rv32_text::{TextFault, TextRefusal, assemble, disassemble};
use std::alloc::Global;
use std::process::Abort;
use std::test::Fail;

/// A word and its text.
type Row = (u32, &'static str);

/// Each row of the table, with operands at their extremes and at random.
static ROWS: [Row; 227] = [
    (0x0000_07b7, "lui x15, 0"),
    (0x0000_14b7, "lui x9, 1"),
    (0x7fff_f737, "lui x14, 524287"),
    (0x8000_0637, "lui x12, 524288"),
    (0xffff_f537, "lui x10, 1048575"),
    (0x489d_9237, "lui x4, 297433"),
    (0x0000_0717, "auipc x14, 0"),
    (0x0000_1417, "auipc x8, 1"),
    (0x7fff_fa17, "auipc x20, 524287"),
    (0x8000_0117, "auipc x2, 524288"),
    (0xffff_fe97, "auipc x29, 1048575"),
    (0x2ba4_a597, "auipc x11, 178762"),
    (0x8005_09e7, "jalr x19, -2048(x10)"),
    (0xfff8_0ae7, "jalr x21, -1(x16)"),
    (0x000e_8ce7, "jalr x25, 0(x29)"),
    (0x7ffb_8367, "jalr x6, 2047(x23)"),
    (0xb180_8e67, "jalr x28, -1256(x1)"),
    (0x8005_8983, "lb x19, -2048(x11)"),
    (0xfff1_0d83, "lb x27, -1(x2)"),
    (0x000a_8c83, "lb x25, 0(x21)"),
    (0x7ff9_8583, "lb x11, 2047(x19)"),
    (0x0813_8f83, "lb x31, 129(x7)"),
    (0x800a_1c03, "lh x24, -2048(x20)"),
    (0xfff5_9c83, "lh x25, -1(x11)"),
    (0x0005_9683, "lh x13, 0(x11)"),
    (0x7ffc_9883, "lh x17, 2047(x25)"),
    (0xcfd7_1d03, "lh x26, -771(x14)"),
    (0x800e_a903, "lw x18, -2048(x29)"),
    (0xfff7_2103, "lw x2, -1(x14)"),
    (0x0003_aa03, "lw x20, 0(x7)"),
    (0x7ffa_2283, "lw x5, 2047(x20)"),
    (0xc15a_a603, "lw x12, -1003(x21)"),
    (0x800f_4a03, "lbu x20, -2048(x30)"),
    (0xfffe_4383, "lbu x7, -1(x28)"),
    (0x0008_4783, "lbu x15, 0(x16)"),
    (0x7ff6_ce03, "lbu x28, 2047(x13)"),
    (0xb4a7_ce03, "lbu x28, -1206(x15)"),
    (0x8005_d303, "lhu x6, -2048(x11)"),
    (0xfff3_d683, "lhu x13, -1(x7)"),
    (0x0000_df83, "lhu x31, 0(x1)"),
    (0x7ffd_d603, "lhu x12, 2047(x27)"),
    (0x01a2_d203, "lhu x4, 26(x5)"),
    (0x815f_0023, "sb x21, -2048(x30)"),
    (0xfffa_8fa3, "sb x31, -1(x21)"),
    (0x0085_8023, "sb x8, 0(x11)"),
    (0x7ef3_0fa3, "sb x15, 2047(x6)"),
    (0x2459_02a3, "sb x5, 581(x18)"),
    (0x81f9_9023, "sh x31, -2048(x19)"),
    (0xfe2e_1fa3, "sh x2, -1(x28)"),
    (0x01cf_1023, "sh x28, 0(x30)"),
    (0x7e2d_9fa3, "sh x2, 2047(x27)"),
    (0xa0cd_9ba3, "sh x12, -1513(x27)"),
    (0x80fc_a023, "sw x15, -2048(x25)"),
    (0xff77_afa3, "sw x23, -1(x15)"),
    (0x0144_2023, "sw x20, 0(x8)"),
    (0x7f69_2fa3, "sw x22, 2047(x18)"),
    (0xfe57_24a3, "sw x5, -23(x14)"),
    (0x8008_0113, "addi x2, x16, -2048"),
    (0xfff9_0093, "addi x1, x18, -1"),
    (0x7ffb_0993, "addi x19, x22, 2047"),
    (0x3c34_8c13, "addi x24, x9, 963"),
    (0x800f_a813, "slti x16, x31, -2048"),
    (0xfff2_a193, "slti x3, x5, -1"),
    (0x7ffd_2613, "slti x12, x26, 2047"),
    (0x055a_a313, "slti x6, x21, 85"),
    (0x800f_3813, "sltiu x16, x30, -2048"),
    (0xfff8_bc13, "sltiu x24, x17, -1"),
    (0x7ffe_3d13, "sltiu x26, x28, 2047"),
    (0x297e_bc13, "sltiu x24, x29, 663"),
    (0x8002_4413, "xori x8, x4, -2048"),
    (0xfff3_c013, "xori x0, x7, -1"),
    (0x7ffb_4013, "xori x0, x22, 2047"),
    (0x5ac8_cf93, "xori x31, x17, 1452"),
    (0x800d_6593, "ori x11, x26, -2048"),
    (0xfffa_ee93, "ori x29, x21, -1"),
    (0x7ff7_ec13, "ori x24, x15, 2047"),
    (0xb905_eb93, "ori x23, x11, -1136"),
    (0x8003_f393, "andi x7, x7, -2048"),
    (0xfffa_7313, "andi x6, x20, -1"),
    (0x7ffc_7e93, "andi x29, x24, 2047"),
    (0xc7df_ff13, "andi x30, x31, -899"),
    (0x0004_9993, "slli x19, x9, 0"),
    (0x001b_1a13, "slli x20, x22, 1"),
    (0x01fb_1b93, "slli x23, x22, 31"),
    (0x00c1_1013, "slli x0, x2, 12"),
    (0x0006_5593, "srli x11, x12, 0"),
    (0x0015_5393, "srli x7, x10, 1"),
    (0x01f4_dd13, "srli x26, x9, 31"),
    (0x0176_d213, "srli x4, x13, 23"),
    (0x4007_d993, "srai x19, x15, 0"),
    (0x4012_dc93, "srai x25, x5, 1"),
    (0x41f9_5513, "srai x10, x18, 31"),
    (0x413e_5513, "srai x10, x28, 19"),
    (0x0041_89b3, "add x19, x3, x4"),
    (0x0031_02b3, "add x5, x2, x3"),
    (0x009a_0633, "add x12, x20, x9"),
    (0x00fb_1433, "sll x8, x22, x15"),
    (0x001c_18b3, "sll x17, x24, x1"),
    (0x00b8_9833, "sll x16, x17, x11"),
    (0x011a_a433, "slt x8, x21, x17"),
    (0x0116_a4b3, "slt x9, x13, x17"),
    (0x00c2_a433, "slt x8, x5, x12"),
    (0x0184_3733, "sltu x14, x8, x24"),
    (0x0008_39b3, "sltu x19, x16, x0"),
    (0x014c_bf33, "sltu x30, x25, x20"),
    (0x01cd_48b3, "xor x17, x26, x28"),
    (0x01b1_ce33, "xor x28, x3, x27"),
    (0x01dc_ccb3, "xor x25, x25, x29"),
    (0x0034_d8b3, "srl x17, x9, x3"),
    (0x0144_5fb3, "srl x31, x8, x20"),
    (0x00bb_d5b3, "srl x11, x23, x11"),
    (0x007d_eab3, "or x21, x27, x7"),
    (0x00bf_6cb3, "or x25, x30, x11"),
    (0x0016_63b3, "or x7, x12, x1"),
    (0x013a_fbb3, "and x23, x21, x19"),
    (0x01cd_f2b3, "and x5, x27, x28"),
    (0x0086_fe33, "and x28, x13, x8"),
    (0x4084_05b3, "sub x11, x8, x8"),
    (0x40c9_0fb3, "sub x31, x18, x12"),
    (0x4144_8633, "sub x12, x9, x20"),
    (0x4037_d333, "sra x6, x15, x3"),
    (0x4005_de33, "sra x28, x11, x0"),
    (0x41d8_d433, "sra x8, x17, x29"),
    (0x0140_000f, "fence w, o"),
    (0x02b0_000f, "fence r, irw"),
    (0x0330_000f, "fence rw, rw"),
    (0x04a0_000f, "fence o, ir"),
    (0x0520_000f, "fence ow, r"),
    (0x0690_000f, "fence or, iw"),
    (0x0710_000f, "fence orw, w"),
    (0x0880_000f, "fence i, i"),
    (0x09f0_000f, "fence iw, iorw"),
    (0x0a70_000f, "fence ir, orw"),
    (0x0be0_000f, "fence irw, ior"),
    (0x0c60_000f, "fence io, or"),
    (0x0dd0_000f, "fence iow, iow"),
    (0x0e50_000f, "fence ior, ow"),
    (0x0fc0_000f, "fence iorw, io"),
    (0x8330_000f, "fence.tso"),
    (0x0000_0073, "ecall"),
    (0x0010_0073, "ebreak"),
    (0x100d_a7af, "lr.w x15, (x27)"),
    (0x19f4_282f, "sc.w x16, x31, (x8)"),
    (0x08a3_afaf, "amoswap.w x31, x10, (x7)"),
    (0x001b_af2f, "amoadd.w x30, x1, (x23)"),
    (0x21a7_a02f, "amoxor.w x0, x26, (x15)"),
    (0x6168_242f, "amoand.w x8, x22, (x16)"),
    (0x4193_27af, "amoor.w x15, x25, (x6)"),
    (0x80bc_2baf, "amomin.w x23, x11, (x24)"),
    (0xa051_2e2f, "amomax.w x28, x5, (x2)"),
    (0xc0de_222f, "amominu.w x4, x13, (x28)"),
    (0xe19a_a32f, "amomaxu.w x6, x25, (x21)"),
    (0x1409_232f, "lr.w.aq x6, (x18)"),
    (0x1cfc_242f, "sc.w.aq x8, x15, (x24)"),
    (0x0ce9_a12f, "amoswap.w.aq x2, x14, (x19)"),
    (0x0501_a8af, "amoadd.w.aq x17, x16, (x3)"),
    (0x2408_a22f, "amoxor.w.aq x4, x0, (x17)"),
    (0x64be_27af, "amoand.w.aq x15, x11, (x28)"),
    (0x459b_ad2f, "amoor.w.aq x26, x25, (x23)"),
    (0x8594_20af, "amomin.w.aq x1, x25, (x8)"),
    (0xa41e_252f, "amomax.w.aq x10, x1, (x28)"),
    (0xc4e4_212f, "amominu.w.aq x2, x14, (x8)"),
    (0xe44d_27af, "amomaxu.w.aq x15, x4, (x26)"),
    (0x1209_2caf, "lr.w.rl x25, (x18)"),
    (0x1a0f_232f, "sc.w.rl x6, x0, (x30)"),
    (0x0b8c_27af, "amoswap.w.rl x15, x24, (x24)"),
    (0x03f4_afaf, "amoadd.w.rl x31, x31, (x9)"),
    (0x2383_a42f, "amoxor.w.rl x8, x24, (x7)"),
    (0x6328_26af, "amoand.w.rl x13, x18, (x16)"),
    (0x426f_2eaf, "amoor.w.rl x29, x6, (x30)"),
    (0x8379_2e2f, "amomin.w.rl x28, x23, (x18)"),
    (0xa2fe_a42f, "amomax.w.rl x8, x15, (x29)"),
    (0xc3ea_a02f, "amominu.w.rl x0, x30, (x21)"),
    (0xe3e9_a5af, "amomaxu.w.rl x11, x30, (x19)"),
    (0x1603_ab2f, "lr.w.aqrl x22, (x7)"),
    (0x1e53_aeaf, "sc.w.aqrl x29, x5, (x7)"),
    (0x0f43_a6af, "amoswap.w.aqrl x13, x20, (x7)"),
    (0x0605_a32f, "amoadd.w.aqrl x6, x0, (x11)"),
    (0x27c9_2aaf, "amoxor.w.aqrl x21, x28, (x18)"),
    (0x678d_a52f, "amoand.w.aqrl x10, x24, (x27)"),
    (0x47f4_2faf, "amoor.w.aqrl x31, x31, (x8)"),
    (0x877c_2faf, "amomin.w.aqrl x31, x23, (x24)"),
    (0xa7ee_2c2f, "amomax.w.aqrl x24, x30, (x28)"),
    (0xc71d_27af, "amominu.w.aqrl x15, x17, (x26)"),
    (0xe60d_2b2f, "amomaxu.w.aqrl x22, x0, (x26)"),
    (0x813d_0063, "beq x26, x19, -4096"),
    (0xfe52_0ee3, "beq x4, x5, -4"),
    (0x011e_0063, "beq x28, x17, 0"),
    (0x0076_0263, "beq x12, x7, 4"),
    (0x7e1a_8ee3, "beq x21, x1, 4092"),
    (0x4e47_8e63, "beq x15, x4, 1276"),
    (0x81eb_1063, "bne x22, x30, -4096"),
    (0xff9c_9ee3, "bne x25, x25, -4"),
    (0x0196_9063, "bne x13, x25, 0"),
    (0x00fe_1263, "bne x28, x15, 4"),
    (0x7f7f_1ee3, "bne x30, x23, 4092"),
    (0x1dbb_9663, "bne x23, x27, 460"),
    (0x80e2_4063, "blt x4, x14, -4096"),
    (0xfec3_4ee3, "blt x6, x12, -4"),
    (0x00c5_4063, "blt x10, x12, 0"),
    (0x001f_c263, "blt x31, x1, 4"),
    (0x7e3f_4ee3, "blt x30, x3, 4092"),
    (0xdfba_4c63, "blt x20, x27, -2568"),
    (0x80a3_5063, "bge x6, x10, -4096"),
    (0xfefa_dee3, "bge x21, x15, -4"),
    (0x00c0_5063, "bge x0, x12, 0"),
    (0x0075_5263, "bge x10, x7, 4"),
    (0x7f1c_dee3, "bge x25, x17, 4092"),
    (0x7dc3_54e3, "bge x6, x28, 4040"),
    (0x80ef_6063, "bltu x30, x14, -4096"),
    (0xfe6a_6ee3, "bltu x20, x6, -4"),
    (0x017e_6063, "bltu x28, x23, 0"),
    (0x00b0_e263, "bltu x1, x11, 4"),
    (0x7f81_6ee3, "bltu x2, x24, 4092"),
    (0x6a0d_6a63, "bltu x26, x0, 1716"),
    (0x8105_7063, "bgeu x10, x16, -4096"),
    (0xfeca_fee3, "bgeu x21, x12, -4"),
    (0x0085_7063, "bgeu x10, x8, 0"),
    (0x010d_f263, "bgeu x27, x16, 4"),
    (0x7e51_fee3, "bgeu x3, x5, 4092"),
    (0x143b_76e3, "bgeu x22, x3, 2380"),
    (0x8000_01ef, "jal x3, -1048576"),
    (0xff9f_f36f, "jal x6, -8"),
    (0x0000_016f, "jal x2, 0"),
    (0x0040_0cef, "jal x25, 4"),
    (0x7fdf_fbef, "jal x23, 1048572"),
    (0x1814_3fef, "jal x31, 276864"),
];

/// Lines that are spelled otherwise than they are written.
static SPELLINGS: [Row; 55] = [
    (0x0020_8033, "add zero, x1, sp"),
    (0x0071_00b3, "add ra, x2, t2"),
    (0x00c1_8133, "add sp, x3, a2"),
    (0x0112_01b3, "add gp, x4, a7"),
    (0x0162_8233, "add tp, x5, s6"),
    (0x01b3_02b3, "add t0, x6, s11"),
    (0x0003_8333, "add t1, x7, zero"),
    (0x0054_03b3, "add t2, x8, t0"),
    (0x00a4_8433, "add s0, x9, a0"),
    (0x00f5_04b3, "add s1, x10, a5"),
    (0x0145_8533, "add a0, x11, s4"),
    (0x0196_05b3, "add a1, x12, s9"),
    (0x01e6_8633, "add a2, x13, t5"),
    (0x0037_06b3, "add a3, x14, gp"),
    (0x0087_8733, "add a4, x15, s0"),
    (0x00d8_07b3, "add a5, x16, a3"),
    (0x0128_8833, "add a6, x17, s2"),
    (0x0179_08b3, "add a7, x18, s7"),
    (0x01c9_8933, "add s2, x19, t3"),
    (0x001a_09b3, "add s3, x20, ra"),
    (0x006a_8a33, "add s4, x21, t1"),
    (0x00bb_0ab3, "add s5, x22, a1"),
    (0x010b_8b33, "add s6, x23, a6"),
    (0x015c_0bb3, "add s7, x24, s5"),
    (0x01ac_8c33, "add s8, x25, s10"),
    (0x01fd_0cb3, "add s9, x26, t6"),
    (0x004d_8d33, "add s10, x27, tp"),
    (0x009e_0db3, "add s11, x28, s1"),
    (0x00ee_8e33, "add t3, x29, a4"),
    (0x013f_0eb3, "add t4, x30, s3"),
    (0x018f_8f33, "add t5, x31, s8"),
    (0x01d0_0fb3, "add t6, x0, t4"),
    (0xff04_0413, "addi fp, s0, -0x10"),
    (0xffff_f2b7, "lui\tt0,0xfffff"),
    (0xfff1_3093, "sltiu x1,x2,-1"),
    (0xffc1_2503, "lw a0,-0x4 ( sp )"),
    (0x0041_2503, "lw a0, 4( sp)"),
    (0x0041_2503, "lw a0 , 4(sp )"),
    (0x7ff1_0093, "  addi x1, x2, 0x7ff  "),
    (0x0001_0093, "addi x1, x2, -0"),
    (0x1002_a3af, "lr.w\tt2, ( t0 )"),
    (0x1872_a52f, "sc.w a0 ,t2 ,(t0)"),
    (0x0e72_a52f, "amoswap.w.aqrl\ta0,t2,(t0)"),
    (0x0000_0073, "\tecall"),
    (0x0010_0073, "ebreak # a comment"),
    (0x0ff0_000f, "fence iorw,iorw"),
    (0x8330_000f, "fence.tso # two # hashes"),
    (0x0060_0067, "jalr zero, 6(zero)"),
    (0xdead_beef, ".word 0xDEADBEEF"),
    (0xdead_beef, ".word 0xdeadbeef"),
    (0xffff_ffff, ".word 4294967295"),
    (0x0000_0000, ".word 0"),
    (0x0070_0093, "addi x1, x0, 0007"),
    (0x0010_0093, "here: addi x1, x0, 1"),
    (0x408f_8db3, "_a.B9: sub s11, t6, fp"),
];

/// Words that are written as plain words, and fences without an access, by hand.
static WRITTEN: [Row; 16] = [
    (0x0000_0000, ".word 0x00000000"),
    (0xffff_ffff, ".word 0xffffffff"),
    (0x0231_00b3, ".word 0x023100b3"),
    (0x0000_100f, ".word 0x0000100f"),
    (0x0ff0_008f, ".word 0x0ff0008f"),
    (0x0ff0_800f, ".word 0x0ff0800f"),
    (0x1120_000f, ".word 0x1120000f"),
    (0x8330_008f, ".word 0x8330008f"),
    (0x8320_000f, ".word 0x8320000f"),
    (0x8ff0_000f, ".word 0x8ff0000f"),
    (0x8330_000f, "fence.tso"),
    (0x0000_000f, "fence 0, 0"),
    (0x0100_000f, "fence w, 0"),
    (0x00f0_000f, "fence 0, iorw"),
    (0x3001_10f3, ".word 0x300110f3"),
    (0x0000_abcd, ".word 0x0000abcd"),
];

/// A text and what is answered: `ok`, or the fault and its line.
static ANSWERS: [(&str, &str); 104] = [
    ("addi x1, x0, 2048", "range 1"),
    ("jal x0, on", "target 1"),
    ("addi x1, x0, -2049", "range 1"),
    ("addi x1, x0, 2047", "ok"),
    ("addi x1, x0, -2048", "ok"),
    ("addi x1, x0, 99999999999999999999", "range 1"),
    ("lui x1, 1048576", "range 1"),
    ("lui x1, 1048575", "ok"),
    ("lui x1, -1", "range 1"),
    ("lui x1, -0", "ok"),
    (".word 4294967295", "ok"),
    (".word 4294967296", "range 1"),
    (".word -1", "range 1"),
    (".word", "operand 1"),
    ("slli x1, x2, 31", "ok"),
    ("slli x1, x2, 32", "range 1"),
    ("srai x1, x2, -1", "range 1"),
    ("lw x1, 2047(x2)", "ok"),
    ("lw x1, 2048(x2)", "range 1"),
    ("sw x1, -2049(x2)", "range 1"),
    ("jalr x0, -2048(x1)", "ok"),
    ("beq x1, x2, 4094", "ok"),
    ("beq x1, x2, 4096", "range 1"),
    ("beq x1, x2, -4096", "ok"),
    ("beq x1, x2, -4098", "range 1"),
    ("beq x1, x2, 3", "range 1"),
    ("jal x0, 1048574", "ok"),
    ("jal x0, 1048576", "range 1"),
    ("jal x0, -1048576", "ok"),
    ("jal x0, 1", "range 1"),
    ("", "empty 0"),
    ("# nothing\n \t\n", "empty 0"),
    ("on:\n", "empty 0"),
    ("ecall\r\nebreak\r\n", "ok"),
    ("ecall\r", "text 1"),
    ("ecall\r\r\n", "text 1"),
    ("ecall # \x01", "text 1"),
    ("ecall\n\x7f", "text 2"),
    ("ecall \x0b", "text 1"),
    ("1on: ecall", "label 1"),
    (": ecall", "label 1"),
    ("on : ecall", "label 1"),
    ("o-n: ecall", "label 1"),
    ("x1: ecall", "label 1"),
    ("fp: ecall", "label 1"),
    ("x32: ecall", "ok"),
    ("on: ecall\non: ecall", "label 2"),
    ("on: on: ecall", "word 1"),
    ("ecall: ecall", "ok"),
    ("abcdefghijabcdefghijabcdefghij12: ecall", "ok"),
    ("abcdefghijabcdefghijabcdefghij123: ecall", "label 1"),
    ("  on:ecall", "ok"),
    ("\ton:\tecall\t", "ok"),
    ("ecall # on: on:", "ok"),
    ("nop", "word 1"),
    ("ADDI x1, x2, 3", "word 1"),
    ("addi,x1, x2, 3", "word 1"),
    ("ecall, ", "word 1"),
    ("lr.w.rlaq x1, (x2)", "word 1"),
    ("add.aq x1, x2, x3", "word 1"),
    (".byte 1", "word 1"),
    ("ecall x1", "operand 1"),
    ("ecall ,", "operand 1"),
    ("addi x1, x2", "operand 1"),
    ("addi x1, x2, 3, 4", "operand 1"),
    ("addi x1, x2,", "operand 1"),
    ("addi x1 x2, 3", "operand 1"),
    ("addi X1, x2, 3", "operand 1"),
    ("addi x01, x2, 3", "operand 1"),
    ("addi x1, x32, 3", "operand 1"),
    ("addi x1, x2, - 3", "operand 1"),
    ("addi x1, x2, --3", "operand 1"),
    ("addi x1, x2, +3", "operand 1"),
    ("addi x1, x2, 0x", "operand 1"),
    ("addi x1, x2, on", "operand 1"),
    ("add x1, x2, 3", "operand 1"),
    ("lw x1, (x2)", "operand 1"),
    ("lw x1, 4 x2", "operand 1"),
    ("lw x1, 4(x2", "operand 1"),
    ("lw x1, 4(x2) x3", "operand 1"),
    ("lw x1, 4((x2))", "operand 1"),
    ("lw x1, 5000(x99)", "operand 1"),
    ("lr.w x1, 0(x2)", "operand 1"),
    ("lr.w x1, x2", "operand 1"),
    ("lr.w x1, ( x2 )", "ok"),
    ("sc.w x1, x2, x3", "operand 1"),
    ("jal x0, x1", "operand 1"),
    ("jal x0, fp", "operand 1"),
    ("jal x0, -on", "operand 1"),
    ("beq x1, x2, 9on", "operand 1"),
    ("beq on, x2, off", "operand 1"),
    ("fence w, r", "ok"),
    ("fence 0, iorw", "ok"),
    ("fence rw, wr", "operand 1"),
    ("fence rw", "operand 1"),
    ("fence ,r", "operand 1"),
    ("fence.tso rw, rw", "operand 1"),
    ("jal x0, on\non: ecall", "ok"),
    ("jal x0, on\non: \x01", "text 2"),
    ("jal x0, on\non: nop", "word 2"),
    ("jal x0, on\n1on: ecall", "target 1"),
    ("ecall\naddi x1, x0, 5000\nnop", "range 2"),
    ("nop\naddi x1, x0, 5000", "word 1"),
    ("on: jal x1, off \x01\non: ecall", "text 1"),
];

/// lui x5, 1; lui x6, 2.
const PAGES: &[u32] = &[0x0000_12b7, 0x0000_2337];

/// lui x5, 2; lui x6, 1.
const EXCHANGED: &[u32] = &[0x0000_22b7, 0x0000_1337];

/// addi x7, x0, 1; sw x7, 0(x5).
const STORE: &[u32] = &[0x0010_0393, 0x0072_a023];

/// lw x10, 0(x6).
const LOAD: &[u32] = &[0x0003_2503];

/// addi x17, x0, 1; ecall.
const PUT: &[u32] = &[0x0010_0893, 0x0000_0073];

/// fence w, r.
const FENCE: &[u32] = &[0x0120_000f];

/// The pieces of small programs, of which some run on two harts, one program behind the other.
static PROGRAMS: [&[&[u32]]; 16] = [
    // Each of two harts stores to one page and loads from the other.
    &[PAGES, STORE, LOAD, PUT],
    &[EXCHANGED, STORE, LOAD, PUT],
    // A byte is stored over a word, and the word is put byte by byte.
    &[&[0x0000_12b7, 0x1122_33b7, 0x3443_8393, 0x0072_a023]],
    &[
        &[0x07f0_0413, 0x0082_80a3, 0x0002_a503],
        PUT,
        &[0x0085_5513, 0x0000_0073],
    ],
    // Each hart stores, fences and loads.
    &[PAGES, STORE, FENCE, LOAD, PUT],
    &[EXCHANGED, STORE, FENCE, LOAD, PUT],
    // Two stores of one hart, seen by two loads of another.
    &[PAGES, STORE, &[0x0073_2023]],
    &[
        PAGES,
        &[0x0002_a403],
        LOAD,
        PUT,
        &[0x0002_a503, 0x0000_0073],
    ],
    // A word is reserved, and stored to where the reservation holds.
    &[
        &[0x0000_12b7, 0x1002_a3af, 0x1872_a52f],
        PUT,
        &[0x0000_12b7, 0x0002_a023],
    ],
    // A store to a page that is read only.
    &[&[0x0000_12b7, 0x0000_3337], STORE, &[0x0073_2223]],
    // A word is stored, loaded and put.
    &[&[0x0000_12b7], STORE, &[0x0002_a503], PUT],
    // Two pages of one region.
    &[&[0x0000_12b7, 0x0002_a503, 0x0002_a503]],
    &[&[0x0000_22b7, 0x0002_a503, 0x0002_a503]],
    &[&[
        0x0000_22b7,
        0x0000_3337,
        0x0002_a403,
        0x0003_2483,
        0x0053_2023,
    ]],
    // Stores behind each other, one to the last word of memory, and a jump to a target that is no multiple of 4.
    &[
        &[0x0000_22b7],
        STORE,
        &[0xffc0_0293],
        STORE,
        &[0x0002_a503],
        PUT,
    ],
    &[&[0x0060_0067]],
];

const LOCK: &str =
    "    lui t0, 1\n    lui t1, 2\n    addi s1, zero, 25\n    addi a7, zero, 3\n    ecall\n    addi a2, a0, 0\ntake: addi t2, zero, 1\nagain:\n    amoswap.w.aq s0, t2, (t0)\n    bne s0, zero, again\n    lw a1, 0(t1)\n    addi a1, a1, 1\n    sw a1, 0(t1)\n    sw zero, 0(t0)   # released\n    addi s1, s1, -1\n    bne s1, zero, again\n    bne a2, zero, done\n\nwait:   addi a3, zero, 200\nread: lw a0, 0(t1)\n    bne a0, a3, read\n    addi a7, zero, 2\n    ecall\ndone: addi a0, zero, 0\n    addi a7, zero, 2\n    ecall\n";

/// The words of `LOCK`.
static LOCK_WORDS: [u32; 24] = [
    0x0000_12b7,
    0x0000_2337,
    0x0190_0493,
    0x0030_0893,
    0x0000_0073,
    0x0005_0613,
    0x0010_0393,
    0x0c72_a42f,
    0xfe04_1ee3,
    0x0003_2583,
    0x0015_8593,
    0x00b3_2023,
    0x0002_a023,
    0xfff4_8493,
    0xfe04_92e3,
    0x0006_1c63,
    0x0c80_0693,
    0x0003_2503,
    0xfed5_1ee3,
    0x0020_0893,
    0x0000_0073,
    0x0000_0513,
    0x0020_0893,
    0x0000_0073,
];

const BACK: &str =
    "start:\n jal ra, end\nmiddle: beq x1, x2, start\n bltu x3, x4, end\n.word 0xffffffff\n jal x0, middle\nend: bgeu x31, x30, middle\n blt a0, a1, end\n bge a0, a1, start\n";

/// The words of `BACK`.
static BACK_WORDS: [u32; 8] = [
    0x0140_00ef,
    0xfe20_8ee3,
    0x0041_e663,
    0xffff_ffff,
    0xff5f_f06f,
    0xffef_f8e3,
    0xfeb5_4ee3,
    0xfeb5_52e3,
];

fn word(what: TextFault) -> &'static str {
    match what {
        TextFault::Text => "text",
        TextFault::Label => "label",
        TextFault::Word => "word",
        TextFault::Operand => "operand",
        TextFault::Target => "target",
        TextFault::Range => "range",
        TextFault::Words => "words",
        TextFault::Empty => "empty",
    }
}

/// What is answered to a text: `ok`, or the fault and its line.
fn answer(alloc: Global, text: &[u8]) -> Result<String, Fail> {
    if text.len() > 1_000_000 {
        return Ok(String::from_str(alloc, "long")?);
    }
    match assemble(alloc, text) {
        Ok(_) => Ok(String::from_str(alloc, "ok")?),
        Err(TextRefusal::NoMemory) => Ok(String::from_str(alloc, "no memory")?),
        Err(TextRefusal::Refused { line, what }) => {
            Ok(format!(in alloc; "{} {line}", word(what))?)
        }
    }
}

/// The image of a text that is assembled.
fn image_of(alloc: Global, text: &[u8]) -> Result<Vec<u8>, Fail> {
    if text.len() > 1_000_000 {
        return Ok(Vec::new(alloc));
    }
    Ok(assemble(alloc, text).ok().ok_or("refused")?)
}

/// The text of an image.
fn text_of(alloc: Global, image: &[u8]) -> Result<Vec<u8>, Fail> {
    if image.len() % 4 != 0 {
        return Ok(Vec::new(alloc));
    }
    Ok(disassemble(alloc, image).ok().ok_or("no memory")?)
}

fn bytes_of(alloc: Global, words: &[u32]) -> Result<Vec<u8>, Fail> {
    let mut bytes = Vec::new(alloc);
    for word in words {
        bytes.extend_from_slice(&word.to_le_bytes())?;
    }
    Ok(bytes)
}

/// A line is assembled to its word, and the word is written as the line.
fn both_ways(rt: &impl Abort, alloc: Global, row: Row) -> Result<(), Fail> {
    let (word, line) = row;
    let image = image_of(alloc, line.as_bytes())?;
    assert_eq!(rt; image.as_slice(), word.to_le_bytes().as_slice(), "{line}");
    let mut text = text_of(alloc, &image)?;
    assert_eq!(rt; text.pop(), Some(b'\n'), "{line}");
    assert_eq!(rt; text.as_slice(), line.as_bytes(), "{line}");
    Ok(())
}

#[test]
fn each_row_is_read_and_written(rt: HostRuntime) -> Result<(), Fail> {
    for row in &ROWS {
        both_ways(&rt, rt.alloc(), *row)?;
    }
    Ok(())
}

#[test]
fn words_without_an_instruction_are_written_and_read(rt: HostRuntime) -> Result<(), Fail> {
    for row in &WRITTEN {
        both_ways(&rt, rt.alloc(), *row)?;
    }
    Ok(())
}

#[test]
fn lines_are_spelled_in_many_ways(rt: HostRuntime) -> Result<(), Fail> {
    for (word, line) in &SPELLINGS {
        let image = image_of(rt.alloc(), line.as_bytes())?;
        assert_eq!(rt; image.as_slice(), word.to_le_bytes().as_slice(), "{line}");
    }
    Ok(())
}

#[test]
fn the_first_fault_is_answered(rt: HostRuntime) -> Result<(), Fail> {
    for (text, wanted) in &ANSWERS {
        let found = answer(rt.alloc(), text.as_bytes())?;
        assert_eq!(rt; found.as_str(), *wanted, "{text}");
    }
    Ok(())
}

/// A text is assembled to these words, which come back through their own text.
fn assembles(rt: &impl Abort, alloc: Global, text: &[u8], words: &[u32]) -> Result<(), Fail> {
    let wanted = bytes_of(alloc, words)?;
    let image = image_of(alloc, text)?;
    assert_eq!(rt; image.as_slice(), wanted.as_slice());
    let again = image_of(alloc, &text_of(alloc, &image)?)?;
    assert_eq!(rt; again.as_slice(), wanted.as_slice());
    Ok(())
}

#[test]
fn labels_are_found_before_and_behind(rt: HostRuntime) -> Result<(), Fail> {
    assembles(&rt, rt.alloc(), LOCK.as_bytes(), &LOCK_WORDS)?;
    assembles(&rt, rt.alloc(), BACK.as_bytes(), &BACK_WORDS)?;
    assembles(&rt, rt.alloc(), b"loop: bne x8, x0, loop", &[0x0004_1063])
}

#[test]
fn a_reservation_by_names_of_use(rt: HostRuntime) -> Result<(), Fail> {
    let text = b"lui t0, 1\nlr.w t2, (t0)\nsc.w a0, t2, (t0)\naddi a7, zero, 1\necall\n";
    let words = [
        0x0000_12b7,
        0x1002_a3af,
        0x1872_a52f,
        0x0010_0893,
        0x0000_0073,
    ];
    assembles(&rt, rt.alloc(), text, &words)
}

#[test]
fn programs_come_back_through_their_text(rt: HostRuntime) -> Result<(), Fail> {
    let mut image = Vec::new(rt.alloc());
    for program in &PROGRAMS {
        for piece in *program {
            image.extend_from_slice(&bytes_of(rt.alloc(), piece)?)?;
        }
    }
    let text = text_of(rt.alloc(), &image)?;
    let again = image_of(rt.alloc(), &text)?;
    assert_eq!(rt; again.as_slice(), image.as_slice());
    Ok(())
}

#[test]
fn a_program_that_puts_a_letter_is_written(rt: HostRuntime) -> Result<(), Fail> {
    let words = [
        0x0410_0513,
        0x0010_0893,
        0x0000_0073,
        0x0000_0513,
        0x0020_0893,
        0x0000_0073,
    ];
    let wanted =
        b"addi x10, x0, 65\naddi x17, x0, 1\necall\naddi x10, x0, 0\naddi x17, x0, 2\necall\n";
    let image = bytes_of(rt.alloc(), &words)?;
    let text = text_of(rt.alloc(), &image)?;
    assert_eq!(rt; text.as_slice(), wanted.as_slice());
    let none = text_of(rt.alloc(), &[])?;
    assert_eq!(rt; none.len(), 0);
    assembles(&rt, rt.alloc(), wanted, &words)
}

fn lines(alloc: Global, count: u32) -> Result<Vec<u8>, Fail> {
    let mut text = Vec::new(alloc);
    for _ in 0..count {
        text.extend_from_slice(b"ecall\n")?;
    }
    Ok(text)
}

#[test]
fn a_text_has_at_most_16384_items(rt: HostRuntime) -> Result<(), Fail> {
    let most = lines(rt.alloc(), 16_384)?;
    assert_eq!(rt; answer(rt.alloc(), &most)?.as_str(), "ok");
    let mut more = lines(rt.alloc(), 16_384)?;
    more.extend_from_slice(b"# no item\n\nlast: ecall")?;
    assert_eq!(rt; answer(rt.alloc(), &more)?.as_str(), "words 16387");
    Ok(())
}
