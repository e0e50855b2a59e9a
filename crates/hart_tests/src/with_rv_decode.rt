//! Words as the assembler of binutils makes them, with the operands that its disassembler shows.
use rv_decode::*;
use std::test::*;

fn lui(rd: u8, imm: u32) -> Instr {
    Instr::Lui { rd: Reg(rd), imm }
}

fn auipc(rd: u8, imm: u32) -> Instr {
    Instr::Auipc { rd: Reg(rd), imm }
}

fn jal(rd: u8, offset: i32) -> Instr {
    Instr::Jal {
        rd: Reg(rd),
        offset,
    }
}

fn jalr(rd: u8, rs1: u8, offset: i32) -> Instr {
    Instr::Jalr {
        rd: Reg(rd),
        rs1: Reg(rs1),
        offset,
    }
}

fn branch(op: BranchOp, rs1: u8, rs2: u8, offset: i32) -> Instr {
    Instr::Branch {
        op,
        rs1: Reg(rs1),
        rs2: Reg(rs2),
        offset,
    }
}

fn load(op: LoadOp, rd: u8, rs1: u8, offset: i32) -> Instr {
    Instr::Load {
        op,
        rd: Reg(rd),
        rs1: Reg(rs1),
        offset,
    }
}

fn store(op: StoreOp, rs1: u8, rs2: u8, offset: i32) -> Instr {
    Instr::Store {
        op,
        rs1: Reg(rs1),
        rs2: Reg(rs2),
        offset,
    }
}

fn immediate(op: ImmOp, rd: u8, rs1: u8, imm: i32) -> Instr {
    Instr::Immediate {
        op,
        rd: Reg(rd),
        rs1: Reg(rs1),
        imm,
    }
}

fn register(op: RegOp, rd: u8, rs1: u8, rs2: u8) -> Instr {
    Instr::Register {
        op,
        rd: Reg(rd),
        rs1: Reg(rs1),
        rs2: Reg(rs2),
    }
}

fn fence(imm: u32) -> Instr {
    Instr::Fence {
        rd: Reg(0),
        rs1: Reg(0),
        imm,
    }
}

fn lr([rd, rs1]: [u8; 2], aq: bool, rl: bool) -> Instr {
    Instr::Lr {
        rd: Reg(rd),
        rs1: Reg(rs1),
        aq,
        rl,
    }
}

fn sc([rd, rs1, rs2]: [u8; 3], aq: bool, rl: bool) -> Instr {
    Instr::Sc {
        rd: Reg(rd),
        rs1: Reg(rs1),
        rs2: Reg(rs2),
        aq,
        rl,
    }
}

fn amo(op: AmoOp, [rd, rs1, rs2]: [u8; 3], aq: bool, rl: bool) -> Instr {
    Instr::Amo {
        op,
        rd: Reg(rd),
        rs1: Reg(rs1),
        rs2: Reg(rs2),
        aq,
        rl,
    }
}

/// The word is the instruction, and the instruction's word is this one.
fn is_word_of(word: u32, instr: Instr) -> bool {
    decode(word) == Some(instr) && instr.valid() && encode(&instr) == word
}

#[test]
fn vectors(rt: HostRuntime) {
    assert!(rt; is_word_of(0x1005_22af, lr([5, 10], false, false)));
    assert!(rt; is_word_of(0x1855_232f, sc([6, 10, 5], false, false)));
    assert!(rt; is_word_of(0x0ff0_000f, fence(0x0ff)));
    assert!(rt; is_word_of(0x0010_0073, Instr::Ebreak));
}

/// MUL, FENCE.I, SLLI with bit 30, LR with rs2 x1, and words of no instruction.
#[test]
fn outside(rt: HostRuntime) {
    for word in [
        0x0220_8033,
        0x0000_100f,
        0x4011_1093,
        0x1015_22af,
        0xffff_ffff,
        0x0000_0000,
    ] {
        assert_eq!(rt; decode(word), None, "{word:08x}");
    }
}

#[test]
fn valid_bounds(rt: HostRuntime) {
    assert!(rt; !register(RegOp::Add, 32, 0, 0).valid());
    assert!(rt; !immediate(ImmOp::Addi, 0, 0, 2048).valid());
    assert!(rt; !immediate(ImmOp::Srai, 0, 0, 32).valid());
    assert!(rt; !branch(BranchOp::Beq, 0, 0, 3).valid());
    assert!(rt; !branch(BranchOp::Beq, 0, 0, 4096).valid());
    assert!(rt; !fence(4096).valid());
}

#[test]
fn upper_and_jumps(rt: HostRuntime) {
    let table = [
        // lui x1,0xfffff
        (0xffff_f0b7, lui(1, 0xffff_f000)),
        // lui x31,0x1
        (0x0000_1fb7, lui(31, 0x0000_1000)),
        // auipc x10,0x12345
        (0x1234_5517, auipc(10, 0x1234_5000)),
        // auipc x0,0x80000
        (0x8000_0017, auipc(0, 0x8000_0000)),
        // jal x1,+1048574
        (0x7fff_f0ef, jal(1, 1048574)),
        // jal x0,-1048576
        (0x8000_006f, jal(0, -1048576)),
        // jal x5,+2048
        (0x0010_02ef, jal(5, 2048)),
        // jal x31,-2
        (0xffff_ffef, jal(31, -2)),
        // jalr x1,-2048(x2)
        (0x8001_00e7, jalr(1, 2, -2048)),
        // jalr x0,2047(x31)
        (0x7fff_8067, jalr(0, 31, 2047)),
    ];
    for (word, instr) in table {
        assert!(rt; is_word_of(word, instr), "{word:08x}");
    }
}

#[test]
fn branches(rt: HostRuntime) {
    let table = [
        // beq x1,x2,1026
        (0x7e20_8fe3, branch(BranchOp::Beq, 1, 2, 4094)),
        // bne x3,x4,fffff02c
        (0x8041_9063, branch(BranchOp::Bne, 3, 4, -4096)),
        // blt x5,x6,2e
        (0xfe62_cfe3, branch(BranchOp::Blt, 5, 6, -2)),
        // bge x7,x8,834
        (0x0083_d0e3, branch(BranchOp::Bge, 7, 8, 2048)),
        // bltu x30,x31,fffff836
        (0xffff_6f63, branch(BranchOp::Bltu, 30, 31, -2050)),
        // bgeu x16,x15,5a
        (0x00f8_7f63, branch(BranchOp::Bgeu, 16, 15, 30)),
    ];
    for (word, instr) in table {
        assert!(rt; is_word_of(word, instr), "{word:08x}");
    }
}

#[test]
fn loads_and_stores(rt: HostRuntime) {
    let table = [
        // lb x1,-1(x2)
        (0xfff1_0083, load(LoadOp::Lb, 1, 2, -1)),
        // lh x3,2047(x4)
        (0x7ff2_1183, load(LoadOp::Lh, 3, 4, 2047)),
        // lw x5,-2048(x6)
        (0x8003_2283, load(LoadOp::Lw, 5, 6, -2048)),
        // lbu x31,0(x30)
        (0x000f_4f83, load(LoadOp::Lbu, 31, 30, 0)),
        // lhu x9,1365(x10)
        (0x5555_5483, load(LoadOp::Lhu, 9, 10, 1365)),
        // sb x1,-1(x2)
        (0xfe11_0fa3, store(StoreOp::Sb, 2, 1, -1)),
        // sh x3,2047(x4)
        (0x7e32_1fa3, store(StoreOp::Sh, 4, 3, 2047)),
        // sw x5,-2048(x6)
        (0x8053_2023, store(StoreOp::Sw, 6, 5, -2048)),
        // sb x31,31(x16)
        (0x01f8_0fa3, store(StoreOp::Sb, 16, 31, 31)),
        // sw x17,-32(x31)
        (0xff1f_a023, store(StoreOp::Sw, 31, 17, -32)),
    ];
    for (word, instr) in table {
        assert!(rt; is_word_of(word, instr), "{word:08x}");
    }
}

#[test]
fn immediates(rt: HostRuntime) {
    let table = [
        // addi x1,x2,-1
        (0xfff1_0093, immediate(ImmOp::Addi, 1, 2, -1)),
        // slti x3,x4,-2048
        (0x8002_2193, immediate(ImmOp::Slti, 3, 4, -2048)),
        // sltiu x5,x6,2047
        (0x7ff3_3293, immediate(ImmOp::Sltiu, 5, 6, 2047)),
        // xori x7,x8,-1366
        (0xaaa4_4393, immediate(ImmOp::Xori, 7, 8, -1366)),
        // ori x9,x10,1
        (0x0015_6493, immediate(ImmOp::Ori, 9, 10, 1)),
        // andi x31,x31,-256
        (0xf00f_ff93, immediate(ImmOp::Andi, 31, 31, -256)),
        // slli x1,x2,0x1f
        (0x01f1_1093, immediate(ImmOp::Slli, 1, 2, 31)),
        // srli x3,x4,0x0
        (0x0002_5193, immediate(ImmOp::Srli, 3, 4, 0)),
        // srai x5,x6,0x10
        (0x4103_5293, immediate(ImmOp::Srai, 5, 6, 16)),
    ];
    for (word, instr) in table {
        assert!(rt; is_word_of(word, instr), "{word:08x}");
    }
}

#[test]
fn registers(rt: HostRuntime) {
    let table = [
        // add x1,x2,x3
        (0x0031_00b3, register(RegOp::Add, 1, 2, 3)),
        // sub x31,x30,x29
        (0x41df_0fb3, register(RegOp::Sub, 31, 30, 29)),
        // sll x4,x5,x6
        (0x0062_9233, register(RegOp::Sll, 4, 5, 6)),
        // slt x7,x8,x9
        (0x0094_23b3, register(RegOp::Slt, 7, 8, 9)),
        // sltu x10,x11,x12
        (0x00c5_b533, register(RegOp::Sltu, 10, 11, 12)),
        // xor x13,x14,x15
        (0x00f7_46b3, register(RegOp::Xor, 13, 14, 15)),
        // srl x16,x17,x18
        (0x0128_d833, register(RegOp::Srl, 16, 17, 18)),
        // sra x19,x20,x21
        (0x415a_59b3, register(RegOp::Sra, 19, 20, 21)),
        // or x22,x23,x24
        (0x018b_eb33, register(RegOp::Or, 22, 23, 24)),
        // and x25,x26,x27
        (0x01bd_7cb3, register(RegOp::And, 25, 26, 27)),
    ];
    for (word, instr) in table {
        assert!(rt; is_word_of(word, instr), "{word:08x}");
    }
}

#[test]
fn fences_and_system(rt: HostRuntime) {
    let table = [
        // fence rw,rw
        (0x0330_000f, fence(0x033)),
        // fence.tso
        (0x8330_000f, fence(0x833)),
        // fence i,o
        (0x0840_000f, fence(0x084)),
        // ecall
        (0x0000_0073, Instr::Ecall),
        // ebreak
        (0x0010_0073, Instr::Ebreak),
    ];
    for (word, instr) in table {
        assert!(rt; is_word_of(word, instr), "{word:08x}");
    }
}

#[test]
fn atomics(rt: HostRuntime) {
    let table = [
        // lr.w x1,(x31)
        (0x100f_a0af, lr([1, 31], false, false)),
        // lr.w.aq x31,(x1)
        (0x1400_afaf, lr([31, 1], true, false)),
        // lr.w.aqrl x16,(x15)
        (0x1607_a82f, lr([16, 15], true, true)),
        // sc.w.rl x1,x2,(x3)
        (0x1a21_a0af, sc([1, 3, 2], false, true)),
        // sc.w x31,x0,(x30)
        (0x180f_2faf, sc([31, 30, 0], false, false)),
        // amoswap.w x1,x2,(x3)
        (0x0821_a0af, amo(AmoOp::Swap, [1, 3, 2], false, false)),
        // amoadd.w.aq x4,x5,(x6)
        (0x0453_222f, amo(AmoOp::Add, [4, 6, 5], true, false)),
        // amoxor.w.rl x7,x8,(x9)
        (0x2284_a3af, amo(AmoOp::Xor, [7, 9, 8], false, true)),
        // amoand.w.aqrl x10,x11,(x12)
        (0x66b6_252f, amo(AmoOp::And, [10, 12, 11], true, true)),
        // amoor.w x13,x14,(x15)
        (0x40e7_a6af, amo(AmoOp::Or, [13, 15, 14], false, false)),
        // amomin.w.aq x16,x17,(x18)
        (0x8519_282f, amo(AmoOp::Min, [16, 18, 17], true, false)),
        // amomax.w.rl x19,x20,(x21)
        (0xa34a_a9af, amo(AmoOp::Max, [19, 21, 20], false, true)),
        // amominu.w.aqrl x22,x23,(x24)
        (0xc77c_2b2f, amo(AmoOp::Minu, [22, 24, 23], true, true)),
        // amomaxu.w x25,x26,(x27)
        (0xe1ad_acaf, amo(AmoOp::Maxu, [25, 27, 26], false, false)),
    ];
    for (word, instr) in table {
        assert!(rt; is_word_of(word, instr), "{word:08x}");
    }
}
