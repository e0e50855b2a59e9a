//! The word of an instruction, by the formats of RV32I ("Base Instruction Formats", "Immediate Encoding Variants").
ghost use Rattle.std.specs.Prelude.{◌≡◌, ◌+◌, ◌*◌, ◌^◌, ◌<◌, ◌≤◌, ℕ, Some};
ghost use Rattle.rv_decode.specs.Table.{field, decode_of};
ghost use Rattle.rv_decode.specs.Valid.{FitsBits, FitsOperation, IsValid, IsRegister, IsUpper};
ghost use Rattle.rv_decode.specs.Encode.{encode_of, bits_of, bit_of, r_word, i_word, s_word, b_word, u_word, j_word};
ghost use Rattle.rv_decode.specs.Encode.{atomic_word, branch_funct3, load_funct3, store_funct3, immediate_funct3};
ghost use Rattle.rv_decode.specs.Encode.{immediate_funct7, register_funct3, register_funct7, amo_funct5};

use crate::fields::bits;
use crate::instructions::{AmoOp, BranchOp, ImmOp, Instr, LoadOp, Reg, RegOp, StoreOp};

#[tactic(auto, unfolding(crate::specs::Encode::branch_funct3))]
fn branch_funct3(op: BranchOp) -> u32
    ensures value { result ≡ branch_funct3 op }
    ensures bound { result < 8 }
{
    match op {
        BranchOp::Beq => 0b000,
        BranchOp::Bne => 0b001,
        BranchOp::Blt => 0b100,
        BranchOp::Bge => 0b101,
        BranchOp::Bltu => 0b110,
        BranchOp::Bgeu => 0b111,
    }
}

#[tactic(auto, unfolding(crate::specs::Encode::load_funct3))]
fn load_funct3(op: LoadOp) -> u32
    ensures value { result ≡ load_funct3 op }
    ensures bound { result < 8 }
{
    match op {
        LoadOp::Lb => 0b000,
        LoadOp::Lh => 0b001,
        LoadOp::Lw => 0b010,
        LoadOp::Lbu => 0b100,
        LoadOp::Lhu => 0b101,
    }
}

#[tactic(auto, unfolding(crate::specs::Encode::store_funct3))]
fn store_funct3(op: StoreOp) -> u32
    ensures value { result ≡ store_funct3 op }
    ensures bound { result < 8 }
{
    match op {
        StoreOp::Sb => 0b000,
        StoreOp::Sh => 0b001,
        StoreOp::Sw => 0b010,
    }
}

#[tactic(auto, unfolding(crate::specs::Encode::immediate_funct3))]
fn immediate_funct3(op: ImmOp) -> u32
    ensures value { result ≡ immediate_funct3 op }
    ensures bound { result < 8 }
{
    match op {
        ImmOp::Addi => 0b000,
        ImmOp::Slti => 0b010,
        ImmOp::Sltiu => 0b011,
        ImmOp::Xori => 0b100,
        ImmOp::Ori => 0b110,
        ImmOp::Andi => 0b111,
        ImmOp::Slli => 0b001,
        ImmOp::Srli | ImmOp::Srai => 0b101,
    }
}

/// What stands above the amount of a shift by a fixed amount; 0 for an immediate of 12 bits.
#[tactic(auto, unfolding(crate::specs::Encode::immediate_funct7))]
fn immediate_funct7(op: ImmOp) -> u32
    ensures value { result ≡ immediate_funct7 op }
{
    match op {
        ImmOp::Srai => 0b010_0000,
        _ => 0,
    }
}

#[tactic(auto, unfolding(crate::specs::Encode::register_funct3))]
fn register_funct3(op: RegOp) -> u32
    ensures value { result ≡ register_funct3 op }
    ensures bound { result < 8 }
{
    match op {
        RegOp::Add | RegOp::Sub => 0b000,
        RegOp::Sll => 0b001,
        RegOp::Slt => 0b010,
        RegOp::Sltu => 0b011,
        RegOp::Xor => 0b100,
        RegOp::Srl | RegOp::Sra => 0b101,
        RegOp::Or => 0b110,
        RegOp::And => 0b111,
    }
}

#[tactic(auto, unfolding(crate::specs::Encode::register_funct7))]
fn register_funct7(op: RegOp) -> u32
    ensures value { result ≡ register_funct7 op }
    ensures bound { result < 128 }
{
    match op {
        RegOp::Sub | RegOp::Sra => 0b010_0000,
        _ => 0,
    }
}

#[tactic(auto, unfolding(crate::specs::Encode::amo_funct5))]
fn amo_funct5(op: AmoOp) -> u32
    ensures value { result ≡ amo_funct5 op }
    ensures bound { result < 32 }
{
    match op {
        AmoOp::Swap => 0b00001,
        AmoOp::Add => 0b00000,
        AmoOp::Xor => 0b00100,
        AmoOp::And => 0b01100,
        AmoOp::Or => 0b01000,
        AmoOp::Min => 0b10000,
        AmoOp::Max => 0b10100,
        AmoOp::Minu => 0b11000,
        AmoOp::Maxu => 0b11100,
    }
}

/// A number as so many bits in two's complement.
fn bits_of(number: i32, count: u32) -> u32
    requires low { 1 ≤ count }
    requires high { count ≤ 21 }
    requires fits { FitsBits count number }
    ensures value { result ≡ bits_of count number }
    ensures bound { result < 2 ^ count }
{
    if number < 0 {
        (number + (1 << count)) as u32
    } else {
        number as u32
    }
}

#[tactic(auto, unfolding(crate::specs::Encode::r_word))]
fn r_word(funct7: u32, rs2: Reg, rs1: Reg, funct3: u32, rd: Reg, opcode: u32) -> u32
    requires funct7 { funct7 < 128 }
    requires rs2 { IsRegister rs2 }
    requires rs1 { IsRegister rs1 }
    requires funct3 { funct3 < 8 }
    requires rd { IsRegister rd }
    requires opcode { opcode < 128 }
    ensures { result ≡ r_word funct7 rs2 rs1 funct3 rd opcode }
{
    let registers = (u32::from(rs2.0) << 20) + (u32::from(rs1.0) << 15) + (u32::from(rd.0) << 7);
    (funct7 << 25) + registers + (funct3 << 12) + opcode
}

#[tactic(auto, unfolding(crate::specs::Encode::i_word))]
fn i_word(imm: u32, rs1: Reg, funct3: u32, rd: Reg, opcode: u32) -> u32
    requires imm { imm < 4096 }
    requires rs1 { IsRegister rs1 }
    requires funct3 { funct3 < 8 }
    requires rd { IsRegister rd }
    requires opcode { opcode < 128 }
    ensures { result ≡ i_word imm rs1 funct3 rd opcode }
{
    (imm << 20) + (u32::from(rs1.0) << 15) + (funct3 << 12) + (u32::from(rd.0) << 7) + opcode
}

#[tactic(auto, unfolding(crate::specs::Encode::s_word))]
fn s_word(imm: u32, rs2: Reg, rs1: Reg, funct3: u32, opcode: u32) -> u32
    requires imm { imm < 4096 }
    requires rs2 { IsRegister rs2 }
    requires rs1 { IsRegister rs1 }
    requires funct3 { funct3 < 8 }
    requires opcode { opcode < 128 }
    ensures { result ≡ s_word imm rs2 rs1 funct3 opcode }
{
    r_word(
        bits(imm, 5, 7),
        rs2,
        rs1,
        funct3,
        Reg(bits(imm, 0, 5) as u8),
        opcode,
    )
}

#[tactic(auto, unfolding(crate::specs::Encode::b_word))]
fn b_word(imm: u32, rs2: Reg, rs1: Reg, funct3: u32, opcode: u32) -> u32
    requires imm { imm < 8192 }
    requires rs2 { IsRegister rs2 }
    requires rs1 { IsRegister rs1 }
    requires funct3 { funct3 < 8 }
    requires opcode { opcode < 128 }
    ensures { result ≡ b_word imm rs2 rs1 funct3 opcode }
{
    let high = (bits(imm, 12, 1) << 6) + bits(imm, 5, 6);
    let low = (bits(imm, 1, 4) << 1) + bits(imm, 11, 1);
    r_word(high, rs2, rs1, funct3, Reg(low as u8), opcode)
}

#[tactic(auto, unfolding(crate::specs::Encode::u_word))]
fn u_word(imm: u32, rd: Reg, opcode: u32) -> u32
    requires imm { IsUpper imm }
    requires rd { IsRegister rd }
    requires opcode { opcode < 128 }
    ensures { result ≡ u_word imm rd opcode }
{
    imm + (u32::from(rd.0) << 7) + opcode
}

#[tactic(auto, unfolding(crate::specs::Encode::j_word))]
fn j_word(imm: u32, rd: Reg, opcode: u32) -> u32
    requires rd { IsRegister rd }
    requires opcode { opcode < 128 }
    ensures { result ≡ j_word imm rd opcode }
{
    let high = (bits(imm, 20, 1) << 31) + (bits(imm, 1, 10) << 21);
    let low = (bits(imm, 11, 1) << 20) + (bits(imm, 12, 8) << 12);
    u_word(high + low, rd, opcode)
}

#[tactic(auto, unfolding(crate::specs::Encode::atomic_word))]
fn atomic_word(funct5: u32, aq: bool, rl: bool, rs2: Reg, rs1: Reg, rd: Reg) -> u32
    requires funct5 { funct5 < 32 }
    requires rs2 { IsRegister rs2 }
    requires rs1 { IsRegister rs1 }
    requires rd { IsRegister rd }
    ensures { result ≡ atomic_word funct5 aq rl rs2 rs1 rd }
{
    let funct7 = (funct5 << 2) + (u32::from(aq) << 1) + u32::from(rl);
    r_word(funct7, rs2, rs1, 0b010, rd, 0b010_1111)
}

/// The word of an operation with an immediate: of 12 bits, or the amount of a shift below its funct7.
fn immediate_word(op: ImmOp, rd: Reg, rs1: Reg, imm: i32) -> u32
    requires rd { IsRegister rd }
    requires rs1 { IsRegister rs1 }
    requires imm { FitsOperation op imm }
    ensures { result ≡ i_word (immediate_funct7 op * 2 ^ 5 + bits_of 12 imm) rs1 (immediate_funct3 op) rd 0b0010011 }
{
    let number = (immediate_funct7(op) << 5) + bits_of(imm, 12);
    i_word(number, rs1, immediate_funct3(op), rd, 0b001_0011)
}

/// The word of a valid instruction, which `decode` takes back to it.
#[tactic(auto, using(crate::proofs::Encoded::encoded), unfolding(crate::specs::Encode::encode_of))]
pub fn encode(instr: &Instr) -> u32
    requires { IsValid instr.now }
    ensures word { result ≡ encode_of instr.now }
    ensures decoded { decode_of result ≡ Some instr.now }
{
    match *instr {
        Instr::Lui { rd, imm } => u_word(imm, rd, 0b011_0111),
        Instr::Auipc { rd, imm } => u_word(imm, rd, 0b001_0111),
        Instr::Jal { rd, offset } => j_word(bits_of(offset, 21), rd, 0b110_1111),
        Instr::Jalr { rd, rs1, offset } => i_word(bits_of(offset, 12), rs1, 0b000, rd, 0b110_0111),
        Instr::Branch {
            op,
            rs1,
            rs2,
            offset,
        } => { b_word(bits_of(offset, 13), rs2, rs1, branch_funct3(op), 0b110_0011) }
        Instr::Load {
            op,
            rd,
            rs1,
            offset,
        } => { i_word(bits_of(offset, 12), rs1, load_funct3(op), rd, 0b000_0011) }
        Instr::Store {
            op,
            rs1,
            rs2,
            offset,
        } => { s_word(bits_of(offset, 12), rs2, rs1, store_funct3(op), 0b010_0011) }
        Instr::Immediate { op, rd, rs1, imm } => immediate_word(op, rd, rs1, imm),
        Instr::Register { op, rd, rs1, rs2 } => {
            r_word(
                register_funct7(op),
                rs2,
                rs1,
                register_funct3(op),
                rd,
                0b011_0011,
            )
        }
        Instr::Fence { rd, rs1, imm } => i_word(imm, rs1, 0b000, rd, 0b000_1111),
        Instr::Ecall => 0x0000_0073,
        Instr::Ebreak => 0x0010_0073,
        Instr::Lr { rd, rs1, aq, rl } => atomic_word(0b00010, aq, rl, Reg(0), rs1, rd),
        Instr::Sc {
            rd,
            rs1,
            rs2,
            aq,
            rl,
        } => atomic_word(0b00011, aq, rl, rs2, rs1, rd),
        Instr::Amo {
            op,
            rd,
            rs1,
            rs2,
            aq,
            rl,
        } => atomic_word(amo_funct5(op), aq, rl, rs2, rs1, rd),
    }
}
