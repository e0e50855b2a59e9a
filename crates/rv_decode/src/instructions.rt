//! The instructions and their operands.
ghost use Rattle.std.specs.Prelude.{◌↔◌, ◌≤◌, IsTrue};
ghost use Rattle.rv_decode.specs.Valid.{FitsBits, IsEven, IsShiftAmount, IsUpper, FitsOperation};

use std::marker::Model;

/// The number of a register, below 32.
#[derive(Clone, Copy, Debug, PartialEq, Eq)]
pub struct Reg(pub u8);

impl Model for Reg {
    ghost use Rattle.std.specs.Prelude.{ℕ};

    ghost Value = { ℕ };

    ghost view = { λ reg. reg.0 };

    ghost inverse = { λ n. record { 0 = n } };
}

#[derive(Clone, Copy, Debug, PartialEq, Eq)]
pub enum BranchOp {
    Beq,
    Bne,
    Blt,
    Bge,
    Bltu,
    Bgeu,
}

#[derive(Clone, Copy, Debug, PartialEq, Eq)]
pub enum LoadOp {
    Lb,
    Lh,
    Lw,
    Lbu,
    Lhu,
}

#[derive(Clone, Copy, Debug, PartialEq, Eq)]
pub enum StoreOp {
    Sb,
    Sh,
    Sw,
}

#[derive(Clone, Copy, Debug, PartialEq, Eq)]
pub enum ImmOp {
    Addi,
    Slti,
    Sltiu,
    Xori,
    Ori,
    Andi,
    Slli,
    Srli,
    Srai,
}

#[derive(Clone, Copy, Debug, PartialEq, Eq)]
pub enum RegOp {
    Add,
    Sub,
    Sll,
    Slt,
    Sltu,
    Xor,
    Srl,
    Sra,
    Or,
    And,
}

#[derive(Clone, Copy, Debug, PartialEq, Eq)]
pub enum AmoOp {
    Add,
    Swap,
    Xor,
    Or,
    And,
    Min,
    Max,
    Minu,
    Maxu,
}

impl Reg {
    ghost use Rattle.std.specs.Prelude.{◌↔◌, IsTrue};
    ghost use Rattle.rv_decode.specs.Valid.{IsRegister};

    /// Whether there is such a register.
    pub fn valid(&self) -> bool
        ensures { IsTrue result ↔ IsRegister self.now }
    {
        self.0 < 32
    }
}

/// Whether a number has so many bits in two's complement.
fn fits_bits(number: i32, count: u32) -> bool
    requires low { 1 ≤ count }
    requires high { count ≤ 21 }
    ensures { IsTrue result ↔ FitsBits count number }
{
    let half = 1 << (count - 1);
    -half <= number && number < half
}

fn is_even(number: i32) -> bool
    ensures { IsTrue result ↔ IsEven number }
{
    number % 2 == 0
}

fn is_shift_amount(number: i32) -> bool
    ensures { IsTrue result ↔ IsShiftAmount number }
{
    0 <= number && number < 32
}

fn is_upper(imm: u32) -> bool
    ensures { IsTrue result ↔ IsUpper imm }
{
    imm % 4096 == 0
}

fn fits_operation(op: ImmOp, imm: i32) -> bool
    ensures { IsTrue result ↔ FitsOperation op imm }
{
    match op {
        ImmOp::Slli | ImmOp::Srli | ImmOp::Srai => is_shift_amount(imm),
        _ => fits_bits(imm, 12),
    }
}

/// An instruction with its operands. An `offset` counts bytes, the `imm` of a shift is its amount, that of
/// `Lui` and `Auipc` is the word with its low 12 bits 0, and that of a fence is the word's upper 12 bits.
#[derive(Clone, Copy, Debug, PartialEq, Eq)]
pub enum Instr {
    Lui {
        rd: Reg,
        imm: u32,
    },
    Auipc {
        rd: Reg,
        imm: u32,
    },
    Jal {
        rd: Reg,
        offset: i32,
    },
    Jalr {
        rd: Reg,
        rs1: Reg,
        offset: i32,
    },
    Branch {
        op: BranchOp,
        rs1: Reg,
        rs2: Reg,
        offset: i32,
    },
    Load {
        op: LoadOp,
        rd: Reg,
        rs1: Reg,
        offset: i32,
    },
    Store {
        op: StoreOp,
        rs1: Reg,
        rs2: Reg,
        offset: i32,
    },
    Immediate {
        op: ImmOp,
        rd: Reg,
        rs1: Reg,
        imm: i32,
    },
    Register {
        op: RegOp,
        rd: Reg,
        rs1: Reg,
        rs2: Reg,
    },
    Fence {
        rd: Reg,
        rs1: Reg,
        imm: u32,
    },
    Ecall,
    Ebreak,
    Lr {
        rd: Reg,
        rs1: Reg,
        aq: bool,
        rl: bool,
    },
    Sc {
        rd: Reg,
        rs1: Reg,
        rs2: Reg,
        aq: bool,
        rl: bool,
    },
    Amo {
        op: AmoOp,
        rd: Reg,
        rs1: Reg,
        rs2: Reg,
        aq: bool,
        rl: bool,
    },
}

impl Instr {
    ghost use Rattle.std.specs.Prelude.{◌↔◌, IsTrue};
    ghost use Rattle.rv_decode.specs.Valid.{IsValid};

    /// Whether a word can be this instruction: its registers are below 32, and its immediate is in the range of
    /// its format.
    pub fn valid(&self) -> bool
        ensures { IsTrue result ↔ IsValid self.now }
    {
        match *self {
            Instr::Lui { rd, imm } => rd.valid() && is_upper(imm),
            Instr::Auipc { rd, imm } => rd.valid() && is_upper(imm),
            Instr::Jal { rd, offset } => rd.valid() && fits_bits(offset, 21) && is_even(offset),
            Instr::Jalr { rd, rs1, offset } => rd.valid() && rs1.valid() && fits_bits(offset, 12),
            Instr::Branch {
                rs1,
                rs2,
                offset,
                ..
            } => { rs1.valid() && rs2.valid() && fits_bits(offset, 13) && is_even(offset) }
            Instr::Load {
                rd,
                rs1,
                offset,
                ..
            } => rd.valid() && rs1.valid() && fits_bits(offset, 12),
            Instr::Store {
                rs1,
                rs2,
                offset,
                ..
            } => rs1.valid() && rs2.valid() && fits_bits(offset, 12),
            Instr::Immediate { op, rd, rs1, imm } => rd.valid()
                && rs1.valid()
                && fits_operation(op, imm),
            Instr::Register { rd, rs1, rs2, .. } => rd.valid() && rs1.valid() && rs2.valid(),
            Instr::Fence { rd, rs1, imm } => rd.valid() && rs1.valid() && imm < 4096,
            Instr::Ecall | Instr::Ebreak => true,
            Instr::Lr { rd, rs1, .. } => rd.valid() && rs1.valid(),
            Instr::Sc { rd, rs1, rs2, .. } => rd.valid() && rs1.valid() && rs2.valid(),
            Instr::Amo { rd, rs1, rs2, .. } => rd.valid() && rs1.valid() && rs2.valid(),
        }
    }
}
