//! The program of a made image: the instructions before the rounds, those of a round, and those after the rounds.
ghost use Rattle.std.specs.Prelude.{◌≡◌, ◌<◌, pos, All};
ghost use Rattle.made_image.specs.RvDecode.declared.instructions.ImmOp.TheVariants.{Addi};
ghost use Rattle.made_image.specs.RvDecode.declared.instructions.Instr.TheVariants.{Immediate};
ghost use Rattle.made_image.specs.RvDecode.Valid.{IsValid};
ghost use Rattle.made_image.specs.MadeImage.{adding, ending, loading, opening, round_of, storing, swapping};

use crate::of_rv_decode::{AmoOp, ImmOp, Instr, LoadOp, Reg, RegOp, StoreOp};

/// The address of the first of the 64 words.
const FIRST: Reg = Reg(5);

/// The word that was read.
const READ: Reg = Reg(6);

/// What the program counts, and exits with.
const COUNT: Reg = Reg(7);

/// The address of one of the 64 words.
const PLACE: Reg = Reg(8);

fn add_immediate(rd: Reg, rs1: Reg, number: u32) -> Instr
    requires register { rd < 32 }
    requires source { rs1 < 32 }
    requires small { number < 2048 }
    ensures instr { result ≡ Immediate Addi rd rs1 (pos number) }
    ensures valid { IsValid result }
{
    Instr::Immediate {
        op: ImmOp::Addi,
        rd,
        rs1,
        imm: number as i32,
    }
}

fn loading(offset: u32) -> [Instr; 2]
    requires { offset < 256 }
    ensures program { result ≡ loading offset }
    ensures valid { All IsValid result }
{
    [
        Instr::Load {
            op: LoadOp::Lw,
            rd: READ,
            rs1: FIRST,
            offset: offset as i32,
        },
        Instr::Register {
            op: RegOp::Add,
            rd: COUNT,
            rs1: COUNT,
            rs2: READ,
        },
    ]
}

fn storing(offset: u32) -> [Instr; 2]
    requires { offset < 256 }
    ensures program { result ≡ storing offset }
    ensures valid { All IsValid result }
{
    [
        Instr::Store {
            op: StoreOp::Sw,
            rs1: FIRST,
            rs2: COUNT,
            offset: offset as i32,
        },
        add_immediate(COUNT, COUNT, 1),
    ]
}

fn adding(offset: u32) -> [Instr; 2]
    requires { offset < 256 }
    ensures program { result ≡ adding offset }
    ensures valid { All IsValid result }
{
    [
        add_immediate(PLACE, FIRST, offset),
        Instr::Amo {
            op: AmoOp::Add,
            rd: READ,
            rs1: PLACE,
            rs2: COUNT,
            aq: false,
            rl: false,
        },
    ]
}

fn swapping(offset: u32) -> [Instr; 2]
    requires { offset < 256 }
    ensures program { result ≡ swapping offset }
    ensures valid { All IsValid result }
{
    [
        add_immediate(PLACE, FIRST, offset),
        Instr::Amo {
            op: AmoOp::Swap,
            rd: COUNT,
            rs1: PLACE,
            rs2: READ,
            aq: false,
            rl: false,
        },
    ]
}

/// The two instructions of a round, by a word of the generator.
#[tactic(auto, unfolding(crate::specs::MadeImage::round_of))]
pub fn round_of(word: u32) -> [Instr; 2]
    ensures program { result ≡ round_of word }
    ensures valid { All IsValid result }
{
    let offset = 4 * (word % 64);
    match word / 64 % 4 {
        0 => loading(offset),
        1 => storing(offset),
        2 => adding(offset),
        _ => swapping(offset),
    }
}

pub fn opening() -> [Instr; 1]
    ensures program { result ≡ opening }
    ensures valid { All IsValid result }
{
    [Instr::Lui {
        rd: FIRST,
        imm: 0x20_0000,
    }]
}

/// Exits with the count.
pub fn ending() -> [Instr; 3]
    ensures program { result ≡ ending }
    ensures valid { All IsValid result }
{
    [
        add_immediate(Reg(17), Reg(0), 93),
        add_immediate(Reg(10), COUNT, 0),
        Instr::Ecall,
    ]
}
