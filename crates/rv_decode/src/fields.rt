//! The fields of a word and its immediates, as RV32I lays them out ("Base Instruction Formats", "Immediate Encoding
//! Variants").
ghost use Rattle.std.specs.Prelude.{◌≡◌, ◌+◌, ◌^◌, ◌<◌, ◌≤◌};
ghost use Rattle.rv_decode.specs.Table.{field, signed, rd_of, rs1_of, rs2_of, i_immediate, s_immediate, b_immediate};
ghost use Rattle.rv_decode.specs.Table.{u_immediate, j_immediate, shift_amount, aq_of, rl_of};

use crate::instructions::Reg;

/// So many bits of a word, from the bit `low` upward.
pub fn bits(word: u32, low: u32, count: u32) -> u32
    requires low { low < 32 }
    requires count { count < 32 }
    ensures value { result ≡ field low count word }
    ensures bound { result < 2 ^ count }
{
    word >> low & ((1 << count) - 1)
}

pub fn opcode(word: u32) -> u32
    ensures { result ≡ field 0 7 word }
{
    word & 0b111_1111
}

pub fn funct3(word: u32) -> u32
    ensures { result ≡ field 12 3 word }
{
    word >> 12 & 0b111
}

pub fn funct5(word: u32) -> u32
    ensures { result ≡ field 27 5 word }
{
    word >> 27
}

pub fn funct7(word: u32) -> u32
    ensures { result ≡ field 25 7 word }
{
    word >> 25
}

/// The register whose number is the five bits from `low` upward.
fn register(word: u32, low: u32) -> Reg
    requires { low < 32 }
    ensures value { result ≡ field low 5 word }
    ensures bound { result < 32 }
{
    Reg(bits(word, low, 5) as u8)
}

pub fn rd(word: u32) -> Reg
    ensures { result ≡ rd_of word }
{
    register(word, 7)
}

pub fn rs1(word: u32) -> Reg
    ensures { result ≡ rs1_of word }
{
    register(word, 15)
}

pub fn rs2(word: u32) -> Reg
    ensures { result ≡ rs2_of word }
{
    register(word, 20)
}

/// Whether an atomic instruction acquires.
pub fn aq(word: u32) -> bool
    ensures { result ≡ aq_of word }
{
    word >> 26 & 1 == 1
}

/// Whether an atomic instruction releases.
pub fn rl(word: u32) -> bool
    ensures { result ≡ rl_of word }
{
    word >> 25 & 1 == 1
}

/// The number that so many bits stand for in two's complement.
fn sign_extend(number: u32, count: u32) -> i32
    requires low { 1 ≤ count }
    requires high { count ≤ 21 }
    requires fits { number < 2 ^ count }
    ensures { result ≡ signed count number }
{
    if number < 1 << (count - 1) {
        number as i32
    } else {
        number as i32 - (1 << count)
    }
}

pub fn i_immediate(word: u32) -> i32
    ensures { result ≡ i_immediate word }
{
    sign_extend(word >> 20, 12)
}

pub fn s_immediate(word: u32) -> i32
    ensures { result ≡ s_immediate word }
{
    sign_extend((word >> 25 << 5) + bits(word, 7, 5), 12)
}

pub fn b_immediate(word: u32) -> i32
    ensures { result ≡ b_immediate word }
{
    let high = (word >> 31 << 12) + (bits(word, 7, 1) << 11);
    let number = high + (bits(word, 25, 6) << 5) + (bits(word, 8, 4) << 1);
    sign_extend(number, 13)
}

pub fn u_immediate(word: u32) -> u32
    ensures { result ≡ u_immediate word }
{
    word >> 12 << 12
}

pub fn j_immediate(word: u32) -> i32
    ensures { result ≡ j_immediate word }
{
    let high = (word >> 31 << 20) + (bits(word, 12, 8) << 12);
    let number = high + (bits(word, 20, 1) << 11) + (bits(word, 21, 10) << 1);
    sign_extend(number, 21)
}

/// The amount of a shift by a fixed amount.
pub fn shift_amount(word: u32) -> i32
    ensures { result ≡ shift_amount word }
{
    bits(word, 20, 5) as i32
}

/// A fence's immediate: its mode, its predecessors and its successors.
pub fn fence_immediate(word: u32) -> u32
    ensures { result ≡ field 20 12 word }
{
    word >> 20
}
