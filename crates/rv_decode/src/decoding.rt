//! The instruction of a word.
ghost use Rattle.std.specs.Prelude.{◌≡◌, IfSome};
ghost use Rattle.rv_decode.specs.Table.{field, decode_of};
ghost use Rattle.rv_decode.specs.Valid.{IsValid};
ghost use Rattle.rv_decode.specs.Selectors.{branch_op, load_op, store_op, immediate_op, shift_op, register_op};
ghost use Rattle.rv_decode.specs.Selectors.{amo_op, jump_of, branch_of, load_of, store_of, shift_of, immediate_of};
ghost use Rattle.rv_decode.specs.Selectors.{register_of, fence_of, system_of, load_reserved_of, amo_of, atomic_of};
ghost use Rattle.rv_decode.specs.Selectors.{by_opcode};

use crate::fields::{
    aq, b_immediate, fence_immediate, funct3, funct5, funct7, i_immediate, j_immediate, opcode, rd,
    rl, rs1, rs2, s_immediate, shift_amount, u_immediate,
};
use crate::instructions::{AmoOp, BranchOp, ImmOp, Instr, LoadOp, RegOp, StoreOp};

#[tactic(auto, unfolding(crate::specs::Selectors::branch_op))]
fn branch_op(funct3: u32) -> Option<BranchOp>
    ensures { result ≡ branch_op funct3 }
{
    match funct3 {
        0b000 => Some(BranchOp::Beq),
        0b001 => Some(BranchOp::Bne),
        0b100 => Some(BranchOp::Blt),
        0b101 => Some(BranchOp::Bge),
        0b110 => Some(BranchOp::Bltu),
        0b111 => Some(BranchOp::Bgeu),
        _ => None,
    }
}

#[tactic(auto, unfolding(crate::specs::Selectors::load_op))]
fn load_op(funct3: u32) -> Option<LoadOp>
    ensures { result ≡ load_op funct3 }
{
    match funct3 {
        0b000 => Some(LoadOp::Lb),
        0b001 => Some(LoadOp::Lh),
        0b010 => Some(LoadOp::Lw),
        0b100 => Some(LoadOp::Lbu),
        0b101 => Some(LoadOp::Lhu),
        _ => None,
    }
}

#[tactic(auto, unfolding(crate::specs::Selectors::store_op))]
fn store_op(funct3: u32) -> Option<StoreOp>
    ensures { result ≡ store_op funct3 }
{
    match funct3 {
        0b000 => Some(StoreOp::Sb),
        0b001 => Some(StoreOp::Sh),
        0b010 => Some(StoreOp::Sw),
        _ => None,
    }
}

/// The operation with an immediate of 12 bits.
#[tactic(auto, unfolding(crate::specs::Selectors::immediate_op))]
fn immediate_op(funct3: u32) -> Option<ImmOp>
    ensures { result ≡ immediate_op funct3 }
{
    match funct3 {
        0b000 => Some(ImmOp::Addi),
        0b010 => Some(ImmOp::Slti),
        0b011 => Some(ImmOp::Sltiu),
        0b100 => Some(ImmOp::Xori),
        0b110 => Some(ImmOp::Ori),
        0b111 => Some(ImmOp::Andi),
        _ => None,
    }
}

/// The shift by a fixed amount.
#[tactic(auto, unfolding(crate::specs::Selectors::shift_op))]
fn shift_op(funct7: u32, funct3: u32) -> Option<ImmOp>
    ensures { result ≡ shift_op funct7 funct3 }
{
    match (funct7, funct3) {
        (0b000_0000, 0b001) => Some(ImmOp::Slli),
        (0b000_0000, 0b101) => Some(ImmOp::Srli),
        (0b010_0000, 0b101) => Some(ImmOp::Srai),
        _ => None,
    }
}

#[tactic(auto, unfolding(crate::specs::Selectors::register_op))]
fn register_op(funct7: u32, funct3: u32) -> Option<RegOp>
    ensures { result ≡ register_op funct7 funct3 }
{
    match (funct7, funct3) {
        (0b000_0000, 0b000) => Some(RegOp::Add),
        (0b010_0000, 0b000) => Some(RegOp::Sub),
        (0b000_0000, 0b001) => Some(RegOp::Sll),
        (0b000_0000, 0b010) => Some(RegOp::Slt),
        (0b000_0000, 0b011) => Some(RegOp::Sltu),
        (0b000_0000, 0b100) => Some(RegOp::Xor),
        (0b000_0000, 0b101) => Some(RegOp::Srl),
        (0b010_0000, 0b101) => Some(RegOp::Sra),
        (0b000_0000, 0b110) => Some(RegOp::Or),
        (0b000_0000, 0b111) => Some(RegOp::And),
        _ => None,
    }
}

#[tactic(auto, unfolding(crate::specs::Selectors::amo_op))]
fn amo_op(funct5: u32) -> Option<AmoOp>
    ensures { result ≡ amo_op funct5 }
{
    match funct5 {
        0b00000 => Some(AmoOp::Add),
        0b00001 => Some(AmoOp::Swap),
        0b00100 => Some(AmoOp::Xor),
        0b01000 => Some(AmoOp::Or),
        0b01100 => Some(AmoOp::And),
        0b10000 => Some(AmoOp::Min),
        0b10100 => Some(AmoOp::Max),
        0b11000 => Some(AmoOp::Minu),
        0b11100 => Some(AmoOp::Maxu),
        _ => None,
    }
}

#[tactic(auto, unfolding(crate::specs::Selectors::jump_of))]
fn decode_jump(word: u32) -> Option<Instr>
    ensures { result ≡ jump_of word }
{
    match funct3(word) {
        0b000 => Some(Instr::Jalr {
            rd: rd(word),
            rs1: rs1(word),
            offset: i_immediate(word),
        }),
        _ => None,
    }
}

#[tactic(auto, unfolding(crate::specs::Selectors::branch_of))]
fn decode_branch(word: u32) -> Option<Instr>
    ensures { result ≡ branch_of word }
{
    let op = branch_op(funct3(word))?;
    Some(Instr::Branch {
        op,
        rs1: rs1(word),
        rs2: rs2(word),
        offset: b_immediate(word),
    })
}

#[tactic(auto, unfolding(crate::specs::Selectors::load_of))]
fn decode_load(word: u32) -> Option<Instr>
    ensures { result ≡ load_of word }
{
    let op = load_op(funct3(word))?;
    Some(Instr::Load {
        op,
        rd: rd(word),
        rs1: rs1(word),
        offset: i_immediate(word),
    })
}

#[tactic(auto, unfolding(crate::specs::Selectors::store_of))]
fn decode_store(word: u32) -> Option<Instr>
    ensures { result ≡ store_of word }
{
    let op = store_op(funct3(word))?;
    Some(Instr::Store {
        op,
        rs1: rs1(word),
        rs2: rs2(word),
        offset: s_immediate(word),
    })
}

#[tactic(auto, unfolding(crate::specs::Selectors::shift_of))]
fn decode_shift(word: u32) -> Option<Instr>
    ensures { result ≡ shift_of word }
{
    let op = shift_op(funct7(word), funct3(word))?;
    Some(Instr::Immediate {
        op,
        rd: rd(word),
        rs1: rs1(word),
        imm: shift_amount(word),
    })
}

#[tactic(auto, unfolding(crate::specs::Selectors::immediate_of))]
fn decode_immediate(word: u32) -> Option<Instr>
    ensures { result ≡ immediate_of word }
{
    match immediate_op(funct3(word)) {
        Some(op) => Some(Instr::Immediate {
            op,
            rd: rd(word),
            rs1: rs1(word),
            imm: i_immediate(word),
        }),
        None => decode_shift(word),
    }
}

#[tactic(auto, unfolding(crate::specs::Selectors::register_of))]
fn decode_register(word: u32) -> Option<Instr>
    ensures { result ≡ register_of word }
{
    let op = register_op(funct7(word), funct3(word))?;
    Some(Instr::Register {
        op,
        rd: rd(word),
        rs1: rs1(word),
        rs2: rs2(word),
    })
}

#[tactic(auto, unfolding(crate::specs::Selectors::fence_of))]
fn decode_fence(word: u32) -> Option<Instr>
    ensures { result ≡ fence_of word }
{
    match funct3(word) {
        0b000 => Some(Instr::Fence {
            rd: rd(word),
            rs1: rs1(word),
            imm: fence_immediate(word),
        }),
        _ => None,
    }
}

#[tactic(auto, unfolding(crate::specs::Selectors::system_of))]
fn decode_system(word: u32) -> Option<Instr>
    ensures { result ≡ system_of word }
{
    match word {
        0x0000_0073 => Some(Instr::Ecall),
        0x0010_0073 => Some(Instr::Ebreak),
        _ => None,
    }
}

#[tactic(auto, unfolding(crate::specs::Selectors::load_reserved_of))]
fn decode_load_reserved(word: u32) -> Option<Instr>
    ensures { result ≡ load_reserved_of word }
{
    match rs2(word).0 {
        0 => Some(Instr::Lr {
            rd: rd(word),
            rs1: rs1(word),
            aq: aq(word),
            rl: rl(word),
        }),
        _ => None,
    }
}

#[tactic(auto, unfolding(crate::specs::Selectors::amo_of))]
fn decode_amo(word: u32) -> Option<Instr>
    ensures { result ≡ amo_of word }
{
    let op = amo_op(funct5(word))?;
    Some(Instr::Amo {
        op,
        rd: rd(word),
        rs1: rs1(word),
        rs2: rs2(word),
        aq: aq(word),
        rl: rl(word),
    })
}

#[tactic(auto, unfolding(crate::specs::Selectors::atomic_of))]
fn decode_atomic(word: u32) -> Option<Instr>
    ensures { result ≡ atomic_of word }
{
    if funct3(word) != 0b010 {
        return None;
    }
    match funct5(word) {
        0b00010 => decode_load_reserved(word),
        0b00011 => Some(Instr::Sc {
            rd: rd(word),
            rs1: rs1(word),
            rs2: rs2(word),
            aq: aq(word),
            rl: rl(word),
        }),
        _ => decode_amo(word),
    }
}

#[tactic(auto, unfolding(crate::specs::Selectors::by_opcode))]
fn decode_opcode(word: u32) -> Option<Instr>
    ensures { result ≡ by_opcode (field 0 7 word) word }
{
    match opcode(word) {
        0b011_0111 => Some(Instr::Lui {
            rd: rd(word),
            imm: u_immediate(word),
        }),
        0b001_0111 => Some(Instr::Auipc {
            rd: rd(word),
            imm: u_immediate(word),
        }),
        0b110_1111 => Some(Instr::Jal {
            rd: rd(word),
            offset: j_immediate(word),
        }),
        0b110_0111 => decode_jump(word),
        0b110_0011 => decode_branch(word),
        0b000_0011 => decode_load(word),
        0b010_0011 => decode_store(word),
        0b001_0011 => decode_immediate(word),
        0b011_0011 => decode_register(word),
        0b000_1111 => decode_fence(word),
        0b111_0011 => decode_system(word),
        0b010_1111 => decode_atomic(word),
        _ => None,
    }
}

/// The instruction of a word, or `None` where the table has no row that the word fits.
#[tactic(auto, using(crate::proofs::Grouped::decoded_by_opcode))]
pub fn decode(word: u32) -> Option<Instr>
    ensures decoded { result ≡ decode_of word }
    ensures valid { IfSome result IsValid }
{
    decode_opcode(word)
}
