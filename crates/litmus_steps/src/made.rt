//! What the operands of an instruction make.

ghost use Rattle.std.specs.Prelude.{◌≡◌, ◌<◌, ◌≤◌, ◌≤ℤ◌, ◌*◌, ◌∷◌, [], IfSome, pos, negsuc, map};
ghost use Rattle.std.specs.Int.{w32, cast_unsigned};
ghost use Rattle.rv_decode.specs.Valid.{FitsOperation, IsRegister};
ghost use Rattle.rv_decode.specs.declared.instructions.Instr.TheVariants as instr;
ghost use Rattle.litmus_model.specs.declared.parts.Step.TheVariants.{Plain, Jump};
ghost use Rattle.litmus_model.specs.Steps.{all_three, both, branched, fenced, load_number, moved, natural, plain, short_number};
ghost use Rattle.std.specs.Option.{option_map};
ghost use Rattle.rv_decode.specs.declared.instructions.ImmOp.TheVariants.{Addi};
ghost use Rattle.litmus_steps.specs.Made.{IsMade};

use litmus_model::{Move, Name, Step, load_number};
use rv_decode::{BranchOp, ImmOp, Instr, Reg, RegOp};
use std::marker::Model;

const ZERO: Reg = Reg(0);

/// The steps of an instruction, of which there are one or two.
#[derive(Drop)]
pub struct Made {
    pub first: Step,
    pub second: Option<Step>,
}

impl Model for Made {
    ghost use Rattle.std.specs.Prelude.{List};
    ghost use Rattle.litmus_model.specs.declared.parts.Step.{Step};
    ghost use Rattle.litmus_steps.specs.Made.{with_second};

    ghost Value = { List Step };

    ghost view = { λ m. with_second m.first m.second };
}

fn one(step: Step) -> Made
    ensures { result ≡ step ∷ [] }
{
    Made {
        first: step,
        second: None,
    }
}

pub(crate) fn plain(instr: Instr) -> Made
    ensures { result ≡ plain instr }
{
    one(Step::Plain(instr))
}

fn immediate(op: ImmOp, rd: Reg, rs1: Reg, imm: i32) -> Made
    ensures { result ≡ plain (instr.Immediate op rd rs1 imm) }
{
    plain(Instr::Immediate { op, rd, rs1, imm })
}

fn register(op: RegOp, rd: Reg, rs1: Reg, rs2: Reg) -> Made
    ensures { result ≡ plain (instr.Register op rd rs1 rs2) }
{
    plain(Instr::Register { op, rd, rs1, rs2 })
}

/// `nop`
pub(crate) fn nothing() -> Made
    ensures { result ≡ plain (instr.Immediate Addi 0 0 (pos 0)) }
{
    immediate(ImmOp::Addi, ZERO, ZERO, 0)
}

pub(crate) fn fence(imm: u32) -> Made
    ensures { result ≡ plain (instr.Fence 0 0 imm) }
{
    plain(Instr::Fence {
        rd: ZERO,
        rs1: ZERO,
        imm,
    })
}

pub(crate) fn fenced(before: Option<u32>, after: Option<u32>) -> Option<Made>
    requires before { IfSome before (λ bits. bits ≤ 15) }
    requires after { IfSome after (λ bits. bits ≤ 15) }
    ensures steps { result ≡ both fenced before after }
    ensures made { IfSome result IsMade }
{
    match (before, after) {
        (Some(before), Some(after)) => Some(fence(16 * before + after)),
        _ => None,
    }
}

pub(crate) fn of_registers(
    op: RegOp,
    rd: Option<Reg>,
    rs1: Option<Reg>,
    rs2: Option<Reg>,
) -> Option<Made>
    requires rd { IfSome rd IsRegister }
    requires rs1 { IfSome rs1 IsRegister }
    requires rs2 { IfSome rs2 IsRegister }
    ensures steps { result ≡ all_three (λ rd rs1 rs2. plain (instr.Register op rd rs1 rs2)) rd rs1 rs2 }
    ensures made { IfSome result IsMade }
{
    match (rd, rs1, rs2) {
        (Some(rd), Some(rs1), Some(rs2)) => Some(register(op, rd, rs1, rs2)),
        _ => None,
    }
}

pub(crate) fn with_immediate(
    op: ImmOp,
    rd: Option<Reg>,
    rs1: Option<Reg>,
    imm: Option<i32>,
) -> Option<Made>
    requires rd { IfSome rd IsRegister }
    requires rs1 { IfSome rs1 IsRegister }
    requires imm { IfSome imm (FitsOperation op) }
    ensures steps { result ≡ all_three (λ rd rs1 imm. plain (instr.Immediate op rd rs1 imm)) rd rs1 imm }
    ensures made { IfSome result IsMade }
{
    match (rd, rs1, imm) {
        (Some(rd), Some(rs1), Some(imm)) => Some(immediate(op, rd, rs1, imm)),
        _ => None,
    }
}

/// `lui`: the word whose upper 20 bits are these.
#[tactic(auto, using(crate::proofs::Uppers::is_upper))]
pub(crate) fn upper(rd: Option<Reg>, bits: Option<i32>) -> Option<Made>
    requires rd { IfSome rd IsRegister }
    requires bits { IfSome bits (λ z. cast_unsigned w32 z < 1048576) }
    ensures steps { result ≡ both (λ rd imm. plain (instr.Lui rd (4096 * natural imm))) rd bits }
    ensures made { IfSome result IsMade }
{
    match (rd, bits) {
        (Some(rd), Some(bits)) => Some(plain(Instr::Lui {
            rd,
            imm: 4096 * (bits as u32),
        })),
        _ => None,
    }
}

/// The word of a number; one below 0 is taken modulo 2^32.
fn word_of(number: i64) -> u32
    requires low { negsuc 2147483647 ≤ℤ number }
    requires high { number ≤ℤ pos 4294967295 }
    ensures { result ≡ natural number }
{
    if number < 0 {
        4294967295 - (-(number + 1)) as u32
    } else {
        number as u32
    }
}

fn loaded(rd: Reg, value: u32) -> Made
    requires { IsRegister rd }
    ensures steps { result ≡ map Plain (load_number rd value) }
    ensures made { IsMade result }
{
    let [high, low] = load_number(rd, value);
    Made {
        first: Step::Plain(high),
        second: Some(Step::Plain(low)),
    }
}

/// `li`: `addi` alone where it suffices.
#[tactic(auto, unfolding(litmus_model::specs::Steps::short_number))]
fn short_number(rd: Reg, number: i64) -> Made
    requires rd { IsRegister rd }
    requires low { negsuc 2147483647 ≤ℤ number }
    requires high { number ≤ℤ pos 4294967295 }
    ensures steps { result ≡ map Plain (short_number rd number) }
    ensures made { IsMade result }
{
    if -2048 <= number && number <= 2047 {
        immediate(ImmOp::Addi, rd, ZERO, number as i32)
    } else {
        loaded(rd, word_of(number))
    }
}

pub(crate) fn number(rd: Option<Reg>, number: Option<i64>) -> Option<Made>
    requires rd { IfSome rd IsRegister }
    requires number { IfSome number (λ z. (negsuc 2147483647 ≤ℤ z) × (z ≤ℤ pos 4294967295)) }
    ensures steps { result ≡ both (λ rd z. map Plain (short_number rd z)) rd number }
    ensures made { IfSome result IsMade }
{
    match (rd, number) {
        (Some(rd), Some(number)) => Some(short_number(rd, number)),
        _ => None,
    }
}

#[tactic(auto, unfolding(litmus_model::specs::Steps::moved))]
fn moved_to(kind: Move, rd: Reg, rs: Reg) -> Made
    requires rd { IsRegister rd }
    requires rs { IsRegister rs }
    ensures steps { result ≡ moved kind rd rs }
    ensures made { IsMade result }
{
    match kind {
        Move::Mv => immediate(ImmOp::Addi, rd, rs, 0),
        Move::Not => immediate(ImmOp::Xori, rd, rs, -1),
        Move::Neg => register(RegOp::Sub, rd, ZERO, rs),
        Move::Seqz => immediate(ImmOp::Sltiu, rd, rs, 1),
        Move::Snez => register(RegOp::Sltu, rd, ZERO, rs),
    }
}

pub(crate) fn moved(kind: Move, rd: Option<Reg>, rs: Option<Reg>) -> Option<Made>
    requires rd { IfSome rd IsRegister }
    requires rs { IfSome rs IsRegister }
    ensures steps { result ≡ both (moved kind) rd rs }
    ensures made { IfSome result IsMade }
{
    match (rd, rs) {
        (Some(rd), Some(rs)) => Some(moved_to(kind, rd, rs)),
        _ => None,
    }
}

fn branch(op: BranchOp, turned: bool, a: Reg, b: Reg, label: Name) -> Made
    requires a { IsRegister a }
    requires b { IsRegister b }
    ensures steps { result ≡ branched op turned a b label }
    ensures made { IsMade result }
{
    let (rs1, rs2) = if turned { (b, a) } else { (a, b) };
    one(Step::Branch {
        op,
        rs1,
        rs2,
        label,
    })
}

pub(crate) fn branched(
    op: BranchOp,
    turned: bool,
    a: Option<Reg>,
    b: Option<Reg>,
    label: Option<Name>,
) -> Option<Made>
    requires a { IfSome a IsRegister }
    requires b { IfSome b IsRegister }
    ensures steps { result ≡ all_three (branched op turned) a b label }
    ensures made { IfSome result IsMade }
{
    match (a, b, label) {
        (Some(a), Some(b), Some(label)) => Some(branch(op, turned, a, b, label)),
        _ => None,
    }
}

/// A branch of a register and 0.
pub(crate) fn zero_branched(
    op: BranchOp,
    turned: bool,
    a: Option<Reg>,
    label: Option<Name>,
) -> Option<Made>
    requires a { IfSome a IsRegister }
    ensures steps { result ≡ both (λ rs label. branched op turned rs 0 label) a label }
    ensures made { IfSome result IsMade }
{
    match (a, label) {
        (Some(a), Some(label)) => Some(branch(op, turned, a, ZERO, label)),
        _ => None,
    }
}

pub(crate) fn jump(label: Option<Name>) -> Option<Made>
    ensures steps { result ≡ option_map (λ label. Jump label ∷ []) label }
    ensures made { IfSome result IsMade }
{
    match label {
        Some(label) => Some(one(Step::Jump(label))),
        None => None,
    }
}
