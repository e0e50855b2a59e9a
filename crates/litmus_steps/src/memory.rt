//! What the operands of an instruction make that reaches memory.

ghost use Rattle.std.specs.Prelude.{◌≡◌, IfSome};
ghost use Rattle.rv_decode.specs.Valid.{IsRegister};
ghost use Rattle.rv_decode.specs.declared.instructions.Instr.TheVariants as instr;
ghost use Rattle.litmus_model.specs.declared.parts.Place.{Place as PlaceValue};
ghost use Rattle.litmus_model.specs.Steps.{all_three, both, plain};
ghost use Rattle.litmus_words.specs.Brackets.{IsPlace};
ghost use Rattle.litmus_steps.specs.Made.{IsMade};

use crate::made::{Made, plain};
use litmus_model::{Orders, Place};
use rv_decode::{AmoOp, Instr, LoadOp, Reg, StoreOp};

pub(crate) fn load(op: LoadOp, rd: Option<Reg>, place: Option<Place>) -> Option<Made>
    requires rd { IfSome rd IsRegister }
    requires place { IfSome place IsPlace }
    ensures steps { result ≡ both (λ rd (p : PlaceValue). plain (instr.Load op rd p.register p.offset)) rd place }
    ensures made { IfSome result IsMade }
{
    match (rd, place) {
        (Some(rd), Some(place)) => Some(plain(Instr::Load {
            op,
            rd,
            rs1: place.register,
            offset: place.offset,
        })),
        _ => None,
    }
}

pub(crate) fn store(op: StoreOp, rs2: Option<Reg>, place: Option<Place>) -> Option<Made>
    requires rs2 { IfSome rs2 IsRegister }
    requires place { IfSome place IsPlace }
    ensures steps { result ≡ both (λ rs2 (p : PlaceValue). plain (instr.Store op p.register rs2 p.offset)) rs2 place }
    ensures made { IfSome result IsMade }
{
    match (rs2, place) {
        (Some(rs2), Some(place)) => Some(plain(Instr::Store {
            op,
            rs1: place.register,
            rs2,
            offset: place.offset,
        })),
        _ => None,
    }
}

pub(crate) fn load_reserved(orders: Orders, rd: Option<Reg>, rs1: Option<Reg>) -> Option<Made>
    requires rd { IfSome rd IsRegister }
    requires rs1 { IfSome rs1 IsRegister }
    ensures steps { result ≡ both (λ rd rs1. plain (instr.Lr rd rs1 orders.aq orders.rl)) rd rs1 }
    ensures made { IfSome result IsMade }
{
    match (rd, rs1) {
        (Some(rd), Some(rs1)) => Some(plain(Instr::Lr {
            rd,
            rs1,
            aq: orders.aq,
            rl: orders.rl,
        })),
        _ => None,
    }
}

pub(crate) fn store_conditional(
    orders: Orders,
    rd: Option<Reg>,
    rs2: Option<Reg>,
    rs1: Option<Reg>,
) -> Option<Made>
    requires rd { IfSome rd IsRegister }
    requires rs2 { IfSome rs2 IsRegister }
    requires rs1 { IfSome rs1 IsRegister }
    ensures steps { result ≡ all_three (λ rd rs2 rs1. plain (instr.Sc rd rs1 rs2 orders.aq orders.rl)) rd rs2 rs1 }
    ensures made { IfSome result IsMade }
{
    match (rd, rs2, rs1) {
        (Some(rd), Some(rs2), Some(rs1)) => Some(plain(Instr::Sc {
            rd,
            rs1,
            rs2,
            aq: orders.aq,
            rl: orders.rl,
        })),
        _ => None,
    }
}

pub(crate) fn amo(
    op: AmoOp,
    orders: Orders,
    rd: Option<Reg>,
    rs2: Option<Reg>,
    rs1: Option<Reg>,
) -> Option<Made>
    requires rd { IfSome rd IsRegister }
    requires rs2 { IfSome rs2 IsRegister }
    requires rs1 { IfSome rs1 IsRegister }
    ensures steps { result ≡ all_three (λ rd rs2 rs1. plain (instr.Amo op rd rs1 rs2 orders.aq orders.rl)) rd rs2 rs1 }
    ensures made { IfSome result IsMade }
{
    match (rd, rs2, rs1) {
        (Some(rd), Some(rs2), Some(rs1)) => Some(plain(Instr::Amo {
            op,
            rd,
            rs1,
            rs2,
            aq: orders.aq,
            rl: orders.rl,
        })),
        _ => None,
    }
}
