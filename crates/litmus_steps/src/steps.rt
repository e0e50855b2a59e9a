//! The steps of an instruction: of the form of its mnemonic, and of its operands.

ghost use Rattle.std.specs.Prelude.{◌≡◌, ◌∷◌, [], ℕ, IfOk, IfSome, Ok, true};
ghost use Rattle.rv_decode.specs.Valid.{FitsOperation, IsRegister};
ghost use Rattle.litmus_model.specs.Operands.{register_operand};
ghost use Rattle.litmus_model.specs.Steps.{address_operand, form_steps, immediate_operand};
ghost use Rattle.litmus_steps.specs.Made.{IsMade, is_form};

use crate::made::{
    Made, branched, fence, fenced, jump, moved, nothing, number, of_registers, upper,
    with_immediate, zero_branched,
};
use crate::memory::{amo, load, load_reserved, store, store_conditional};
use litmus_model::{Form, Part, TestRefusal};
use litmus_words::{
    label_operand, memory_operand, number_operand, register_operand, set_operand, shift_operand,
    short_operand, upper_operand,
};
use rv_decode::{ImmOp, Reg};
use std::marker::Model;

/// The parts of an operand.
#[derive(Drop)]
pub struct Operand {
    pub parts: Vec<Part>,
}

impl Model for Operand {
    ghost use Rattle.std.specs.Prelude.{List};
    ghost use Rattle.litmus_model.specs.declared.parts.Part.{Part};

    ghost Value = { List Part };

    ghost view = { λ o. o.parts.items };
}

fn register(operand: &Operand) -> Option<Reg>
    ensures register { result ≡ register_operand operand.now }
    ensures valid { IfSome result IsRegister }
{
    register_operand(&operand.parts)
}

#[tactic(auto, unfolding(litmus_model::specs::Steps::immediate_operand))]
fn immediate_operand(op: ImmOp, line: u32, operand: &Operand) -> Result<Option<i32>, TestRefusal>
    ensures number { result ≡ immediate_operand op line operand.now }
    ensures fits { IfOk result (λ n. IfSome n (FitsOperation op)) }
{
    match op {
        ImmOp::Slli | ImmOp::Srli | ImmOp::Srai => shift_operand(line, &operand.parts),
        _ => short_operand(line, &operand.parts),
    }
}

/// The address of an atomic instruction, which has no offset.
#[tactic(auto, unfolding(litmus_model::specs::Steps::address_operand, litmus_model::specs::Steps::without_offset, // in turn
litmus_model::specs::Refusing::and_then))]
fn address_operand(line: u32, operand: &Operand) -> Result<Option<Reg>, TestRefusal>
    ensures register { result ≡ address_operand line operand.now }
    ensures valid { IfOk result (λ r. IfSome r IsRegister) }
{
    match memory_operand(line, &operand.parts)? {
        Some(place) if 0 <= place.offset && place.offset <= 0 => Ok(Some(place.register)),
        _ => Ok(None),
    }
}

#[tactic(auto, unfolding(litmus_model::specs::Steps::form_steps))]
fn no_operands(form: Form) -> Option<Made>
    requires { is_form form ≡ true }
    ensures steps { (line : ℕ) → form_steps line form [] ≡ Ok result }
    ensures made { IfSome result IsMade }
{
    match form {
        Form::Nothing => Some(nothing()),
        Form::Fence => Some(fence(0xff)),
        Form::FixedFence(imm) => Some(fence(imm)),
        _ => None,
    }
}

#[tactic(auto, unfolding(litmus_model::specs::Steps::form_steps))]
fn one_operand(form: Form, a: &Operand) -> Option<Made>
    ensures steps { (line : ℕ) → form_steps line form (a.now ∷ []) ≡ Ok result }
    ensures made { IfSome result IsMade }
{
    match form {
        Form::Jump => jump(label_operand(&a.parts)),
        _ => None,
    }
}

#[tactic(auto, unfolding(litmus_model::specs::Steps::form_steps, litmus_model::specs::Refusing::and_then))]
fn two_operands(
    line: u32,
    form: Form,
    a: &Operand,
    b: &Operand,
) -> Result<Option<Made>, TestRefusal>
    ensures steps { result ≡ form_steps line form (a.now ∷ b.now ∷ []) }
    ensures made { IfOk result (λ steps. IfSome steps IsMade) }
{
    let first = register(a);
    Ok(match form {
        Form::Upper => upper(first, upper_operand(line, &b.parts)?),
        Form::Number => number(
            first,
            number_operand(line, -2_147_483_648, 4_294_967_295, &b.parts)?,
        ),
        Form::Load(op) => load(op, first, memory_operand(line, &b.parts)?),
        Form::Store(op) => store(op, first, memory_operand(line, &b.parts)?),
        Form::ZeroBranch { op, turned } => {
            zero_branched(op, turned, first, label_operand(&b.parts))
        }
        Form::Move(kind) => moved(kind, first, register(b)),
        Form::Fence => fenced(set_operand(&a.parts), set_operand(&b.parts)),
        Form::LoadReserved(orders) => load_reserved(orders, first, address_operand(line, b)?),
        _ => None,
    })
}

#[tactic(auto, unfolding(litmus_model::specs::Steps::form_steps, litmus_model::specs::Refusing::and_then))]
fn three_operands(
    line: u32,
    form: Form,
    a: &Operand,
    b: &Operand,
    c: &Operand,
) -> Result<Option<Made>, TestRefusal>
    ensures steps { result ≡ form_steps line form (a.now ∷ b.now ∷ c.now ∷ []) }
    ensures made { IfOk result (λ steps. IfSome steps IsMade) }
{
    let first = register(a);
    let second = register(b);
    match form {
        Form::Registers(op) => Ok(of_registers(op, first, second, register(c))),
        Form::Immediate(op) => {
            let imm = immediate_operand(op, line, c)?;
            Ok(with_immediate(op, first, second, imm))
        }
        Form::Branch { op, turned } => {
            Ok(branched(op, turned, first, second, label_operand(&c.parts)))
        }
        Form::StoreConditional(orders) => {
            let address = address_operand(line, c)?;
            Ok(store_conditional(orders, first, second, address))
        }
        Form::Amo { op, orders } => {
            let address = address_operand(line, c)?;
            Ok(amo(op, orders, first, second, address))
        }
        _ => Ok(None),
    }
}

/// The steps of an instruction of this form with these operands; None where it has others.
#[tactic(auto, using(crate::proofs::Counts::operand_counts))]
pub fn form_steps(line: u32, form: Form, operands: &[Operand]) -> Result<Option<Made>, TestRefusal>
    requires { is_form form ≡ true }
    ensures steps { result ≡ form_steps line form operands.now }
    ensures made { IfOk result (λ steps. IfSome steps IsMade) }
{
    match operands {
        [] => Ok(no_operands(form)),
        [a] => Ok(one_operand(form, a)),
        [a, b] => two_operands(line, form, a, b),
        [a, b, c] => three_operands(line, form, a, b, c),
        _ => Ok(None),
    }
}
