//! The operands of an instruction.

ghost use Rattle.std.specs.Prelude.{◌≡◌, ◌<◌, ◌≤◌, ◌≤ℤ◌, IfOk, IfSome, pos};
ghost use Rattle.std.specs.Int.{w32, cast_unsigned};
ghost use Rattle.rv_decode.specs.Valid.{FitsBits, IsRegister, IsShiftAmount};
ghost use Rattle.litmus_model.specs.Operands.{label_operand, memory_operand, number_operand, place, place_at};
ghost use Rattle.litmus_model.specs.Operands.{register_in, register_operand, set_operand, short_operand, within};
ghost use Rattle.litmus_words.specs.Brackets.{IsPlace, bracketed, plain_place};

use crate::letters::letter_bits;
use crate::numbers::signed_number;
use crate::registers::register_of;
use litmus_model::{Fault, Name, Part, Place, TestRefusal};
use litmus_text::{begins_with_digit, in_line};
use rv_decode::Reg;

fn register_in(part: &Part) -> Option<Reg>
    ensures register { result ≡ register_in part.now }
    ensures valid { IfSome result IsRegister }
{
    match part {
        Part::Word(word) => register_of(word.bytes()),
        Part::Mark(_) => None,
    }
}

#[tactic(auto, unfolding(litmus_model::specs::Operands::register_operand))]
pub fn register_operand(parts: &[Part]) -> Option<Reg>
    ensures register { result ≡ register_operand parts.now }
    ensures valid { IfSome result IsRegister }
{
    match parts {
        [part] => register_in(part),
        _ => None,
    }
}

#[tactic(auto, unfolding(litmus_model::specs::Operands::label_operand))]
pub fn label_operand(parts: &[Part]) -> Option<Name>
    ensures { result ≡ label_operand parts.now }
{
    match parts {
        [Part::Word(word)] if !begins_with_digit(word.bytes()) => Some(*word),
        _ => None,
    }
}

fn within(line: u32, least: i64, most: i64, number: Option<i64>) -> Result<Option<i64>, TestRefusal>
    ensures number { result ≡ within line least most number }
    ensures range { IfOk result (λ n. IfSome n (λ z. (least ≤ℤ z) × (z ≤ℤ most))) }
{
    match number {
        Some(number) if least <= number && number <= most => Ok(Some(number)),
        Some(_) => Err(in_line(line, Fault::BadNumber)),
        None => Ok(None),
    }
}

/// A number of this range; None of parts that are no number at all.
#[tactic(auto, unfolding(litmus_model::specs::Operands::number_operand, litmus_model::specs::Refusing::and_then))]
pub fn number_operand(
    line: u32,
    least: i64,
    most: i64,
    parts: &[Part],
) -> Result<Option<i64>, TestRefusal>
    ensures number { result ≡ number_operand line least most parts.now }
    ensures range { IfOk result (λ n. IfSome n (λ z. (least ≤ℤ z) × (z ≤ℤ most))) }
{
    let number = signed_number(line, parts)?;
    within(line, least, most, number)
}

/// A number of 12 bits in two's complement.
#[tactic(auto, unfolding(litmus_model::specs::Operands::number_operand, litmus_model::specs::Refusing::and_then))]
pub fn short_operand(line: u32, parts: &[Part]) -> Result<Option<i32>, TestRefusal>
    ensures number { result ≡ short_operand line parts.now }
    ensures valid { IfOk result (λ n. IfSome n (FitsBits 12)) }
{
    match signed_number(line, parts)? {
        Some(number) if -2048 <= number && number <= 2047 => Ok(Some(number as i32)),
        Some(_) => Err(in_line(line, Fault::BadNumber)),
        None => Ok(None),
    }
}

/// The amount of a shift.
#[tactic(auto, unfolding(litmus_model::specs::Operands::number_operand, litmus_model::specs::Refusing::and_then))]
pub fn shift_operand(line: u32, parts: &[Part]) -> Result<Option<i32>, TestRefusal>
    ensures number { result ≡ number_operand line (pos 0) (pos 31) parts.now }
    ensures valid { IfOk result (λ n. IfSome n IsShiftAmount) }
{
    match signed_number(line, parts)? {
        Some(number) if 0 <= number && number <= 31 => Ok(Some(number as i32)),
        Some(_) => Err(in_line(line, Fault::BadNumber)),
        None => Ok(None),
    }
}

/// The upper 20 bits of a word.
#[tactic(auto, unfolding(litmus_model::specs::Operands::number_operand, litmus_model::specs::Refusing::and_then))]
pub fn upper_operand(line: u32, parts: &[Part]) -> Result<Option<i32>, TestRefusal>
    ensures number { result ≡ number_operand line (pos 0) (pos 1048575) parts.now }
    ensures small { IfOk result (λ n. IfSome n (λ z. cast_unsigned w32 z < 1048576)) }
{
    match signed_number(line, parts)? {
        Some(number) if 0 <= number && number <= 1048575 => Ok(Some(number as i32)),
        Some(_) => Err(in_line(line, Fault::BadNumber)),
        None => Ok(None),
    }
}

#[tactic(auto, unfolding(litmus_model::specs::Operands::place))]
fn place(register: Option<Reg>, offset: Option<i32>) -> Option<Place>
    requires register { IfSome register IsRegister }
    requires offset { IfSome offset (FitsBits 12) }
    ensures place { result ≡ place register offset }
    ensures valid { IfSome result IsPlace }
{
    match (register, offset) {
        (Some(register), Some(offset)) => Some(Place { register, offset }),
        _ => None,
    }
}

/// The register of `(x6)` with no offset.
#[tactic(auto, unfolding(crate::specs::Brackets::plain_place))]
fn plain_place(left: &Part, register: &Part, right: &Part) -> Option<Place>
    ensures place { result ≡ plain_place left.now register.now right.now }
    ensures valid { IfSome result IsPlace }
{
    match (left, right) {
        (Part::Mark(b'('), Part::Mark(b')')) => place(register_in(register), Some(0)),
        _ => None,
    }
}

/// The offset's parts, and the register in its brackets.
#[tactic(auto, unfolding(litmus_model::specs::Refusing::and_then))]
fn place_at(
    line: u32,
    offset: &[Part],
    left: u8,
    register: &Part,
    right: u8,
) -> Result<Option<Place>, TestRefusal>
    ensures place { result ≡ place_at line offset.now left register.now right }
    ensures valid { IfOk result (λ p. IfSome p IsPlace) }
{
    if left != b'(' || right != b')' {
        return Ok(None);
    }
    let offset = short_operand(line, offset)?;
    Ok(place(register_in(register), offset))
}

/// The same, where the brackets are parts.
#[tactic(auto, unfolding(crate::specs::Brackets::bracketed))]
fn bracketed(
    line: u32,
    offset: &[Part],
    left: &Part,
    register: &Part,
    right: &Part,
) -> Result<Option<Place>, TestRefusal>
    ensures place { result ≡ bracketed line offset.now left.now register.now right.now }
    ensures valid { IfOk result (λ p. IfSome p IsPlace) }
{
    match (left, right) {
        (Part::Mark(left), Part::Mark(right)) => place_at(line, offset, *left, register, *right),
        _ => Ok(None),
    }
}

/// `(x6)`, `4(x6)` or `-4(x6)`.
#[tactic(auto, using(crate::proofs::Places::other_length))]
pub fn memory_operand(line: u32, parts: &[Part]) -> Result<Option<Place>, TestRefusal>
    ensures place { result ≡ memory_operand line parts.now }
    ensures valid { IfOk result (λ p. IfSome p IsPlace) }
{
    match parts {
        [left, register, right] => Ok(plain_place(left, register, right)),
        [_, left, register, right] => bracketed(line, &parts[..1], left, register, right),
        [_, _, left, register, right] => bracketed(line, &parts[..2], left, register, right),
        _ => Ok(None),
    }
}

#[tactic(auto, unfolding(litmus_model::specs::Operands::set_operand))]
pub fn set_operand(parts: &[Part]) -> Option<u32>
    ensures bits { result ≡ set_operand parts.now }
    ensures small { IfSome result (λ bits. bits ≤ 15) }
{
    match parts {
        [Part::Word(word)] => letter_bits(word.bytes()),
        _ => None,
    }
}
