//! Targets and values.

ghost use Rattle.std.specs.Prelude.{◌≡◌, ◌≤◌, pos, neg_ℤ};
ghost use Rattle.litmus_model.specs.Words.{location_target, number_value, register_at, register_target, target_of};
ghost use Rattle.litmus_model.specs.Words.{thread_digits, value_of, word_of};
ghost use Rattle.litmus_words.specs.Tables.{digits_in};

use crate::numbers::{are_digits, capped_value, front, number_at};
use crate::registers::register_of;
use litmus_model::{Fault, Name, Part, Target, TestRefusal, Value};
use litmus_text::{in_line, is, is_name};
use rv_decode::Reg;

fn register_at(line: u32, word: &[u8]) -> Result<Reg, TestRefusal>
    ensures { result ≡ register_at line word.now }
{
    match register_of(word) {
        Some(register) => Ok(register),
        None => Err(in_line(line, Fault::BadRegister)),
    }
}

fn location_target(word: &Name) -> Option<Target>
    ensures { result ≡ location_target word.now }
{
    if is_name(word.bytes()) {
        Some(Target::Location(*word))
    } else {
        None
    }
}

/// The digits of `0` or `P0`.
#[tactic(auto, unfolding(crate::specs::Tables::digits_in))]
fn digits_of(word: &[u8]) -> &[u8]
    ensures { result.now ≡ digits_in word.now }
{
    if is(front(1, word), "P") {
        &word[1.min(word.len())..]
    } else {
        word
    }
}

/// A register of a thread, of so many threads; None where the first word names no thread.
#[tactic(auto, using(crate::proofs::ThreadWords::register_cases))]
fn register_target(
    threads: u32,
    line: u32,
    thread: &[u8],
    register: &[u8],
) -> Result<Option<Target>, TestRefusal>
    ensures { result ≡ register_target threads line register.now (thread_digits thread.now) }
{
    let digits = digits_of(thread);
    if !are_digits(10, digits) {
        return Ok(None);
    }
    let thread = capped_value(10, digits);
    if thread >= u64::from(threads) {
        return Err(in_line(line, Fault::NoThread));
    }
    let register = register_at(line, register)?;
    let thread = thread as u32;
    Ok(Some(Target::Register { thread, register }))
}

/// `0:x5`, `x` or `[x]` of a thread or of a location; None where it is none of them.
#[tactic(auto, unfolding(litmus_model::specs::Words::target_of))]
pub fn target_of(threads: u32, line: u32, parts: &[Part]) -> Result<Option<Target>, TestRefusal>
    ensures { result ≡ target_of threads line parts.now }
{
    match parts {
        [Part::Word(word)] => Ok(location_target(word)),
        [Part::Word(thread), Part::Mark(b':'), Part::Word(register)] => register_target(
            threads,
            line,
            thread.bytes(),
            register.bytes(),
        ),
        [Part::Mark(b'['), Part::Word(word), Part::Mark(b']')] => Ok(location_target(word)),
        _ => Ok(None),
    }
}

/// The word of a number below 0.
#[tactic(auto, using(crate::proofs::ThreadWords::word_below))]
fn word_below(number: u32) -> u32
    requires { number ≤ 2147483648 }
    ensures { result ≡ word_of (neg_ℤ (pos number)) }
{
    if number == 0 {
        0
    } else {
        4294967295 - (number - 1)
    }
}

#[tactic(auto, unfolding(litmus_model::specs::Words::signed_number, litmus_model::specs::Refusing::and_then))]
fn number_value(line: u32, parts: &[Part]) -> Result<Option<Value>, TestRefusal>
    ensures { result ≡ number_value line parts.now }
{
    match parts {
        [Part::Word(word)] => match number_at(line, word.bytes())? {
            Some(number) => Ok(Some(Value::Number(number))),
            None => Ok(None),
        },
        [Part::Mark(b'-'), Part::Word(word)] => match number_at(line, word.bytes())? {
            Some(number) if number <= 1 << 31 => Ok(Some(Value::Number(word_below(number)))),
            Some(_) => Err(in_line(line, Fault::BadNumber)),
            None => Ok(None),
        },
        _ => Ok(None),
    }
}

/// A number, or the name of a location; None where it is neither.
#[tactic(auto, unfolding(litmus_model::specs::Words::value_of))]
pub fn value_of(line: u32, parts: &[Part]) -> Result<Option<Value>, TestRefusal>
    ensures { result ≡ value_of line parts.now }
{
    match parts {
        [Part::Word(word)] if is_name(word.bytes()) => Ok(Some(Value::Address(*word))),
        _ => number_value(line, parts),
    }
}
