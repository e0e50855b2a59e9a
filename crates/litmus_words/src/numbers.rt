//! Numbers in words.

ghost use Rattle.std.specs.Prelude.{◌≡◌, ◌+◌, ◌*◌, ◌≤◌, min, nat_lt, take};
ghost use Rattle.std.specs.List.{list_all};
ghost use Rattle.litmus_model.specs.Words.{are_digits, digit_value, digits_value, is_hexadecimal, negated, number_at};
ghost use Rattle.litmus_model.specs.Words.{number_in_base, number_of, signed_number};

use litmus_model::{Fault, Part, TestRefusal};
use litmus_text::{begins_with_digit, in_line, is, is_digit};

#[tactic(auto, unfolding(litmus_model::specs::Words::digit_value))]
fn digit_value(byte: u8) -> u32
    ensures digit { result ≡ digit_value byte }
    ensures small { result ≤ 16 }
{
    if is_digit(byte) {
        u32::from(byte - b'0')
    } else if b'a' <= byte && byte <= b'f' {
        u32::from(byte - 87)
    } else if b'A' <= byte && byte <= b'F' {
        u32::from(byte - 55)
    } else {
        16
    }
}

#[tactic(auto, using(crate::proofs::Digits::all_next, crate::proofs::Digits::all_failed, crate::proofs::Digits::all_done))]
fn are_below(base: u32, digits: &[u8]) -> bool
    ensures { result ≡ list_all (λ b. nat_lt (digit_value b) base) digits.now }
{
    for byte in digits {
        if digit_value(*byte) >= base {
            return false;
        }
    }
    true
}

pub(crate) fn are_digits(base: u32, digits: &[u8]) -> bool
    ensures { result ≡ are_digits base digits.now }
{
    !digits.is_empty() && are_below(base, digits)
}

/// The value with one digit more, and 2^32 where it is that or more.
fn next_value(base: u64, number: u64, byte: u8) -> u64
    requires small { base ≤ 16 }
    requires capped { number ≤ 4294967296 }
    ensures { result ≡ min (number * base + digit_value byte) 4294967296 }
{
    let more = number * base + u64::from(digit_value(byte));
    if more < 1 << 32 { more } else { 1 << 32 }
}

/// What digits are as a number, and 2^32 where it is that or more.
#[tactic(auto, using(crate::proofs::Digits::no_digit, crate::proofs::Digits::one_digit, crate::proofs::Digits::all_digits))]
pub(crate) fn capped_value(base: u64, digits: &[u8]) -> u64
    requires some { 1 ≤ base }
    requires small { base ≤ 16 }
    ensures { result ≡ min (digits_value base digits.now) 4294967296 }
{
    let mut number = 0;
    for byte in digits {
        number = next_value(base, number, *byte);
    }
    number
}

/// The number below 2^32 that digits are.
fn number_in_base(base: u32, digits: &[u8]) -> Option<u32>
    requires some { 1 ≤ base }
    requires small { base ≤ 16 }
    ensures { result ≡ number_in_base base digits.now }
{
    let number = capped_value(u64::from(base), digits);
    if are_digits(base, digits) && number < 1 << 32 {
        Some(number as u32)
    } else {
        None
    }
}

/// At most so many bytes of a word.
pub(crate) fn front(count: usize, word: &[u8]) -> &[u8]
    ensures { result.now ≡ take count word.now }
{
    &word[..count.min(word.len())]
}

fn is_hexadecimal(word: &[u8]) -> bool
    ensures { result ≡ is_hexadecimal word.now }
{
    is(front(2, word), "0x") || is(front(2, word), "0X")
}

/// The number of a word below 2^32.
#[tactic(auto, unfolding(litmus_model::specs::Words::number_of))]
fn number_of(word: &[u8]) -> Option<u32>
    ensures { result ≡ number_of word.now }
{
    if is_hexadecimal(word) {
        number_in_base(16, &word[2.min(word.len())..])
    } else {
        number_in_base(10, word)
    }
}

/// None of a word that doesn't begin with a digit.
#[tactic(auto, unfolding(litmus_model::specs::Words::number_at))]
pub(crate) fn number_at(line: u32, word: &[u8]) -> Result<Option<u32>, TestRefusal>
    ensures { result ≡ number_at line word.now }
{
    if !begins_with_digit(word) {
        return Ok(None);
    }
    match number_of(word) {
        Some(number) => Ok(Some(number)),
        None => Err(in_line(line, Fault::BadNumber)),
    }
}

/// A number below 0, at least -2^31.
fn negated(line: u32, number: Option<u32>) -> Result<Option<i64>, TestRefusal>
    ensures { result ≡ negated line number }
{
    match number {
        Some(number) if number <= 1 << 31 => Ok(Some(-i64::from(number))),
        Some(_) => Err(in_line(line, Fault::BadNumber)),
        None => Ok(None),
    }
}

/// A number with or without `-` before it; None of parts that are no number at all.
#[tactic(auto, unfolding(litmus_model::specs::Words::signed_number, litmus_model::specs::Refusing::and_then))]
pub(crate) fn signed_number(line: u32, parts: &[Part]) -> Result<Option<i64>, TestRefusal>
    ensures { result ≡ signed_number line parts.now }
{
    match parts {
        [Part::Word(word)] => match number_at(line, word.bytes())? {
            Some(number) => Ok(Some(i64::from(number))),
            None => Ok(None),
        },
        [Part::Mark(b'-'), Part::Word(word)] => negated(line, number_at(line, word.bytes())?),
        _ => Ok(None),
    }
}
