//! Words and targets as they are printed.

ghost use Rattle.std.specs.Prelude.{◌≡◌, ◌≤◌, ◌++◌, OnOk, codes, decimal, find, length, nat_eq};
ghost use Rattle.ddm_text.specs.Adds.{Adds};
ghost use Rattle.litmus_model.specs.Image.{address_of};
ghost use Rattle.litmus_model.specs.Kept.{test_from};
ghost use Rattle.litmus_model.specs.StatesText.{number_text, target_text, word_text};

use ddm_text::of_ddm_types::NoMemory;
use ddm_text::push_decimal;
use litmus_image::word_of;
use litmus_model::{Name, Target, Test, Value};

pub fn push_bytes(out: &mut Vec<u8>, bytes: &[u8]) -> Result<(), NoMemory>
    ensures { OnOk result (Adds out.old.items out.new.items bytes.now) }
{
    out.extend_from_slice(bytes)?;
    Ok(())
}

/// Words, and a number.
pub fn push_count(out: &mut Vec<u8>, words: &[u8], number: u64) -> Result<(), NoMemory>
    ensures { OnOk result (Adds out.old.items out.new.items (words.now ++ decimal number)) }
{
    push_bytes(out, words)?;
    push_decimal(out, number)
}

/// A word in two's complement.
#[tactic(auto, unfolding(litmus_model::specs::StatesText::number_text))]
fn push_number(out: &mut Vec<u8>, word: u32) -> Result<(), NoMemory>
    ensures { OnOk result (Adds out.old.items out.new.items (number_text word)) }
{
    if word < 2_147_483_648 {
        push_decimal(out, u64::from(word))
    } else {
        push_bytes(out, b"-")?;
        push_decimal(out, 4_294_967_296 - u64::from(word))
    }
}

/// The location whose address a word is.
#[tactic(auto, using(litmus_model::proofs::Searches::find_search))]
fn location_at(test: &Test, item_bytes: u32, word: u32) -> Option<Name>
    requires few { length test.now.locations.items ≤ 256 }
    requires small { item_bytes ≤ 64 }
    ensures { result
        ≡ find (λ name. nat_eq (address_of (test_from test.now) item_bytes name) word) test.now.locations.items }
{
    for name in &test.locations {
        if word_of(test, item_bytes, &Value::Address(*name)) == word {
            return Some(*name);
        }
    }
    None
}

/// A location where the word is its address, else a number.
#[tactic(auto, unfolding(litmus_model::specs::StatesText::word_text))]
pub fn push_word(out: &mut Vec<u8>, test: &Test, item_bytes: u32, word: u32) -> Result<(), NoMemory>
    requires few { length test.now.locations.items ≤ 256 }
    requires small { item_bytes ≤ 64 }
    ensures { OnOk result (Adds out.old.items out.new.items (word_text (test_from test.now) item_bytes word)) }
{
    match location_at(test, item_bytes, word) {
        Some(name) => push_bytes(out, name.bytes()),
        None => push_number(out, word),
    }
}

pub fn push_target(out: &mut Vec<u8>, target: &Target) -> Result<(), NoMemory>
    ensures { OnOk result (Adds out.old.items out.new.items (target_text target.now)) }
{
    match target {
        Target::Register { thread, register } => {
            push_decimal(out, u64::from(*thread))?;
            push_bytes(out, b":x")?;
            push_decimal(out, u64::from(register.0))
        }
        Target::Location(name) => push_bytes(out, name.bytes()),
    }
}
