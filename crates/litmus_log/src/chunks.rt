//! The condition of a test as it is printed.

ghost use Rattle.std.specs.Prelude.{◌≡◌, ◌≤◌, OnOk, codes, flat_map, length};
ghost use Rattle.ddm_text.specs.Adds.{Adds};
ghost use Rattle.litmus_model.specs.declared.parts.Chunk.TheVariants.{Is};
ghost use Rattle.litmus_model.specs.Kept.{test_from};
ghost use Rattle.litmus_model.specs.StatesText.{chunk_text, condition_text, kind_text, quantifier_text};

use crate::words::{push_bytes, push_target, push_word};
use ddm_text::of_ddm_types::NoMemory;
use litmus_image::word_of;
use litmus_model::{Chunk, Quantifier, Target, Test, Value};

#[tactic(auto, unfolding(litmus_model::specs::StatesText::chunk_text))]
fn push_atom(
    out: &mut Vec<u8>,
    test: &Test,
    item_bytes: u32,
    target: &Target,
    value: &Value,
) -> Result<(), NoMemory>
    requires few { length test.now.locations.items ≤ 256 }
    requires small { item_bytes ≤ 64 }
    ensures { OnOk result
        (Adds out.old.items out.new.items (chunk_text (test_from test.now) item_bytes (Is target.now value.now))) }
{
    push_target(out, target)?;
    push_bytes(out, b"=")?;
    push_word(out, test, item_bytes, word_of(test, item_bytes, value))
}

#[tactic(auto, unfolding(litmus_model::specs::StatesText::chunk_text))]
fn push_chunk(
    out: &mut Vec<u8>,
    test: &Test,
    item_bytes: u32,
    chunk: &Chunk,
) -> Result<(), NoMemory>
    requires few { length test.now.locations.items ≤ 256 }
    requires small { item_bytes ≤ 64 }
    ensures { OnOk result (Adds out.old.items out.new.items (chunk_text (test_from test.now) item_bytes chunk.now)) }
{
    match chunk {
        Chunk::Open => push_bytes(out, b"("),
        Chunk::Close => push_bytes(out, b")"),
        Chunk::Not => push_bytes(out, b"not "),
        Chunk::And => push_bytes(out, b" /\\ "),
        Chunk::Or => push_bytes(out, b" \\/ "),
        Chunk::True => push_bytes(out, b"true"),
        Chunk::False => push_bytes(out, b"false"),
        Chunk::Is { target, value } => push_atom(out, test, item_bytes, target, value),
    }
}

fn push_chunks(out: &mut Vec<u8>, test: &Test, item_bytes: u32) -> Result<(), NoMemory>
    requires few { length test.now.locations.items ≤ 256 }
    requires small { item_bytes ≤ 64 }
    ensures { OnOk result
        (Adds out.old.items out.new.items
        (flat_map (chunk_text (test_from test.now) item_bytes) test.now.chunks.items)) }
{
    for chunk in &test.chunks {
        push_chunk(out, test, item_bytes, chunk)?;
    }
    Ok(())
}

fn quantifier_text(quantifier: Quantifier) -> &'static [u8]
    ensures { result.now ≡ quantifier_text quantifier }
{
    match quantifier {
        Quantifier::Exists => b"exists",
        Quantifier::NotExists => b"~exists",
        Quantifier::Forall => b"forall",
    }
}

/// What the author expects.
pub fn kind_text(quantifier: Quantifier) -> &'static [u8]
    ensures { result.now ≡ kind_text quantifier }
{
    match quantifier {
        Quantifier::Exists => b"Allowed",
        Quantifier::NotExists => b"Forbidden",
        Quantifier::Forall => b"Required",
    }
}

#[tactic(auto, unfolding(litmus_model::specs::StatesText::condition_text))]
pub fn push_condition(out: &mut Vec<u8>, test: &Test, item_bytes: u32) -> Result<(), NoMemory>
    requires few { length test.now.locations.items ≤ 256 }
    requires small { item_bytes ≤ 64 }
    ensures { OnOk result (Adds out.old.items out.new.items (condition_text (test_from test.now) item_bytes)) }
{
    push_bytes(out, quantifier_text(test.quantifier))?;
    push_bytes(out, b" ")?;
    push_chunks(out, test, item_bytes)
}
