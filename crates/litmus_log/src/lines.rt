//! A state as it is printed, and the lines that have it.

ghost use Rattle.std.specs.Prelude.{◌≡◌, ◌-◌, ◌≤◌, ◌++◌, OnOk, codes, decimal, flat_map, length, replicate};
ghost use Rattle.ddm_text.specs.Adds.{Adds};
ghost use Rattle.litmus_model.specs.Kept.{test_from};
ghost use Rattle.litmus_model.specs.StatesText.{histogram_line, mark_of, observed_text, others_text, seed_line};
ghost use Rattle.litmus_model.specs.StatesText.{six_places, state_text};

use crate::condition::satisfies;
use crate::runs::StateLine;
use crate::words::{push_bytes, push_target, push_word};
use ddm_text::of_ddm_types::NoMemory;
use ddm_text::push_decimal;
use litmus_model::{Target, Test};
use std::alloc::Global;

fn push_observed(
    out: &mut Vec<u8>,
    test: &Test,
    item_bytes: u32,
    target: &Target,
    word: u32,
) -> Result<(), NoMemory>
    requires few { length test.now.locations.items ≤ 256 }
    requires small { item_bytes ≤ 64 }
    ensures { OnOk result
        (Adds out.old.items out.new.items (observed_text (test_from test.now) item_bytes target.now word)) }
{
    push_target(out, target)?;
    push_bytes(out, b"=")?;
    push_word(out, test, item_bytes, word)?;
    push_bytes(out, b";")
}

/// One of the others, after a blank.
fn push_other(
    out: &mut Vec<u8>,
    test: &Test,
    item_bytes: u32,
    target: &Target,
    word: u32,
) -> Result<(), NoMemory>
    requires few { length test.now.locations.items ≤ 256 }
    requires small { item_bytes ≤ 64 }
    ensures { OnOk result
        (Adds out.old.items out.new.items
        (codes " " ++ observed_text (test_from test.now) item_bytes target.now word)) }
{
    push_bytes(out, b" ")?;
    push_observed(out, test, item_bytes, target, word)
}

/// All but the first, each after a blank.
#[tactic(auto, using(crate::proofs::States::other_next, crate::proofs::States::others_done))]
fn push_others(
    out: &mut Vec<u8>,
    test: &Test,
    item_bytes: u32,
    targets: &[Target],
    words: &[u32],
) -> Result<(), NoMemory>
    requires few { length test.now.locations.items ≤ 256 }
    requires small { item_bytes ≤ 64 }
    ensures { OnOk result
        (out.new.items ≡ out.old.items ++ others_text (test_from test.now) item_bytes targets.now words.now) }
{
    for place in 0..targets.len().min(words.len()) {
        push_other(out, test, item_bytes, &targets[place], words[place])?;
    }
    Ok(())
}

#[tactic(auto, using(crate::proofs::States::some_or_none), unfolding(litmus_model::specs::StatesText::state_text))]
fn push_state(
    out: &mut Vec<u8>,
    test: &Test,
    item_bytes: u32,
    words: &[u32],
) -> Result<(), NoMemory>
    requires few { length test.now.locations.items ≤ 256 }
    requires small { item_bytes ≤ 64 }
    ensures { OnOk result (Adds out.old.items out.new.items (state_text (test_from test.now) item_bytes words.now)) }
{
    if test.observed.is_empty() || words.is_empty() {
        return Ok(());
    }
    push_observed(out, test, item_bytes, &test.observed[0], words[0])?;
    push_others(out, test, item_bytes, &test.observed[1..], &words[1..])
}

fn push_blanks(out: &mut Vec<u8>, count: usize) -> Result<(), NoMemory>
    ensures { OnOk result (Adds out.old.items out.new.items (replicate count 32)) }
{
    for number in 0..count {
        let _ = number;
        out.push(b' ')?;
    }
    Ok(())
}

/// A number with blanks behind it up to six places.
fn push_padded(out: &mut Vec<u8>, number: u64) -> Result<(), NoMemory>
    ensures { OnOk result (Adds out.old.items out.new.items (six_places number)) }
{
    let before = out.len();
    push_decimal(out, number)?;
    let digits = out.len() - before;
    push_blanks(out, 6usize.saturating_sub(digits))
}

fn mark_of(satisfied: bool) -> &'static [u8]
    ensures { result.now ≡ mark_of satisfied }
{
    if satisfied { b"*" } else { b":" }
}

/// How many seeds came to the state, whether it satisfies the condition, and the state.
fn push_histogram_line(
    alloc: Global,
    out: &mut Vec<u8>,
    test: &Test,
    item_bytes: u32,
    state: &StateLine,
) -> Result<(), NoMemory>
    requires few { length test.now.locations.items ≤ 256 }
    requires small { item_bytes ≤ 64 }
    ensures { OnOk result
        (Adds out.old.items out.new.items (histogram_line (test_from test.now) item_bytes state.now)) }
{
    push_padded(out, state.times)?;
    push_bytes(
        out,
        mark_of(satisfies(alloc, test, item_bytes, &state.words)?),
    )?;
    push_bytes(out, b">")?;
    push_state(out, test, item_bytes, &state.words)?;
    push_bytes(out, b"\n")
}

pub fn push_histogram(
    alloc: Global,
    out: &mut Vec<u8>,
    test: &Test,
    item_bytes: u32,
    states: &[StateLine],
) -> Result<(), NoMemory>
    requires few { length test.now.locations.items ≤ 256 }
    requires small { item_bytes ≤ 64 }
    ensures { OnOk result
        (Adds out.old.items out.new.items (flat_map (histogram_line (test_from test.now) item_bytes) states.now)) }
{
    for state in states {
        push_histogram_line(alloc, out, test, item_bytes, state)?;
    }
    Ok(())
}

/// The smallest seed that came to the state, and the state.
fn push_seed_line(
    out: &mut Vec<u8>,
    test: &Test,
    item_bytes: u32,
    state: &StateLine,
) -> Result<(), NoMemory>
    requires few { length test.now.locations.items ≤ 256 }
    requires small { item_bytes ≤ 64 }
    ensures { OnOk result (Adds out.old.items out.new.items (seed_line (test_from test.now) item_bytes state.now)) }
{
    push_bytes(out, b"Seed ")?;
    push_decimal(out, state.seed)?;
    push_bytes(out, b" ")?;
    push_state(out, test, item_bytes, &state.words)?;
    push_bytes(out, b"\n")
}

pub fn push_seeds(
    out: &mut Vec<u8>,
    test: &Test,
    item_bytes: u32,
    states: &[StateLine],
) -> Result<(), NoMemory>
    requires few { length test.now.locations.items ≤ 256 }
    requires small { item_bytes ≤ 64 }
    ensures { OnOk result
        (Adds out.old.items out.new.items (flat_map (seed_line (test_from test.now) item_bytes) states.now)) }
{
    for state in states {
        push_seed_line(out, test, item_bytes, state)?;
    }
    Ok(())
}
