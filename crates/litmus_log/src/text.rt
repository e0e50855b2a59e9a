//! The whole text.

ghost use Rattle.std.specs.Prelude.{◌≡◌, ◌≤◌, ◌++◌, OnOk, codes, decimal, flat_map, length};
ghost use Rattle.ddm_text.specs.Adds.{Adds};
ghost use Rattle.litmus_model.specs.Kept.{test_from};
ghost use Rattle.litmus_model.specs.StatesText.{histogram_line, kind_text, line, states_text};
ghost use Rattle.litmus_log.specs.Kept.{runs_from, times_in};

use crate::chunks::kind_text;
use crate::lines::{push_histogram, push_seeds};
use crate::runs::{RunStates, StateLine};
use crate::verdict::{counts_of, push_verdict};
use crate::words::{push_bytes, push_count};
use ddm_text::of_ddm_types::NoMemory;
use ddm_text::push_decimal;
use litmus_model::Test;
use std::alloc::Global;

/// The name of the test, and what its author expects.
fn push_test(out: &mut Vec<u8>, test: &Test) -> Result<(), NoMemory>
    ensures { OnOk result
        (Adds out.old.items out.new.items
        (line (codes "Test " ++ test.now.name.items ++ codes " " ++ kind_text test.now.quantifier))) }
{
    push_bytes(out, b"Test ")?;
    push_bytes(out, &test.name)?;
    push_bytes(out, b" ")?;
    push_bytes(out, kind_text(test.quantifier))?;
    push_bytes(out, b"\n")?;
    Ok(())
}

/// How many states follow.
fn push_size(out: &mut Vec<u8>, states: usize) -> Result<(), NoMemory>
    ensures { OnOk result
        (Adds out.old.items out.new.items (line (codes "Histogram (" ++ decimal states ++ codes " states)"))) }
{
    push_count(out, b"Histogram (", states as u64)?;
    push_bytes(out, b" states)")?;
    push_bytes(out, b"\n")?;
    Ok(())
}

/// The name of the test, and the states.
fn push_first(
    alloc: Global,
    out: &mut Vec<u8>,
    test: &Test,
    item_bytes: u32,
    states: &[StateLine],
) -> Result<(), NoMemory>
    requires few { length test.now.locations.items ≤ 256 }
    requires small { item_bytes ≤ 64 }
    ensures { OnOk result
        (Adds out.old.items out.new.items
        (line (codes "Test " ++ test.now.name.items ++ codes " " ++ kind_text test.now.quantifier)
        ++ line (codes "Histogram (" ++ decimal (length states.now) ++ codes " states)")
        ++ flat_map (histogram_line (test_from test.now) item_bytes) states.now)) }
{
    push_test(out, test)?;
    push_size(out, states.len())?;
    push_histogram(alloc, out, test, item_bytes, states)?;
    Ok(())
}

/// How many runs there were.
fn push_all(out: &mut Vec<u8>, test: &Test, runs: u32) -> Result<(), NoMemory>
    ensures { OnOk result
        (Adds out.old.items out.new.items
        (codes "Runs " ++ test.now.name.items ++ codes " " ++ decimal runs)) }
{
    push_bytes(out, b"Runs ")?;
    push_bytes(out, &test.name)?;
    push_bytes(out, b" ")?;
    push_decimal(out, u64::from(runs))?;
    Ok(())
}

/// How many runs there were, and how many of them came to no state.
fn push_runs(out: &mut Vec<u8>, test: &Test, runs: &RunStates) -> Result<(), NoMemory>
    ensures { OnOk result
        (Adds out.old.items out.new.items
        (line (codes "Runs " ++ test.now.name.items ++ codes " " ++ decimal runs.now.runs ++ codes " unfinished "
        ++ decimal runs.now.unfinished ++ codes " faulted " ++ decimal runs.now.faulted))) }
{
    push_all(out, test, runs.runs)?;
    push_bytes(out, b" unfinished ")?;
    push_decimal(out, runs.unfinished)?;
    push_bytes(out, b" faulted ")?;
    push_decimal(out, runs.faulted)?;
    push_bytes(out, b"\n")?;
    Ok(())
}

/// Puts at the end what is printed of the states to which runs of a test came.
#[tactic(auto, unfolding(litmus_model::specs::StatesText::states_text))]
pub fn push_states(
    alloc: Global,
    out: &mut Vec<u8>,
    test: &Test,
    item_bytes: u32,
    runs: &RunStates,
) -> Result<(), NoMemory>
    requires few { length test.now.locations.items ≤ 256 }
    requires small { item_bytes ≤ 64 }
    requires times { times_in runs.now.states.items ≤ 18446744073709551615 }
    ensures { OnOk result
        (Adds out.old.items out.new.items (states_text (test_from test.now) item_bytes (runs_from runs.now))) }
{
    push_first(alloc, out, test, item_bytes, &runs.states)?;
    let counts = counts_of(alloc, test, item_bytes, &runs.states)?;
    push_verdict(out, test, item_bytes, counts)?;
    push_seeds(out, test, item_bytes, &runs.states)?;
    push_runs(out, test, runs)?;
    Ok(())
}
