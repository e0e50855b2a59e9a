//! What the states say of the condition.

ghost use Rattle.std.specs.Prelude.{◌≡◌, ◌+◌, ◌≤◌, ◌++◌, codes, decimal, false, length, true, IfOk, OnOk};
ghost use Rattle.ddm_text.specs.Adds.{Adds};
ghost use Rattle.litmus_model.specs.Kept.{test_from};
ghost use Rattle.litmus_model.specs.StatesText.{condition_text, is_validated, often_text, result_text, runs_that};
ghost use Rattle.litmus_model.specs.StatesText.{validated_text, verdict_text, witnesses, witnesses_text};
ghost use Rattle.litmus_log.specs.Kept.{counted, times_in};

use crate::chunks::push_condition;
use crate::condition::satisfies;
use crate::runs::StateLine;
use crate::words::{push_bytes, push_count};
use ddm_text::of_ddm_types::NoMemory;
use ddm_text::push_decimal;
use litmus_model::{Quantifier, Test};
use std::alloc::Global;

/// How many of the runs that came to a state satisfy the condition, and how many don't.
#[derive(Clone, Copy)]
pub struct Counts {
    pub satisfying: u64,
    pub others: u64,
}

impl Counts {
    #[tactic(auto, unfolding(crate::specs::Kept::counted))]
    fn with(self, satisfies: bool, times: u64) -> Counts
        requires { self.satisfying + self.others + times ≤ 18446744073709551615 }
        ensures satisfying { result.satisfying ≡ self.satisfying + counted true satisfies times }
        ensures others { result.others ≡ self.others + counted false satisfies times }
    {
        if satisfies {
            Counts {
                satisfying: self.satisfying + times,
                others: self.others,
            }
        } else {
            Counts {
                satisfying: self.satisfying,
                others: self.others + times,
            }
        }
    }
}

#[tactic(auto, using(crate::proofs::Counted::done))]
pub fn counts_of(
    alloc: Global,
    test: &Test,
    item_bytes: u32,
    states: &[StateLine],
) -> Result<Counts, NoMemory>
    requires few { length test.now.locations.items ≤ 256 }
    requires small { item_bytes ≤ 64 }
    requires times { times_in states.now ≤ 18446744073709551615 }
    ensures satisfying { IfOk result
        (λ counts. counts.satisfying ≡ runs_that true (test_from test.now) item_bytes states.now) }
    ensures others { IfOk result
        (λ counts. counts.others ≡ runs_that false (test_from test.now) item_bytes states.now) }
{
    let mut counts = Counts {
        satisfying: 0,
        others: 0,
    };
    for state in states {
        counts = counts.with(
            satisfies(alloc, test, item_bytes, &state.words)?,
            state.times,
        );
    }
    Ok(counts)
}

fn is_validated(quantifier: Quantifier, counts: Counts) -> bool
    ensures { result ≡ is_validated quantifier counts.satisfying counts.others }
{
    match quantifier {
        Quantifier::Exists => counts.satisfying > 0,
        Quantifier::NotExists => counts.satisfying == 0,
        Quantifier::Forall => counts.others == 0,
    }
}

fn result_text(validated: bool) -> &'static [u8]
    ensures { result.now ≡ result_text validated }
{
    if validated { b"Ok" } else { b"No" }
}

fn validated_text(validated: bool) -> &'static [u8]
    ensures { result.now ≡ validated_text validated }
{
    if validated {
        b"validated"
    } else {
        b"NOT validated"
    }
}

fn often_text(counts: Counts) -> &'static [u8]
    ensures { result.now ≡ often_text counts.satisfying counts.others }
{
    if counts.satisfying == 0 {
        b"Never"
    } else if counts.others == 0 {
        b"Always"
    } else {
        b"Sometimes"
    }
}

fn push_witnesses(out: &mut Vec<u8>, positive: u64, negative: u64) -> Result<(), NoMemory>
    ensures { OnOk result (Adds out.old.items out.new.items (witnesses positive negative)) }
{
    push_bytes(out, b"Positive: ")?;
    push_decimal(out, positive)?;
    push_bytes(out, b", Negative: ")?;
    push_decimal(out, negative)?;
    Ok(())
}

fn push_witnesses_of(
    out: &mut Vec<u8>,
    quantifier: Quantifier,
    counts: Counts,
) -> Result<(), NoMemory>
    ensures { OnOk result
        (Adds out.old.items out.new.items (witnesses_text quantifier counts.satisfying counts.others)) }
{
    match quantifier {
        Quantifier::Exists | Quantifier::Forall => {
            push_witnesses(out, counts.satisfying, counts.others)
        }
        Quantifier::NotExists => push_witnesses(out, counts.others, counts.satisfying),
    }
}

/// The result, and how many runs there are of either kind.
fn push_result(out: &mut Vec<u8>, quantifier: Quantifier, counts: Counts) -> Result<(), NoMemory>
    ensures { OnOk result
        (Adds out.old.items out.new.items
        ((result_text (is_validated quantifier counts.satisfying counts.others) ++ codes "\n\nWitnesses\n")
        ++ witnesses_text quantifier counts.satisfying counts.others ++ codes "\n")) }
{
    push_bytes(out, result_text(is_validated(quantifier, counts)))?;
    push_bytes(out, b"\n\nWitnesses\n")?;
    push_witnesses_of(out, quantifier, counts)?;
    push_bytes(out, b"\n")?;
    Ok(())
}

/// How often the condition is satisfied, in a word.
fn push_often(out: &mut Vec<u8>, test: &Test, counts: Counts) -> Result<(), NoMemory>
    ensures { OnOk result
        (Adds out.old.items out.new.items
        (codes "Observation " ++ test.now.name.items ++ codes " " ++ often_text counts.satisfying counts.others)) }
{
    push_bytes(out, b"Observation ")?;
    push_bytes(out, &test.name)?;
    push_bytes(out, b" ")?;
    push_bytes(out, often_text(counts))?;
    Ok(())
}

/// How often the condition is satisfied.
fn push_observation(out: &mut Vec<u8>, test: &Test, counts: Counts) -> Result<(), NoMemory>
    ensures { OnOk result
        (Adds out.old.items out.new.items
        ((codes "Observation " ++ test.now.name.items ++ codes " " ++ often_text counts.satisfying counts.others)
        ++ codes " " ++ decimal counts.satisfying ++ codes " " ++ decimal counts.others ++ codes "\n")) }
{
    push_often(out, test, counts)?;
    push_count(out, b" ", counts.satisfying)?;
    push_count(out, b" ", counts.others)?;
    push_bytes(out, b"\n")?;
    Ok(())
}

/// Whether the condition is validated.
fn push_validated(out: &mut Vec<u8>, validated: bool) -> Result<(), NoMemory>
    ensures { OnOk result
        (Adds out.old.items out.new.items (codes " is " ++ validated_text validated ++ codes "\n")) }
{
    push_bytes(out, b" is ")?;
    push_bytes(out, validated_text(validated))?;
    push_bytes(out, b"\n")?;
    Ok(())
}

/// The condition, and whether it is validated.
fn push_condition_line(
    out: &mut Vec<u8>,
    test: &Test,
    item_bytes: u32,
    validated: bool,
) -> Result<(), NoMemory>
    requires few { length test.now.locations.items ≤ 256 }
    requires small { item_bytes ≤ 64 }
    ensures { OnOk result
        (Adds out.old.items out.new.items
        (codes "Condition " ++ condition_text (test_from test.now) item_bytes ++ codes " is "
        ++ validated_text validated ++ codes "\n")) }
{
    push_bytes(out, b"Condition ")?;
    push_condition(out, test, item_bytes)?;
    push_validated(out, validated)?;
    Ok(())
}

#[tactic(auto, unfolding(litmus_model::specs::StatesText::verdict_text))]
pub fn push_verdict(
    out: &mut Vec<u8>,
    test: &Test,
    item_bytes: u32,
    counts: Counts,
) -> Result<(), NoMemory>
    requires few { length test.now.locations.items ≤ 256 }
    requires small { item_bytes ≤ 64 }
    ensures { OnOk result
        (Adds out.old.items out.new.items
        (verdict_text (test_from test.now) item_bytes counts.satisfying counts.others)) }
{
    push_result(out, test.quantifier, counts)?;
    let validated = is_validated(test.quantifier, counts);
    push_condition_line(out, test, item_bytes, validated)?;
    push_observation(out, test, counts)?;
    Ok(())
}
