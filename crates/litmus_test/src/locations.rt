//! The locations of a test: all names of its text, each once, in its order.

ghost use Rattle.std.specs.Prelude.{◌≡◌, ◌++◌, IfOk, OnOk, bytes_eq, fold};
ghost use Rattle.std.specs.List.{flat_map, list_any};
ghost use Rattle.litmus_model.specs.declared.parts.Given.{Given as GivenValue};
ghost use Rattle.litmus_model.specs.Test.{chunk_names, distinct, pair_names, target_names, value_names, with_name};

use elf_load::of_ddm_types::NoMemory;
use litmus_model::{Chunk, Given, Name, Target, Value, same_name};
use std::alloc::Global;

#[tactic(auto, using(litmus_model::proofs::Searches::any_search))]
fn has_name(names: &[Name], name: &Name) -> bool
    ensures { result ≡ list_any (bytes_eq name.now) names.now }
{
    for other in names {
        if same_name(name, other) {
            return true;
        }
    }
    false
}

#[tactic(auto, unfolding(litmus_model::specs::Test::with_name))]
fn push_name(names: &mut Vec<Name>, name: &Name) -> Result<(), NoMemory>
    ensures { OnOk result (names.new.items ≡ with_name names.old.items name.now) }
{
    if !has_name(names, name) {
        names.extend_from_slice(&[*name])?;
    }
    Ok(())
}

fn push_target(names: &mut Vec<Name>, target: &Target) -> Result<(), NoMemory>
    ensures { OnOk result (names.new.items ≡ fold with_name names.old.items (target_names target.now)) }
{
    match target {
        Target::Register { .. } => Ok(()),
        Target::Location(name) => push_name(names, name),
    }
}

fn push_value(names: &mut Vec<Name>, value: &Value) -> Result<(), NoMemory>
    ensures { OnOk result (names.new.items ≡ fold with_name names.old.items (value_names value.now)) }
{
    match value {
        Value::Number(_) => Ok(()),
        Value::Address(name) => push_name(names, name),
    }
}

#[tactic(auto, using(crate::proofs::Folds::fold_two))]
fn push_pair(names: &mut Vec<Name>, target: &Target, value: &Value) -> Result<(), NoMemory>
    ensures { OnOk result (names.new.items ≡ fold with_name names.old.items (pair_names target.now value.now)) }
{
    push_target(names, target)?;
    push_value(names, value)
}

fn push_chunk(names: &mut Vec<Name>, chunk: &Chunk) -> Result<(), NoMemory>
    ensures { OnOk result (names.new.items ≡ fold with_name names.old.items (chunk_names chunk.now)) }
{
    match chunk {
        Chunk::Is { target, value } => push_pair(names, target, value),
        _ => Ok(()),
    }
}

#[tactic(auto, using(crate::proofs::Folds::parts_next, crate::proofs::Folds::parts_done))]
fn push_givens(names: &mut Vec<Name>, givens: &[Given]) -> Result<(), NoMemory>
    ensures { OnOk result
        (names.new.items
        ≡ fold with_name names.old.items (flat_map (λ (g : GivenValue). pair_names g.target g.value) givens.now)) }
{
    for given in givens {
        push_pair(names, &given.target, &given.value)?;
    }
    Ok(())
}

#[tactic(auto, using(crate::proofs::Folds::parts_next, crate::proofs::Folds::parts_done))]
fn push_targets(names: &mut Vec<Name>, targets: &[Target]) -> Result<(), NoMemory>
    ensures { OnOk result (names.new.items ≡ fold with_name names.old.items (flat_map target_names targets.now)) }
{
    for target in targets {
        push_target(names, target)?;
    }
    Ok(())
}

#[tactic(auto, using(crate::proofs::Folds::parts_next, crate::proofs::Folds::parts_done))]
fn push_chunks(names: &mut Vec<Name>, chunks: &[Chunk]) -> Result<(), NoMemory>
    ensures { OnOk result (names.new.items ≡ fold with_name names.old.items (flat_map chunk_names chunks.now)) }
{
    for chunk in chunks {
        push_chunk(names, chunk)?;
    }
    Ok(())
}

/// The names of the initial state, of `locations` and of the condition.
#[tactic(auto, using(crate::proofs::Folds::fold_three))]
pub(crate) fn locations_of(
    alloc: Global,
    init: &[Given],
    named: &[Target],
    chunks: &[Chunk],
) -> Result<Vec<Name>, NoMemory>
    ensures { IfOk result
        (λ names. names.items
        ≡ distinct (flat_map (λ (g : GivenValue). pair_names g.target g.value) init.now ++ flat_map target_names named.now
        ++ flat_map chunk_names chunks.now)) }
{
    let mut names = Vec::new(alloc);
    push_givens(&mut names, init)?;
    push_targets(&mut names, named)?;
    push_chunks(&mut names, chunks)?;
    Ok(names)
}
