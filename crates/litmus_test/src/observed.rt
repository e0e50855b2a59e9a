//! What is observed: registers by thread and number, then locations by name, each once.

ghost use Rattle.std.specs.Prelude.{◌≡◌, ◌<◌, ◌≤◌, ◌++◌, [], IfOk, OnOk, fold, length};
ghost use Rattle.std.specs.List.{flat_map, position_or_len, slice_index_or};
ghost use Rattle.std.specs.Ordering.{is_lt, nat_cmp};
ghost use Rattle.std.specs.Cmp.Lexicographic.{slice_cmp};
ghost use Rattle.litmus_model.specs.Test.{chunk_targets, is_before, with_target};
ghost use Rattle.litmus_test.specs.Places.{is_at};

use elf_load::of_ddm_types::NoMemory;
use litmus_model::{Chunk, Name, Target, same_target};
use std::alloc::Global;
use std::cmp::Ordering;

/// Whether a name's bytes come before another's.
fn is_lesser(one: &Name, other: &Name) -> bool
    ensures { result ≡ is_lt (slice_cmp nat_cmp one.now other.now) }
{
    match one.bytes().cmp(other.bytes()) {
        Ordering::Less => true,
        _ => false,
    }
}

/// Registers by thread and number, then locations by name.
fn is_before(one: &Target, other: &Target) -> bool
    ensures { result ≡ is_before one.now other.now }
{
    match (one, other) {
        (
            Target::Register { thread, register },
            Target::Register {
                thread: other_thread,
                register: other_register,
            },
        ) => *thread < *other_thread || *thread == *other_thread && register.0 < other_register.0,
        (Target::Register { .. }, Target::Location(_)) => true,
        (Target::Location(_), Target::Register { .. }) => false,
        (Target::Location(name), Target::Location(other_name)) => is_lesser(name, other_name),
    }
}

fn is_at(target: &Target, other: &Target) -> bool
    ensures { result ≡ is_at target.now other.now }
{
    is_before(target, other) || same_target(target, other)
}

/// How many of these targets are before this one, which has a place there or after them all.
#[tactic(auto, using(litmus_model::proofs::Searches::position_search))]
fn place_of(targets: &[Target], target: &Target) -> usize
    ensures place { result ≡ position_or_len (is_at target.now) targets.now }
    ensures inside { result ≤ length targets.now }
{
    for (place, other) in targets.iter().enumerate() {
        if is_at(target, other) {
            return place;
        }
    }
    targets.len()
}

/// Whether a target is before the one of this number.
fn is_before_at(targets: &[Target], place: usize, target: &Target) -> bool
    requires { place < length targets.now }
    ensures { result ≡ is_before target.now (slice_index_or targets.now place target.now) }
{
    is_before(target, &targets[place])
}

/// Puts a target in its place, where it isn't there.
#[tactic(auto, using(crate::proofs::Targets::last_place, crate::proofs::Targets::put_in, crate::proofs::Targets::stays))]
fn push_target(targets: &mut Vec<Target>, target: &Target) -> Result<(), NoMemory>
    ensures { OnOk result (targets.new.items ≡ with_target targets.old.items target.now) }
{
    let place = place_of(targets, target);
    if place == targets.len() {
        targets.extend_from_slice(&[*target])?;
    } else if is_before_at(targets, place, target) {
        targets.insert(place, *target)?;
    }
    Ok(())
}

fn push_chunk(targets: &mut Vec<Target>, chunk: &Chunk) -> Result<(), NoMemory>
    ensures { OnOk result (targets.new.items ≡ fold with_target targets.old.items (chunk_targets chunk.now)) }
{
    match chunk {
        Chunk::Is { target, .. } => push_target(targets, target),
        _ => Ok(()),
    }
}

#[tactic(auto, using(crate::proofs::Folds::fold_next, crate::proofs::Folds::fold_done))]
fn push_named(targets: &mut Vec<Target>, named: &[Target]) -> Result<(), NoMemory>
    ensures { OnOk result (targets.new.items ≡ fold with_target targets.old.items named.now) }
{
    for target in named {
        push_target(targets, target)?;
    }
    Ok(())
}

#[tactic(auto, using(crate::proofs::Folds::parts_next, crate::proofs::Folds::parts_done))]
fn push_chunks(targets: &mut Vec<Target>, chunks: &[Chunk]) -> Result<(), NoMemory>
    ensures { OnOk result (targets.new.items ≡ fold with_target targets.old.items (flat_map chunk_targets chunks.now)) }
{
    for chunk in chunks {
        push_chunk(targets, chunk)?;
    }
    Ok(())
}

/// The targets of `locations` and of the condition.
#[tactic(auto, using(crate::proofs::Folds::fold_two))]
pub(crate) fn observed_targets(
    alloc: Global,
    named: &[Target],
    chunks: &[Chunk],
) -> Result<Vec<Target>, NoMemory>
    ensures { IfOk result
        (λ targets. targets.items ≡ fold with_target [] (named.now ++ flat_map chunk_targets chunks.now)) }
{
    let mut targets = Vec::new(alloc);
    push_named(&mut targets, named)?;
    push_chunks(&mut targets, chunks)?;
    Ok(targets)
}
