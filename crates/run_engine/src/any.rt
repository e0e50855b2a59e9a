//! The machine of any tree and image is built.

ghost use Rattle.std.specs.Prelude.{◌≡◌, ◌⊎◌, ◌*◌, ◌≤◌, IfErr, IfOk, None, Ok, Some, length};
ghost use Rattle.run_engine.specs.TreeModel.Start.Machine.{start_machine, start_of, start_refusal};
ghost use Rattle.run_engine.specs.AnyMachine.Any.{depths_state, machine_state, state_in};
ghost use Rattle.run_engine.specs.AnyMachine.Kind.{kind_in, kind_of, levels_in};
ghost use Rattle.run_engine.specs.BusLaws.IsTree.{IsTree};
ghost use Rattle.run_engine.specs.Build.{build_refusal};
ghost use Rattle.run_engine.specs.Started.{CanMake, CanStart, StartsInOrder, kind_of_tree, started};
ghost use Rattle.run_engine.specs.declared.refusal.BuildRefusal.TheVariants as refusal;

use crate::contents::items;
use crate::depths::{four_levels, one_level, three_levels, two_levels};
use crate::of_any_machine::{AnyMachine, Depths, Machines};
use crate::of_ddm_types::{Code, Items, NoMemory};
use crate::of_elf_load::{Image, copied_code};
use crate::refusal::BuildRefusal;
use crate::tree::{item_bytes, levels};
use std::alloc::Global;
use tree_config::TreeConfig;

/// The machine of a tree of any depth, whose leaves have so many ways.
fn any_depth<const WAYS: usize, const WORDS: usize>(
    alloc: Global,
    tree: &TreeConfig,
    image: &Image,
    code: Code,
    items: Items,
) -> Result<Depths<WAYS, WORDS>, NoMemory>
    requires { CanStart WAYS WORDS tree.now image.now code items }
    ensures built { IfOk result (λ m. depths_state m ≡ started tree.now image.now) }
    ensures levels { IfOk result (λ m. levels_in m ≡ length tree.now.levels) }
    ensures tree { IfOk result (λ _. IsTree tree.now) }
{
    match levels(tree) {
        1 => Ok(Depths::OneLevel(one_level(alloc, tree, image, code, items)?)),
        2 => Ok(Depths::TwoLevels(two_levels(alloc, tree, image, code, items)?)),
        3 => Ok(Depths::ThreeLevels(three_levels(alloc, tree, image, code, items)?)),
        _ => Ok(Depths::FourLevels(four_levels(alloc, tree, image, code, items)?)),
    }
}

/// The machine of a tree of any depth and any ways.
fn any_ways<const WORDS: usize>(
    alloc: Global,
    tree: &TreeConfig,
    image: &Image,
    code: Code,
    items: Items,
) -> Result<Machines<WORDS>, NoMemory>
    requires { CanMake WORDS tree.now image.now code items }
    ensures built { IfOk result (λ m. state_in m ≡ started tree.now image.now) }
    ensures kind { IfOk result (λ m. kind_in m ≡ kind_of_tree tree.now) }
    ensures tree { IfOk result (λ _. IsTree tree.now) }
{
    match tree.ways {
        1 => Ok(Machines::OneWay(any_depth(alloc, tree, image, code, items)?)),
        2 => Ok(Machines::TwoWays(any_depth(alloc, tree, image, code, items)?)),
        _ => Ok(Machines::FourWays(any_depth(alloc, tree, image, code, items)?)),
    }
}

/// The machine with items of so many words.
#[tactic(auto, using(crate::proofs::StartOrder::starts_in_order))]
fn made<const WORDS: usize>(
    alloc: Global,
    tree: &TreeConfig,
    image: &Image,
) -> Result<Machines<WORDS>, BuildRefusal>
    requires size { 4 * WORDS ≡ tree.now.item_bytes }
    requires small { WORDS ≤ 16 }
    ensures built { IfOk result (λ m. state_in m ≡ started tree.now image.now) }
    ensures kind { IfOk result (λ m. kind_in m ≡ kind_of_tree tree.now) }
    ensures accepted { IfOk result (λ m. start_refusal tree.now image.now ≡ None) }
    ensures order { IfOk result (λ m. StartsInOrder tree.now image.now (state_in m)) }
    ensures refused { IfErr result (λ r. (r ≡ refusal.NoMemory) ⊎ (build_refusal tree.now image.now ≡ Some r)) }
{
    let items = items(alloc, tree, image)?;
    let code = copied_code(alloc, image)?;
    Ok(any_ways(alloc, tree, image, code, items)?)
}

/// The machine of a tree and an image before its first turn: each item at its own leaf, or the next one in cyclic order with a
/// free way in its set, items taken in order of number. It has no room for operations. It keeps the rules of every bus and of order.
pub fn build(alloc: Global, tree: &TreeConfig, image: &Image) -> Result<AnyMachine, BuildRefusal>
    ensures built { IfOk result (λ m. machine_state m ≡ started tree.now image.now) }
    ensures kind { IfOk result (λ m. kind_of m ≡ kind_of_tree tree.now) }
    ensures accepted { IfOk result (λ m. start_refusal tree.now image.now ≡ None) }
    ensures order { IfOk result (λ m. StartsInOrder tree.now image.now (machine_state m)) }
    ensures refused { IfErr result (λ r. (r ≡ refusal.NoMemory) ⊎ (build_refusal tree.now image.now ≡ Some r)) }
{
    if item_bytes(tree) == 16 {
        Ok(AnyMachine::Narrow(made(alloc, tree, image)?))
    } else {
        Ok(AnyMachine::Wide(made(alloc, tree, image)?))
    }
}
