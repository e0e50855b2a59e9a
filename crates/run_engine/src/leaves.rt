//! Items are placed in leaves.

ghost use Rattle.std.specs.Prelude.{◌≡◌, ◌+◌, ◌*◌, ◌%◌, ◌<◌, ◌≤◌, ◌^◌, map, length, All, IfOk, if◌then◌else◌};
ghost use Rattle.std.specs.List.{range_with_len};
ghost use Rattle.run_engine.specs.TreeModel.Start.Nodes.{has_way, leaf_for, leaf_sizes, new_leaf, placed_at, placed_in, placed_items};
ghost use Rattle.run_engine.specs.TreeModel.State.Lists.{map_from};
ghost use Rattle.run_engine.specs.Placement.{ArePassed, CanPlace, HasSets, TakesItem};

use crate::of_ddm_types::{ItemId, LeafNo, NoMemory, Start, TreeSizes, Words};
use crate::of_leaf_protocol::Leaf;
use std::alloc::Global;

/// The leaves of a tree, with no entries: one for each hart, of this many items.
pub fn new_leaves<const WAYS: usize, const WORDS: usize>(
    alloc: Global,
    items: u32,
    config: &TreeSizes,
    start: Start,
) -> Result<Vec<Leaf<WAYS, WORDS>>, NoMemory>
    requires some_sets { 0 < config.now.sets }
    requires few_sets { config.now.sets ≤ 4096 }
    requires some_ways { 0 < WAYS }
    requires few_ways { WAYS ≤ 4 }
    requires words_fit { WORDS < 2 ^ 32 }
    requires harts { start.harts ≤ 64 }
    requires stacks { start.stack_base + start.harts * start.stack_bytes ≤ 4294967280 }
    ensures { IfOk result
        (λ leaves. leaves.items
        ≡ map (new_leaf (leaf_sizes config.now WAYS WORDS) start items) (range_with_len 0 start.harts)) }
{
    let mut leaves = Vec::new(alloc);
    for leaf in 0..start.harts {
        leaves.push(Leaf::new(alloc, LeafNo(leaf), items, config, start)?)?;
    }
    Ok(leaves)
}

/// How many leaves, in cyclic order from this one on, have no way left for the items of a set whose own leaf that is.
#[derive(Clone, Copy)]
pub struct Passed {
    own: u32,
    leaves: u32,
}

/// The remainder by this count of a number below twice the count.
#[inline]
fn wrapped(number: u32, count: u32) -> u32
    requires { number < 2 * count }
    ensures { result ≡ number % count }
{
    if number < count {
        number
    } else {
        number - count
    }
}

/// Places an item: in the lowest free way of its set at its own leaf, else at the next leaf in cyclic order that has one. The first
/// leaves in that order may be known to have none; answers how many are known to have none then.
fn place_item<const WAYS: usize, const WORDS: usize>(
    leaves: &mut [Leaf<WAYS, WORDS>],
    item: ItemId,
    words: Words<WORDS>,
    own: u32,
    first: u32,
) -> u32
    requires few { length leaves.old < 2 ^ 31 }
    requires own { own ≡ item % length leaves.old }
    requires takes { All (TakesItem item) leaves.old }
    requires inside { first ≤ length leaves.old }
    requires passed { ArePassed item first leaves.old }
    ensures placed { leaves.new ≡ placed_in item words.entry leaves.old (leaf_for leaves.old item) }
    ensures inside { result ≤ length leaves.old }
    ensures passed { ArePassed item result leaves.old }
{
    let count = leaves.len() as u32;
    for k in first..count {
        let leaf = wrapped(own + k, count);
        if place_at(leaves, leaf, item, words) {
            return k;
        }
    }
    first
}

/// Places an item at a leaf, if its set has a free way there.
fn place_at<const WAYS: usize, const WORDS: usize>(
    leaves: &mut [Leaf<WAYS, WORDS>],
    leaf: u32,
    item: ItemId,
    words: Words<WORDS>,
) -> bool
    requires inside { leaf < length leaves.old }
    requires takes { All (TakesItem item) leaves.old }
    ensures way { result ≡ has_way leaves.old item leaf }
    ensures after { leaves.new ≡ (if result then map_from (placed_at leaf item words.entry) 0 leaves.old else leaves.old) }
{
    leaves[leaf as usize].start_item(item, words).is_ok()
}

/// The most sets of a leaf.
const MOST_SETS: usize = 4096;

/// Places the items in order of number. Where an item of a set went, the next one of this set needn't look at the leaves before it.
/// An item's own leaf and its set are counted along with its number: so nothing is divided.
#[tactic(auto, using(std::proofs::lemmas::Nat::mod_below))]
pub fn place_items<const WAYS: usize, const WORDS: usize>(
    leaves: &mut [Leaf<WAYS, WORDS>],
    words: &[Words<WORDS>],
    sets: u32,
)
    requires can { CanPlace words.now leaves.old }
    requires sets { All (HasSets sets) leaves.old }
    requires some { 0 < sets }
    requires few { sets ≤ 4096 }
    ensures { leaves.new ≡ placed_items 0 words.now leaves.old }
{
    let mut passed = [Passed { own: 0, leaves: 0 }; MOST_SETS];
    let count = leaves.len() as u32;
    if count == 0 {
        return;
    }
    let mut own = 0;
    let mut set = 0;
    for item in 0..words.len() {
        let known = passed[set as usize];
        let first = if known.own == own { known.leaves } else { 0 };
        let full = place_item(leaves, ItemId(item as u32), words[item], own, first);
        passed[set as usize] = Passed { own, leaves: full };
        own = wrapped(own + 1, count);
        set = wrapped(set + 1, sets);
    }
}
