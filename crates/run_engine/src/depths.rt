//! The machine of a tree, for each number of levels of buses.

ghost use Rattle.std.specs.Prelude.{◌≡◌, ◌+◌, ◌*◌, ◌<◌, ◌≤◌, IfOk, length, map, slice_index_or, [], None};
ghost use Rattle.run_engine.specs.TreeModel.Start.Machine.{start_refusal};
ghost use Rattle.run_engine.specs.TreeModel.Start.Memory.{start_code, start_items};
ghost use Rattle.run_engine.specs.TreeModel.State.Values.{dir_node, leaf_node, nodes};
ghost use Rattle.run_engine.specs.Started.{CanFill, CanStart, nodes_at, started};

use crate::of_cluster::{Cluster, clusters};
use crate::of_ddm_tree::{Dir, Machine, Subtree, directories};
use crate::of_ddm_types::{Code, Items, NoMemory};
use crate::of_elf_load::Image;
use crate::of_leaf_protocol::Leaf;
use crate::trees::{start_leaves, start_machine};
use std::alloc::Global;
use tree_config::TreeConfig;

/// The directories of a level, whose first bus has the number `first`, over the nodes of the level below.
fn level_over<const WORDS: usize, C: Subtree<WORDS> + Drop>(
    alloc: Global,
    tree: &TreeConfig,
    image: &Image,
    items: &Items,
    level: u32,
    first: u32,
    children: Vec<C>,
) -> Result<Vec<Dir<WORDS, C>>, NoMemory>
    requires size { 4 * WORDS ≡ tree.now.item_bytes }
    requires small { WORDS ≤ 16 }
    requires items { items.now ≡ start_items tree.now image.now }
    requires below_top { 0 < level }
    requires deep { level < length tree.now.levels }
    requires some { 0 < first }
    requires few { first ≤ 1000 }
    requires children { map C.value children.items
        ≡ nodes_at tree.now image.now (level + 1) (first + length (slice_index_or tree.now.levels level [])) }
    ensures { IfOk result
        (λ ds. map (λ d. dir_node d.state (nodes (map C.value d.children.items))) ds.items
        ≡ nodes_at tree.now image.now level first) }
{
    let widths = tree.nodes.level(level);
    directories(
        alloc,
        &tree.sizes(),
        items.len(),
        level,
        first,
        widths,
        children,
    )
}

/// The number of the first bus of the next level.
fn first_below(tree: &TreeConfig, level: u32, first: u32) -> u32
    requires deep { level < length tree.now.levels }
    requires few { first ≤ 1000 }
    ensures is { result ≡ first + length (slice_index_or tree.now.levels level []) }
    ensures few { result ≤ first + 256 }
{
    first + tree.nodes.level(level).len() as u32
}

/// The clusters of leaves of a tree with more than one level of buses: the nodes of its last level.
fn clusters_at<const WAYS: usize, const WORDS: usize>(
    alloc: Global,
    tree: &TreeConfig,
    image: &Image,
    items: &Items,
    level: u32,
    first: u32,
) -> Result<Vec<Cluster<WAYS, WORDS>>, NoMemory>
    requires last { level + 1 ≡ length tree.now.levels }
    requires below_top { 0 < level }
    requires some { 0 < first }
    requires few { first ≤ 1000 }
    requires parts { CanFill WAYS WORDS tree.now image.now items.now }
    ensures { IfOk result
        (λ cs. map (λ c. dir_node c.dir.state (nodes (map leaf_node c.dir.children.items))) cs.items
        ≡ nodes_at tree.now image.now level first) }
{
    let leaves: Vec<Leaf<WAYS, WORDS>> = start_leaves(alloc, tree, image, items)?;
    let dirs = level_over(alloc, tree, image, items, level, first, leaves)?;
    clusters(alloc, dirs)
}

/// The machine over the nodes of level 2, of a tree with at least three levels of buses.
fn two_levels_over<const WORDS: usize, C: Subtree<WORDS> + Drop>(
    alloc: Global,
    tree: &TreeConfig,
    image: &Image,
    code: Code,
    items: Items,
    children: Vec<C>,
) -> Result<Machine<WORDS, Dir<WORDS, C>>, NoMemory>
    requires size { 4 * WORDS ≡ tree.now.item_bytes }
    requires small { WORDS ≤ 16 }
    requires code { code ≡ start_code image.now }
    requires items { items ≡ start_items tree.now image.now }
    requires accepted { start_refusal tree.now image.now ≡ None }
    requires deep { 1 < length tree.now.levels }
    requires children { map C.value children.items ≡ nodes_at tree.now image.now 2 (1 + length (slice_index_or tree.now.levels 1 [])) }
    ensures { IfOk result (λ m. m ≡ started tree.now image.now) }
{
    let kids = level_over(alloc, tree, image, &items, 1, 1, children)?;
    start_machine(alloc, tree, image, code, items, kids)
}

/// The machine of a tree with one level of buses, before its first turn.
pub fn one_level<const WAYS: usize, const WORDS: usize>(
    alloc: Global,
    tree: &TreeConfig,
    image: &Image,
    code: Code,
    items: Items,
) -> Result<Machine<WORDS, Leaf<WAYS, WORDS>>, NoMemory>
    requires levels { length tree.now.levels ≡ 1 }
    requires parts { CanStart WAYS WORDS tree.now image.now code items }
    ensures { IfOk result (λ m. m ≡ started tree.now image.now) }
{
    let leaves = start_leaves(alloc, tree, image, &items)?;
    start_machine(alloc, tree, image, code, items, leaves)
}

/// The machine of a tree with two levels of buses, before its first turn.
pub fn two_levels<const WAYS: usize, const WORDS: usize>(
    alloc: Global,
    tree: &TreeConfig,
    image: &Image,
    code: Code,
    items: Items,
) -> Result<Machine<WORDS, Cluster<WAYS, WORDS>>, NoMemory>
    requires levels { length tree.now.levels ≡ 2 }
    requires parts { CanStart WAYS WORDS tree.now image.now code items }
    ensures { IfOk result (λ m. m ≡ started tree.now image.now) }
{
    let kids: Vec<Cluster<WAYS, WORDS>> = clusters_at(alloc, tree, image, &items, 1, 1)?;
    start_machine(alloc, tree, image, code, items, kids)
}

/// The machine of a tree with three levels of buses, before its first turn.
pub fn three_levels<const WAYS: usize, const WORDS: usize>(
    alloc: Global,
    tree: &TreeConfig,
    image: &Image,
    code: Code,
    items: Items,
) -> Result<Machine<WORDS, Dir<WORDS, Cluster<WAYS, WORDS>>>, NoMemory>
    requires levels { length tree.now.levels ≡ 3 }
    requires parts { CanStart WAYS WORDS tree.now image.now code items }
    ensures { IfOk result (λ m. m ≡ started tree.now image.now) }
{
    let below = first_below(tree, 1, 1);
    let kids: Vec<Cluster<WAYS, WORDS>> = clusters_at(alloc, tree, image, &items, 2, below)?;
    two_levels_over(alloc, tree, image, code, items, kids)
}

/// The machine of a tree with four levels of buses, before its first turn.
pub fn four_levels<const WAYS: usize, const WORDS: usize>(
    alloc: Global,
    tree: &TreeConfig,
    image: &Image,
    code: Code,
    items: Items,
) -> Result<Machine<WORDS, Dir<WORDS, Dir<WORDS, Cluster<WAYS, WORDS>>>>, NoMemory>
    requires levels { length tree.now.levels ≡ 4 }
    requires parts { CanStart WAYS WORDS tree.now image.now code items }
    ensures { IfOk result (λ m. m ≡ started tree.now image.now) }
{
    let second = first_below(tree, 1, 1);
    let third = first_below(tree, 2, second);
    let clusters: Vec<Cluster<WAYS, WORDS>> = clusters_at(alloc, tree, image, &items, 3, third)?;
    let kids = level_over(alloc, tree, image, &items, 2, second, clusters)?;
    two_levels_over(alloc, tree, image, code, items, kids)
}
