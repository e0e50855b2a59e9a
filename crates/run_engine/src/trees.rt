//! The leaves and the machine of a tree.

ghost use Rattle.std.specs.Prelude.{◌≡◌, ◌≤◌, ◌<◌, ◌*◌, None, map, IfOk};
ghost use Rattle.run_engine.specs.TreeModel.Start.Machine.{start_leaves, start_machine, start_refusal};
ghost use Rattle.run_engine.specs.TreeModel.Start.Memory.{start_code, start_items};
ghost use Rattle.run_engine.specs.StartParts.Parts.{start_kids};

use crate::contents::words;
use crate::harts::start_of_harts;
use crate::leaves::{new_leaves, place_items};
use crate::of_ddm_tree::{Machine, Subtree};
use crate::of_ddm_types::{Code, Items, NoMemory, TreeCounts};
use crate::of_elf_load::Image;
use crate::of_leaf_protocol::Leaf;
use crate::of_top_node::TopState;
use std::alloc::Global;
use tree_config::TreeConfig;

/// The leaves of a tree, with the items of an image placed.
pub fn start_leaves<const WAYS: usize, const WORDS: usize>(
    alloc: Global,
    tree: &TreeConfig,
    image: &Image,
    items: &Items,
) -> Result<Vec<Leaf<WAYS, WORDS>>, NoMemory>
    requires ways { tree.now.way_count ≡ WAYS }
    requires size { 4 * WORDS ≡ tree.now.item_bytes }
    requires small { WORDS ≤ 16 }
    requires items { items.now ≡ start_items tree.now image.now }
    requires accepted { start_refusal tree.now image.now ≡ None }
    ensures { IfOk result (λ leaves. leaves.items ≡ start_leaves tree.now image.now) }
{
    let words = words(alloc, &image.segments, items)?;
    let start = start_of_harts(tree, image);
    let sizes = tree.sizes();
    let mut leaves = new_leaves(alloc, items.len(), &sizes, start)?;
    place_items(&mut leaves, &words, sizes.sets);
    Ok(leaves)
}

/// The machine with these children of bus 0.
pub fn start_machine<const WORDS: usize, C: Subtree<WORDS> + Drop>(
    alloc: Global,
    tree: &TreeConfig,
    image: &Image,
    code: Code,
    items: Items,
    kids: Vec<C>,
) -> Result<Machine<WORDS, C>, NoMemory>
    requires size { 4 * WORDS ≡ tree.now.item_bytes }
    requires small { WORDS ≤ 16 }
    requires code { code ≡ start_code image.now }
    requires items { items ≡ start_items tree.now image.now }
    requires accepted { start_refusal tree.now image.now ≡ None }
    requires kids { map C.value kids.items ≡ start_kids tree.now image.now }
    ensures { IfOk result (λ m. m ≡ record { machine = start_machine tree.now image.now; spare = 0; turns = 0 }) }
{
    let counts = TreeCounts {
        leaves: tree.nodes.harts(),
        buses: tree.nodes.buses(),
        depth: tree.nodes.depth(),
    };
    let top = TopState::new(alloc, items.len(), tree.down)?;
    Machine::new(alloc, top, kids, code, items, counts)
}
