//! The numbers of a tree.

ghost use Rattle.std.specs.Prelude.{◌≡◌, ◌⊎◌, ◌≤◌, ◌+◌, ◌*◌, length};
ghost use Rattle.run_engine.specs.BusLaws.IsTree.{IsTree};
ghost use Rattle.run_engine.specs.TreeModel.Start.Sources.{leaf_count, place_count};

use tree_config::TreeConfig;

/// How many harts the tree has, each with a stack.
pub fn harts(tree: &TreeConfig) -> u32
    ensures number { result ≡ leaf_count tree.now }
    ensures few { result ≤ 64 }
    ensures stacks { tree.now.stack_base + leaf_count tree.now * tree.now.stack_bytes ≤ 4294967280 }
{
    tree.nodes.harts()
}

/// How many levels of buses the tree has, which is one that a machine can have.
pub fn levels(tree: &TreeConfig) -> u32
    ensures number { result ≡ length tree.now.levels }
    ensures tree { IsTree tree.now }
{
    tree.nodes.depth()
}

/// How many bytes an item has.
pub fn item_bytes(tree: &TreeConfig) -> u32
    ensures bytes { result ≡ tree.now.item_bytes }
    ensures known { (result ≡ 16) ⊎ (result ≡ 64) }
{
    tree.item_bytes
}

/// How many items the leaves have places for.
pub fn place_count(tree: &TreeConfig) -> u32
    ensures { result ≡ place_count tree.now }
{
    harts(tree) * tree.ways * tree.sets
}
