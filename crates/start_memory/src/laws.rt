//! The law that this is the memory of the tables' start.

ghost use Rattle.std.specs.Prelude.{◌≡◌};
ghost use Rattle.start_memory.specs.TreeModel.Start.Sources.{ImageValue, TreeValue, stack_spans, start_of_harts};
ghost use Rattle.start_memory.specs.TreeModel.Start.Memory.{start_items, start_words};
ghost use Rattle.start_memory.specs.Memory.{memory_items, memory_words, stacks_of};

/// The memory of a tree and an image, as the machine of the tree starts with it, is that of the image and the tree's stacks.
#[tactic(auto, using(crate::proofs::Starts::same_items, crate::proofs::Starts::same_words))]
pub fn memory_is_the_start()
    ensures stacks { (t : TreeValue) (i : ImageValue) → stack_spans t ≡ stacks_of (start_of_harts t i) }
    ensures items { (t : TreeValue) (i : ImageValue) → start_items t i ≡ memory_items (start_of_harts t i) t.item_bytes i.segments }
    ensures words { (t : TreeValue) (i : ImageValue) → start_words t i ≡ memory_words (start_of_harts t i) t.item_bytes i.segments }
{}
