//! What the machine before its first turn is made of, as theorems: there is nothing to run.

ghost use Rattle.std.specs.Prelude.{◌≡◌, ℕ, ◌≤◌, true, List, ◌∷◌, map, drop, length, sum, slice_index_or, None};
ghost use Rattle.std.specs.List.{list_all};
ghost use Rattle.start_parts.specs.DdmTypes.declared.turns.Turn.{Turn};
ghost use Rattle.start_parts.specs.DdmTypes.ItemTable.{item_count};
ghost use Rattle.start_parts.specs.TreeModel.State.Values.{absent_item, DirSizes, Node, leaf_node, MachineValue};
ghost use Rattle.start_parts.specs.TreeModel.Turns.Machine.{names_part, turn_of, run_of};
ghost use Rattle.start_parts.specs.TreeModel.Start.Sources.{TreeValue, ImageValue, width_of};
ghost use Rattle.start_parts.specs.TreeModel.Start.Memory.{start_code, start_items};
ghost use Rattle.start_parts.specs.TreeModel.Start.Nodes.{dir_sizes, top_sizes, new_top, under_levels, cut_in};
ghost use Rattle.start_parts.specs.TreeModel.Start.Nodes.{dirs_over, held_below, held_if};
ghost use Rattle.start_parts.specs.TreeModel.Start.Machine.{start_leaves, start_machine, start_refusal};
ghost use Rattle.start_parts.specs.BusLaws.IsTree.{IsTree, is_width};
ghost use Rattle.cluster.specs.DdmTree.Machine.{new_machine, IsNew};
ghost use Rattle.start_parts.specs.Counts.{counts_of};
ghost use Rattle.start_parts.specs.Held.{some_exclusive, AreHeld};

/// The start's machine is a new one of the code, the items, a new top and the levels over the leaves.
pub fn start_is_made_of_parts()
    ensures { (t : TreeValue) (i : ImageValue) → start_machine t i
        ≡ new_machine (start_code i) (start_items t i) (new_top (top_sizes t.sizes.down (width_of t)) (item_count (start_items t i)))
        (under_levels (dir_sizes t.sizes (width_of t)) 1 1 (drop 1 t.levels) (map leaf_node (start_leaves t i))) (counts_of t) }
{}

/// Where nothing refuses it, it is a new machine: it has its shape and rooms, keeps the rules, nothing is counted, and its counts
/// are the tree's.
pub fn start_is_new()
    ensures { (t : TreeValue) (i : ImageValue) → IsTree t → start_refusal t i ≡ None →
        IsNew (width_of t) (start_machine t i) (counts_of t) }
{}

/// The leaves hold what is placed in them, and so does every level over nodes that do.
pub fn placed_items_are_held()
    ensures leaves { (t : TreeValue) (i : ImageValue) → AreHeld (item_count (start_items t i)) (map leaf_node (start_leaves t i)) }
    ensures over { (items : ℕ) (sizes : DirSizes) (level bus : ℕ) (l : List ℕ) (ns : List Node) →
        list_all is_width l ≡ true → length ns ≡ sum l
        → AreHeld items ns → AreHeld items (dirs_over sizes level bus (cut_in l ns)) }
    ensures all { (t : TreeValue) (i : ImageValue) → IsTree t → AreHeld (item_count (start_items t i))
        (under_levels (dir_sizes t.sizes (width_of t)) 1 1 (drop 1 t.levels) (map leaf_node (start_leaves t i))) }
{}

/// For each level of a tree and all below it: the nodes under it are as many as its buses have children, they hold what is placed
/// in them, and each bus has 1 to 16.
pub fn levels_fit_the_tree()
    ensures count { (t : TreeValue) (i : ImageValue) → IsTree t → (k : ℕ) (l : List ℕ) (ls : List (List ℕ)) → drop k t.levels ≡ l ∷ ls
        → (sizes : DirSizes) (level bus : ℕ) → length (under_levels sizes level bus ls (map leaf_node (start_leaves t i))) ≡ sum l }
    ensures held { (t : TreeValue) (i : ImageValue) → IsTree t → (k : ℕ) (l : List ℕ) (ls : List (List ℕ)) → drop k t.levels ≡ l ∷ ls
        → (sizes : DirSizes) (level bus : ℕ) →
        AreHeld (item_count (start_items t i))
        (under_levels sizes level bus ls (map leaf_node (start_leaves t i))) }
    ensures wide { (t : TreeValue) → IsTree t → (k : ℕ) (l : List ℕ) (ls : List (List ℕ)) →
        drop k t.levels ≡ l ∷ ls → list_all is_width l ≡ true }
{}

/// So a directory over them has each item, and Exclusive where one of its children has it so.
pub fn directory_holds_what_children_hold()
    ensures count { (items : ℕ) (ks : List Node) → AreHeld items ks → 1 ≤ length ks → length (map held_if (held_below ks)) ≡ items }
    ensures each { (items : ℕ) (ks : List Node) → AreHeld items ks → (x : ℕ)
        → slice_index_or (map held_if (held_below ks)) x absent_item ≡ held_if (some_exclusive x ks) }
{}

/// No turn and no run changes which turns name a part of the machine.
pub fn turns_keep_names()
    ensures turn { (u t : Turn) (m : MachineValue) → names_part u (turn_of t m).machine ≡ names_part u m }
    ensures run { (u : Turn) (ts : List Turn) (m : MachineValue) → names_part u (run_of ts m).machine ≡ names_part u m }
{}
