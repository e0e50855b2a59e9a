//! The parts of a leaf of a machine.

ghost use Rattle.std.specs.Prelude.{◌≡◌, ◌<◌, ◌≤◌, ℕ, ◌++◌, [], ◌∷◌, OnOk, Some, length, slice_get, true};
ghost use Rattle.film.specs.DdmTree.Machine.{is_part};
ghost use Rattle.film.specs.DdmTypes.ItemTable.{item_count};
ghost use Rattle.film.specs.TreeModel.State.Leaf.{way_at};
ghost use Rattle.film.specs.TreeModel.State.Shape.{IsShaped};
ghost use Rattle.film.specs.TreeModel.State.Values.{LeafValue};
ghost use Rattle.film.specs.TreeModel.Turns.Machine.{machine_leaves};
ghost use Rattle.film.specs.TreeModel.Turns.Tree.{leaf_of_number};
ghost use Rattle.film.specs.FilmParts.Values.{LeafHasForm};
ghost use Rattle.film.specs.Found.{way_given};
ghost use Rattle.film.specs.FilmModel.Leaf.{entry_part, entry_parts, hart_parts, leaf_list_parts, leaf_parts};

use crate::of_ddm_tree::{Machine, Subtree};
use crate::of_ddm_types::{HartNo, ItemId, LeafNo, LeafState, NoMemory, Words};
use crate::of_tree_model::LeafSpot;
use film_parts::{PartText, StateWords, Still, add_entry, add_hart, add_leaf_lists, add_no_entry};

// Adds the parts of a leaf's hart.
fn add_leaf_hart<const WORDS: usize, C: Subtree<WORDS>>(
    still: &mut Still,
    part: &mut PartText,
    machine: &Machine<WORDS, C>,
    leaf: LeafNo,
) -> Result<(), NoMemory>
    requires shape { IsShaped machine.now.machine }
    requires leaf { is_part (leaf_of_number leaf) machine.now.machine ≡ true }
    ensures { (v : LeafValue) → slice_get (machine_leaves machine.now.machine) leaf ≡ Some v →
        OnOk result (still.new ≡ still.old ++ hart_parts v) }
{
    let hart = machine.hart(HartNo(leaf.0));
    add_hart(
        still,
        part,
        leaf,
        hart.pc(),
        hart.halted(),
        &hart.registers(),
    )?;
    Ok(())
}

// Adds the part of an entry, by its state, its words and where it stands.
fn add_given<const WORDS: usize>(
    still: &mut Still,
    part: &mut PartText,
    leaf: LeafNo,
    item: ItemId,
    entry: &Option<(LeafState, Words<WORDS>, LeafSpot)>,
) -> Result<(), NoMemory>
    requires { WORDS ≤ 16 }
    ensures { OnOk result (still.new ≡ still.old ++ entry_part leaf item (way_given entry.now) ∷ []) }
{
    match entry {
        Some((state, words, LeafSpot::Way(way))) => {
            add_entry(still, part, leaf, item, *state, *way, &words.w)
        }
        _ => add_no_entry(still, part, leaf, item),
    }
}

// Adds the part of a leaf's entry of an item.
fn add_leaf_entry<const WORDS: usize, C: Subtree<WORDS>>(
    still: &mut Still,
    part: &mut PartText,
    machine: &Machine<WORDS, C>,
    leaf: LeafNo,
    item: ItemId,
) -> Result<(), NoMemory>
    requires small { WORDS ≤ 16 }
    requires shape { IsShaped machine.now.machine }
    requires leaf { is_part (leaf_of_number leaf) machine.now.machine ≡ true }
    requires item { item < item_count machine.now.machine.items }
    ensures { (v : LeafValue) → slice_get (machine_leaves machine.now.machine) leaf ≡ Some v →
        OnOk result (still.new ≡ still.old ++ entry_part leaf item (way_at item v.ways) ∷ []) }
{
    let entry = machine.leaf_entry(leaf, item);
    add_given(still, part, leaf, item, &entry)?;
    Ok(())
}

// Adds the parts of a leaf's entries of all items.
fn add_entries<const WORDS: usize, C: Subtree<WORDS>>(
    still: &mut Still,
    part: &mut PartText,
    machine: &Machine<WORDS, C>,
    leaf: LeafNo,
) -> Result<(), NoMemory>
    requires small { WORDS ≤ 16 }
    requires shape { IsShaped machine.now.machine }
    requires leaf { is_part (leaf_of_number leaf) machine.now.machine ≡ true }
    ensures { (v : LeafValue) → slice_get (machine_leaves machine.now.machine) leaf ≡ Some v →
        length v.ways ≡ item_count machine.now.machine.items
        → OnOk result (still.new ≡ still.old ++ entry_parts v) }
{
    'items: for item in 0..machine.items().len() {
        add_leaf_entry(still, part, machine, leaf, ItemId(item))?;
    }
    Ok(())
}

// Adds the parts of what waits in a leaf, by its words.
fn add_waiting<const WORDS: usize, C: Subtree<WORDS>>(
    still: &mut Still,
    words: &mut Vec<u32>,
    part: &mut PartText,
    machine: &Machine<WORDS, C>,
    leaf: LeafNo,
    width: u32,
) -> Result<(), NoMemory>
    requires shape { IsShaped machine.now.machine }
    requires leaf { is_part (leaf_of_number leaf) machine.now.machine ≡ true }
    ensures { (v : LeafValue) (most : ℕ) → slice_get (machine_leaves machine.now.machine) leaf ≡ Some v →
        LeafHasForm width most v → OnOk result (still.new ≡ still.old ++ leaf_list_parts v) }
{
    words.clear();
    machine.write_leaf(leaf, words)?;
    let mut left = StateWords::new(words);
    add_leaf_lists(still, part, leaf, &mut left, width as usize)?;
    Ok(())
}

/// Adds the parts of a leaf, where an item has so many words.
pub(crate) fn add_leaf<const WORDS: usize, C: Subtree<WORDS>>(
    still: &mut Still,
    words: &mut Vec<u32>,
    part: &mut PartText,
    machine: &Machine<WORDS, C>,
    leaf: LeafNo,
    width: u32,
) -> Result<(), NoMemory>
    requires small { WORDS ≤ 16 }
    requires shape { IsShaped machine.now.machine }
    requires leaf { is_part (leaf_of_number leaf) machine.now.machine ≡ true }
    ensures { (v : LeafValue) (most : ℕ) → slice_get (machine_leaves machine.now.machine) leaf ≡ Some v →
        length v.ways ≡ item_count machine.now.machine.items → LeafHasForm width most v
        → OnOk result (still.new ≡ still.old ++ leaf_parts v) }
{
    add_leaf_hart(still, part, machine, leaf)?;
    add_entries(still, part, machine, leaf)?;
    add_waiting(still, words, part, machine, leaf, width)?;
    Ok(())
}
