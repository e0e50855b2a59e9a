//! All places where words of an item are.

ghost use Rattle.std.specs.Prelude.{◌≡◌, ◌<◌, ◌≤◌, ◌++◌, [], true, IfOk, OnOk, unwrap_or};
ghost use Rattle.std.specs.List.{flat_map};
ghost use Rattle.inspector.specs.DdmTypes.ItemTable.{item_count};
ghost use Rattle.inspector.specs.TreeModel.State.States.{is_reading};
ghost use Rattle.inspector.specs.TreeModel.Turns.Machine.{machine_leaves, parked_place_of};
ghost use Rattle.inspector.specs.TreeModel.Turns.Tree.{bus_of_number};
ghost use Rattle.inspector.specs.DdmTree.Machine.{is_part};
ghost use Rattle.inspector.specs.Copies.{buses_of, copies_in, down_copies, down_of, leaf_copies, parked_copies, place_list};
ghost use Rattle.inspector.specs.Entries.{down_copy, entry_copy, parked_copy};

use crate::of_ddm_tree::{Machine, Subtree, place_at};
use crate::of_ddm_types::{BusNo, ItemId, LeafNo, LeafState, NoMemory, Words};
use crate::of_directory::brings_copy;
use crate::of_item_states::DownEntry;
use crate::of_tree_model::{CopyPlace, LeafSpot};
use std::alloc::Global;

/// Whether an entry in this state waits for data.
fn is_reading(state: LeafState) -> bool
    ensures { result ≡ is_reading state }
{
    match state {
        LeafState::Reading | LeafState::ReadingWaiting => true,
        LeafState::Shared | LeafState::Exclusive | LeafState::Waiting => false,
    }
}

/// Where a leaf's entry has words.
fn entry_copy<const WORDS: usize>(
    leaf: LeafNo,
    entry: Option<(LeafState, Words<WORDS>, LeafSpot)>,
) -> Option<CopyPlace>
    ensures { result ≡ entry_copy leaf entry.entry }
{
    match entry {
        Some((state, _, spot)) if !is_reading(state) => Some(place_at(leaf, spot)),
        _ => None,
    }
}

fn parked_copy<const WORDS: usize>(
    bus: BusNo,
    parked: Option<(u32, Words<WORDS>)>,
) -> Option<CopyPlace>
    ensures { result ≡ parked_copy bus parked.entry }
{
    match parked {
        Some((place, _)) => Some(CopyPlace::Parking { bus, place }),
        None => None,
    }
}

fn down_copy<const WORDS: usize>(
    item: ItemId,
    bus: BusNo,
    place: u32,
    entry: Option<DownEntry<WORDS>>,
) -> Option<CopyPlace>
    ensures { result ≡ down_copy item bus place entry.entry }
{
    match entry {
        Some(entry) if item == entry.item && brings_copy(entry.kind) => {
            Some(CopyPlace::DownList { bus, place })
        }
        _ => None,
    }
}

/// Puts a place, if there is one, behind the others.
fn push_place(places: &mut Vec<CopyPlace>, place: Option<CopyPlace>) -> Result<(), NoMemory>
    ensures { OnOk result (places.new.items ≡ places.old.items ++ place_list place) }
{
    if let Some(place) = place {
        places.push(place)?;
    }
    Ok(())
}

fn push_leaf_copies<const WORDS: usize, C: Subtree<WORDS>>(
    places: &mut Vec<CopyPlace>,
    machine: &Machine<WORDS, C>,
    item: ItemId,
) -> Result<(), NoMemory>
    requires small { WORDS ≤ 16 }
    requires item { item < item_count machine.now.machine.items }
    ensures { OnOk result (places.new.items ≡ places.old.items ++ flat_map (leaf_copies item) (machine_leaves machine.now.machine)) }
{
    for number in 0..machine.counts().leaves {
        let leaf = LeafNo(number);
        push_place(places, entry_copy(leaf, machine.leaf_entry(leaf, item)))?;
    }
    Ok(())
}

fn push_parked_copies<const WORDS: usize, C: Subtree<WORDS>>(
    places: &mut Vec<CopyPlace>,
    machine: &Machine<WORDS, C>,
    item: ItemId,
) -> Result<(), NoMemory>
    requires small { WORDS ≤ 16 }
    requires item { item < item_count machine.now.machine.items }
    ensures { OnOk result
        (places.new.items
        ≡ places.old.items
        ++ flat_map (λ bus. parked_copies bus (parked_place_of bus item machine.now.machine))
        (buses_of machine.now.machine)) }
{
    for number in 0..machine.counts().buses {
        let bus = BusNo(number);
        push_place(places, parked_copy(bus, machine.parked(bus, item)))?;
    }
    Ok(())
}

/// Those in the down list over this bus.
fn push_down_copies<const WORDS: usize, C: Subtree<WORDS>>(
    places: &mut Vec<CopyPlace>,
    machine: &Machine<WORDS, C>,
    item: ItemId,
    bus: BusNo,
) -> Result<(), NoMemory>
    requires small { WORDS ≤ 16 }
    requires bus { is_part (bus_of_number bus) machine.now.machine ≡ true }
    ensures { OnOk result (places.new.items ≡ places.old.items ++ down_copies item bus 0 (unwrap_or (down_of bus machine.now.machine) [])) }
{
    for place in 0..machine.down_len(bus) {
        let entry = machine.down_get(bus, place);
        push_place(places, down_copy(item, bus, place, entry))?;
    }
    Ok(())
}

fn push_all_down_copies<const WORDS: usize, C: Subtree<WORDS>>(
    places: &mut Vec<CopyPlace>,
    machine: &Machine<WORDS, C>,
    item: ItemId,
) -> Result<(), NoMemory>
    requires small { WORDS ≤ 16 }
    ensures { OnOk result
        (places.new.items
        ≡ places.old.items
        ++ flat_map (λ bus. down_copies item bus 0 (unwrap_or (down_of bus machine.now.machine) []))
        (buses_of machine.now.machine)) }
{
    for number in 0..machine.counts().buses {
        push_down_copies(places, machine, item, BusNo(number))?;
    }
    Ok(())
}

/// All places where words of an item stand: leaves first, then parking, then down lists.
pub fn copies<const WORDS: usize, C: Subtree<WORDS>>(
    alloc: Global,
    machine: &Machine<WORDS, C>,
    item: ItemId,
) -> Result<Vec<CopyPlace>, NoMemory>
    requires small { WORDS ≤ 16 }
    requires item { item < item_count machine.now.machine.items }
    ensures { IfOk result (λ places. places.items ≡ copies_in item machine.now.machine) }
{
    let mut places = Vec::new(alloc);
    push_leaf_copies(&mut places, machine, item)?;
    push_parked_copies(&mut places, machine, item)?;
    push_all_down_copies(&mut places, machine, item)?;
    Ok(places)
}
