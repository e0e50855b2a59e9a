//! The still of a machine of any tree.

ghost use Rattle.std.specs.Prelude.{◌≡◌, ◌≤◌, [], ◌++◌, OnOk, Some, flat_map, length, map, slice_get, true};
ghost use Rattle.std.specs.List.{range_with_len};
ghost use Rattle.film.specs.AnyMachine.Any.{depths_state, machine_state, state_in};
ghost use Rattle.film.specs.DdmTree.Machine.{is_part};
ghost use Rattle.film.specs.DdmTypes.ItemTable.{item_count};
ghost use Rattle.film.specs.Filmed.{IsFilmed};
ghost use Rattle.film.specs.TreeModel.State.Shape.{IsShaped};
ghost use Rattle.film.specs.TreeModel.State.Values.{LeafValue};
ghost use Rattle.film.specs.TreeModel.Turns.Machine.{machine_leaves};
ghost use Rattle.film.specs.TreeModel.Turns.Tree.{leaf_of_number};
ghost use Rattle.film.specs.FilmModel.Leaf.{hart_parts, leaf_parts};
ghost use Rattle.film.specs.FilmModel.Still.{bus_parts, place_part, still as still_of};

use crate::buses::add_bus;
use crate::copies::add_copy;
use crate::leaves::add_leaf;
use crate::of_any_machine::{AnyMachine, Depths, Machines};
use crate::of_ddm_tree::{Dir, Machine, Subtree};
use crate::of_ddm_types::{BusNo, HartNo, ItemId, LeafNo, NoMemory};
use film_parts::{PartText, Still, add_hart};
use std::alloc::Global;

/// What a still is made with: its memory is used again for the next one.
#[derive(Drop)]
pub struct StillRoom {
    words: Vec<u32>,
    part: PartText,
}

impl StillRoom {
    /// No memory yet.
    pub fn new(alloc: Global) -> StillRoom
        ensures { result.words.items ≡ [] }
    {
        StillRoom {
            words: Vec::new(alloc),
            part: PartText::new(alloc),
        }
    }
}

// Adds the parts of all leaves.
fn add_leaves<const WORDS: usize, C: Subtree<WORDS>>(
    still: &mut Still,
    room: &mut StillRoom,
    machine: &Machine<WORDS, C>,
    levels: &[u32],
) -> Result<(), NoMemory>
    requires small { WORDS ≤ 16 }
    requires filmed { IsFilmed levels.now machine.now.machine }
    ensures { OnOk result (still.new ≡ still.old ++ flat_map leaf_parts (machine_leaves machine.now.machine)) }
{
    let width = machine.sizes().item_words;
    'leaves: for leaf in 0..machine.counts().leaves {
        let StillRoom { words, part } = room;
        add_leaf(still, words, part, machine, LeafNo(leaf), width)?;
    }
    Ok(())
}

// Adds the parts of all directories, by number.
fn add_buses<const WORDS: usize, C: Subtree<WORDS>>(
    still: &mut Still,
    room: &mut StillRoom,
    machine: &Machine<WORDS, C>,
    levels: &[u32],
) -> Result<(), NoMemory>
    requires { IsFilmed levels.now machine.now.machine }
    ensures { OnOk result
        (still.new
        ≡ still.old
        ++ flat_map (bus_parts machine.now.machine) (range_with_len 0 (length machine.now.machine.traffic))) }
{
    let width = machine.sizes().item_words;
    'buses: for bus in 0..machine.counts().buses {
        let StillRoom { words, part } = room;
        let level = levels[bus as usize];
        add_bus(still, words, part, machine, BusNo(bus), level, width)?;
    }
    Ok(())
}

// Adds the parts that say where the current copies are.
fn add_copies<const WORDS: usize, C: Subtree<WORDS>>(
    still: &mut Still,
    room: &mut StillRoom,
    machine: &Machine<WORDS, C>,
) -> Result<(), NoMemory>
    requires small { WORDS ≤ 16 }
    ensures { OnOk result
        (still.new
        ≡ still.old
        ++ map (place_part machine.now.machine) (range_with_len 0 (item_count machine.now.machine.items))) }
{
    'items: for item in 0..machine.items().len() {
        add_copy(still, &mut room.part, machine, ItemId(item))?;
    }
    Ok(())
}

fn still_over<const WORDS: usize, C: Subtree<WORDS>>(
    still: &mut Still,
    room: &mut StillRoom,
    machine: &Machine<WORDS, C>,
    levels: &[u32],
) -> Result<(), NoMemory>
    requires small { WORDS ≤ 16 }
    requires filmed { IsFilmed levels.now machine.now.machine }
    ensures { OnOk result (still.new ≡ still_of machine.now.machine) }
{
    still.clear();
    add_leaves(still, room, machine, levels)?;
    add_buses(still, room, machine, levels)?;
    add_copies(still, room, machine)?;
    Ok(())
}

// Of a machine whose directories under bus 0 are over these children: a check of three types within one another is beyond its limits.
fn still_over_dirs<const WORDS: usize, C: Subtree<WORDS>>(
    still: &mut Still,
    room: &mut StillRoom,
    machine: &Machine<WORDS, Dir<WORDS, C>>,
    levels: &[u32],
) -> Result<(), NoMemory>
    requires small { WORDS ≤ 16 }
    requires filmed { IsFilmed levels.now machine.now.machine }
    ensures { OnOk result (still.new ≡ still_of machine.now.machine) }
{
    still_over(still, room, machine, levels)
}

fn still_of_depths<const WAYS: usize, const WORDS: usize>(
    still: &mut Still,
    room: &mut StillRoom,
    machine: &Depths<WAYS, WORDS>,
    levels: &[u32],
) -> Result<(), NoMemory>
    requires small { WORDS ≤ 16 }
    requires filmed { IsFilmed levels.now (depths_state machine.now).machine }
    ensures { OnOk result (still.new ≡ still_of (depths_state machine.now).machine) }
{
    match machine {
        Depths::OneLevel(machine) => still_over(still, room, machine, levels),
        Depths::TwoLevels(machine) => still_over(still, room, machine, levels),
        Depths::ThreeLevels(machine) => still_over_dirs(still, room, machine, levels),
        Depths::FourLevels(machine) => still_over_dirs(still, room, machine, levels),
    }
}

fn still_of_machines<const WORDS: usize>(
    still: &mut Still,
    room: &mut StillRoom,
    machine: &Machines<WORDS>,
    levels: &[u32],
) -> Result<(), NoMemory>
    requires small { WORDS ≤ 16 }
    requires filmed { IsFilmed levels.now (state_in machine.now).machine }
    ensures { OnOk result (still.new ≡ still_of (state_in machine.now).machine) }
{
    match machine {
        Machines::OneWay(machine) => still_of_depths(still, room, machine, levels),
        Machines::TwoWays(machine) => still_of_depths(still, room, machine, levels),
        Machines::FourWays(machine) => still_of_depths(still, room, machine, levels),
    }
}

/// Makes it the still of a machine, where it is said of each bus how many buses are above it.
pub fn take_still(
    still: &mut Still,
    room: &mut StillRoom,
    machine: &AnyMachine,
    levels: &[u32],
) -> Result<(), NoMemory>
    requires { IsFilmed levels.now (machine_state machine.now).machine }
    ensures { OnOk result (still.new ≡ still_of (machine_state machine.now).machine) }
{
    match machine {
        AnyMachine::Narrow(machine) => still_of_machines(still, room, machine, levels),
        AnyMachine::Wide(machine) => still_of_machines(still, room, machine, levels),
    }
}

fn hart_of_machines<const WORDS: usize>(
    still: &mut Still,
    room: &mut StillRoom,
    machine: &Machines<WORDS>,
    hart: HartNo,
) -> Result<(), NoMemory>
    requires shape { IsShaped (state_in machine.now).machine }
    requires leaf { is_part (leaf_of_number hart) (state_in machine.now).machine ≡ true }
    ensures { (v : LeafValue) → slice_get (machine_leaves (state_in machine.now).machine) hart ≡ Some v →
        OnOk result (still.new ≡ hart_parts v) }
{
    let read = machine.hart(hart);
    still.clear();
    add_hart(
        still,
        &mut room.part,
        LeafNo(hart.0),
        read.pc(),
        read.halted(),
        &read.registers(),
    )?;
    Ok(())
}

/// Makes it the parts of a hart alone.
pub fn take_hart(
    still: &mut Still,
    room: &mut StillRoom,
    machine: &AnyMachine,
    hart: HartNo,
) -> Result<(), NoMemory>
    requires shape { IsShaped (machine_state machine.now).machine }
    requires leaf { is_part (leaf_of_number hart) (machine_state machine.now).machine ≡ true }
    ensures { (v : LeafValue) → slice_get (machine_leaves (machine_state machine.now).machine) hart ≡ Some v →
        OnOk result (still.new ≡ hart_parts v) }
{
    match machine {
        AnyMachine::Narrow(machine) => hart_of_machines(still, room, machine, hart),
        AnyMachine::Wide(machine) => hart_of_machines(still, room, machine, hart),
    }
}
