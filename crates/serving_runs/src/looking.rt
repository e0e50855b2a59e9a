//! What a walk looks at in a machine of any tree: a child of a bus, and what it holds.

ghost use Rattle.std.specs.Prelude.{◌≡◌, ◌<◌, Some, true};
ghost use Rattle.serving_runs.specs.DdmTypes.ItemTable.{item_count};
ghost use Rattle.serving_runs.specs.TreeModel.Turns.Machine.{child_count, child_hold_of, child_of, is_child_of};
ghost use Rattle.any_runs.specs.AnyMachine.Any.{depths_state, machine_state, state_in};

use any_runs::of_any_machine::{AnyMachine, Depths, Machines};
use any_runs::of_ddm_tree::{Dir, Machine, Subtree};
use ddm_types::{BusNo, ChildNo, Hold, ItemId};
use serving::of_tree_model::TreeChild;

// Each call below has one for machines whose directories under bus 0 are over these children: a check of three types within
// one another is beyond its limits.

fn child_over<const WORDS: usize, C: Subtree<WORDS>>(
    machine: &Machine<WORDS, Dir<WORDS, C>>,
    bus: BusNo,
    child: ChildNo,
) -> TreeChild
    requires { is_child_of child (child_count bus machine.now.machine) ≡ true }
    ensures { Some result ≡ child_of bus child machine.now.machine }
{
    machine.child(bus, child)
}

fn child_depths<const WAYS: usize, const WORDS: usize>(
    machine: &Depths<WAYS, WORDS>,
    bus: BusNo,
    child: ChildNo,
) -> TreeChild
    requires { is_child_of child (child_count bus (depths_state machine.now).machine) ≡ true }
    ensures { Some result ≡ child_of bus child (depths_state machine.now).machine }
{
    match machine {
        Depths::OneLevel(machine) => machine.child(bus, child),
        Depths::TwoLevels(machine) => machine.child(bus, child),
        Depths::ThreeLevels(machine) => child_over(machine, bus, child),
        Depths::FourLevels(machine) => child_over(machine, bus, child),
    }
}

fn child_machines<const WORDS: usize>(
    machine: &Machines<WORDS>,
    bus: BusNo,
    child: ChildNo,
) -> TreeChild
    requires { is_child_of child (child_count bus (state_in machine.now).machine) ≡ true }
    ensures { Some result ≡ child_of bus child (state_in machine.now).machine }
{
    match machine {
        Machines::OneWay(machine) => child_depths(machine, bus, child),
        Machines::TwoWays(machine) => child_depths(machine, bus, child),
        Machines::FourWays(machine) => child_depths(machine, bus, child),
    }
}

/// A child of a bus.
pub(crate) fn child(machine: &AnyMachine, bus: BusNo, child: ChildNo) -> TreeChild
    requires { is_child_of child (child_count bus (machine_state machine.now).machine) ≡ true }
    ensures { Some result ≡ child_of bus child (machine_state machine.now).machine }
{
    match machine {
        AnyMachine::Narrow(machine) => child_machines(machine, bus, child),
        AnyMachine::Wide(machine) => child_machines(machine, bus, child),
    }
}

fn hold_over<const WORDS: usize, C: Subtree<WORDS>>(
    machine: &Machine<WORDS, Dir<WORDS, C>>,
    bus: BusNo,
    child: ChildNo,
    item: ItemId,
) -> Hold
    requires child { is_child_of child (child_count bus machine.now.machine) ≡ true }
    requires item { item < item_count machine.now.machine.items }
    ensures { Some result ≡ child_hold_of bus child item machine.now.machine }
{
    machine.child_hold(bus, child, item)
}

fn hold_depths<const WAYS: usize, const WORDS: usize>(
    machine: &Depths<WAYS, WORDS>,
    bus: BusNo,
    child: ChildNo,
    item: ItemId,
) -> Hold
    requires child { is_child_of child (child_count bus (depths_state machine.now).machine) ≡ true }
    requires item { item < item_count (depths_state machine.now).machine.items }
    ensures { Some result ≡ child_hold_of bus child item (depths_state machine.now).machine }
{
    match machine {
        Depths::OneLevel(machine) => machine.child_hold(bus, child, item),
        Depths::TwoLevels(machine) => machine.child_hold(bus, child, item),
        Depths::ThreeLevels(machine) => hold_over(machine, bus, child, item),
        Depths::FourLevels(machine) => hold_over(machine, bus, child, item),
    }
}

fn hold_machines<const WORDS: usize>(
    machine: &Machines<WORDS>,
    bus: BusNo,
    child: ChildNo,
    item: ItemId,
) -> Hold
    requires child { is_child_of child (child_count bus (state_in machine.now).machine) ≡ true }
    requires item { item < item_count (state_in machine.now).machine.items }
    ensures { Some result ≡ child_hold_of bus child item (state_in machine.now).machine }
{
    match machine {
        Machines::OneWay(machine) => hold_depths(machine, bus, child, item),
        Machines::TwoWays(machine) => hold_depths(machine, bus, child, item),
        Machines::FourWays(machine) => hold_depths(machine, bus, child, item),
    }
}

/// What a child of a bus holds of an item.
pub(crate) fn child_hold(machine: &AnyMachine, bus: BusNo, child: ChildNo, item: ItemId) -> Hold
    requires child { is_child_of child (child_count bus (machine_state machine.now).machine) ≡ true }
    requires item { item < item_count (machine_state machine.now).machine.items }
    ensures { Some result ≡ child_hold_of bus child item (machine_state machine.now).machine }
{
    match machine {
        AnyMachine::Narrow(machine) => hold_machines(machine, bus, child, item),
        AnyMachine::Wide(machine) => hold_machines(machine, bus, child, item),
    }
}
