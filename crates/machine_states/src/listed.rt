//! All turns of a machine that can do something, in the order in which a search makes them.

ghost use Rattle.std.specs.Prelude.{◌≡◌, ◌++◌, ◌<◌, ◌≤◌, IfOk, OnOk, length};
ghost use Rattle.tree_model.specs.State.Shape.{IsShaped, tree_counts};
ghost use Rattle.any_runs.specs.AnyMachine.Any.{machine_state};
ghost use Rattle.any_runs.specs.AnyMachine.Kind.{kind_in, kind_of};
ghost use Rattle.explorer.specs.SearchModel.Tried.{leave_turns, turns_of_bus, turns_of_tree};
ghost use Rattle.machine_states.specs.Listed.{parts_at};
ghost use Rattle.machine_states.specs.Places.{HasFewPlaces};

use crate::groups::{push_choices, push_harts, push_replies, push_requests};
use any_runs::of_any_machine::{AnyMachine, Machines};
use ddm_types::{BusNo, ChildNo, NoMemory, Turn};
use std::alloc::Global;

fn ways_in<const WORDS: usize>(machine: &Machines<WORDS>) -> u32
    ensures kind { result ≡ (kind_in machine.now).ways }
    ensures few { result ≤ 4 }
{
    match machine {
        Machines::OneWay(_) => 1,
        Machines::TwoWays(_) => 2,
        Machines::FourWays(_) => 4,
    }
}

// How many ways the sets of its leaves have.
fn ways(machine: &AnyMachine) -> u32
    ensures kind { result ≡ (kind_of machine.now).ways }
    ensures few { result ≤ 4 }
{
    match machine {
        AnyMachine::Narrow(machine) => ways_in(machine),
        AnyMachine::Wide(machine) => ways_in(machine),
    }
}

// Puts the Leave turns of a bus after the others.
fn push_leaves(
    turns: &mut Vec<Turn>,
    machine: &AnyMachine,
    bus: BusNo,
    children: u32,
) -> Result<(), NoMemory>
    requires shaped { IsShaped (machine_state machine.now).machine }
    requires places { HasFewPlaces (kind_of machine.now).ways (machine_state machine.now).machine }
    requires bus { bus < (tree_counts (machine_state machine.now).machine).buses }
    requires children { children ≡ length (parts_at bus (machine_state machine.now).machine).kids }
    ensures { OnOk result
        (turns.new.items
        ≡ turns.old.items ++ leave_turns bus 0 (parts_at bus (machine_state machine.now).machine).kids) }
{
    for child in 0..children {
        let child = ChildNo(child);
        push_choices(turns, bus, child, machine.leaving_count(bus, child))?;
    }
    Ok(())
}

// Puts all turns of a bus after the others.
fn push_bus(turns: &mut Vec<Turn>, machine: &AnyMachine, bus: BusNo) -> Result<(), NoMemory>
    requires shaped { IsShaped (machine_state machine.now).machine }
    requires places { HasFewPlaces (kind_of machine.now).ways (machine_state machine.now).machine }
    requires bus { bus < (tree_counts (machine_state machine.now).machine).buses }
    ensures { OnOk result
        (turns.new.items ≡ turns.old.items ++ turns_of_bus (parts_at bus (machine_state machine.now).machine)) }
{
    let children = machine.children(bus);
    turns.push(Turn::Down { bus })?;
    push_requests(turns, bus, children)?;
    push_replies(turns, bus, children)?;
    push_leaves(turns, machine, bus, children)
}

/// The turns of the harts by number and victim, then those of the buses by number: Down, and by child Request, Reply
/// and Leave.
pub(crate) fn listed(alloc: Global, machine: &AnyMachine) -> Result<Vec<Turn>, NoMemory>
    requires { HasFewPlaces (kind_of machine.now).ways (machine_state machine.now).machine }
    ensures { IfOk result (λ turns. turns.items ≡ turns_of_tree (machine_state machine.now).machine) }
{
    let counts = machine.counts();
    let mut turns = Vec::new(alloc);
    push_harts(&mut turns, counts.leaves, ways(machine))?;
    for bus in 0..counts.buses {
        push_bus(&mut turns, machine, BusNo(bus))?;
    }
    Ok(turns)
}
