//! What a turn names of the machine.

ghost use Rattle.std.specs.Prelude.{◌≡◌};
ghost use Rattle.tree_model.specs.Turns.Machine.{child_count, hart_of, is_child_of, names_part};
ghost use Rattle.any_runs.specs.AnyMachine.Any.{machine_state, state_in};
ghost use Rattle.any_runs.specs.DdmTree.Reads.{is_down_request_or_reply};
ghost use Rattle.outcomes.specs.RecordingModel.Doing.{had_halted, is_halted};

use any_runs::of_any_machine::{AnyMachine, Machines};
use ddm_types::{BusNo, ChildNo, HartNo, Turn};

fn has_child(machine: &AnyMachine, bus: BusNo, child: ChildNo) -> bool
    ensures { result ≡ is_child_of child (child_count bus (machine_state machine.now).machine) }
{
    bus.0 < machine.counts().buses && child.0 < machine.children(bus)
}

/// Whether the turn names a leaf, or a bus and one of its children, of the machine.
pub(crate) fn names(machine: &AnyMachine, turn: &Turn) -> bool
    ensures { result ≡ names_part turn.now (machine_state machine.now).machine }
{
    match *turn {
        Turn::Hart { hart, .. } => hart.0 < machine.counts().leaves,
        Turn::Down { bus } => bus.0 < machine.counts().buses,
        Turn::Request { bus, child }
        | Turn::Reply { bus, child }
        | Turn::Leave { bus, child, .. } => has_child(machine, bus, child),
    }
}

fn hart_halted<const WORDS: usize>(machine: &Machines<WORDS>, hart: HartNo) -> bool
    ensures { result ≡ is_halted (hart_of hart (state_in machine.now).machine) }
{
    hart.0 < machine.counts().leaves && machine.hart(hart).halted().is_some()
}

fn any_halted(machine: &AnyMachine, hart: HartNo) -> bool
    ensures { result ≡ is_halted (hart_of hart (machine_state machine.now).machine) }
{
    match machine {
        AnyMachine::Narrow(machine) => hart_halted(machine, hart),
        AnyMachine::Wide(machine) => hart_halted(machine, hart),
    }
}

/// Whether the hart has halted whose turn it is; a bus has none.
pub(crate) fn has_halted(machine: &AnyMachine, turn: &Turn) -> bool
    ensures { result ≡ had_halted turn.now (machine_state machine.now).machine }
{
    match *turn {
        Turn::Hart { hart, .. } => any_halted(machine, hart),
        _ => false,
    }
}

/// Whether the turn is a bus's of which it is told without making it whether it would be granted.
pub(crate) fn is_told(turn: &Turn) -> bool
    ensures { result ≡ is_down_request_or_reply turn.now }
{
    matches!(
        turn,
        Turn::Down { .. } | Turn::Request { .. } | Turn::Reply { .. }
    )
}
