//! The words by which a search tells the states of a machine apart.

ghost use Rattle.std.specs.Prelude.{◌≡◌, ◌++◌, ◌<◌, ◌^◌, OnOk, length};
ghost use Rattle.explorer.specs.StateKeys.Key.{state_key};
ghost use Rattle.any_runs.specs.AnyMachine.Any.{depths_state, machine_state, state_in};
ghost use Rattle.any_runs.specs.AnyMachine.Kind.{kind_of};
ghost use Rattle.machine_states.specs.Words.{HasForms, HasItemWords};

use crate::parts::push_state;
use any_runs::of_any_machine::{AnyMachine, Depths, Machines};
use any_runs::of_ddm_tree::{Dir, Machine, Subtree};
use ddm_types::NoMemory;
use std::alloc::Global;

// The same of a machine of directories over these children: a check of three types within one another is beyond its
// limits.
fn push_over<const WORDS: usize, C: Subtree<WORDS>>(
    alloc: Global,
    machine: &Machine<WORDS, Dir<WORDS, C>>,
    out: &mut Vec<u32>,
) -> Result<(), NoMemory>
    requires form { HasForms machine.now.machine }
    requires width { HasItemWords WORDS machine.now.machine }
    requires few { length machine.now.machine.ops < 2 ^ 32 }
    ensures { OnOk result (out.new.items ≡ out.old.items ++ state_key machine.now.machine) }
{
    push_state(alloc, machine, out)
}

fn push_depths<const WAYS: usize, const WORDS: usize>(
    alloc: Global,
    machine: &Depths<WAYS, WORDS>,
    out: &mut Vec<u32>,
) -> Result<(), NoMemory>
    requires form { HasForms (depths_state machine.now).machine }
    requires width { HasItemWords WORDS (depths_state machine.now).machine }
    requires few { length (depths_state machine.now).machine.ops < 2 ^ 32 }
    ensures { OnOk result (out.new.items ≡ out.old.items ++ state_key (depths_state machine.now).machine) }
{
    match machine {
        Depths::OneLevel(machine) => push_state(alloc, machine, out),
        Depths::TwoLevels(machine) => push_state(alloc, machine, out),
        Depths::ThreeLevels(machine) => push_over(alloc, machine, out),
        Depths::FourLevels(machine) => push_over(alloc, machine, out),
    }
}

fn push_machines<const WORDS: usize>(
    alloc: Global,
    machine: &Machines<WORDS>,
    out: &mut Vec<u32>,
) -> Result<(), NoMemory>
    requires form { HasForms (state_in machine.now).machine }
    requires width { HasItemWords WORDS (state_in machine.now).machine }
    requires few { length (state_in machine.now).machine.ops < 2 ^ 32 }
    ensures { OnOk result (out.new.items ≡ out.old.items ++ state_key (state_in machine.now).machine) }
{
    match machine {
        Machines::OneWay(machine) => push_depths(alloc, machine, out),
        Machines::TwoWays(machine) => push_depths(alloc, machine, out),
        Machines::FourWays(machine) => push_depths(alloc, machine, out),
    }
}

/// Puts the words of the machine's state at the end.
pub(crate) fn push_key(
    alloc: Global,
    machine: &AnyMachine,
    out: &mut Vec<u32>,
) -> Result<(), NoMemory>
    requires form { HasForms (machine_state machine.now).machine }
    requires width { HasItemWords (kind_of machine.now).width (machine_state machine.now).machine }
    requires few { length (machine_state machine.now).machine.ops < 2 ^ 32 }
    ensures { OnOk result (out.new.items ≡ out.old.items ++ state_key (machine_state machine.now).machine) }
{
    match machine {
        AnyMachine::Narrow(machine) => push_machines(alloc, machine, out),
        AnyMachine::Wide(machine) => push_machines(alloc, machine, out),
    }
}
