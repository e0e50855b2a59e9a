//! A machine of any tree forgets its operations.

ghost use Rattle.std.specs.Prelude.{◌≡◌};
ghost use Rattle.any_runs.specs.DdmTree.Machine.{without_ops};
ghost use Rattle.any_machine.specs.Any.{depths_state, machine_state, state_in};

use crate::of_ddm_tree::{Dir, Machine, Subtree};
use any_machine::{AnyMachine, Depths, Machines};

// The operations of a machine of directories over these children: a check of three types within one another is beyond its limits.
fn forget_over<const WORDS: usize, C: Subtree<WORDS>>(machine: &mut Machine<WORDS, Dir<WORDS, C>>)
    ensures { machine.new ≡ record machine.old { machine = without_ops machine.old.machine } }
{
    machine.forget_ops();
}

fn forget_depths<const WAYS: usize, const WORDS: usize>(machine: &mut Depths<WAYS, WORDS>)
    ensures { depths_state machine.new ≡ record (depths_state machine.old) { machine = without_ops (depths_state machine.old).machine } }
{
    match machine {
        Depths::OneLevel(machine) => machine.forget_ops(),
        Depths::TwoLevels(machine) => machine.forget_ops(),
        Depths::ThreeLevels(machine) => forget_over(machine),
        Depths::FourLevels(machine) => forget_over(machine),
    }
}

fn forget_machines<const WORDS: usize>(machine: &mut Machines<WORDS>)
    ensures { state_in machine.new ≡ record (state_in machine.old) { machine = without_ops (state_in machine.old).machine } }
{
    match machine {
        Machines::OneWay(machine) => forget_depths(machine),
        Machines::TwoWays(machine) => forget_depths(machine),
        Machines::FourWays(machine) => forget_depths(machine),
    }
}

/// Forgets the operations of a machine, for whoever keeps none. The memory for them stays.
pub fn forget_ops(machine: &mut AnyMachine)
    ensures { machine_state machine.new ≡ record (machine_state machine.old) { machine = without_ops (machine_state machine.old).machine } }
{
    match machine {
        AnyMachine::Narrow(machine) => forget_machines(machine),
        AnyMachine::Wide(machine) => forget_machines(machine),
    }
}
