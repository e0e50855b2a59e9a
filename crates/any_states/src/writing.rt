//! The words of a machine of any tree.

ghost use Rattle.std.specs.Prelude.{◌≡◌, OnErr, OnOk};
ghost use Rattle.any_states.specs.DdmText.Adds.{Adds};
ghost use Rattle.any_states.specs.StateWords.Begins.{Begins};
ghost use Rattle.any_states.specs.StateWords.Machine.{sizes_of};
ghost use Rattle.any_states.specs.DdmTree.Written.{tree_words};
ghost use Rattle.any_states.specs.AnyMachine.Any.{depths_state, machine_state, state_in};

use crate::of_any_machine::{AnyMachine, Depths, Machines};
use crate::of_ddm_tree::{Dir, Machine, Subtree};
use crate::of_ddm_types::NoMemory;
use crate::of_state_words::MachineSizes;

// For machines whose directories under bus 0 are over these children: a check of three types within one another is beyond its limits.

fn sizes_over<const WORDS: usize, C: Subtree<WORDS>>(
    machine: &Machine<WORDS, Dir<WORDS, C>>,
) -> MachineSizes
    ensures { result ≡ sizes_of machine.now.machine }
{
    machine.sizes()
}

fn write_over<const WORDS: usize, C: Subtree<WORDS>>(
    machine: &Machine<WORDS, Dir<WORDS, C>>,
    out: &mut Vec<u32>,
) -> Result<(), NoMemory>
    ensures ok { OnOk result (Adds out.old.items out.new.items (tree_words machine.now.machine)) }
    ensures err { OnErr result (Begins out.old.items out.new.items) }
{
    machine.write_tree(out)
}

fn depths_sizes<const WAYS: usize, const WORDS: usize>(
    machine: &Depths<WAYS, WORDS>,
) -> MachineSizes
    ensures { result ≡ sizes_of (depths_state machine.now).machine }
{
    match machine {
        Depths::OneLevel(machine) => machine.sizes(),
        Depths::TwoLevels(machine) => machine.sizes(),
        Depths::ThreeLevels(machine) => sizes_over(machine),
        Depths::FourLevels(machine) => sizes_over(machine),
    }
}

fn write_depths<const WAYS: usize, const WORDS: usize>(
    machine: &Depths<WAYS, WORDS>,
    out: &mut Vec<u32>,
) -> Result<(), NoMemory>
    ensures ok { OnOk result (Adds out.old.items out.new.items (tree_words (depths_state machine.now).machine)) }
    ensures err { OnErr result (Begins out.old.items out.new.items) }
{
    match machine {
        Depths::OneLevel(machine) => machine.write_tree(out),
        Depths::TwoLevels(machine) => machine.write_tree(out),
        Depths::ThreeLevels(machine) => write_over(machine, out),
        Depths::FourLevels(machine) => write_over(machine, out),
    }
}

fn sizes_in<const WORDS: usize>(machine: &Machines<WORDS>) -> MachineSizes
    ensures { result ≡ sizes_of (state_in machine.now).machine }
{
    match machine {
        Machines::OneWay(machine) => depths_sizes(machine),
        Machines::TwoWays(machine) => depths_sizes(machine),
        Machines::FourWays(machine) => depths_sizes(machine),
    }
}

fn write_machines<const WORDS: usize>(
    machine: &Machines<WORDS>,
    out: &mut Vec<u32>,
) -> Result<(), NoMemory>
    ensures ok { OnOk result (Adds out.old.items out.new.items (tree_words (state_in machine.now).machine)) }
    ensures err { OnErr result (Begins out.old.items out.new.items) }
{
    match machine {
        Machines::OneWay(machine) => write_depths(machine, out),
        Machines::TwoWays(machine) => write_depths(machine, out),
        Machines::FourWays(machine) => write_depths(machine, out),
    }
}

/// What a checkpoint says of the machine.
pub fn sizes(machine: &AnyMachine) -> MachineSizes
    ensures { result ≡ sizes_of (machine_state machine.now).machine }
{
    match machine {
        AnyMachine::Narrow(machine) => sizes_in(machine),
        AnyMachine::Wide(machine) => sizes_in(machine),
    }
}

/// Puts the words of the machine's tree at the end: of the harts, the buses and the leaves. After `NoMemory` some of them stand there.
pub fn write_tree(machine: &AnyMachine, out: &mut Vec<u32>) -> Result<(), NoMemory>
    ensures ok { OnOk result (Adds out.old.items out.new.items (tree_words (machine_state machine.now).machine)) }
    ensures err { OnErr result (Begins out.old.items out.new.items) }
{
    match machine {
        AnyMachine::Narrow(machine) => write_machines(machine, out),
        AnyMachine::Wide(machine) => write_machines(machine, out),
    }
}
