//! A machine of any tree becomes a copy of another one.

ghost use Rattle.std.specs.Prelude.{◌≡◌};
ghost use Rattle.any_runs.specs.DdmTree.Copying.{CanCopy, copied};
ghost use Rattle.any_machine.specs.Any.{depths_state, machine_state, state_in};
ghost use Rattle.any_machine.specs.Kind.{kind_in, kind_of, levels_in};

use crate::of_ddm_tree::{CopyFrom, Dir, Machine};
use any_machine::{AnyMachine, Depths, Machines};

// The machine of directories over these children becomes a copy of another one: a check of three types within one another is
// beyond its limits.
fn copy_over<const WORDS: usize, C: CopyFrom<WORDS>>(
    machine: &mut Machine<WORDS, Dir<WORDS, C>>,
    other: &Machine<WORDS, Dir<WORDS, C>>,
)
    requires { CanCopy machine.old other.now }
    ensures { machine.new ≡ copied machine.old other.now }
{
    machine.copy_from(other);
}

fn copy_depths<const WAYS: usize, const WORDS: usize>(
    machine: &mut Depths<WAYS, WORDS>,
    other: &Depths<WAYS, WORDS>,
)
    requires levels { levels_in machine.old ≡ levels_in other.now }
    requires can { CanCopy (depths_state machine.old) (depths_state other.now) }
    ensures after { depths_state machine.new ≡ copied (depths_state machine.old) (depths_state other.now) }
    ensures levels { levels_in machine.new ≡ levels_in machine.old }
{
    match machine {
        Depths::OneLevel(machine) => match other {
            Depths::OneLevel(other) => machine.copy_from(other),
            _ => unreachable!(),
        },
        Depths::TwoLevels(machine) => match other {
            Depths::TwoLevels(other) => machine.copy_from(other),
            _ => unreachable!(),
        },
        Depths::ThreeLevels(machine) => match other {
            Depths::ThreeLevels(other) => copy_over(machine, other),
            _ => unreachable!(),
        },
        Depths::FourLevels(machine) => match other {
            Depths::FourLevels(other) => copy_over(machine, other),
            _ => unreachable!(),
        },
    }
}

fn copy_machines<const WORDS: usize>(machine: &mut Machines<WORDS>, other: &Machines<WORDS>)
    requires kind { kind_in machine.old ≡ kind_in other.now }
    requires can { CanCopy (state_in machine.old) (state_in other.now) }
    ensures after { state_in machine.new ≡ copied (state_in machine.old) (state_in other.now) }
    ensures kind { kind_in machine.new ≡ kind_in machine.old }
{
    match machine {
        Machines::OneWay(machine) => match other {
            Machines::OneWay(other) => copy_depths(machine, other),
            _ => unreachable!(),
        },
        Machines::TwoWays(machine) => match other {
            Machines::TwoWays(other) => copy_depths(machine, other),
            _ => unreachable!(),
        },
        Machines::FourWays(machine) => match other {
            Machines::FourWays(other) => copy_depths(machine, other),
            _ => unreachable!(),
        },
    }
}

/// A machine becomes a copy of another one of the same tree, code and items. It takes no memory, and keeps what it has for
/// operations.
pub fn copy_from(machine: &mut AnyMachine, other: &AnyMachine)
    requires kind { kind_of machine.old ≡ kind_of other.now }
    requires can { CanCopy (machine_state machine.old) (machine_state other.now) }
    ensures after { machine_state machine.new ≡ copied (machine_state machine.old) (machine_state other.now) }
    ensures kind { kind_of machine.new ≡ kind_of machine.old }
{
    match machine {
        AnyMachine::Narrow(machine) => match other {
            AnyMachine::Narrow(other) => copy_machines(machine, other),
            AnyMachine::Wide(_) => unreachable!(),
        },
        AnyMachine::Wide(machine) => match other {
            AnyMachine::Wide(other) => copy_machines(machine, other),
            AnyMachine::Narrow(_) => unreachable!(),
        },
    }
}
