//! A run for whose operations there is room already.

ghost use Rattle.std.specs.Prelude.{◌≡◌, ◌≤◌, is_ok, length, max, if◌then◌else◌};
ghost use Rattle.any_machine.specs.Any.{depths_state, machine_state, state_in};
ghost use Rattle.any_machine.specs.Kind.{kind_in, kind_of, levels_in};
ghost use Rattle.any_runs.specs.Run.{CanRun, NameParts, ran, roomed};

use crate::of_ddm_tree::{Dir, Machine, Subtree};
use crate::of_ddm_types::{NoMemory, Turn, TurnAnswer};
use any_machine::{AnyMachine, Depths, Machines};

fn make_turns<const WORDS: usize, C: Subtree<WORDS>>(
    machine: &mut Machine<WORDS, C>,
    turns: &[Turn],
)
    requires named { NameParts turns.now machine.old.machine }
    requires few { CanRun turns.now machine.old }
    requires spare { length turns.now ≤ machine.old.spare }
    ensures { machine.new ≡ ran turns.now machine.old }
{
    let mut answer = TurnAnswer::Empty;
    for turn in turns {
        machine.turn_into(turn, &mut answer);
    }
}

// The same calls of a machine whose directories under bus 0 are over these children: a check of three types within one another is
// beyond its limits.

fn make_over<const WORDS: usize, C: Subtree<WORDS>>(
    machine: &mut Machine<WORDS, Dir<WORDS, C>>,
    turns: &[Turn],
)
    requires named { NameParts turns.now machine.old.machine }
    requires few { CanRun turns.now machine.old }
    requires spare { length turns.now ≤ machine.old.spare }
    ensures { machine.new ≡ ran turns.now machine.old }
{
    make_turns(machine, turns);
}

fn reserve_over<const WORDS: usize, C: Subtree<WORDS>>(
    machine: &mut Machine<WORDS, Dir<WORDS, C>>,
    count: u32,
) -> Result<(), NoMemory>
    ensures { machine.new ≡ roomed (is_ok result) count machine.old }
{
    machine.reserve(count)
}

fn make_depths<const WAYS: usize, const WORDS: usize>(
    machine: &mut Depths<WAYS, WORDS>,
    turns: &[Turn],
)
    requires named { NameParts turns.now (depths_state machine.old).machine }
    requires few { CanRun turns.now (depths_state machine.old) }
    requires spare { length turns.now ≤ (depths_state machine.old).spare }
    ensures after { depths_state machine.new ≡ ran turns.now (depths_state machine.old) }
    ensures levels { levels_in machine.new ≡ levels_in machine.old }
{
    match machine {
        Depths::OneLevel(machine) => make_turns(machine, turns),
        Depths::TwoLevels(machine) => make_turns(machine, turns),
        Depths::ThreeLevels(machine) => make_over(machine, turns),
        Depths::FourLevels(machine) => make_over(machine, turns),
    }
}

fn reserve_depths<const WAYS: usize, const WORDS: usize>(
    machine: &mut Depths<WAYS, WORDS>,
    count: u32,
) -> Result<(), NoMemory>
    ensures after { depths_state machine.new ≡ roomed (is_ok result) count (depths_state machine.old) }
    ensures levels { levels_in machine.new ≡ levels_in machine.old }
{
    match machine {
        Depths::OneLevel(machine) => machine.reserve(count),
        Depths::TwoLevels(machine) => machine.reserve(count),
        Depths::ThreeLevels(machine) => reserve_over(machine, count),
        Depths::FourLevels(machine) => reserve_over(machine, count),
    }
}

fn make_machines<const WORDS: usize>(machine: &mut Machines<WORDS>, turns: &[Turn])
    requires named { NameParts turns.now (state_in machine.old).machine }
    requires few { CanRun turns.now (state_in machine.old) }
    requires spare { length turns.now ≤ (state_in machine.old).spare }
    ensures after { state_in machine.new ≡ ran turns.now (state_in machine.old) }
    ensures kind { kind_in machine.new ≡ kind_in machine.old }
{
    match machine {
        Machines::OneWay(machine) => make_depths(machine, turns),
        Machines::TwoWays(machine) => make_depths(machine, turns),
        Machines::FourWays(machine) => make_depths(machine, turns),
    }
}

fn reserve_machines<const WORDS: usize>(
    machine: &mut Machines<WORDS>,
    count: u32,
) -> Result<(), NoMemory>
    ensures after { state_in machine.new ≡ roomed (is_ok result) count (state_in machine.old) }
    ensures kind { kind_in machine.new ≡ kind_in machine.old }
{
    match machine {
        Machines::OneWay(machine) => reserve_depths(machine, count),
        Machines::TwoWays(machine) => reserve_depths(machine, count),
        Machines::FourWays(machine) => reserve_depths(machine, count),
    }
}

/// Makes the turns in order, where there is room for as many operations. It takes no memory.
pub fn run_spared(machine: &mut AnyMachine, turns: &[Turn])
    requires named { NameParts turns.now (machine_state machine.old).machine }
    requires few { CanRun turns.now (machine_state machine.old) }
    requires spare { length turns.now ≤ (machine_state machine.old).spare }
    ensures after { machine_state machine.new ≡ ran turns.now (machine_state machine.old) }
    ensures kind { kind_of machine.new ≡ kind_of machine.old }
{
    match machine {
        AnyMachine::Narrow(machine) => make_machines(machine, turns),
        AnyMachine::Wide(machine) => make_machines(machine, turns),
    }
}

/// Takes memory so that at least `count` more operations need none.
pub fn reserve(machine: &mut AnyMachine, count: u32) -> Result<(), NoMemory>
    ensures after { machine_state machine.new ≡ roomed (is_ok result) count (machine_state machine.old) }
    ensures kind { kind_of machine.new ≡ kind_of machine.old }
{
    match machine {
        AnyMachine::Narrow(machine) => reserve_machines(machine, count),
        AnyMachine::Wide(machine) => reserve_machines(machine, count),
    }
}
