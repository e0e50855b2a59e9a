//! Turns are made, whatever they name.

ghost use Rattle.std.specs.Prelude.{◌≡◌, ◌+◌, ◌≤◌, length};
ghost use Rattle.tree_model.specs.Turns.Machine.{run_of};
ghost use Rattle.any_runs.specs.AnyMachine.Any.{machine_state};
ghost use Rattle.any_runs.specs.AnyMachine.Kind.{kind_of};
ghost use Rattle.any_runs.specs.Run.{CanRun};

use crate::named::names;
use any_runs::of_any_machine::AnyMachine;
use any_runs::run_spared;
use ddm_types::Turn;

/// Makes the turns in order, where there is room for as many operations: one that names no part of the machine changes
/// nothing. It takes no memory.
pub(crate) fn make_turns(machine: &mut AnyMachine, turns: &[Turn])
    requires few { CanRun turns.now (machine_state machine.old) }
    requires spare { length turns.now ≤ (machine_state machine.old).spare }
    ensures ran { (machine_state machine.new).machine ≡ (run_of turns.now (machine_state machine.old).machine).machine }
    ensures turns { (machine_state machine.new).turns ≤ (machine_state machine.old).turns + length turns.now }
    ensures kind { kind_of machine.new ≡ kind_of machine.old }
{
    for turn in turns {
        if names(machine, turn) {
            run_spared(machine, &[*turn]);
        }
    }
}
