//! One turn of a machine of any tree, and what its answer says.

ghost use Rattle.std.specs.Prelude.{◌≡◌, ◌<◌, true};
ghost use Rattle.tree_model.specs.Turns.Machine.{names_part, turn_of};
ghost use Rattle.outcomes.specs.RecordingModel.Doing.{does_by};
ghost use Rattle.explorer.specs.SearchModel.Tried.{is_quiet_answer};
ghost use Rattle.any_runs.specs.AnyMachine.Any.{depths_state, machine_state, state_in};
ghost use Rattle.any_runs.specs.AnyMachine.Kind.{kind_in, kind_of, levels_in};
ghost use Rattle.any_runs.specs.DdmTree.Machine.{state_after};

use crate::answers::{does, is_quiet};
use any_runs::of_any_machine::{AnyMachine, Depths, Machines};
use any_runs::of_ddm_tree::{Dir, Machine, Subtree};
use ddm_types::{Turn, TurnAnswer};

// The same of a machine of directories over these children: a check of three types within one another is beyond its
// limits.
fn turn_over<const WORDS: usize, C: Subtree<WORDS>>(
    machine: &mut Machine<WORDS, Dir<WORDS, C>>,
    turn: &Turn,
    answer: &mut TurnAnswer,
)
    requires named { names_part turn.now machine.old.machine ≡ true }
    requires spare { 0 < machine.old.spare }
    requires turns { machine.old.turns < 4294967295 }
    ensures answer { answer.new ≡ (turn_of turn.now machine.old.machine).answer }
    ensures after { machine.new ≡ state_after turn.now machine.old }
{
    machine.turn_into(turn, answer);
}

fn turn_depths<const WAYS: usize, const WORDS: usize>(
    machine: &mut Depths<WAYS, WORDS>,
    turn: &Turn,
    answer: &mut TurnAnswer,
)
    requires named { names_part turn.now (depths_state machine.old).machine ≡ true }
    requires spare { 0 < (depths_state machine.old).spare }
    requires turns { (depths_state machine.old).turns < 4294967295 }
    ensures answer { answer.new ≡ (turn_of turn.now (depths_state machine.old).machine).answer }
    ensures after { depths_state machine.new ≡ state_after turn.now (depths_state machine.old) }
    ensures levels { levels_in machine.new ≡ levels_in machine.old }
{
    match machine {
        Depths::OneLevel(machine) => machine.turn_into(turn, answer),
        Depths::TwoLevels(machine) => machine.turn_into(turn, answer),
        Depths::ThreeLevels(machine) => turn_over(machine, turn, answer),
        Depths::FourLevels(machine) => turn_over(machine, turn, answer),
    }
}

fn turn_machines<const WORDS: usize>(
    machine: &mut Machines<WORDS>,
    turn: &Turn,
    answer: &mut TurnAnswer,
)
    requires named { names_part turn.now (state_in machine.old).machine ≡ true }
    requires spare { 0 < (state_in machine.old).spare }
    requires turns { (state_in machine.old).turns < 4294967295 }
    ensures answer { answer.new ≡ (turn_of turn.now (state_in machine.old).machine).answer }
    ensures after { state_in machine.new ≡ state_after turn.now (state_in machine.old) }
    ensures kind { kind_in machine.new ≡ kind_in machine.old }
{
    match machine {
        Machines::OneWay(machine) => turn_depths(machine, turn, answer),
        Machines::TwoWays(machine) => turn_depths(machine, turn, answer),
        Machines::FourWays(machine) => turn_depths(machine, turn, answer),
    }
}

fn make_turn(machine: &mut AnyMachine, turn: &Turn, answer: &mut TurnAnswer)
    requires named { names_part turn.now (machine_state machine.old).machine ≡ true }
    requires spare { 0 < (machine_state machine.old).spare }
    requires turns { (machine_state machine.old).turns < 4294967295 }
    ensures answer { answer.new ≡ (turn_of turn.now (machine_state machine.old).machine).answer }
    ensures after { machine_state machine.new ≡ state_after turn.now (machine_state machine.old) }
    ensures kind { kind_of machine.new ≡ kind_of machine.old }
{
    match machine {
        AnyMachine::Narrow(machine) => turn_machines(machine, turn, answer),
        AnyMachine::Wide(machine) => turn_machines(machine, turn, answer),
    }
}

/// Makes a turn and says whether it did something, and whether it was quiet, where its hart had halted before or not.
pub(crate) fn judge_turn(machine: &mut AnyMachine, turn: &Turn, halted: bool) -> (bool, bool)
    requires named { names_part turn.now (machine_state machine.old).machine ≡ true }
    requires spare { 0 < (machine_state machine.old).spare }
    requires turns { (machine_state machine.old).turns < 4294967295 }
    ensures does { result.0 ≡ does_by (turn_of turn.now (machine_state machine.old).machine).answer halted }
    ensures quiet { result.1 ≡ is_quiet_answer (turn_of turn.now (machine_state machine.old).machine).answer halted }
    ensures after { machine_state machine.new ≡ state_after turn.now (machine_state machine.old) }
    ensures kind { kind_of machine.new ≡ kind_of machine.old }
{
    let mut answer = TurnAnswer::Empty;
    make_turn(machine, turn, &mut answer);
    (does(&answer, halted), is_quiet(&answer, halted))
}
