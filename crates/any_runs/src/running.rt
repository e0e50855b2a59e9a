//! A run: a list of turns on a machine of any tree, which may take memory.

ghost use Rattle.std.specs.Prelude.{◌≡◌, ◌+◌, ◌<◌, ◌≤◌, ◌++◌, ◌∷◌, [], Some, true, false, IfNone, IfOk, IfSome};
ghost use Rattle.std.specs.Prelude.{OnErr, OnOk, OnSome, length, vec_capacity, vec_len, if◌then◌else◌};
ghost use Rattle.any_runs.specs.DdmTypes.declared.answers.TurnAnswer.TheVariants.{Empty};
ghost use Rattle.any_runs.specs.TreeModel.Turns.Machine.{names_part, turn_of};
ghost use Rattle.text_model.specs.Run.{counted_answer};
ghost use Rattle.any_runs.specs.DdmTree.Machine.{state_after};
ghost use Rattle.any_runs.specs.DdmTree.Quiet.{is_hart_turn};
ghost use Rattle.any_runs.specs.DdmTree.Rules.{StaysInOrder};
ghost use Rattle.any_machine.specs.Any.{depths_state, machine_state, state_in};
ghost use Rattle.any_runs.specs.Run.{AreBelow, CanRun, NameParts, answers_in, counts_in, ran, with_room};

use crate::counting::{count, no_counts};
use crate::of_ddm_tree::{Dir, Machine, Subtree};
use crate::of_ddm_types::{NoMemory, Turn, TurnAnswer};
use any_machine::{AnyMachine, Depths, Machines};
use text_model::RunCounts;

/// Whether a turn is a hart's.
fn is_hart_turn(turn: &Turn) -> bool
    ensures { result ≡ is_hart_turn turn.now }
{
    matches!(turn, Turn::Hart { .. })
}

/// Passes a turn of a bus, if it is known to find nothing, and says whether it did. What an idle hart answers has to be made.
fn passes_empty<const WORDS: usize, C: Subtree<WORDS>>(
    machine: &mut Machine<WORDS, C>,
    turn: &Turn,
) -> bool
    requires named { names_part turn.now machine.old.machine ≡ true }
    requires turns { machine.old.turns < 4294967295 }
    ensures after { result ≡ true → machine.new ≡ state_after turn.now machine.old }
    ensures answer { result ≡ true → (turn_of turn.now machine.old.machine).answer ≡ Empty }
    ensures same { result ≡ false → machine.new ≡ machine.old }
{
    !is_hart_turn(turn) && machine.pass(turn).is_some()
}

/// One turn whose answer is kept, counted. Its answer is put where the caller wants it.
#[inline(never)]
fn kept_turn<const WORDS: usize, C: Subtree<WORDS>>(
    machine: &mut Machine<WORDS, C>,
    turn: &Turn,
    counts: &mut RunCounts,
    answer: &mut TurnAnswer,
)
    requires named { names_part turn.now machine.old.machine ≡ true }
    requires spare { 0 < machine.old.spare }
    requires turns { machine.old.turns < 4294967295 }
    requires counts { AreBelow 4294967295 counts.old }
    ensures answer { answer.new ≡ (turn_of turn.now machine.old.machine).answer }
    ensures after { machine.new ≡ state_after turn.now machine.old }
    ensures counts { counts.new ≡ counted_answer (turn_of turn.now machine.old.machine).answer counts.old }
{
    if passes_empty(machine, turn) {
        *answer = TurnAnswer::Empty;
    } else {
        machine.turn_into(turn, answer);
    }
    count(counts, answer);
}

/// One turn whose answer isn't kept, counted: passed if it is known to change nothing, or else made.
#[inline(always)]
fn unkept_turn<const WORDS: usize, C: Subtree<WORDS>>(
    machine: &mut Machine<WORDS, C>,
    turn: &Turn,
    counts: &mut RunCounts,
    answer: &mut TurnAnswer,
)
    requires named { names_part turn.now machine.old.machine ≡ true }
    requires spare { 0 < machine.old.spare }
    requires turns { machine.old.turns < 4294967295 }
    requires counts { AreBelow 4294967295 counts.old }
    ensures after { machine.new ≡ state_after turn.now machine.old }
    ensures counts { counts.new ≡ counted_answer (turn_of turn.now machine.old.machine).answer counts.old }
{
    match machine.pass(turn) {
        Some(busy) => {
            counts.turns += 1;
            counts.busy += u32::from(busy);
        }
        None => {
            machine.turn_into(turn, answer);
            count(counts, answer);
        }
    }
}

/// One turn, counted. Its answer is put where the caller wants it, if it is kept.
#[inline(always)]
fn counted_turn<const WORDS: usize, C: Subtree<WORDS>>(
    machine: &mut Machine<WORDS, C>,
    turn: &Turn,
    counts: &mut RunCounts,
    answer: &mut TurnAnswer,
    keep: bool,
)
    requires named { names_part turn.now machine.old.machine ≡ true }
    requires spare { 0 < machine.old.spare }
    requires turns { machine.old.turns < 4294967295 }
    requires counts { AreBelow 4294967295 counts.old }
    ensures answer { keep ≡ true → answer.new ≡ (turn_of turn.now machine.old.machine).answer }
    ensures after { machine.new ≡ state_after turn.now machine.old }
    ensures counts { counts.new ≡ counted_answer (turn_of turn.now machine.old.machine).answer counts.old }
{
    if keep {
        kept_turn(machine, turn, counts, answer);
    } else {
        unkept_turn(machine, turn, counts, answer);
    }
}

/// Puts an answer behind the others, where there is memory for it.
fn add_answer(answers: &mut Vec<TurnAnswer>, answer: &TurnAnswer)
    requires { vec_len answers.old < vec_capacity answers.old }
    ensures items { answers.new.items ≡ answers.old.items ++ answer.now ∷ [] }
    ensures capacity { vec_capacity answers.old ≤ vec_capacity answers.new }
{
    if answers.extend_from_slice(&[*answer]).is_err() {
        unreachable!();
    }
}

/// Does so where the answers are kept.
#[inline(always)]
fn keep_answer(answers: &mut Vec<TurnAnswer>, answer: &TurnAnswer, keep: bool)
    requires { keep ≡ true → vec_len answers.old < vec_capacity answers.old }
    ensures items { answers.new.items ≡ (if keep then answers.old.items ++ answer.now ∷ [] else answers.old.items) }
    ensures capacity { vec_capacity answers.old ≤ vec_capacity answers.new }
{
    if keep {
        add_answer(answers, answer);
    }
}

/// Makes the turns in order. It takes no memory.
fn run_turns<const WORDS: usize, C: Subtree<WORDS>>(
    machine: &mut Machine<WORDS, C>,
    turns: &[Turn],
    answers: &mut Vec<TurnAnswer>,
    keep: bool,
) -> RunCounts
    requires named { NameParts turns.now machine.old.machine }
    requires spare { length turns.now ≤ machine.old.spare }
    requires few { CanRun turns.now machine.old }
    requires room { keep ≡ true → length answers.old.items + length turns.now ≤ vec_capacity answers.old }
    ensures after { machine.new ≡ ran turns.now machine.old }
    ensures counts { result ≡ counts_in turns.now machine.old }
    ensures answers { answers.new.items ≡ (if keep then answers.old.items ++ answers_in turns.now machine.old else answers.old.items) }
{
    let mut counts = no_counts();
    let mut answer = TurnAnswer::Empty;
    for turn in turns {
        counted_turn(machine, turn, &mut counts, &mut answer, keep);
        keep_answer(answers, &answer, keep);
    }
    counts
}

/// Takes the memory, then makes the turns.
fn run_reserved<const WORDS: usize, C: Subtree<WORDS>>(
    machine: &mut Machine<WORDS, C>,
    turns: &[Turn],
    answers: &mut Vec<TurnAnswer>,
    keep: bool,
) -> Result<RunCounts, NoMemory>
    requires named { NameParts turns.now machine.old.machine }
    requires few { CanRun turns.now machine.old }
    ensures after { OnOk result (machine.new ≡ ran turns.now (with_room (length turns.now) machine.old)) }
    ensures counts { IfOk result (λ counts. counts ≡ counts_in turns.now machine.old) }
    ensures answers { OnOk result
        (answers.new.items
        ≡ (if keep then answers.old.items ++ answers_in turns.now machine.old else answers.old.items)) }
    ensures order { OnOk result (StaysInOrder machine.old.machine machine.new.machine) }
    ensures same { OnErr result (machine.new ≡ machine.old) }
    ensures kept { OnErr result (answers.new.items ≡ answers.old.items) }
{
    // The rules that every machine keeps, on which `order` rests.
    machine.counts();
    if keep {
        answers.reserve(turns.len())?;
    }
    machine.reserve(turns.len() as u32)?;
    Ok(run_turns(machine, turns, answers, keep))
}

/// The same of a machine whose directories under bus 0 are over these children. A check of the call above at three types within one
/// another is beyond its limits.
fn run_over<const WORDS: usize, C: Subtree<WORDS>>(
    machine: &mut Machine<WORDS, Dir<WORDS, C>>,
    turns: &[Turn],
    answers: &mut Vec<TurnAnswer>,
    keep: bool,
) -> Result<RunCounts, NoMemory>
    requires named { NameParts turns.now machine.old.machine }
    requires few { CanRun turns.now machine.old }
    ensures after { OnOk result (machine.new ≡ ran turns.now (with_room (length turns.now) machine.old)) }
    ensures counts { IfOk result (λ counts. counts ≡ counts_in turns.now machine.old) }
    ensures answers { OnOk result
        (answers.new.items
        ≡ (if keep then answers.old.items ++ answers_in turns.now machine.old else answers.old.items)) }
    ensures order { OnOk result (StaysInOrder machine.old.machine machine.new.machine) }
    ensures same { OnErr result (machine.new ≡ machine.old) }
    ensures kept { OnErr result (answers.new.items ≡ answers.old.items) }
{
    run_reserved(machine, turns, answers, keep)
}

/// The same, whatever the depth.
fn run_depths<const WAYS: usize, const WORDS: usize>(
    machine: &mut Depths<WAYS, WORDS>,
    turns: &[Turn],
    answers: &mut Vec<TurnAnswer>,
    keep: bool,
) -> Result<RunCounts, NoMemory>
    requires named { NameParts turns.now (depths_state machine.old).machine }
    requires few { CanRun turns.now (depths_state machine.old) }
    ensures after { OnOk result (depths_state machine.new ≡ ran turns.now (with_room (length turns.now) (depths_state machine.old))) }
    ensures counts { IfOk result (λ counts. counts ≡ counts_in turns.now (depths_state machine.old)) }
    ensures answers { OnOk result
        (answers.new.items
        ≡ (if keep then answers.old.items ++ answers_in turns.now (depths_state machine.old)
        else answers.old.items)) }
    ensures order { OnOk result (StaysInOrder (depths_state machine.old).machine (depths_state machine.new).machine) }
    ensures same { OnErr result (depths_state machine.new ≡ depths_state machine.old) }
    ensures kept { OnErr result (answers.new.items ≡ answers.old.items) }
{
    match machine {
        Depths::OneLevel(machine) => run_reserved(machine, turns, answers, keep),
        Depths::TwoLevels(machine) => run_reserved(machine, turns, answers, keep),
        Depths::ThreeLevels(machine) => run_over(machine, turns, answers, keep),
        Depths::FourLevels(machine) => run_over(machine, turns, answers, keep),
    }
}

/// The same, whatever the ways.
fn run_machines<const WORDS: usize>(
    machine: &mut Machines<WORDS>,
    turns: &[Turn],
    answers: &mut Vec<TurnAnswer>,
    keep: bool,
) -> Result<RunCounts, NoMemory>
    requires named { NameParts turns.now (state_in machine.old).machine }
    requires few { CanRun turns.now (state_in machine.old) }
    ensures after { OnOk result (state_in machine.new ≡ ran turns.now (with_room (length turns.now) (state_in machine.old))) }
    ensures counts { IfOk result (λ counts. counts ≡ counts_in turns.now (state_in machine.old)) }
    ensures answers { OnOk result
        (answers.new.items
        ≡ (if keep then answers.old.items ++ answers_in turns.now (state_in machine.old) else answers.old.items)) }
    ensures order { OnOk result (StaysInOrder (state_in machine.old).machine (state_in machine.new).machine) }
    ensures same { OnErr result (state_in machine.new ≡ state_in machine.old) }
    ensures kept { OnErr result (answers.new.items ≡ answers.old.items) }
{
    match machine {
        Machines::OneWay(machine) => run_depths(machine, turns, answers, keep),
        Machines::TwoWays(machine) => run_depths(machine, turns, answers, keep),
        Machines::FourWays(machine) => run_depths(machine, turns, answers, keep),
    }
}

/// Makes the turns in order, and keeps their answers where that is asked. It takes all memory first: after `NoMemory` no turn was
/// made.
pub fn run(
    machine: &mut AnyMachine,
    turns: &[Turn],
    answers: &mut Vec<TurnAnswer>,
    keep: bool,
) -> Result<RunCounts, NoMemory>
    requires named { NameParts turns.now (machine_state machine.old).machine }
    requires few { CanRun turns.now (machine_state machine.old) }
    ensures after { OnOk result (machine_state machine.new ≡ ran turns.now (with_room (length turns.now) (machine_state machine.old))) }
    ensures counts { IfOk result (λ counts. counts ≡ counts_in turns.now (machine_state machine.old)) }
    ensures answers { OnOk result
        (answers.new.items
        ≡ (if keep then answers.old.items ++ answers_in turns.now (machine_state machine.old)
        else answers.old.items)) }
    ensures order { OnOk result (StaysInOrder (machine_state machine.old).machine (machine_state machine.new).machine) }
    ensures same { OnErr result (machine_state machine.new ≡ machine_state machine.old) }
    ensures kept { OnErr result (answers.new.items ≡ answers.old.items) }
{
    match machine {
        AnyMachine::Narrow(machine) => run_machines(machine, turns, answers, keep),
        AnyMachine::Wide(machine) => run_machines(machine, turns, answers, keep),
    }
}
