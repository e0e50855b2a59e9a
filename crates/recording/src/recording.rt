//! The loop that records a seed's run, for a machine of each kind.

ghost use Rattle.std.specs.Prelude.{◌≡◌, ◌+◌, ◌≤◌, ◌++◌, length, vec_capacity};
ghost use Rattle.tree_model.specs.State.Shape.{tree_counts};
ghost use Rattle.any_runs.specs.AnyMachine.Any.{depths_state, machine_state, state_in};
ghost use Rattle.any_runs.specs.AnyMachine.Kind.{kind_in, kind_of, levels_in};
ghost use Rattle.recording.specs.Runs.{CanRecord, recorded};

use crate::harts::put_flags;
use crate::making::{is_done, make_draw};
use crate::progress::{Progress, keep_turn};
use any_runs::of_any_machine::{AnyMachine, Depths, Machines};
use any_runs::of_ddm_tree::{Dir, Machine, Subtree};
use ddm_types::{Turn, TurnAnswer};
use recording_model::RunEnd;
use seed_draws::SeedDraws;

// Makes the run of the draws that are left, and keeps the turns that do something behind the others, so many at most.
fn record_turns<const WORDS: usize, C: Subtree<WORDS>>(
    machine: &mut Machine<WORDS, C>,
    draws: &mut SeedDraws,
    flags: &mut [bool],
    turns: &mut Vec<Turn>,
    most: u32,
    count: u32,
) -> RunEnd
    requires count { count ≡ length draws.old.left }
    requires can { CanRecord most draws.old.left machine.old }
    requires flags { length flags.old ≡ (tree_counts machine.old.machine).leaves }
    requires room { length turns.old.items + most ≤ vec_capacity turns.old }
    ensures end { result ≡ (recorded most draws.old.left machine.old).end }
    ensures turns { turns.new.items ≡ turns.old.items ++ (recorded most draws.old.left machine.old).turns }
    ensures after { machine.new.machine ≡ (recorded most draws.old.left machine.old).machine }
    ensures shape { draws.new.shape ≡ draws.old.shape }
    ensures flags { length flags.new ≡ (tree_counts machine.old.machine).leaves }
{
    let mut all = put_flags(machine, flags);
    let mut answer = TurnAnswer::Empty;
    let mut progress = Progress {
        left: most,
        idle: 0,
        draws: count,
    };
    'recording: loop {
        if let Some(end) = progress.end(all) {
            return end;
        }
        let (turn, let_by) = draws.next_draw();
        let came = make_draw(machine, &turn, let_by, flags, &mut all, &mut answer);
        let did = is_done(came);
        keep_turn(turns, turn, did);
        progress.note(did);
    }
}

// The same of a machine whose directories under bus 0 are over these children: a check of three types within one another is beyond
// its limits.
fn record_over<const WORDS: usize, C: Subtree<WORDS>>(
    machine: &mut Machine<WORDS, Dir<WORDS, C>>,
    draws: &mut SeedDraws,
    flags: &mut [bool],
    turns: &mut Vec<Turn>,
    most: u32,
    count: u32,
) -> RunEnd
    requires count { count ≡ length draws.old.left }
    requires can { CanRecord most draws.old.left machine.old }
    requires flags { length flags.old ≡ (tree_counts machine.old.machine).leaves }
    requires room { length turns.old.items + most ≤ vec_capacity turns.old }
    ensures end { result ≡ (recorded most draws.old.left machine.old).end }
    ensures turns { turns.new.items ≡ turns.old.items ++ (recorded most draws.old.left machine.old).turns }
    ensures after { machine.new.machine ≡ (recorded most draws.old.left machine.old).machine }
    ensures shape { draws.new.shape ≡ draws.old.shape }
    ensures flags { length flags.new ≡ (tree_counts machine.old.machine).leaves }
{
    record_turns(machine, draws, flags, turns, most, count)
}

fn record_depths<const WAYS: usize, const WORDS: usize>(
    machine: &mut Depths<WAYS, WORDS>,
    draws: &mut SeedDraws,
    flags: &mut [bool],
    turns: &mut Vec<Turn>,
    most: u32,
    count: u32,
) -> RunEnd
    requires count { count ≡ length draws.old.left }
    requires can { CanRecord most draws.old.left (depths_state machine.old) }
    requires flags { length flags.old ≡ (tree_counts (depths_state machine.old).machine).leaves }
    requires room { length turns.old.items + most ≤ vec_capacity turns.old }
    ensures end { result ≡ (recorded most draws.old.left (depths_state machine.old)).end }
    ensures turns { turns.new.items ≡ turns.old.items ++ (recorded most draws.old.left (depths_state machine.old)).turns }
    ensures after { (depths_state machine.new).machine ≡ (recorded most draws.old.left (depths_state machine.old)).machine }
    ensures shape { draws.new.shape ≡ draws.old.shape }
    ensures flags { length flags.new ≡ (tree_counts (depths_state machine.old).machine).leaves }
    ensures levels { levels_in machine.new ≡ levels_in machine.old }
{
    match machine {
        Depths::OneLevel(machine) => record_turns(machine, draws, flags, turns, most, count),
        Depths::TwoLevels(machine) => record_turns(machine, draws, flags, turns, most, count),
        Depths::ThreeLevels(machine) => record_over(machine, draws, flags, turns, most, count),
        Depths::FourLevels(machine) => record_over(machine, draws, flags, turns, most, count),
    }
}

fn record_machines<const WORDS: usize>(
    machine: &mut Machines<WORDS>,
    draws: &mut SeedDraws,
    flags: &mut [bool],
    turns: &mut Vec<Turn>,
    most: u32,
    count: u32,
) -> RunEnd
    requires count { count ≡ length draws.old.left }
    requires can { CanRecord most draws.old.left (state_in machine.old) }
    requires flags { length flags.old ≡ (tree_counts (state_in machine.old).machine).leaves }
    requires room { length turns.old.items + most ≤ vec_capacity turns.old }
    ensures end { result ≡ (recorded most draws.old.left (state_in machine.old)).end }
    ensures turns { turns.new.items ≡ turns.old.items ++ (recorded most draws.old.left (state_in machine.old)).turns }
    ensures after { (state_in machine.new).machine ≡ (recorded most draws.old.left (state_in machine.old)).machine }
    ensures shape { draws.new.shape ≡ draws.old.shape }
    ensures flags { length flags.new ≡ (tree_counts (state_in machine.old).machine).leaves }
    ensures kind { kind_in machine.new ≡ kind_in machine.old }
{
    match machine {
        Machines::OneWay(machine) => record_depths(machine, draws, flags, turns, most, count),
        Machines::TwoWays(machine) => record_depths(machine, draws, flags, turns, most, count),
        Machines::FourWays(machine) => record_depths(machine, draws, flags, turns, most, count),
    }
}

/// Makes the run of the `count` draws that are left, and keeps behind the others the turns that do something, `most` of them at most. It
/// takes no memory.
pub(crate) fn record_any(
    machine: &mut AnyMachine,
    draws: &mut SeedDraws,
    flags: &mut [bool],
    turns: &mut Vec<Turn>,
    most: u32,
    count: u32,
) -> RunEnd
    requires count { count ≡ length draws.old.left }
    requires can { CanRecord most draws.old.left (machine_state machine.old) }
    requires flags { length flags.old ≡ (tree_counts (machine_state machine.old).machine).leaves }
    requires room { length turns.old.items + most ≤ vec_capacity turns.old }
    ensures end { result ≡ (recorded most draws.old.left (machine_state machine.old)).end }
    ensures turns { turns.new.items ≡ turns.old.items ++ (recorded most draws.old.left (machine_state machine.old)).turns }
    ensures after { (machine_state machine.new).machine ≡ (recorded most draws.old.left (machine_state machine.old)).machine }
    ensures shape { draws.new.shape ≡ draws.old.shape }
    ensures flags { length flags.new ≡ (tree_counts (machine_state machine.old).machine).leaves }
    ensures kind { kind_of machine.new ≡ kind_of machine.old }
{
    match machine {
        AnyMachine::Narrow(machine) => record_machines(machine, draws, flags, turns, most, count),
        AnyMachine::Wide(machine) => record_machines(machine, draws, flags, turns, most, count),
    }
}
