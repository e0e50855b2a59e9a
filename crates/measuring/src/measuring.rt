//! The loop that measures a seed's run, for a machine of each kind.

ghost use Rattle.std.specs.Prelude.{◌≡◌, ◌-◌, ◌<◌, ◌≤◌, IfOk, OnOk, [], if◌then◌else◌, length};
ghost use Rattle.recording.specs.AnyMachine.Any.{depths_state, machine_state, state_in};
ghost use Rattle.recording.specs.AnyMachine.Kind.{kind_in, kind_of, levels_in};
ghost use Rattle.recording.specs.DdmTree.Machine.{without_ops};
ghost use Rattle.recording.specs.Runs.{recorded};
ghost use Rattle.recording_model.specs.TreeModel.State.Shape.{tree_counts};
ghost use Rattle.measure_model.specs.Measures.{measures_of};
ghost use Rattle.measuring.specs.Kept.{tally_of};
ghost use Rattle.measuring.specs.Step.{CanMeasure};
ghost use Rattle.measuring.specs.Tallied.{measured_so};

use crate::tally::Tally;
use ddm_types::{NoMemory, TurnAnswer};
use recording::of_any_machine::{AnyMachine, Depths, Machines};
use recording::of_ddm_tree::{Dir, Machine, Subtree};
use recording::of_seed_draws::SeedDraws;
use recording::{Progress, RunEnd, is_done, make_draw, put_flags};

/// Memory is kept for so many operations; when it is full they are forgotten.
const KEPT_OPERATIONS: u32 = 1024;

// Where there is no room for another operation, those so far are forgotten.
#[inline(always)]
fn make_room<const WORDS: usize, C: Subtree<WORDS>>(
    machine: &mut Machine<WORDS, C>,
    room: &mut u32,
) -> Result<(), NoMemory>
    requires { room.old ≤ machine.old.spare }
    ensures some { OnOk result (0 < room.new) }
    ensures room { OnOk result (room.new ≤ machine.new.spare) }
    ensures same { without_ops machine.new.machine ≡ without_ops machine.old.machine }
    ensures turns { machine.new.turns ≡ machine.old.turns }
{
    if *room == 0 {
        machine.forget_ops();
        machine.reserve(KEPT_OPERATIONS)?;
        *room = KEPT_OPERATIONS;
    }
    Ok(())
}

// An operation may have taken room.
#[inline(always)]
fn take_room(room: &mut u32, did: bool)
    requires { 0 < room.old }
    ensures { room.new ≡ room.old - (if did then 1 else 0) }
{
    if did {
        *room -= 1;
    }
}

// Measures the run of the draws that are left, of which so many turns may be recorded.
fn measure_turns<const WORDS: usize, C: Subtree<WORDS>>(
    machine: &mut Machine<WORDS, C>,
    draws: &mut SeedDraws,
    flags: &mut [bool],
    tally: &mut Tally,
    most: u32,
    count: u32,
) -> Result<RunEnd, NoMemory>
    requires count { count ≡ length draws.old.left }
    requires can { CanMeasure draws.old.left machine.old }
    requires flags { length flags.old ≡ (tree_counts machine.old.machine).leaves }
    requires starts { tally_of tally.old ≡ measured_so 0 [] [] machine.old.machine }
    ensures end { IfOk result (λ end. end ≡ (recorded most draws.old.left machine.old).end) }
    ensures measures { OnOk result (tally_of tally.new ≡ measures_of (recorded most draws.old.left machine.old) machine.old.machine) }
    ensures after { OnOk result (without_ops machine.new.machine ≡ without_ops (recorded most draws.old.left machine.old).machine) }
{
    let mut all = put_flags(machine, flags);
    let mut answer = TurnAnswer::Empty;
    let mut room = 0;
    let mut progress = Progress {
        left: most,
        idle: 0,
        draws: count,
    };
    'measuring: loop {
        if let Some(end) = progress.end(all) {
            tally.totals.drawn = count - progress.draws;
            return Ok(end);
        }
        make_room(machine, &mut room)?;
        let (turn, let_by) = draws.next_draw();
        let came = make_draw(machine, &turn, let_by, flags, &mut all, &mut answer);
        let did = is_done(came);
        take_room(&mut room, did);
        tally.count(machine, &turn, came, &answer);
        progress.note(did);
    }
}

// The same of a machine whose directories under bus 0 are over these children: a check of three types within one
// another is beyond its limits.
fn measure_over<const WORDS: usize, C: Subtree<WORDS>>(
    machine: &mut Machine<WORDS, Dir<WORDS, C>>,
    draws: &mut SeedDraws,
    flags: &mut [bool],
    tally: &mut Tally,
    most: u32,
    count: u32,
) -> Result<RunEnd, NoMemory>
    requires count { count ≡ length draws.old.left }
    requires can { CanMeasure draws.old.left machine.old }
    requires flags { length flags.old ≡ (tree_counts machine.old.machine).leaves }
    requires starts { tally_of tally.old ≡ measured_so 0 [] [] machine.old.machine }
    ensures end { IfOk result (λ end. end ≡ (recorded most draws.old.left machine.old).end) }
    ensures measures { OnOk result (tally_of tally.new ≡ measures_of (recorded most draws.old.left machine.old) machine.old.machine) }
    ensures after { OnOk result (without_ops machine.new.machine ≡ without_ops (recorded most draws.old.left machine.old).machine) }
{
    measure_turns(machine, draws, flags, tally, most, count)
}

fn measure_depths<const WAYS: usize, const WORDS: usize>(
    machine: &mut Depths<WAYS, WORDS>,
    draws: &mut SeedDraws,
    flags: &mut [bool],
    tally: &mut Tally,
    most: u32,
    count: u32,
) -> Result<RunEnd, NoMemory>
    requires count { count ≡ length draws.old.left }
    requires can { CanMeasure draws.old.left (depths_state machine.old) }
    requires flags { length flags.old ≡ (tree_counts (depths_state machine.old).machine).leaves }
    requires starts { tally_of tally.old ≡ measured_so 0 [] [] (depths_state machine.old).machine }
    ensures end { IfOk result (λ end. end ≡ (recorded most draws.old.left (depths_state machine.old)).end) }
    ensures measures { OnOk result
        (tally_of tally.new
        ≡ measures_of (recorded most draws.old.left (depths_state machine.old))
        (depths_state machine.old).machine) }
    ensures after { OnOk result
        (without_ops (depths_state machine.new).machine
        ≡ without_ops (recorded most draws.old.left (depths_state machine.old)).machine) }
    ensures levels { levels_in machine.new ≡ levels_in machine.old }
{
    match machine {
        Depths::OneLevel(machine) => measure_turns(machine, draws, flags, tally, most, count),
        Depths::TwoLevels(machine) => measure_turns(machine, draws, flags, tally, most, count),
        Depths::ThreeLevels(machine) => measure_over(machine, draws, flags, tally, most, count),
        Depths::FourLevels(machine) => measure_over(machine, draws, flags, tally, most, count),
    }
}

fn measure_machines<const WORDS: usize>(
    machine: &mut Machines<WORDS>,
    draws: &mut SeedDraws,
    flags: &mut [bool],
    tally: &mut Tally,
    most: u32,
    count: u32,
) -> Result<RunEnd, NoMemory>
    requires count { count ≡ length draws.old.left }
    requires can { CanMeasure draws.old.left (state_in machine.old) }
    requires flags { length flags.old ≡ (tree_counts (state_in machine.old).machine).leaves }
    requires starts { tally_of tally.old ≡ measured_so 0 [] [] (state_in machine.old).machine }
    ensures end { IfOk result (λ end. end ≡ (recorded most draws.old.left (state_in machine.old)).end) }
    ensures measures { OnOk result
        (tally_of tally.new
        ≡ measures_of (recorded most draws.old.left (state_in machine.old)) (state_in machine.old).machine) }
    ensures after { OnOk result
        (without_ops (state_in machine.new).machine
        ≡ without_ops (recorded most draws.old.left (state_in machine.old)).machine) }
    ensures kind { kind_in machine.new ≡ kind_in machine.old }
{
    match machine {
        Machines::OneWay(machine) => measure_depths(machine, draws, flags, tally, most, count),
        Machines::TwoWays(machine) => measure_depths(machine, draws, flags, tally, most, count),
        Machines::FourWays(machine) => measure_depths(machine, draws, flags, tally, most, count),
    }
}

/// Measures the run of the `count` draws that are left, of which `most` turns may be recorded.
pub(crate) fn measure_any(
    machine: &mut AnyMachine,
    draws: &mut SeedDraws,
    flags: &mut [bool],
    tally: &mut Tally,
    most: u32,
    count: u32,
) -> Result<RunEnd, NoMemory>
    requires count { count ≡ length draws.old.left }
    requires can { CanMeasure draws.old.left (machine_state machine.old) }
    requires flags { length flags.old ≡ (tree_counts (machine_state machine.old).machine).leaves }
    requires starts { tally_of tally.old ≡ measured_so 0 [] [] (machine_state machine.old).machine }
    ensures end { IfOk result (λ end. end ≡ (recorded most draws.old.left (machine_state machine.old)).end) }
    ensures measures { OnOk result
        (tally_of tally.new
        ≡ measures_of (recorded most draws.old.left (machine_state machine.old))
        (machine_state machine.old).machine) }
    ensures after { OnOk result
        (without_ops (machine_state machine.new).machine
        ≡ without_ops (recorded most draws.old.left (machine_state machine.old)).machine) }
    ensures kind { kind_of machine.new ≡ kind_of machine.old }
{
    match machine {
        AnyMachine::Narrow(machine) => measure_machines(machine, draws, flags, tally, most, count),
        AnyMachine::Wide(machine) => measure_machines(machine, draws, flags, tally, most, count),
    }
}
