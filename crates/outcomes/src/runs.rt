//! The runs of many seeds.

ghost use Rattle.std.specs.Prelude.{◌≡◌, ◌+◌, ◌≤◌, ◌^◌, ℕ, [], IfOk, OnErr, OnOk, length};
ghost use Rattle.outcomes.specs.TreeModel.State.Shape.{frame_of};
ghost use Rattle.outcomes.specs.TreeModel.Turns.Machine.{run_of};
ghost use Rattle.outcomes.specs.AnyMachine.Any.{machine_state};
ghost use Rattle.outcomes.specs.AnyMachine.Kind.{kind_of};
ghost use Rattle.measuring.specs.AnyRuns.Run.{CanRun, NameParts};
ghost use Rattle.schedule_log.specs.Shapes.{shape_view};
ghost use Rattle.outcome_model.specs.Outcome.{outcome_of, seed_outcome};
ghost use Rattle.outcome_model.specs.Outcomes.{outcome_table};
ghost use Rattle.outcome_model.specs.Table.{counted};
ghost use Rattle.outcomes.specs.Runs.{AreFew, HasShape, IsStart, IsTwin, KeepsRoom};

use crate::counting::count_outcome;
use crate::ending::{all_halted, put_outcome};
use crate::line::OutcomeLine;
use crate::of_any_machine::AnyMachine;
use crate::of_ddm_types::{BusNo, NoMemory, Turn};
use crate::of_tree_config::Shape;
use crate::ordering::in_order;
use measuring::of_any_runs::{copy_from, reserve, run_spared};
use schedule_log::SeededTurns;
use std::alloc::Global;

/// So many turns are made at a time; then it is asked whether all harts have halted.
const BLOCK: usize = 64;

// Makes the turns of a seed that are left until every hart has halted: further ones change no outcome. It takes no memory.
fn run_until_halted(machine: &mut AnyMachine, seeds: &mut SeededTurns)
    requires named { NameParts seeds.old.left (machine_state machine.old).machine }
    requires few { CanRun seeds.old.left (machine_state machine.old) }
    requires spare { length seeds.old.left ≤ (machine_state machine.old).spare }
    ensures outcome { outcome_of (machine_state machine.new).machine
        ≡ outcome_of (run_of seeds.old.left (machine_state machine.old).machine).machine }
    ensures keeps { KeepsRoom (machine_state machine.old) (machine_state machine.new) }
    ensures kind { kind_of machine.new ≡ kind_of machine.old }
    ensures shape { seeds.new.shape ≡ seeds.old.shape }
{
    let mut block = [Turn::Down { bus: BusNo(0) }; BLOCK];
    'running: loop {
        let count = seeds.next_block(&mut block);
        if count == 0 {
            return;
        }
        run_spared(machine, &block[..count]);
        if all_halted(machine) {
            return;
        }
    }
}

// Makes the run of a seed: the machine is put back to its start first. It takes no memory.
fn run_seed(
    start: &AnyMachine,
    machine: &mut AnyMachine,
    seeds: &mut SeededTurns,
    turns: u32,
    seed: u64,
)
    requires shape { HasShape seeds.old.shape (machine_state start.now).machine }
    requires start { IsStart turns (machine_state start.now) }
    requires twin { IsTwin turns start.now machine.old }
    ensures outcome { outcome_of (machine_state machine.new).machine
        ≡ seed_outcome seeds.old.shape turns (machine_state start.now).machine seed }
    ensures twin { IsTwin turns start.now machine.new }
    ensures shape { seeds.new.shape ≡ seeds.old.shape }
{
    copy_from(machine, start);
    seeds.begin(seed, turns);
    run_until_halted(machine, seeds);
}

// The outcome of one seed more is counted. Memory is taken for the line of a new outcome alone, and for the text of an outcome that
// is longer than all before.
fn count_seed(
    alloc: Global,
    start: &AnyMachine,
    machine: &mut AnyMachine,
    seeds: &mut SeededTurns,
    turns: u32,
    seed: u64,
    text: &mut Vec<u8>,
    lines: &mut Vec<OutcomeLine>,
) -> Result<(), NoMemory>
    requires shape { HasShape seeds.old.shape (machine_state start.now).machine }
    requires start { IsStart turns (machine_state start.now) }
    requires twin { IsTwin turns start.now machine.old }
    requires few { AreFew lines.old.items }
    ensures counted { OnOk result
        (lines.new.items
        ≡ counted seed (seed_outcome seeds.old.shape turns (machine_state start.now).machine seed)
        lines.old.items) }
    ensures twin { IsTwin turns start.now machine.new }
    ensures shape { seeds.new.shape ≡ seeds.old.shape }
{
    run_seed(start, machine, seeds, turns, seed);
    put_outcome(text, machine)?;
    count_outcome(alloc, lines, seed, text)
}

/// The outcomes of so many seeds from `first` on, each over so many turns from the start: a line for each different one, in the order
/// in which they are printed. Both machines are of one tree and image, and `start` has made no turn; `machine` makes all turns, and
/// may be used again whatever the answer is.
pub fn outcomes(
    alloc: Global,
    start: &AnyMachine,
    machine: &mut AnyMachine,
    shape: &Shape,
    turns: u32,
    first: u64,
    count: u32,
) -> Result<Vec<OutcomeLine>, NoMemory>
    requires shape { HasShape (shape_view shape.now) (machine_state start.now).machine }
    requires start { IsStart turns (machine_state start.now) }
    requires kind { kind_of start.now ≡ kind_of machine.old }
    requires frame { frame_of (machine_state machine.old).machine ≡ frame_of (machine_state start.now).machine }
    requires seeds { first + count ≤ 2 ^ 64 }
    ensures table { IfOk result
        (λ lines. lines.items
        ≡ outcome_table (shape_view shape.now) turns (machine_state start.now).machine first count) }
    ensures kind { kind_of machine.new ≡ kind_of start.now }
    ensures frame { frame_of (machine_state machine.new).machine ≡ frame_of (machine_state start.now).machine }
{
    reserve(machine, turns)?;
    let mut seeds = SeededTurns::new(alloc, shape)?;
    let mut text = Vec::new(alloc);
    let mut lines = Vec::new(alloc);
    for number in 0..count {
        let seed = first + u64::from(number);
        count_seed(
            alloc, start, machine, &mut seeds, turns, seed, &mut text, &mut lines,
        )?;
    }
    in_order(alloc, lines)
}
