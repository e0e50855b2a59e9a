//! The recorded runs of many seeds.

ghost use Rattle.std.specs.Prelude.{◌≡◌, ◌+◌, ◌≤◌, ◌^◌, [], IfOk, OnOk};
ghost use Rattle.outcomes.specs.AnyMachine.Any.{machine_state};
ghost use Rattle.schedule_log.specs.Shapes.{shape_view};
ghost use Rattle.outcome_model.specs.Outcome.{outcome_of};
ghost use Rattle.outcome_model.specs.Table.{counted};
ghost use Rattle.recording_model.specs.Recording.{recording_of};
ghost use Rattle.survey_model.specs.Survey.{end_word, seed_end, survey_table, worded};
ghost use Rattle.measuring.specs.RecordingCrate.Runs.{CanBegin, IsStart};
ghost use Rattle.outcomes.specs.Runs.{AreFew, IsTwin};

use crate::counting::count_outcome;
use crate::ending::push_outcome;
use crate::line::OutcomeLine;
use crate::of_any_machine::AnyMachine;
use crate::of_ddm_types::{NoMemory, Turn};
use crate::of_tree_config::Shape;
use crate::ordering::in_order;
use measuring::of_any_runs::{copy_from, reserve};
use measuring::of_recording::{Recorder, RunEnd, SeedKind};
use measuring::of_report::push_bytes;
use std::alloc::Global;

/// What recorded runs take of memory besides their machine: that of their draws, their turns, and the text of what one came to.
#[derive(Drop)]
struct Runs {
    recorder: Recorder,
    turns: Vec<Turn>,
    text: Vec<u8>,
}

// Why a run ended, in a word.
fn word_of(end: RunEnd) -> &'static [u8]
    ensures { result.now ≡ end_word end }
{
    match end {
        RunEnd::Halted => b"halted",
        RunEnd::Turns => b"turns",
        RunEnd::Stuck => b"stuck",
        RunEnd::Drawn => b"drawn",
    }
}

// Puts what a run came to in place of what is there.
fn put_end(out: &mut Vec<u8>, end: RunEnd, machine: &AnyMachine) -> Result<(), NoMemory>
    ensures { OnOk result (out.new.items ≡ worded end (outcome_of (machine_state machine.now).machine)) }
{
    out.clear();
    push_bytes(out, b" ")?;
    push_bytes(out, word_of(end))?;
    push_outcome(out, machine)
}

// Makes the recorded run of a seed: the machine is put back to its start first. Memory is taken in the first run alone.
fn record_seed(
    start: &AnyMachine,
    machine: &mut AnyMachine,
    runs: &mut Runs,
    kind: SeedKind,
    most: u32,
    seed: u64,
) -> Result<RunEnd, NoMemory>
    requires begins { CanBegin 0 runs.old.recorder (machine_state start.now) }
    requires none { (machine_state start.now).machine.ops ≡ [] }
    requires twin { IsTwin 0 start.now machine.old }
    ensures end { IfOk result (λ end. end ≡ (recording_of kind runs.old.recorder.shape seed most (machine_state start.now).machine).end) }
    ensures after { OnOk result
        ((machine_state machine.new).machine
        ≡ (recording_of kind runs.old.recorder.shape seed most (machine_state start.now).machine).machine) }
    ensures twin { OnOk result (IsTwin 0 start.now machine.new) }
    ensures same { runs.new.recorder ≡ runs.old.recorder }
{
    copy_from(machine, start);
    reserve(machine, most)?;
    runs.turns.clear();
    runs.turns.reserve(most as usize)?;
    Ok(
        runs.recorder
            .record(machine, kind, seed, most, &mut runs.turns),
    )
}

// What one seed more came to is counted. Memory is taken for the line of a new end alone, and for a text that is longer than all
// before.
fn count_recorded(
    alloc: Global,
    start: &AnyMachine,
    machine: &mut AnyMachine,
    runs: &mut Runs,
    kind: SeedKind,
    most: u32,
    seed: u64,
    lines: &mut Vec<OutcomeLine>,
) -> Result<(), NoMemory>
    requires begins { CanBegin 0 runs.old.recorder (machine_state start.now) }
    requires none { (machine_state start.now).machine.ops ≡ [] }
    requires twin { IsTwin 0 start.now machine.old }
    requires few { AreFew lines.old.items }
    ensures counted { OnOk result
        (lines.new.items
        ≡ counted seed (seed_end kind runs.old.recorder.shape most (machine_state start.now).machine seed)
        lines.old.items) }
    ensures twin { OnOk result (IsTwin 0 start.now machine.new) }
    ensures same { OnOk result (runs.new.recorder ≡ runs.old.recorder) }
{
    let end = record_seed(start, machine, runs, kind, most, seed)?;
    put_end(&mut runs.text, end, machine)?;
    count_outcome(alloc, lines, seed, &runs.text)
}

/// What the recorded runs of so many seeds from `first` on came to, each of `most` turns at most from the start: a line for each
/// different end, in the order in which they are printed. Both machines are of one tree and image, and `start` has made no turn;
/// `machine` makes all turns.
pub fn survey(
    alloc: Global,
    start: &AnyMachine,
    machine: &mut AnyMachine,
    shape: &Shape,
    kind: SeedKind,
    most: u32,
    first: u64,
    count: u32,
) -> Result<Vec<OutcomeLine>, NoMemory>
    requires begins { IsStart (shape_view shape.now) (machine_state start.now) }
    requires none { (machine_state start.now).machine.ops ≡ [] }
    requires twin { IsTwin 0 start.now machine.old }
    requires seeds { first + count ≤ 2 ^ 64 }
    ensures { IfOk result
        (λ lines. lines.items
        ≡ survey_table kind (shape_view shape.now) most (machine_state start.now).machine first count) }
{
    let mut runs = Runs {
        recorder: Recorder::new(alloc, shape, start)?,
        turns: Vec::new(alloc),
        text: Vec::new(alloc),
    };
    let mut lines = Vec::new(alloc);
    for number in 0..count {
        let seed = first + u64::from(number);
        count_recorded(
            alloc, start, machine, &mut runs, kind, most, seed, &mut lines,
        )?;
    }
    in_order(alloc, lines)
}
