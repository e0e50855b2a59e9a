//! Turns of a schedule file or of a seed are made, piece by piece.

ghost use Rattle.std.specs.Prelude.{◌≡◌, ◌<◌, ◌≤◌, ◌+◌, ◌++◌, [], ℕ, List, Some, false, length, vec_len, IfOk, IfErr, OnOk, if◌then◌else◌};
ghost use Rattle.ddm_cli.specs.TextModel.Run.{no_counts};
ghost use Rattle.ddm_cli.specs.TextModel.Trace.{trace_from};
ghost use Rattle.ddm_cli.specs.BusLaws.IsTree.{IsTree};
ghost use Rattle.ddm_cli.specs.AnyMachine.Any.{machine_state};
ghost use Rattle.ddm_cli.specs.AnyRuns.Run.{CanRun, NameParts, answers_in, counts_in, ran, with_room};
ghost use Rattle.ddm_cli.specs.Causes.{IsRefused, IsUnscheduled, ScheduleCause};
ghost use Rattle.ddm_words.specs.Commands.{AreFew};
ghost use Rattle.ddm_cli.specs.Made.{CanCount, CanGoOn, HasAllMade, counts_plus, kept_of};
ghost use Rattle.ddm_cli.specs.Parts.{turns_at, turns_of};
ghost use Rattle.ddm_words.specs.Kept.{is_summary, is_trace};
ghost use Rattle.ddm_cli.specs.Told as Told;
ghost use Rattle.ddm_cli.specs.Told.{schedule_faults, schedule_told};
ghost use Rattle.ddm_words.specs.Views.{turns_from};

use crate::limits::BLOCK_TURNS;
use crate::of_ddm_outside::Shelf;
use crate::of_ddm_types::{BusNo, NoMemory, Turn, TurnAnswer};
use crate::of_report::{FileRole, push_trace};
use crate::of_schedule_log::{FeedError, ScheduleReader, SeededTurns};
use crate::of_text_model::RunCounts;
use crate::of_tree_config::TreeConfig;
use crate::status::Status;
use ddm_words::{Prints, TurnSource};
use run_engine::{AnyMachine, forget_ops, run};
use std::alloc::Global;

/// What turns came to. The lines of their trace are kept, where it is asked for.
#[derive(Drop)]
pub struct Made {
    pub counts: RunCounts,
    pub trace: Vec<u8>,
}

fn nothing_counted() -> RunCounts
    ensures { result ≡ no_counts }
{
    RunCounts {
        turns: 0,
        retired: 0,
        granted: 0,
        busy: 0,
    }
}

fn nothing_made(alloc: Global, first: RunCounts) -> Made
    ensures counts { result.counts ≡ first }
    ensures trace { result.trace.items ≡ [] }
{
    Made {
        counts: first,
        trace: Vec::new(alloc),
    }
}

fn add_counts(counts: &mut RunCounts, more: RunCounts)
    requires { CanCount counts.old more }
    ensures { counts.new ≡ counts_plus counts.old more }
{
    counts.turns += more.turns;
    counts.retired += more.retired;
    counts.granted += more.granted;
    counts.busy += more.busy;
}

// Makes more turns. For a trace their lines are kept, and their answers are put into a list that is lent, until they are spelled.
fn make_turns(
    machine: &mut AnyMachine,
    turns: &[Turn],
    answers: &mut Vec<TurnAnswer>,
    made: &mut Made,
    keep: bool,
) -> Result<(), NoMemory>
    requires named { NameParts turns.now (machine_state machine.old).machine }
    requires few { CanRun turns.now (machine_state machine.old) }
    requires counted { CanCount made.old.counts (counts_in turns.now (machine_state machine.old)) }
    ensures after { OnOk result (machine_state machine.new ≡ ran turns.now (with_room (length turns.now) (machine_state machine.old))) }
    ensures counts { OnOk result (made.new.counts ≡ counts_plus made.old.counts (counts_in turns.now (machine_state machine.old))) }
    ensures trace { OnOk result
        (made.new.trace.items
        ≡ (if keep
        then made.old.trace.items
        ++ trace_from made.old.counts.turns turns.now
        (answers_in turns.now (machine_state machine.old))
        else made.old.trace.items)) }
{
    answers.clear();
    let counts = run(machine, turns, answers, keep)?;
    if keep {
        push_trace(&mut made.trace, made.counts.turns, turns, answers)?;
    }
    add_counts(&mut made.counts, counts);
    Ok(())
}

/// Makes the turns of a schedule file on a machine whose turns before came to `first`, those of each piece that is read before the
/// next one is asked for. So a line that is refused is answered before any byte is asked for that comes after the piece with its end.
pub fn schedule_made<F: Shelf>(
    alloc: Global,
    files: &mut F,
    name: &str,
    buffer: &mut [u8],
    tree: &TreeConfig,
    first: RunCounts,
    machine: &mut AnyMachine,
    keep: bool,
) -> Result<Made, Status>
    requires room { 0 < length buffer.old }
    requires start { CanGoOn tree.now.levels first (machine_state machine.old) }
    ensures all { IfOk result
        (λ made. HasAllMade (turns_at tree.now.levels first.turns) (F.told files.old name.now) first keep false
        (machine_state machine.old) (machine_state machine.new) made) }
    ensures cause { IfErr result
        (ScheduleCause (IsUnscheduled tree.now.levels first.turns) (F.told files.old name.now)
        (F.faults files.old name.now) (F.faults files.new name.now)) }
    ensures later { (other : List ℕ) → F.faults files.old other ≤ F.faults files.new other }
{
    let mut reader = ScheduleReader::after(alloc, first.turns)?;
    let mut made = nothing_made(alloc, first);
    let mut turns = Vec::new(alloc);
    let mut answers = Vec::new(alloc);
    let mut at = 0;
    'reading: loop {
        let Ok(n) = files.read(name, at, buffer) else {
            return Err(Status::ReadFault(FileRole::ScheduleFile));
        };
        if n == 0 {
            return match reader.finish() {
                Ok(()) => Ok(made),
                Err((line, refusal)) => Err(Status::Schedule(line, refusal)),
            };
        }
        match reader.feed(&tree.nodes, &buffer[..n], &mut turns) {
            Ok(()) => at += n as u64,
            Err(FeedError::Refused(line, refusal)) => return Err(Status::Schedule(line, refusal)),
            Err(FeedError::NoMemory) => return Err(Status::NoMemory),
        }
        make_turns(machine, &turns, &mut answers, &mut made, keep)?;
        turns.clear();
    }
}

// Places for the turns of a block.
fn turn_block(alloc: Global) -> Result<Vec<Turn>, NoMemory>
    ensures { IfOk result (λ block. 0 < vec_len block) }
{
    Ok(Vec::from_elem(alloc, Turn::Down { bus: BusNo(0) }, BLOCK_TURNS)?)
}

// Forgets the operations of a machine of which none is printed.
fn forget_unprinted(machine: &mut AnyMachine, prints: Prints)
    ensures { machine_state machine.new
        ≡ record (machine_state machine.old)
        { machine = kept_of (is_summary prints) (machine_state machine.old).machine } }
{
    if prints.is_summary() {
        forget_ops(machine);
    }
}

// Makes the turns of a seed, those of each block before the next one is asked for.
fn seed_made(
    alloc: Global,
    tree: &TreeConfig,
    seed: u64,
    count: u32,
    machine: &mut AnyMachine,
    prints: Prints,
) -> Result<Made, NoMemory>
    requires few { count ≤ 1048576 }
    requires tree { IsTree tree.now }
    requires start { CanGoOn tree.now.levels no_counts (machine_state machine.old) }
    ensures { IfOk result
        (λ made. HasAllMade (turns_of tree.now.levels) (Some (Told.seeded seed count)) no_counts
        (is_trace prints) (is_summary prints) (machine_state machine.old) (machine_state machine.new) made) }
{
    let mut left = SeededTurns::new(alloc, &tree.nodes)?;
    left.begin(seed, count);
    let mut block = turn_block(alloc)?;
    let mut answers = Vec::new(alloc);
    let mut made = nothing_made(alloc, nothing_counted());
    'making: loop {
        let size = left.next_block(&mut block);
        if size == 0 {
            return Ok(made);
        }
        make_turns(
            machine,
            &block[..size],
            &mut answers,
            &mut made,
            prints.is_trace(),
        )?;
        forget_unprinted(machine, prints);
    }
}

/// Makes the turns of a run on the machine of a tree.
pub fn turns_made<F: Shelf>(
    alloc: Global,
    files: &mut F,
    turns: TurnSource<'_>,
    buffer: &mut [u8],
    tree: &TreeConfig,
    machine: &mut AnyMachine,
    prints: Prints,
) -> Result<Made, Status>
    requires room { 0 < length buffer.old }
    requires few { AreFew (turns_from turns) }
    requires tree { IsTree tree.now }
    requires start { CanGoOn tree.now.levels no_counts (machine_state machine.old) }
    ensures all { IfOk result
        (λ made. HasAllMade (turns_of tree.now.levels)
        (schedule_told (F.told files.old) (turns_from turns.entry)) no_counts (is_trace prints)
        (is_summary prints) (machine_state machine.old) (machine_state machine.new) made) }
    ensures cause { IfErr result
        (ScheduleCause (IsRefused tree.now.levels) (schedule_told (F.told files.old) (turns_from turns.entry))
        (schedule_faults (F.faults files.old) (turns_from turns.entry))
        (schedule_faults (F.faults files.new) (turns_from turns.entry))) }
    ensures later { (other : List ℕ) → F.faults files.old other ≤ F.faults files.new other }
{
    match turns {
        TurnSource::File(name) => schedule_made(
            alloc,
            files,
            name,
            buffer,
            tree,
            nothing_counted(),
            machine,
            prints.is_trace(),
        ),
        TurnSource::Seeded { seed, count } => {
            Ok(seed_made(alloc, tree, seed, count, machine, prints)?)
        }
    }
}
