//! What is printed of a run.

ghost use Rattle.std.specs.Prelude.{◌≡◌, ◌≤◌, ◌++◌, ℕ, List, None, true, false, length, IfOk, IfErr, OnOk, OnErr};
ghost use Rattle.ddm_cli.specs.DdmTypes.ItemTable.{item_count};
ghost use Rattle.ddm_cli.specs.TreeModel.State.Shape.{depth_of};
ghost use Rattle.ddm_cli.specs.TreeModel.Turns.Witness.{sorted_ops};
ghost use Rattle.ddm_cli.specs.TextModel.Report.{report_of, summary_of};
ghost use Rattle.ddm_cli.specs.TextModel.Run.{view_of};
ghost use Rattle.ddm_cli.specs.BusLaws.IsTree.{IsTree};
ghost use Rattle.ddm_cli.specs.AnyMachine.Any.{machine_state};
ghost use Rattle.ddm_cli.specs.DdmOutside.Causes.{HasCause};
ghost use Rattle.ddm_cli.specs.ReportCrate.Appends.{Appends, AppendsPart};
ghost use Rattle.ddm_cli.specs.JamLaws.GoesOn.{has_large_lists};
ghost use Rattle.ddm_cli.specs.Causes.{RanCause};
ghost use Rattle.ddm_words.specs.Commands.{AreFew};
ghost use Rattle.ddm_cli.specs.Lists.{list_refused};
ghost use Rattle.ddm_cli.specs.Parts.{HasStart};
ghost use Rattle.ddm_words.specs.Kept.{is_summary};
ghost use Rattle.ddm_cli.specs.Printed.{Writes, made_text};
ghost use Rattle.ddm_cli.specs.Reads.{WritesRan};
ghost use Rattle.ddm_cli.specs.Told.{schedule_faults, schedule_told};
ghost use Rattle.ddm_words.specs.Views.{turns_from};
ghost use Rattle.ddm_words.specs.declared.command.Prints.TheVariants.{Unjamming};

use crate::making::{Made, turns_made};
use crate::of_ddm_outside::{Failed, Shelf, Sink};
use crate::of_ddm_types::NoMemory;
use crate::of_report::{ReportPieces, sorted_witness, summary_text, write_all, write_pieces};
use crate::of_tree_config::TreeConfig;
use crate::status::Status;
use crate::unjamming::{list_refused, write_unjamming};
use checkpoint::CheckpointPieces;
use ddm_words::{Prints, TurnSource};
use run_engine::AnyMachine;
use std::alloc::Global;

// Writes the trace that is kept, none where it isn't asked for, and then a report.
fn write_run<K: Sink>(
    out: &mut K,
    made: &Made,
    report: &mut ReportPieces<'_>,
    buffer: &mut [u8],
) -> Result<(), Failed>
    requires room { 1024 ≤ length buffer.old }
    ensures written { Writes (K.held out.old) (K.held out.new) (made.now.trace.items ++ report.old) result }
    ensures cause { HasCause (K.faults out.old) (K.faults out.new) result }
{
    write_all(out, &made.trace)?;
    write_pieces(out, report, buffer)
}

/// Writes the trace that is kept, and then the report. All memory is taken before the first write.
pub fn write_report<K: Sink>(
    alloc: Global,
    out: &mut K,
    machine: &AnyMachine,
    made: &Made,
    buffer: &mut [u8],
) -> Result<Result<(), Failed>, NoMemory>
    requires room { 1024 ≤ length buffer.old }
    ensures written { let m = (machine_state machine.now).machine in
        IfOk result (Writes (K.held out.old) (K.held out.new)
        (made.now.trace.items ++ report_of (view_of (depth_of m) made.now.counts m))) }
    ensures cause { IfOk result (HasCause (K.faults out.old) (K.faults out.new)) }
    ensures same { OnErr result (K.held out.new ≡ K.held out.old) }
{
    let witness = sorted_witness(alloc, machine)?;
    let mut report = ReportPieces::in_order(machine, witness, made.counts);
    Ok(write_run(out, made, &mut report, buffer))
}

// Writes what is printed of turns that were made. All memory is taken before the first write.
fn write_made<K: Sink>(
    alloc: Global,
    out: &mut K,
    machine: &AnyMachine,
    made: &Made,
    prints: Prints,
    buffer: &mut [u8],
) -> Result<Result<(), Failed>, NoMemory>
    requires room { 1024 ≤ length buffer.old }
    requires counted { is_summary prints ≡ false → made.now.counts.retired ≡ length (machine_state machine.now).machine.ops }
    requires large { prints ≡ Unjamming → has_large_lists (machine_state machine.now).machine ≡ true }
    ensures written { IfOk result
        (Writes (K.held out.old) (K.held out.new)
        (made_text prints (machine_state machine.now).machine made.now)) }
    ensures cause { IfOk result (HasCause (K.faults out.old) (K.faults out.new)) }
    ensures same { OnErr result (K.held out.new ≡ K.held out.old) }
{
    match prints {
        Prints::Unjamming => Ok(write_unjamming(out, machine)),
        Prints::Summary => {
            let text = summary_text(alloc, machine, made.counts)?;
            Ok(write_all(out, &text))
        }
        Prints::Checkpoint => {
            let mut pieces = CheckpointPieces::new(alloc, machine, made.counts)?;
            Ok(write_pieces(out, &mut pieces, buffer))
        }
        Prints::Report | Prints::Trace => { write_report(alloc, out, machine, made, buffer) }
    }
}

/// Makes the turns of a run on a tree's machine, and writes what is printed of it. Its lists are judged before the turns are asked
/// for.
pub fn write_ran<F: Shelf, K: Sink>(
    alloc: Global,
    files: &mut F,
    out: &mut K,
    turns: TurnSource<'_>,
    buffer: &mut [u8],
    tree: &TreeConfig,
    machine: &mut AnyMachine,
    prints: Prints,
) -> Result<Result<(), Failed>, Status>
    requires room { 1024 ≤ length buffer.old }
    requires few { AreFew (turns_from turns) }
    requires tree { IsTree tree.now }
    requires start { HasStart tree.now (machine_state machine.old) }
    ensures ran { IfOk result
        (WritesRan prints tree.now.levels (schedule_told (F.told files.old) (turns_from turns.entry))
        (machine_state machine.old).machine (K.held out.old) (K.held out.new)) }
    ensures failed { IfOk result (HasCause (K.faults out.old) (K.faults out.new)) }
    ensures large { OnOk result (list_refused prints tree.now.sizes (item_count (machine_state machine.old).machine.items) ≡ None) }
    ensures cause { IfErr result
        (RanCause prints tree.now (item_count (machine_state machine.old).machine.items)
        (schedule_told (F.told files.old) (turns_from turns.entry))
        (schedule_faults (F.faults files.old) (turns_from turns.entry))
        (schedule_faults (F.faults files.new) (turns_from turns.entry))) }
    ensures same { OnErr result (K.held out.new ≡ K.held out.old) }
    ensures later { (other : List ℕ) → F.faults files.old other ≤ F.faults files.new other }
{
    if let Some(key) = list_refused(prints, &tree.sizes(), machine.items().len()) {
        return Err(Status::SmallLists(key));
    }
    let made = turns_made(alloc, files, turns, buffer, tree, machine, prints)?;
    Ok(write_made(alloc, out, machine, &made, prints, buffer)?)
}
