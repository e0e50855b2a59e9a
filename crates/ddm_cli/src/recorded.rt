//! The command `record`: the turns of a seed that do something, as a schedule.

ghost use Rattle.std.specs.Prelude.{◌≡◌, IfErr, IfOk, OnErr};
ghost use Rattle.ddm_cli.specs.DdmOutside.Causes.{HasCause};
ghost use Rattle.ddm_words.specs.Commands.{IsInRange, recorded_run, to_record};
ghost use Rattle.ddm_cli.specs.Top.{HasAccepted, NoRun, WritesAccepted};
ghost use Rattle.ddm_words.specs.Views.{recorded_from};
ghost use Rattle.ddm_words.specs.declared.command.Prints.TheVariants.{Report};

use crate::files::{image_file, tree_file};
use crate::of_any_machine::release;
use crate::of_ddm_outside::{Failed, Shelf, Sink};
use crate::of_report::write_all;
use crate::reading::read_buffer;
use crate::status::Status;
use ddm_words::Recorded;
use outcomes::of_recording::record_text;
use std::alloc::Global;

// The text of the recorded run of a tree file and an image file, or the status without it.
fn recorded_said<F: Shelf>(
    alloc: Global,
    files: &mut F,
    recorded: Recorded<'_>,
) -> Result<Vec<u8>, Status>
    requires range { IsInRange (to_record (recorded_from recorded)) }
    ensures taken { IfOk result (λ text. HasAccepted F.told files.old text.items (to_record (recorded_from recorded.entry))) }
    ensures refused { IfErr result
        (λ status. NoRun F.told F.faults files.old files.new Report status
        (recorded_run (recorded_from recorded.entry))) }
{
    let mut buffer = read_buffer(alloc)?;
    let tree = tree_file(alloc, files, recorded.tree, &mut buffer)?;
    let mut machine = image_file(alloc, files, recorded.image, &mut buffer, &tree)?;
    let text = record_text(
        alloc,
        &tree.nodes,
        &mut machine,
        recorded.kind,
        recorded.seed,
        recorded.turns,
    );
    release(machine);
    match text {
        Ok(text) => Ok(text),
        Err(_) => Err(Status::NoMemory),
    }
}

/// Records the run of a seed and writes its schedule, or answers the status without a text.
pub fn write_recorded<F: Shelf, K: Sink>(
    alloc: Global,
    files: &mut F,
    out: &mut K,
    recorded: Recorded<'_>,
) -> Result<Result<(), Failed>, Status>
    requires range { IsInRange (to_record (recorded_from recorded)) }
    ensures written { IfOk result
        (WritesAccepted F.told files.old (K.held out.old) (K.held out.new)
        (to_record (recorded_from recorded.entry))) }
    ensures failed { IfOk result (HasCause (K.faults out.old) (K.faults out.new)) }
    ensures refused { IfErr result
        (λ status. NoRun F.told F.faults files.old files.new Report status
        (recorded_run (recorded_from recorded.entry))) }
    ensures same { OnErr result (K.held out.new ≡ K.held out.old) }
{
    let text = recorded_said(alloc, files, recorded)?;
    Ok(write_all(out, &text))
}
