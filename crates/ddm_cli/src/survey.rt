//! The command `survey`: the ends of the recorded runs of many seeds.

ghost use Rattle.std.specs.Prelude.{◌≡◌, ◌+◌, ◌≤◌, IfErr, IfOk, OnErr};
ghost use Rattle.ddm_cli.specs.BusLaws.IsTree.{IsTree};
ghost use Rattle.ddm_cli.specs.AnyMachine.Any.{machine_state};
ghost use Rattle.ddm_cli.specs.AnyMachine.Kind.{kind_of};
ghost use Rattle.ddm_cli.specs.DdmOutside.Causes.{HasCause};
ghost use Rattle.ddm_cli.specs.ScheduleLog.Shapes.{shape_view};
ghost use Rattle.ddm_cli.specs.SurveyModel.Survey.{survey_text};
ghost use Rattle.ddm_words.specs.Commands.{IsInRange, surveyed_run, to_survey_runs};
ghost use Rattle.ddm_cli.specs.Parts.{HasStart};
ghost use Rattle.ddm_cli.specs.Top.{HasAccepted, NoRun, WritesAccepted};
ghost use Rattle.ddm_words.specs.Views.{survey_from};
ghost use Rattle.ddm_words.specs.declared.command.Prints.TheVariants.{Report};

use crate::files::{image_machines, tree_file};
use crate::of_any_machine::release;
use crate::of_ddm_outside::{Failed, Shelf, Sink};
use crate::of_ddm_types::NoMemory;
use crate::of_report::write_all;
use crate::of_tree_config::TreeConfig;
use crate::reading::read_buffer;
use crate::status::Status;
use ddm_words::Survey;
use outcomes::{push_survey, survey};
use run_engine::AnyMachine;
use std::alloc::Global;

// The text of the ends, with one machine at its start and another one that makes the turns.
#[tactic(auto, unfolding(crate::specs::Opened::survey_text))]
fn survey_text(
    alloc: Global,
    tree: &TreeConfig,
    start: &AnyMachine,
    machine: &mut AnyMachine,
    seeds: Survey<'_>,
) -> Result<Vec<u8>, NoMemory>
    requires tree { IsTree tree.now }
    requires start { HasStart tree.now (machine_state start.now) }
    requires alike { machine_state machine.old ≡ machine_state start.now }
    requires kind { kind_of machine.old ≡ kind_of start.now }
    requires seeds { seeds.first + seeds.count ≤ 18446744073709551616 }
    ensures { IfOk result
        (λ text. text.items
        ≡ survey_text seeds.entry.kind (shape_view tree.now.levels) seeds.entry.turns
        (machine_state start.now).machine seeds.entry.first seeds.entry.count) }
{
    let lines = survey(
        alloc,
        start,
        machine,
        &tree.nodes,
        seeds.kind,
        seeds.turns,
        seeds.first,
        seeds.count,
    )?;
    let mut text = Vec::new(alloc);
    push_survey(&mut text, seeds.count, &lines)?;
    Ok(text)
}

// The text of the ends of a tree file and an image file, or the status without it.
fn survey_said<F: Shelf>(alloc: Global, files: &mut F, seeds: Survey<'_>) -> Result<Vec<u8>, Status>
    requires range { IsInRange (to_survey_runs (survey_from seeds)) }
    ensures taken { IfOk result (λ text. HasAccepted F.told files.old text.items (to_survey_runs (survey_from seeds.entry))) }
    ensures refused { IfErr result
        (λ status. NoRun F.told F.faults files.old files.new Report status
        (surveyed_run (survey_from seeds.entry))) }
{
    let mut buffer = read_buffer(alloc)?;
    let tree = tree_file(alloc, files, seeds.tree, &mut buffer)?;
    let (start, mut machine) = image_machines(alloc, files, seeds.image, &mut buffer, &tree)?;
    let text = survey_text(alloc, &tree, &start, &mut machine, seeds);
    release(start);
    release(machine);
    match text {
        Ok(text) => Ok(text),
        Err(_) => Err(Status::NoMemory),
    }
}

/// Counts the ends of the recorded runs of many seeds and writes them, or answers the status without a text.
pub fn write_survey<F: Shelf, K: Sink>(
    alloc: Global,
    files: &mut F,
    out: &mut K,
    seeds: Survey<'_>,
) -> Result<Result<(), Failed>, Status>
    requires range { IsInRange (to_survey_runs (survey_from seeds)) }
    ensures written { IfOk result
        (WritesAccepted F.told files.old (K.held out.old) (K.held out.new)
        (to_survey_runs (survey_from seeds.entry))) }
    ensures failed { IfOk result (HasCause (K.faults out.old) (K.faults out.new)) }
    ensures refused { IfErr result
        (λ status. NoRun F.told F.faults files.old files.new Report status
        (surveyed_run (survey_from seeds.entry))) }
    ensures same { OnErr result (K.held out.new ≡ K.held out.old) }
{
    let text = survey_said(alloc, files, seeds)?;
    Ok(write_all(out, &text))
}
