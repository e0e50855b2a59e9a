//! The command `page`: a run turn by turn, as a page for a browser.

ghost use Rattle.std.specs.Prelude.{◌≡◌, ◌<◌, ◌≤◌, ℕ, List, Ok, IfErr, IfOk, IfSome, OnErr, length};
ghost use Rattle.std.specs.List.{AllByRecursion};
ghost use Rattle.ddm_cli.specs.TreeModel.Start.Sources.{ImageValue};
ghost use Rattle.ddm_cli.specs.BusLaws.IsTree.{IsTree};
ghost use Rattle.ddm_cli.specs.ElfLoad.ElfFile.{image_of};
ghost use Rattle.ddm_cli.specs.AnyMachine.Any.{machine_state};
ghost use Rattle.ddm_cli.specs.DdmOutside.Causes.{HasCause};
ghost use Rattle.ddm_cli.specs.TextModel.ReadBack.{GivesTurnsOf};
ghost use Rattle.ddm_cli.specs.ScheduleLog.Shapes.{shape_view};
ghost use Rattle.film_runs.specs.ValueLaws.Images.{IsOfBytes};
ghost use Rattle.ddm_cli.specs.Causes.{AcceptedAs, ImageCause, IsUnscheduled, ScheduleCause};
ghost use Rattle.ddm_words.specs.Commands.{paged_run, to_page};
ghost use Rattle.ddm_cli.specs.Paging.{IsPageBy};
ghost use Rattle.ddm_cli.specs.Parts.{HasStart, IsStart, before_page, turns_at};
ghost use Rattle.ddm_cli.specs.Top.{HasAccepted, NoRun, WritesAccepted};
ghost use Rattle.ddm_words.specs.Views.{paged_from};
ghost use Rattle.ddm_words.specs.declared.command.Prints.TheVariants.{Report};

use crate::files::{image_in, tree_file};
use crate::judging::built;
use crate::of_any_machine::release;
use crate::of_ddm_outside::{Failed, Shelf, Sink};
use crate::of_ddm_types::Turn;
use crate::of_elf_load::Image;
use crate::of_report::{FileRole, write_all};
use crate::of_schedule_log::{FeedError, ScheduleReader};
use crate::of_tree_config::TreeConfig;
use crate::reading::read_buffer;
use crate::status::Status;
use ddm_words::Paged;
use film_runs::page_text;
use run_engine::AnyMachine;
use std::alloc::Global;

// A schedule is read after so many turns, of which there are 1,048,576 at most: so 100,000 are left for a page.
const BEFORE_PAGE: u32 = 948_576;

// Looks at bytes: each is one.
fn see_bytes(bytes: &[u8])
    ensures { AllByRecursion (λ byte. byte < 256) bytes.now }
{
    'bytes: for byte in bytes {
        let _seen = *byte;
    }
}

// Looks at a word: it has 32 bits.
fn see_word(word: u32)
    ensures { word < 4294967296 }
{
    let _seen = word;
}

// Looks at the bytes of an image, and at its entry.
fn see_image(image: &Image)
    ensures { IsOfBytes image.now }
{
    see_word(image.entry);
    'segments: for segment in &image.segments {
        see_bytes(&segment.bytes);
    }
}

// The machine of a tree and an image file, whose image is of bytes.
fn first_machine<F: Shelf>(
    alloc: Global,
    files: &mut F,
    name: &str,
    buffer: &mut [u8],
    tree: &TreeConfig,
) -> Result<AnyMachine, Status>
    requires { 0 < length buffer.old }
    ensures found { IfOk result
        (λ m. (i : ImageValue)
        × IsStart tree.now i (machine_state m)
        × IsOfBytes i
        × IfSome (F.told files.old name.now) (λ file. image_of tree.now.item_bytes file ≡ Ok i)) }
    ensures cause { IfErr result
        (ImageCause tree.now (F.told files.old name.now) (F.faults files.old name.now)
        (F.faults files.new name.now)) }
    ensures same { F.told files.new ≡ F.told files.old }
    ensures later { (other : List ℕ) → F.faults files.old other ≤ F.faults files.new other }
{
    let image = image_in(alloc, files, name, buffer, tree)?;
    see_image(&image);
    built(alloc, tree, &image)
}

// The turns of a schedule file, of which there are 100,000 at most.
fn turns_read<F: Shelf>(
    alloc: Global,
    files: &mut F,
    name: &str,
    buffer: &mut [u8],
    tree: &TreeConfig,
) -> Result<Vec<Turn>, Status>
    requires { 0 < length buffer.old }
    ensures accepted { IfOk result (λ turns. AcceptedAs (turns_at tree.now.levels before_page) (F.told files.old name.now) turns.items) }
    ensures given { IfOk result (λ turns. GivesTurnsOf (shape_view tree.now.levels) before_page turns.items) }
    ensures cause { IfErr result
        (ScheduleCause (IsUnscheduled tree.now.levels before_page) (F.told files.old name.now)
        (F.faults files.old name.now) (F.faults files.new name.now)) }
{
    let mut reader = ScheduleReader::after(alloc, BEFORE_PAGE)?;
    let mut turns = Vec::new(alloc);
    let mut at = 0;
    'reading: loop {
        let Ok(n) = files.read(name, at, buffer) else {
            return Err(Status::ReadFault(FileRole::ScheduleFile));
        };
        if n == 0 {
            return match reader.finish() {
                Ok(()) => Ok(turns),
                Err((line, refusal)) => Err(Status::Schedule(line, refusal)),
            };
        }
        match reader.feed(&tree.nodes, &buffer[..n], &mut turns) {
            Ok(()) => at += n as u64,
            Err(FeedError::Refused(line, refusal)) => return Err(Status::Schedule(line, refusal)),
            Err(FeedError::NoMemory) => return Err(Status::NoMemory),
        }
    }
}

// Makes the turns of a schedule file on a machine before its first turn, and gives their page.
fn page_read<F: Shelf>(
    alloc: Global,
    files: &mut F,
    name: &str,
    buffer: &mut [u8],
    tree: &TreeConfig,
    machine: &mut AnyMachine,
) -> Result<Vec<u8>, Status>
    requires room { 0 < length buffer.old }
    requires tree { IsTree tree.now }
    requires start { (i : ImageValue) × IsStart tree.now i (machine_state machine.old) × IsOfBytes i }
    ensures page { IfOk result (λ text. IsPageBy tree.now (F.told files.old name.now) (machine_state machine.old).machine text.items) }
    ensures cause { IfErr result
        (ScheduleCause (IsUnscheduled tree.now.levels before_page) (F.told files.old name.now)
        (F.faults files.old name.now) (F.faults files.new name.now)) }
{
    let turns = turns_read(alloc, files, name, buffer, tree)?;
    Ok(page_text(alloc, tree, machine, &turns)?)
}

// The page of a tree file, an image file and a schedule file, or the status without it.
fn page_said<F: Shelf>(alloc: Global, files: &mut F, paged: Paged<'_>) -> Result<Vec<u8>, Status>
    ensures taken { IfOk result (λ text. HasAccepted F.told files.old text.items (to_page (paged_from paged.entry))) }
    ensures refused { IfErr result
        (λ status. NoRun F.told F.faults files.old files.new Report status (paged_run (paged_from paged.entry))) }
{
    let mut buffer = read_buffer(alloc)?;
    let tree = tree_file(alloc, files, paged.tree, &mut buffer)?;
    let mut machine = first_machine(alloc, files, paged.image, &mut buffer, &tree)?;
    let page = page_read(
        alloc,
        files,
        paged.schedule,
        &mut buffer,
        &tree,
        &mut machine,
    );
    release(machine);
    page
}

/// Makes the turns of a schedule and writes their page, or answers the status without a text.
pub fn write_paged<F: Shelf, K: Sink>(
    alloc: Global,
    files: &mut F,
    out: &mut K,
    paged: Paged<'_>,
) -> Result<Result<(), Failed>, Status>
    ensures written { IfOk result (WritesAccepted F.told files.old (K.held out.old) (K.held out.new) (to_page (paged_from paged.entry))) }
    ensures failed { IfOk result (HasCause (K.faults out.old) (K.faults out.new)) }
    ensures refused { IfErr result
        (λ status. NoRun F.told F.faults files.old files.new Report status (paged_run (paged_from paged.entry))) }
    ensures same { OnErr result (K.held out.new ≡ K.held out.old) }
{
    let text = page_said(alloc, files, paged)?;
    Ok(write_all(out, &text))
}
