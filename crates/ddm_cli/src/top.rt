//! The top call: from the words of a command to its status.

ghost use Rattle.std.specs.Prelude.{◌≡◌, ◌≤◌, length, map, IfOk, IfErr, OnErr};
ghost use Rattle.ddm_cli.specs.DdmOutside.Causes.{HasCause};
ghost use Rattle.std.specs.String.{string_bytes};
ghost use Rattle.ddm_cli.specs.Causes.{TreeCause};
ghost use Rattle.ddm_words.specs.Commands.{IsInRange, to_list, to_run};
ghost use Rattle.ddm_cli.specs.Top.{Completes, HasAccepted, NoRun, NotAccepted, Offers, RunIsWitnessed};
ghost use Rattle.ddm_cli.specs.Top.{StatusHasCause, WritesAccepted, fault_line, status_of};
ghost use Rattle.ddm_words.specs.Views.{command_from, run_from};

use crate::assembled::write_assembled;
use crate::checking::write_check;
use crate::fault::tell;
use crate::files::{image_machine, tree_file};
use crate::joined::write_joined;
use crate::listing::SchedulePieces;
use crate::measured::write_measured;
use crate::of_any_machine::release;
use crate::of_ddm_outside::{Failed, Shelf, Sink};
use crate::of_report::write_pieces;
use crate::paging::write_paged;
use crate::printing::write_ran;
use crate::reading::read_buffer;
use crate::recorded::write_recorded;
use crate::resuming::write_resumed;
use crate::saying::write_about;
use crate::status::Status;
use crate::survey::write_survey;
use crate::surveying::write_outcomes;
use ddm_words::{Command, Prints, Run, command_said};
use std::alloc::Global;

// Runs a machine and writes what is printed of it, or answers the status without a text.
fn write_run<F: Shelf, K: Sink>(
    alloc: Global,
    files: &mut F,
    out: &mut K,
    prints: Prints,
    run: Run<'_>,
) -> Result<Result<(), Failed>, Status>
    requires range { IsInRange (to_run prints (run_from run)) }
    ensures written { IfOk result (WritesAccepted F.told files.old (K.held out.old) (K.held out.new) (to_run prints (run_from run.entry))) }
    ensures failed { IfOk result (HasCause (K.faults out.old) (K.faults out.new)) }
    ensures refused { IfErr result (λ status. NoRun F.told F.faults files.old files.new prints status (run_from run.entry)) }
    ensures same { OnErr result (K.held out.new ≡ K.held out.old) }
{
    let mut buffer = read_buffer(alloc)?;
    let tree = tree_file(alloc, files, run.tree, &mut buffer)?;
    let mut machine = image_machine(alloc, files, run.image, &mut buffer, &tree)?;
    let written = write_ran(
        alloc,
        files,
        out,
        run.turns,
        &mut buffer,
        &tree,
        &mut machine,
        prints,
    );
    release(machine);
    written
}

// The schedule of a seed for the tree of a file, or the status without it.
fn list_pieces<F: Shelf>(
    alloc: Global,
    files: &mut F,
    tree: &str,
    seed: u64,
    count: u32,
    buffer: &mut [u8],
) -> Result<SchedulePieces, Status>
    requires room { 1024 ≤ length buffer.old }
    ensures taken { IfOk result (λ text. HasAccepted F.told files.old text (to_list tree.now seed count)) }
    ensures refused { IfErr result (TreeCause (F.told files.old tree.now) (F.faults files.old tree.now) (F.faults files.new tree.now)) }
{
    let tree = tree_file(alloc, files, tree, buffer)?;
    Ok(SchedulePieces::new(alloc, &tree.nodes, seed, count)?)
}

// Writes it.
fn write_list<F: Shelf, K: Sink>(
    alloc: Global,
    files: &mut F,
    out: &mut K,
    tree: &str,
    seed: u64,
    count: u32,
) -> Result<Result<(), Failed>, Status>
    ensures written { IfOk result (WritesAccepted F.told files.old (K.held out.old) (K.held out.new) (to_list tree.now seed count)) }
    ensures failed { IfOk result (HasCause (K.faults out.old) (K.faults out.new)) }
    ensures refused { IfErr result (TreeCause (F.told files.old tree.now) (F.faults files.old tree.now) (F.faults files.new tree.now)) }
    ensures same { OnErr result (K.held out.new ≡ K.held out.old) }
{
    let mut buffer = read_buffer(alloc)?;
    let mut pieces = list_pieces(alloc, files, tree, seed, count, &mut buffer)?;
    Ok(write_pieces(out, &mut pieces, &mut buffer))
}

// Writes what a command prints, or answers the status without a text.
fn write_command<F: Shelf, K: Sink>(
    alloc: Global,
    files: &mut F,
    out: &mut K,
    command: Command<'_>,
) -> Result<Result<(), Failed>, Status>
    requires range { IsInRange (command_from command) }
    ensures written { IfOk result (WritesAccepted F.told files.old (K.held out.old) (K.held out.new) (command_from command.entry)) }
    ensures failed { IfOk result (HasCause (K.faults out.old) (K.faults out.new)) }
    ensures refused { IfErr result (λ status. NotAccepted F.told F.faults files.old files.new status (command_from command.entry)) }
    ensures same { OnErr result (K.held out.new ≡ K.held out.old) }
{
    match command {
        Command::Run(prints, run) => write_run(alloc, files, out, prints, run),
        Command::List { tree, seed, count } => write_list(alloc, files, out, tree, seed, count),
        Command::Check(check) => write_check(alloc, files, out, check),
        Command::Resume(resumption) => write_resumed(alloc, files, out, resumption),
        Command::Outcomes(seeds) => write_outcomes(alloc, files, out, seeds),
        Command::Record(recorded) => write_recorded(alloc, files, out, recorded),
        Command::Measure(recorded) => write_measured(alloc, files, out, recorded),
        Command::Survey(survey) => write_survey(alloc, files, out, survey),
        Command::Join(names) => write_joined(alloc, files, out, names),
        Command::Page(paged) => write_paged(alloc, files, out, paged),
        Command::Assemble(assembly) => write_assembled(alloc, files, out, assembly),
        Command::About(about) => Ok(write_about(out, about)),
    }
}

fn status_of(written: Result<Result<(), Failed>, Status>) -> Status
    ensures { result ≡ status_of written }
{
    match written {
        Ok(Ok(())) => Status::Done,
        Ok(Err(_)) => Status::WriteFault,
        Err(status) => status,
    }
}

fn answer<F: Shelf, K: Sink>(alloc: Global, words: &[String], files: &mut F, out: &mut K) -> Status
    ensures { StatusHasCause F.told F.faults K.held K.faults (map string_bytes words.now) files.old files.new out.old out.new result }
{
    match command_said(words) {
        Ok(command) => status_of(write_command(alloc, files, out, command)),
        Err(place) => Status::Usage(place),
    }
}

/// Follows the words of a command: its text goes to `out`, and the line of a fault to `faults_out`. The tree is read first, then the
/// image, then the checkpoint, then the schedule or the witness, and nothing is written before all that the command names is read.
pub fn ddm_main<F: Shelf, K: Sink>(
    alloc: Global,
    words: &[String],
    files: &mut F,
    out: &mut K,
    faults_out: &mut K,
) -> Status
    ensures came { StatusHasCause F.told F.faults K.held K.faults (map string_bytes words.now) files.old files.new out.old out.new result }
    ensures order { RunIsWitnessed F.told (map string_bytes words.now) files.old }
    ensures complete { Completes F.told F.faults K.held K.faults (map string_bytes words.now) files.old files.new out.old out.new result }
    ensures told { Offers K.held K.faults faults_out.old faults_out.new (fault_line result) }
{
    let status = answer(alloc, words, files, out);
    tell(faults_out, &status);
    status
}
