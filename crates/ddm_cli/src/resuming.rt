//! The command `resume`: a run goes on from a checkpoint.

ghost use Rattle.std.specs.Prelude.{◌≡◌, ◌<◌, ◌≤◌, ℕ, List, Ok, IfErr, IfOk, IfSome, OnErr, Some, length};
ghost use Rattle.ddm_cli.specs.TreeModel.State.Shape.{frame_of};
ghost use Rattle.ddm_cli.specs.AnyMachine.Any.{machine_state};
ghost use Rattle.ddm_cli.specs.AnyRuns.Run.{AreBelow};
ghost use Rattle.checkpoint.specs.Resumed.{resumed};
ghost use Rattle.ddm_cli.specs.DdmOutside.Causes.{HasCause};
ghost use Rattle.ddm_cli.specs.Causes.{CheckpointCause, IsUnscheduled, ScheduleCause};
ghost use Rattle.ddm_words.specs.Commands.{to_resume};
ghost use Rattle.ddm_cli.specs.Made.{CanGoOn};
ghost use Rattle.ddm_cli.specs.Reads.{ReadCause, WritesRest, checkpoint_status, unread};
ghost use Rattle.ddm_cli.specs.Top.{NoRest, WritesAccepted};
ghost use Rattle.ddm_words.specs.Views.{resumption_from};

use crate::files::{image_file, tree_file};
use crate::making::schedule_made;
use crate::of_any_machine::release;
use crate::of_ddm_outside::{Failed, Shelf, Sink};
use crate::of_report::FileRole;
use crate::of_text_model::RunCounts;
use crate::of_tree_config::TreeConfig;
use crate::printing::write_report;
use crate::reading::{ReadError, read_buffer};
use crate::status::Status;
use checkpoint::{CheckpointFile, MOST_BYTES, ResumeRefusal, resume};
use ddm_words::Resumption;
use run_engine::AnyMachine;
use std::alloc::Global;

// The machine that a checkpoint's bytes say, and what its turns came to.
fn resumed(
    alloc: Global,
    fresh: AnyMachine,
    file: &CheckpointFile,
) -> Result<(AnyMachine, RunCounts), Status>
    ensures found { IfOk result
        (λ r. resumed (machine_state fresh).machine file.now
        ≡ Ok (record { machine = (machine_state r.0).machine; counts = r.1 })) }
    ensures few { IfOk result (λ r. AreBelow 1048577 r.1) }
    ensures turns { IfOk result (λ r. (machine_state r.0).turns ≡ 1048576) }
    ensures frame { IfOk result (λ r. frame_of (machine_state r.0).machine ≡ frame_of (machine_state fresh).machine) }
    ensures cause { IfErr result (CheckpointCause (machine_state fresh).machine (Some file.now) 0 0) }
{
    match resume(alloc, fresh, file) {
        Ok(resumed) => Ok(resumed),
        Err(refusal) => Err(refused(refusal)),
    }
}

// How a command ends whose checkpoint is refused.
fn refused(refusal: ResumeRefusal) -> Status
    ensures { result ≡ checkpoint_status refusal }
{
    match refusal {
        ResumeRefusal::NoMemory => Status::NoMemory,
        refusal => Status::Checkpoint(refusal),
    }
}

// Reads a whole checkpoint of at most so many bytes as may be read, over a buffer that is lent. Its words alone are kept.
fn read_checkpoint<F: Shelf>(
    alloc: Global,
    files: &mut F,
    name: &str,
    buffer: &mut [u8],
) -> Result<CheckpointFile, ReadError>
    requires { 0 < length buffer.old }
    ensures found { IfOk result (λ read. IfSome (F.told files.old name.now) (λ file. read ≡ file)) }
    ensures cause { IfErr result
        (ReadCause (F.told files.old name.now) 536870912 (F.faults files.old name.now)
        (F.faults files.new name.now)) }
    ensures same { F.told files.new ≡ F.told files.old }
    ensures later { (other : List ℕ) → F.faults files.old other ≤ F.faults files.new other }
{
    let mut file = CheckpointFile::new(alloc);
    'reading: while file.len() <= MOST_BYTES {
        let Ok(n) = files.read(name, file.len(), buffer) else {
            return Err(ReadError::Failed);
        };
        if n == 0 {
            return Ok(file);
        }
        match file.feed(&buffer[..n]) {
            Ok(longer) => file = longer,
            Err(_) => return Err(ReadError::Memory),
        }
    }
    Err(ReadError::TooLong)
}

// The same of a file.
fn resumed_file<F: Shelf>(
    alloc: Global,
    files: &mut F,
    name: &str,
    buffer: &mut [u8],
    fresh: AnyMachine,
) -> Result<(AnyMachine, RunCounts), Status>
    requires { 0 < length buffer.old }
    ensures found { IfOk result
        (λ r. IfSome (F.told files.old name.now)
        (λ file. resumed (machine_state fresh).machine file
        ≡ Ok (record { machine = (machine_state r.0).machine; counts = r.1 }))) }
    ensures few { IfOk result (λ r. AreBelow 1048577 r.1) }
    ensures turns { IfOk result (λ r. (machine_state r.0).turns ≡ 1048576) }
    ensures frame { IfOk result (λ r. frame_of (machine_state r.0).machine ≡ frame_of (machine_state fresh).machine) }
    ensures cause { IfErr result
        (CheckpointCause (machine_state fresh).machine (F.told files.old name.now) (F.faults files.old name.now)
        (F.faults files.new name.now)) }
    ensures same { F.told files.new ≡ F.told files.old }
    ensures later { (other : List ℕ) → F.faults files.old other ≤ F.faults files.new other }
{
    match read_checkpoint(alloc, files, name, buffer) {
        Ok(file) => resumed(alloc, fresh, &file),
        Err(error) => {
            release(fresh);
            Err(unread(error))
        }
    }
}

// Why a checkpoint wasn't read.
fn unread(error: ReadError) -> Status
    ensures { result ≡ unread error }
{
    match error {
        ReadError::Failed => Status::ReadFault(FileRole::CheckpointFile),
        ReadError::TooLong => Status::Checkpoint(ResumeRefusal::TooLong),
        ReadError::Memory => Status::NoMemory,
    }
}

// Makes the rest of the turns, and writes the report of all.
fn write_rest<F: Shelf, K: Sink>(
    alloc: Global,
    files: &mut F,
    out: &mut K,
    name: &str,
    buffer: &mut [u8],
    tree: &TreeConfig,
    first: RunCounts,
    machine: &mut AnyMachine,
) -> Result<Result<(), Failed>, Status>
    requires room { 1024 ≤ length buffer.old }
    requires start { CanGoOn tree.now.levels first (machine_state machine.old) }
    ensures ran { IfOk result
        (WritesRest tree.now.levels (F.told files.old name.now)
        (record { machine = (machine_state machine.old).machine; counts = first }) (K.held out.old)
        (K.held out.new)) }
    ensures failed { IfOk result (HasCause (K.faults out.old) (K.faults out.new)) }
    ensures cause { IfErr result
        (ScheduleCause (IsUnscheduled tree.now.levels first.turns) (F.told files.old name.now)
        (F.faults files.old name.now) (F.faults files.new name.now)) }
    ensures same { OnErr result (K.held out.new ≡ K.held out.old) }
{
    let made = schedule_made(alloc, files, name, buffer, tree, first, machine, false)?;
    Ok(write_report(alloc, out, machine, &made, buffer)?)
}

/// Goes on with a run from a checkpoint and writes the report of all turns, or answers the status without a text. The tree is read
/// first, then the image, then the checkpoint, of which a machine is made before the schedule is read.
pub fn write_resumed<F: Shelf, K: Sink>(
    alloc: Global,
    files: &mut F,
    out: &mut K,
    resumption: Resumption<'_>,
) -> Result<Result<(), Failed>, Status>
    ensures written { IfOk result
        (WritesAccepted F.told files.old (K.held out.old) (K.held out.new)
        (to_resume (resumption_from resumption.entry))) }
    ensures failed { IfOk result (HasCause (K.faults out.old) (K.faults out.new)) }
    ensures refused { IfErr result (λ status. NoRest F.told F.faults files.old files.new status (resumption_from resumption.entry)) }
    ensures same { OnErr result (K.held out.new ≡ K.held out.old) }
{
    let mut buffer = read_buffer(alloc)?;
    let tree = tree_file(alloc, files, resumption.tree, &mut buffer)?;
    let fresh = image_file(alloc, files, resumption.image, &mut buffer, &tree)?;
    let (mut machine, first) = resumed_file(
        alloc,
        files,
        resumption.checkpoint,
        &mut buffer,
        fresh,
    )?;
    let written = write_rest(
        alloc,
        files,
        out,
        resumption.schedule,
        &mut buffer,
        &tree,
        first,
        &mut machine,
    );
    release(machine);
    written
}
