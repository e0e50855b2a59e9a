//! The command `check`: a witness is judged.

ghost use Rattle.std.specs.Prelude.{◌≡◌, ◌<◌, Ok, IfErr, IfOk, IfSome, OnErr, length};
ghost use Rattle.ddm_cli.specs.DdmOutside.Causes.{HasCause};
ghost use Rattle.witness_check.specs.Reader.{begun};
ghost use Rattle.witness_check.specs.Start.{Setting};
ghost use Rattle.ddm_cli.specs.Causes.{ComesTo, WitnessCause};
ghost use Rattle.ddm_words.specs.Commands.{to_check};
ghost use Rattle.ddm_cli.specs.Printed.{legal_line};
ghost use Rattle.ddm_cli.specs.Reads.{IsBehind};
ghost use Rattle.ddm_cli.specs.Top.{HasAccepted, NoVerdict, WritesAccepted};
ghost use Rattle.ddm_words.specs.Views.{check_from};

use crate::files::{setting_file, tree_file};
use crate::of_ddm_outside::{Failed, Shelf, Sink};
use crate::of_report::{FileRole, Line, write_all};
use crate::reading::read_buffer;
use crate::status::Status;
use ddm_words::Check;
use std::alloc::Global;
use witness_check::WitnessReader;

fn legal_line(lines: u32) -> Line
    ensures { result ≡ legal_line lines }
{
    let mut line = Line::new();
    line.push(b"legal ");
    line.push_number(u64::from(lines));
    line.push(b"\n");
    line
}

// Gives a whole witness file to its reader, a piece at a time.
fn feed_file<F: Shelf>(
    files: &mut F,
    name: &str,
    buffer: &mut [u8],
    reader: &mut WitnessReader,
) -> Result<(), Status>
    requires room { 0 < length buffer.old }
    requires begins { (s : Setting) × (reader.old ≡ begun s) }
    ensures read { IfOk result (λ u. IfSome (F.told files.old name.now) (IsBehind reader.old reader.new)) }
    ensures cause { IfErr result
        (WitnessCause reader.old (F.told files.old name.now) (F.faults files.old name.now)
        (F.faults files.new name.now)) }
{
    let mut at = 0;
    'reading: loop {
        let Ok(n) = files.read(name, at, buffer) else {
            return Err(Status::ReadFault(FileRole::WitnessFile));
        };
        if n == 0 {
            return Ok(());
        }
        match reader.feed(&buffer[..n]) {
            Ok(()) => at += n as u64,
            Err(refusal) => return Err(Status::Witness(refusal)),
        }
    }
}

// How many lines a witness file has that its reader accepts.
fn lines_in<F: Shelf>(
    files: &mut F,
    name: &str,
    buffer: &mut [u8],
    mut reader: WitnessReader,
) -> Result<u32, Status>
    requires room { 0 < length buffer.old }
    requires begins { (s : Setting) × (reader ≡ begun s) }
    ensures comes { IfOk result (λ lines. IfSome (F.told files.old name.now) (ComesTo reader (Ok lines))) }
    ensures cause { IfErr result
        (WitnessCause reader (F.told files.old name.now) (F.faults files.old name.now)
        (F.faults files.new name.now)) }
{
    feed_file(files, name, buffer, &mut reader)?;
    match reader.finish() {
        Ok(lines) => Ok(lines),
        Err(refusal) => Err(Status::Witness(refusal)),
    }
}

// How many lines a witness has that is accepted, or the status without them.
fn witness_lines<F: Shelf>(alloc: Global, files: &mut F, check: Check<'_>) -> Result<u32, Status>
    ensures taken { IfOk result (λ lines. HasAccepted F.told files.old (legal_line lines) (to_check (check_from check.entry))) }
    ensures refused { IfErr result (λ status. NoVerdict F.told F.faults files.old files.new status (check_from check.entry)) }
{
    let mut buffer = read_buffer(alloc)?;
    let tree = tree_file(alloc, files, check.tree, &mut buffer)?;
    let reader = setting_file(alloc, files, check.image, &mut buffer, &tree)?;
    lines_in(files, check.witness, &mut buffer, reader)
}

/// Judges a witness, and writes how many lines it has where it is accepted; or answers the status without a text. The flat machine,
/// a line and the buffer are all that is held of the files.
pub fn write_check<F: Shelf, K: Sink>(
    alloc: Global,
    files: &mut F,
    out: &mut K,
    check: Check<'_>,
) -> Result<Result<(), Failed>, Status>
    ensures written { IfOk result (WritesAccepted F.told files.old (K.held out.old) (K.held out.new) (to_check (check_from check.entry))) }
    ensures failed { IfOk result (HasCause (K.faults out.old) (K.faults out.new)) }
    ensures refused { IfErr result (λ status. NoVerdict F.told F.faults files.old files.new status (check_from check.entry)) }
    ensures same { OnErr result (K.held out.new ≡ K.held out.old) }
{
    let lines = witness_lines(alloc, files, check)?;
    Ok(write_all(out, legal_line(lines).as_slice()))
}
