//! The command `join`: the tables of several files, put together as one.

ghost use Rattle.std.specs.Prelude.{◌≡◌, ◌≤◌, ◌<◌, ◌+◌, ℕ, List, Ok, length, map, take, IfErr, IfOk, IfSome};
ghost use Rattle.std.specs.Prelude.{MatchResult, OnErr, OnOk, sum_by};
ghost use Rattle.std.specs.String.{string_bytes};
ghost use Rattle.ddm_cli.specs.DdmOutside.Causes.{HasCause, Rose};
ghost use Rattle.ddm_words.specs.Commands.{IsInRange, to_join};
ghost use Rattle.ddm_cli.specs.Tables.{TableCause, table_status};
ghost use Rattle.ddm_cli.specs.Told.{files_told};
ghost use Rattle.ddm_cli.specs.Top.{HasAccepted, NoJoin, WritesAccepted};
ghost use Rattle.joining.specs.JoinModel.Files.{sum_of, with_file};
ghost use Rattle.joining.specs.JoinModel.Table.{table_in};
ghost use Rattle.joining.specs.Said.{IsCounted, sum_said, table_said, times};

use crate::of_ddm_outside::{Failed, Shelf, Sink};
use crate::of_report::write_all;
use crate::reading::{ReadError, read_buffer, read_whole};
use crate::status::Status;
use joining::of_join_model::TableRefusal;
use joining::{ReadTable, TableError, TableSum, read_table};
use std::alloc::Global;

/// The most bytes of a table that are read.
const MOST_TABLE: u64 = 67_108_864;

// A stream gives its bytes once. Where this name comes again, the front of its file is asked for while it is open, so that a stream
// is refused as it is where it is read twice.
fn front_again<F: Shelf>(
    files: &mut F,
    name: &str,
    later: &[String],
    buffer: &mut [u8],
) -> Result<(), Failed>
    requires room { 0 < length buffer.old }
    ensures cause { OnErr result (Rose (F.faults files.old name.now) (F.faults files.new name.now)) }
    ensures same { F.told files.new ≡ F.told files.old }
    ensures later { (other : List ℕ) → F.faults files.old other ≤ F.faults files.new other }
{
    if later.iter().any(|other| other.as_str() == name) {
        files.read(name, 0, buffer)?;
    }
    Ok(())
}

// How a command ends whose table of this number isn't read.
fn table_status(number: u32, error: TableError) -> Status
    ensures { result ≡ table_status number error }
{
    match error {
        TableError::Refused(refusal) => Status::Table(number, refusal),
        TableError::Memory => Status::NoMemory,
    }
}

// The table of a file, which is to be this one.
fn table_file<F: Shelf>(
    alloc: Global,
    files: &mut F,
    name: &str,
    later: &[String],
    number: u32,
    buffer: &mut [u8],
) -> Result<ReadTable, Status>
    requires room { 0 < length buffer.old }
    ensures found { IfOk result (λ t. IfSome (F.told files.old name.now) (λ file. table_in file ≡ Ok (table_said t))) }
    ensures counted { IfOk result (λ t. sum_by times t.lines.items ≡ t.runs) }
    ensures cause { IfErr result
        (TableCause number (F.told files.old name.now) (F.faults files.old name.now)
        (F.faults files.new name.now)) }
    ensures same { F.told files.new ≡ F.told files.old }
    ensures later { (other : List ℕ) → F.faults files.old other ≤ F.faults files.new other }
{
    let text = match read_whole(alloc, files, name, MOST_TABLE, buffer) {
        Ok(text) => text,
        Err(ReadError::Failed) => return Err(Status::UnreadTable(number)),
        Err(ReadError::TooLong) => return Err(Status::Table(number, TableRefusal::TooLong)),
        Err(ReadError::Memory) => return Err(Status::NoMemory),
    };
    if front_again(files, name, later, buffer).is_err() {
        return Err(Status::UnreadTable(number));
    }
    match read_table(alloc, &text) {
        Ok(table) => Ok(table),
        Err(error) => Err(table_status(number, error)),
    }
}

// What the tables of these files come to, one after the other.
fn tables_sum<F: Shelf>(
    alloc: Global,
    files: &mut F,
    names: &[String],
    buffer: &mut [u8],
) -> Result<TableSum, Status>
    requires room { 0 < length buffer.old }
    requires few { length names.now ≤ 256 }
    ensures sum { IfOk result
        (λ s. IfSome (files_told (F.told files.old) (map string_bytes names.now))
        (λ tables. sum_of tables ≡ Ok (sum_said s))) }
    ensures refused { IfErr result (λ status. NoJoin F.told F.faults files.old files.new status (map string_bytes names.now)) }
{
    let mut sum = TableSum::new(alloc);
    'joining: for place in 0..names.len() {
        let number = place as u32 + 1;
        let table = match table_file(
            alloc,
            files,
            &names[place],
            &names[place + 1..],
            number,
            buffer,
        ) {
            Ok(table) => table,
            Err(status) => return Err(status),
        };
        match sum.add(alloc, &table) {
            Ok(()) => {}
            Err(error) => return Err(table_status(number, error)),
        }
    }
    Ok(sum)
}

// The text of the table of all runs, or the status without it.
fn joined_said<F: Shelf>(alloc: Global, files: &mut F, names: &[String]) -> Result<Vec<u8>, Status>
    requires range { IsInRange (to_join (map string_bytes names.now)) }
    ensures taken { IfOk result (λ text. HasAccepted F.told files.old text.items (to_join (map string_bytes names.now))) }
    ensures refused { IfErr result (λ status. NoJoin F.told F.faults files.old files.new status (map string_bytes names.now)) }
{
    let mut buffer = read_buffer(alloc)?;
    let sum = tables_sum(alloc, files, names, &mut buffer)?;
    Ok(sum.into_text(alloc)?)
}

/// Puts tables together and writes the table of all their runs, or answers the status without a text.
pub fn write_joined<F: Shelf, K: Sink>(
    alloc: Global,
    files: &mut F,
    out: &mut K,
    names: &[String],
) -> Result<Result<(), Failed>, Status>
    requires range { IsInRange (to_join (map string_bytes names.now)) }
    ensures written { IfOk result
        (WritesAccepted F.told files.old (K.held out.old) (K.held out.new)
        (to_join (map string_bytes names.now))) }
    ensures failed { IfOk result (HasCause (K.faults out.old) (K.faults out.new)) }
    ensures refused { IfErr result (λ status. NoJoin F.told F.faults files.old files.new status (map string_bytes names.now)) }
    ensures same { OnErr result (K.held out.new ≡ K.held out.old) }
{
    let text = joined_said(alloc, files, names)?;
    Ok(write_all(out, &text))
}
