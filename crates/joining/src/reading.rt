//! A table is read.

ghost use Rattle.std.specs.Prelude.{◌≡◌, ◌≤◌, ◌&&◌, ◌++◌, ◌∷◌, bytes_eq, codes, nat_eq, zero, [], Ok, Err, length};
ghost use Rattle.std.specs.Prelude.{sum_by, IfOk, OnOk, MatchResult};
ghost use Rattle.joining.specs.Said.{IsTableError, row_said, table_said, times};
ghost use Rattle.joining.specs.declared.reading.TableError.TheVariants.{Memory};
ghost use Rattle.joining.specs.TextModel.Schedule.{pieces_at};
ghost use Rattle.join_model.specs.Table.{lines_from, table_in, table_of_pieces};

use crate::line::OutcomeLine;
use crate::of_ddm_types::NoMemory;
use crate::of_join_model::{TableKind, TableRefusal};
use crate::words::{Heading, Row, heading_of, piece_end, row_of};
use std::alloc::Global;

const MOST_BYTES: usize = 67_108_864;

const END: &[u8] = b"end";

/// A table of so many runs.
#[derive(Drop)]
pub struct ReadTable {
    pub(crate) kind: TableKind,
    pub(crate) runs: u64,
    pub(crate) lines: Vec<OutcomeLine>,
}

/// Why a table isn't read.
#[derive(Clone, Copy, Debug, PartialEq, Eq)]
pub enum TableError {
    Refused(TableRefusal),
    Memory,
}

impl From<NoMemory> for TableError {
    ghost from_gives = { λ _ e. e ≡ Memory };

    fn from(_: NoMemory) -> Self {
        TableError::Memory
    }
}

impl OutcomeLine {
    fn of(alloc: Global, row: Row<'_>) -> Result<Self, NoMemory>
        ensures { IfOk result (λ l. l ≡ row_said row.entry) }
    {
        Ok(OutcomeLine {
            times: row.times,
            seed: row.seed,
            text: Vec::from_slice(alloc, row.outcome)?,
        })
    }
}

// Puts the line of a row at the end.
fn push_row(alloc: Global, lines: &mut Vec<OutcomeLine>, row: Row<'_>) -> Result<(), NoMemory>
    ensures { OnOk result (lines.new.items ≡ lines.old.items ++ row_said row.entry ∷ []) }
{
    lines.push(OutcomeLine::of(alloc, row)?)?;
    Ok(())
}

// Whether this line is the line `end`, where so many runs are left.
fn is_end(line: &[u8], left: u64) -> bool
    ensures { result ≡ (nat_eq left 0 && bytes_eq line.now (codes "end")) }
{
    left == 0 && line == END
}

// Whether the rest of a file is the line `end` alone, which is to be this line, where so many runs are left.
fn end_of(rest: &[u8], left: u64, line: u32) -> Result<(), TableRefusal>
    requires { line ≤ 67108866 }
    ensures { MatchResult result (λ u. lines_from line zero left (pieces_at 10 rest.now) ≡ Ok [])
        (λ r. lines_from line zero left (pieces_at 10 rest.now) ≡ Err r) }
{
    let end = piece_end(rest, b'\n');
    if end == rest.len() {
        return Err(TableRefusal::NoEnd(line));
    }
    if is_end(&rest[..end], left) {
        if end + 1 < rest.len() {
            return Err(TableRefusal::AfterEnd(line + 1));
        }
        return Ok(());
    }
    Err(TableRefusal::BadLine(line))
}

// The lines behind the first one.
fn lines_of(alloc: Global, text: &[u8], heading: Heading) -> Result<Vec<OutcomeLine>, TableError>
    requires { length text.now ≤ 67108864 }
    ensures { MatchResult result
        (λ ls. lines_from 2 heading.lines heading.runs (pieces_at 10 text.now) ≡ Ok ls.items)
        (λ e. IsTableError (lines_from 2 heading.lines heading.runs (pieces_at 10 text.now)) e) }
{
    let mut lines = Vec::new(alloc);
    let mut at = 0;
    let mut left = heading.runs;
    'reading: while (lines.len() as u64) < heading.lines {
        let rest = &text[at..];
        let end = piece_end(rest, b'\n');
        if end == rest.len() {
            return Err(TableError::Refused(TableRefusal::NoEnd(lines.len() as u32 + 2)));
        }
        let row = match row_of(&rest[..end], left) {
            Some(row) => row,
            None => return Err(TableError::Refused(TableRefusal::BadLine(lines.len() as u32 + 2))),
        };
        left -= row.times;
        push_row(alloc, &mut lines, row)?;
        at += end + 1;
    }
    match end_of(&text[at..], left, lines.len() as u32 + 2) {
        Ok(()) => Ok(lines),
        Err(refusal) => Err(TableError::Refused(refusal)),
    }
}

// A table that is no longer than a file may be.
fn table_of(alloc: Global, text: &[u8]) -> Result<ReadTable, TableError>
    requires { length text.now ≤ 67108864 }
    ensures { MatchResult result
        (λ t. table_of_pieces (pieces_at 10 text.now) ≡ Ok (table_said t))
        (λ e. IsTableError (table_of_pieces (pieces_at 10 text.now)) e) }
{
    let end = piece_end(text, b'\n');
    if end == text.len() {
        return Err(TableError::Refused(TableRefusal::NoEnd(1)));
    }
    let heading = match heading_of(&text[..end]) {
        Some(heading) => heading,
        None => return Err(TableError::Refused(TableRefusal::BadLine(1))),
    };
    match lines_of(alloc, &text[end + 1..], heading) {
        Ok(lines) => Ok(ReadTable {
            kind: heading.kind,
            runs: heading.runs,
            lines,
        }),
        Err(error) => Err(error),
    }
}

/// The table of a file's bytes, in one pass.
#[tactic(auto, unfolding(join_model::specs::Table::table_in))]
pub fn read_table(alloc: Global, text: &[u8]) -> Result<ReadTable, TableError>
    ensures table { MatchResult result (λ t. table_in text.now ≡ Ok (table_said t)) (λ e. IsTableError (table_in text.now) e) }
    ensures counted { IfOk result (λ t. sum_by times t.lines.items ≡ t.runs) }
{
    if text.len() > MOST_BYTES {
        return Err(TableError::Refused(TableRefusal::TooLong));
    }
    table_of(alloc, text)
}
