//! The program: its rows, its threads, their labels.

ghost use Rattle.std.specs.Prelude.{◌≡◌, IfOk, drop};
ghost use Rattle.litmus_model.specs.Program.{program_of};
ghost use Rattle.litmus_text.specs.Reads.{Reads};
ghost use Rattle.litmus_read.specs.Kept.{IsKept, program_from};

use crate::labels::judge_labels;
use crate::names::{not_too_many, thread_count, whole_rows};
use crate::rows::read_rows;
use litmus_model::{PlacedStep, Token};
use litmus_text::{Piece, Unread, pieces_at};
use std::alloc::Global;

/// The threads and their steps.
#[derive(Drop)]
pub struct Program {
    pub threads: u32,
    /// Of all threads, row by row.
    pub steps: Vec<PlacedStep>,
}

/// All rows but the first.
fn behind_first(rows: &[Piece]) -> &[Piece]
    ensures { result.now ≡ drop 1 rows.now }
{
    &rows[1.min(rows.len())..]
}

/// The program of these tokens, behind which a token is in this line.
pub fn read_program(alloc: Global, line: u32, tokens: &[Token]) -> Result<Program, Unread>
    ensures program { Reads program_from (program_of line tokens.now) result }
    ensures kept { IfOk result (λ program. IsKept 256 0 program.steps.items) }
{
    let pieces = pieces_at(alloc, b';', line, tokens)?;
    let count = whole_rows(&pieces)?;
    let rows = &pieces[..count];
    let threads = thread_count(alloc, line, rows)?;
    not_too_many(rows)?;
    let steps = read_rows(alloc, threads, behind_first(rows))?;
    judge_labels(alloc, threads, &steps)?;
    Ok(Program { threads, steps })
}
