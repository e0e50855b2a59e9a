//! The rows of the program: a cell for each thread.

ghost use Rattle.std.specs.Prelude.{◌≡◌, ◌+◌, ℕ, IfOk, OnOk, length};
ghost use Rattle.litmus_model.specs.Program.{row_steps, rows_steps};
ghost use Rattle.litmus_text.specs.Reads.{Adds, ReadsList};
ghost use Rattle.litmus_read.specs.Cells.{cell_placed, one_row};
ghost use Rattle.litmus_read.specs.Kept.{IsKept};

use crate::cells::{Cell, read_cell};
use litmus_model::{Fault, PlacedStep};
use litmus_text::{Piece, Unread, in_line, pieces_at};
use std::alloc::Global;

fn read_piece(
    alloc: Global,
    steps: &mut Vec<PlacedStep>,
    cell: Cell,
    piece: &Piece,
) -> Result<(), Unread>
    ensures steps { Adds (cell_placed cell.thread cell.line piece.now.tokens) steps.old.items steps.new.items result }
    ensures kept { OnOk result
        ((before : ℕ) → IsKept before cell.thread steps.old.items →
        IsKept before (cell.thread + 1) steps.new.items) }
{
    read_cell(alloc, steps, cell, &piece.tokens)
}

/// Adds the steps of a row's cells, of which each thread has one.
#[tactic(auto, using(crate::proofs::RowSteps::cells_next, crate::proofs::RowSteps::cells_done, crate::proofs::KeptSteps::kept_row))]
fn push_cells(
    alloc: Global,
    steps: &mut Vec<PlacedStep>,
    threads: u32,
    line: u32,
    cells: &[Piece],
) -> Result<(), Unread>
    requires { length cells.now ≡ threads }
    ensures steps { Adds (row_steps line 0 cells.now) steps.old.items steps.new.items result }
    ensures kept { OnOk result ((before : ℕ) → IsKept before 0 steps.old.items → IsKept (before + 1) 0 steps.new.items) }
{
    for thread in 0..threads {
        read_piece(alloc, steps, Cell { thread, line }, &cells[thread as usize])?;
    }
    Ok(())
}

/// Adds the steps of a row.
#[tactic(auto, using(crate::proofs::RowSteps::other_count, crate::proofs::RowSteps::same_count))]
fn read_row(
    alloc: Global,
    steps: &mut Vec<PlacedStep>,
    threads: u32,
    row: &Piece,
) -> Result<(), Unread>
    ensures steps { Adds (one_row threads row.now) steps.old.items steps.new.items result }
    ensures kept { OnOk result ((before : ℕ) → IsKept before 0 steps.old.items → IsKept (before + 1) 0 steps.new.items) }
{
    let cells = pieces_at(alloc, b'|', row.line, &row.tokens)?;
    if cells.len() != threads as usize {
        return Err(Unread::Refused(in_line(row.line, Fault::BadRow)));
    }
    push_cells(alloc, steps, threads, row.line, &cells)
}

/// The steps of rows that have so many cells.
#[tactic(auto, using(crate::proofs::RowSteps::rows_in_turn, crate::proofs::KeptSteps::kept_none))]
pub(crate) fn read_rows(
    alloc: Global,
    threads: u32,
    rows: &[Piece],
) -> Result<Vec<PlacedStep>, Unread>
    ensures steps { ReadsList (rows_steps threads rows.now) result }
    ensures kept { IfOk result (λ steps. IsKept (length rows.now) 0 steps.items) }
{
    let mut steps = Vec::new(alloc);
    for row in rows {
        read_row(alloc, &mut steps, threads, row)?;
    }
    Ok(steps)
}
