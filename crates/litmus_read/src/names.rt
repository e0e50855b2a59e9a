//! The first row of the program, which names the threads, and how many rows there are.

ghost use Rattle.std.specs.Prelude.{◌≡◌, ◌∷◌, [], ◌≤◌, ℕ, IfOk, length};
ghost use Rattle.litmus_model.specs.Tokens.{parts_of};
ghost use Rattle.litmus_model.specs.Program.{is_thread_name, name_threads, no_open_row, not_too_many, thread_count};
ghost use Rattle.litmus_model.specs.Program.{thread_name, whole_rows};
ghost use Rattle.litmus_text.specs.Reads.{Reads};
ghost use Rattle.litmus_read.specs.Rows.{Cuts, Drops, Opens, named_count};

use ddm_text::push_decimal;
use elf_load::of_ddm_types::NoMemory;
use litmus_model::{Fault, Part, TestRefusal, Token};
use litmus_text::{Piece, Unread, in_line, pieces_at};
use std::alloc::Global;

/// How many rows there may be: the first and 256 more.
const MOST_ROWS: usize = 257;

fn thread_name(alloc: Global, number: u32) -> Result<Vec<u8>, NoMemory>
    ensures { IfOk result (λ name. name.items ≡ thread_name number) }
{
    let mut name = Vec::new(alloc);
    name.push(b'P')?;
    push_decimal(&mut name, u64::from(number))?;
    Ok(name)
}

fn is_thread_name(alloc: Global, number: u32, part: &Part) -> Result<bool, NoMemory>
    ensures { IfOk result (λ named. named ≡ is_thread_name number (part.now ∷ [])) }
{
    match part {
        Part::Word(word) => {
            let name = thread_name(alloc, number)?;
            Ok(*word.bytes() == *name)
        }
        Part::Mark(_) => Ok(false),
    }
}

#[tactic(auto, using(crate::proofs::ThreadNames::one_token, crate::proofs::ThreadNames::other_tokens))]
fn names_thread(alloc: Global, number: u32, tokens: &[Token]) -> Result<bool, NoMemory>
    ensures { IfOk result (λ named. named ≡ is_thread_name number (parts_of tokens.now)) }
{
    if tokens.len() != 1 {
        return Ok(false);
    }
    is_thread_name(alloc, number, &tokens[0].part)
}

fn cell_names(alloc: Global, number: u32, cell: &Piece) -> Result<bool, NoMemory>
    ensures { IfOk result (λ named. named ≡ is_thread_name number (parts_of cell.now.tokens)) }
{
    names_thread(alloc, number, &cell.tokens)
}

/// Whether cells name the threads from 0 on.
#[tactic(auto, using(crate::proofs::ThreadNames::name_steps))]
fn name_threads(alloc: Global, threads: u32, cells: &[Piece]) -> Result<bool, NoMemory>
    requires { length cells.now ≡ threads }
    ensures { IfOk result (λ named. named ≡ name_threads 0 cells.now) }
{
    for thread in 0..threads {
        if !cell_names(alloc, thread, &cells[thread as usize])? {
            return Ok(false);
        }
    }
    Ok(true)
}

/// How many threads a row names. There is no memory for 2^32 cells.
#[tactic(auto, unfolding(crate::specs::Rows::named_count))]
fn named_count(alloc: Global, row: &Piece) -> Result<u32, Unread>
    ensures { Reads (λ (n : ℕ). n) (named_count row.now) result }
{
    let cells = pieces_at(alloc, b'|', row.line, &row.tokens)?;
    if cells.len() > 4_294_967_295 {
        return Err(Unread::NoMemory);
    }
    let threads = cells.len() as u32;
    if name_threads(alloc, threads, &cells)? {
        Ok(threads)
    } else {
        Err(Unread::Refused(in_line(row.line, Fault::NoThreads)))
    }
}

/// How many threads the first row names; `line` is for a program without rows.
#[tactic(auto, using(crate::proofs::ThreadNames::no_rows, crate::proofs::ThreadNames::some_rows))]
pub(crate) fn thread_count(alloc: Global, line: u32, rows: &[Piece]) -> Result<u32, Unread>
    ensures { Reads (λ (n : ℕ). n) (thread_count line rows.now) result }
{
    if rows.len() == 0 {
        Err(Unread::Refused(in_line(line, Fault::NoThreads)))
    } else {
        named_count(alloc, &rows[0])
    }
}

/// Refuses tokens behind the last row.
fn no_open_row(tokens: &[Token]) -> Result<(), TestRefusal>
    ensures { Opens (no_open_row tokens.now) result }
{
    match tokens {
        [token, ..] => Err(in_line(token.line, Fault::OpenRow)),
        [] => Ok(()),
    }
}

fn closed(last: &Piece) -> Result<(), TestRefusal>
    ensures { Opens (no_open_row last.now.tokens) result }
{
    no_open_row(&last.tokens)
}

/// How many pieces are rows: all but the last, which must be empty.
#[tactic(auto, using(crate::proofs::ThreadNames::row_ends))]
pub(crate) fn whole_rows(pieces: &[Piece]) -> Result<usize, TestRefusal>
    ensures rows { Cuts (whole_rows pieces.now) pieces.now result }
    ensures inside { IfOk result (λ n. n ≤ length pieces.now) }
{
    if pieces.len() == 0 {
        return Ok(0);
    }
    let count = pieces.len() - 1;
    closed(&pieces[count])?;
    Ok(count)
}

/// Refuses rows that are too many.
#[tactic(auto, using(crate::proofs::ThreadNames::too_many, crate::proofs::ThreadNames::not_many))]
pub(crate) fn not_too_many(rows: &[Piece]) -> Result<(), TestRefusal>
    ensures rows { Drops (not_too_many rows.now) rows.now result }
    ensures few { IfOk result (λ done. length rows.now ≤ 257) }
{
    if rows.len() > MOST_ROWS {
        let row = &rows[MOST_ROWS];
        return Err(in_line(row.line, Fault::TooManyRows));
    }
    Ok(())
}
