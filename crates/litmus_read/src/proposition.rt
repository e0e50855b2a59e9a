//! The proposition of a condition, token by token.

ghost use Rattle.std.specs.Prelude.{◌≡◌, ◌≤◌, ◌<◌, ◌∷◌, [], ◌++◌, ℕ, List, ◌||◌, IfOk, OnOk, drop, false, length, nat_eq, not};
ghost use Rattle.litmus_model.specs.Condition.{RawChunk, after_operator, chunks_of, operator as raw_operator, proposition_of, with_atom};
ghost use Rattle.litmus_text.specs.Reads.{ReadsList};
ghost use Rattle.litmus_read.specs.Reading.{Leads, Takes, begins_with_atom, begun, from_here};

use crate::atoms::{push_atom, push_chunk};
use crate::operators::{operator_of, operator_of_two};
use elf_load::of_ddm_types::NoMemory;
use litmus_model::{Chunk, Fault, Part, Standing, Token};
use litmus_text::{Unread, in_line};
use std::alloc::Global;

/// How far a proposition has been read.
#[derive(Drop)]
struct Reading {
    chunks: Vec<Chunk>,
    standing: Standing,
    /// The parts of an atom that may go on.
    row: Vec<Part>,
    /// The line of the first of them.
    line: u32,
}

fn push_part(parts: &mut Vec<Part>, part: &Part) -> Result<(), NoMemory>
    ensures { OnOk result (parts.new.items ≡ parts.old.items ++ part.now ∷ []) }
{
    parts.extend_from_slice(&[*part])?;
    Ok(())
}

/// How far it has come with an operator more, where it goes on so.
#[tactic(auto, unfolding(litmus_model::specs::Condition::after_operator))]
fn after_operator(operator: &Chunk, standing: &Standing) -> Option<Standing>
    requires { standing.now.brackets < 4294967295 }
    ensures { result ≡ after_operator operator.now standing.now }
{
    let brackets = standing.brackets;
    let wants = standing.wants;
    match operator {
        Chunk::Open if wants => Some(Standing {
            brackets: brackets + 1,
            wants,
        }),
        Chunk::Not if wants => Some(Standing { brackets, wants }),
        Chunk::And | Chunk::Or if !wants => Some(Standing {
            brackets,
            wants: true,
        }),
        Chunk::Close if !wants && brackets != 0 => Some(Standing {
            brackets: brackets - 1,
            wants,
        }),
        _ => None,
    }
}

/// Ends the atom that has been begun.
#[tactic(auto, using(crate::proofs::Readings::atom_ends, crate::proofs::Readings::atom_unwanted, crate::proofs::Readings::atom_refused))]
fn end_atom(alloc: Global, threads: u32, reading: &mut Reading) -> Result<(), Unread>
    ensures atom { (end : ℕ) (cs : List RawChunk) → begins_with_atom cs ≡ false →
        Leads (from_here threads end reading.old cs) (from_here threads end reading.new cs) result }
    ensures ended { OnOk result (reading.new.row.items ≡ []) }
{
    if reading.row.is_empty() {
        return Ok(());
    }
    if !reading.standing.wants {
        return Err(Unread::Refused(in_line(reading.line, Fault::BadCondition)));
    }
    let row = std::mem::replace(&mut reading.row, Vec::new(alloc));
    push_atom(&mut reading.chunks, threads, reading.line, &row)?;
    reading.standing.wants = false;
    Ok(())
}

/// Takes an operator. There is no memory for 2^32 of them.
#[tactic(auto, using(crate::proofs::Readings::operator_next, crate::proofs::Readings::operator_bad))]
fn take_operator(
    alloc: Global,
    threads: u32,
    reading: &mut Reading,
    line: u32,
    operator: &Chunk,
) -> Result<(), Unread>
    ensures { (end : ℕ) (cs : List RawChunk) →
        Leads (from_here threads end reading.old (raw_operator line operator.now ∷ cs))
        (from_here threads end reading.new cs) result }
{
    end_atom(alloc, threads, reading)?;
    if reading.standing.brackets == 4_294_967_295 {
        return Err(Unread::NoMemory);
    }
    match after_operator(operator, &reading.standing) {
        Some(standing) => {
            push_chunk(&mut reading.chunks, operator)?;
            reading.standing = standing;
            Ok(())
        }
        None => Err(Unread::Refused(in_line(line, Fault::BadCondition))),
    }
}

/// The line of the atom with this token.
fn begun(reading: &Reading, token: &Token) -> u32
    ensures { result ≡ begun reading.now.line reading.now.row.items token.now }
{
    match &*reading.row {
        [] => token.line,
        _ => reading.line,
    }
}

/// Takes a part of an atom.
fn take_part(reading: &mut Reading, token: &Token) -> Result<(), NoMemory>
    ensures { OnOk result
        ((threads end : ℕ) (cs : List RawChunk) →
        from_here threads end reading.old (with_atom token.now cs) ≡ from_here threads end reading.new cs) }
{
    reading.line = begun(reading, token);
    push_part(&mut reading.row, &token.part)?;
    Ok(())
}

/// Takes an operator or a part of an atom, and says how many tokens it is.
#[tactic(auto, using(crate::proofs::Readings::two_taken, crate::proofs::Readings::one_taken, crate::proofs::Readings::part_taken))]
fn take_tokens(
    alloc: Global,
    threads: u32,
    reading: &mut Reading,
    tokens: &[Token],
) -> Result<usize, Unread>
    requires { 0 < length tokens.now }
    ensures taken { (end : ℕ) →
        Takes (from_here threads end reading.old (chunks_of tokens.now))
        (λ count. from_here threads end reading.new (chunks_of (drop count tokens.now))) result }
    ensures some { IfOk result (λ count. 0 < count) }
    ensures inside { IfOk result (λ count. count ≤ length tokens.now) }
{
    let first = &tokens[0];
    if let Some(operator) = operator_of_two(tokens) {
        take_operator(alloc, threads, reading, first.line, &operator)?;
        return Ok(2);
    }
    match operator_of(&first.part) {
        Some(operator) => take_operator(alloc, threads, reading, first.line, &operator)?,
        None => take_part(reading, first)?,
    }
    Ok(1)
}

/// What follows so many tokens.
fn after(tokens: &[Token], count: usize) -> &[Token]
    requires { count ≤ length tokens.now }
    ensures { result.now ≡ drop count tokens.now }
{
    &tokens[count..]
}

/// Whether no proposition ends here.
fn is_open(standing: &Standing) -> bool
    ensures { result ≡ (standing.now.wants || not (nat_eq standing.now.brackets 0)) }
{
    standing.wants || standing.brackets != 0
}

/// The chunks of a proposition in a text that ends in the line `end`.
pub(crate) fn proposition_of(
    alloc: Global,
    threads: u32,
    end: u32,
    tokens: &[Token],
) -> Result<Vec<Chunk>, Unread>
    ensures { ReadsList (proposition_of threads end tokens.now) result }
{
    let mut reading = Reading {
        chunks: Vec::new(alloc),
        standing: Standing {
            brackets: 0,
            wants: true,
        },
        row: Vec::new(alloc),
        line: 0,
    };
    let mut left = tokens;
    'tokens: while left.len() > 0 {
        let taken = take_tokens(alloc, threads, &mut reading, left)?;
        left = after(left, taken);
    }
    end_atom(alloc, threads, &mut reading)?;
    if is_open(&reading.standing) {
        return Err(Unread::Refused(in_line(end, Fault::BadCondition)));
    }
    Ok(reading.chunks)
}
