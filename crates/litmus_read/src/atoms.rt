//! The atoms of a condition.

ghost use Rattle.std.specs.Prelude.{◌≡◌, ◌++◌, ◌∷◌, [], ◌≤◌, ℕ, OnOk, length};
ghost use Rattle.litmus_model.specs.Condition.{atom_of, compared_at, comparison};
ghost use Rattle.litmus_text.specs.Reads.{Adds};
ghost use Rattle.litmus_read.specs.Reading.{atom_chunks};

use crate::parts::{equals_place, is_part_word};
use elf_load::of_ddm_types::NoMemory;
use litmus_model::{Chunk, Fault, Part, Target, TestRefusal, Value};
use litmus_text::{Unread, in_line};
use litmus_words::{target_of, value_of};

#[tactic(auto, unfolding(litmus_model::specs::Condition::comparison))]
fn comparison(line: u32, target: Option<Target>, value: Option<Value>) -> Result<Chunk, TestRefusal>
    ensures { result ≡ comparison line target value }
{
    match (target, value) {
        (Some(target), Some(value)) => Ok(Chunk::Is { target, value }),
        _ => Err(in_line(line, Fault::BadCondition)),
    }
}

/// A target, and behind the `=`, before which there are so many parts, a value.
#[tactic(auto, using(crate::proofs::AtomParts::no_equals))]
fn compared_at(threads: u32, line: u32, at: usize, parts: &[Part]) -> Result<Chunk, TestRefusal>
    requires { at ≤ length parts.now }
    ensures { result ≡ compared_at threads line at parts.now }
{
    if at == parts.len() {
        return Err(in_line(line, Fault::BadCondition));
    }
    let target = target_of(threads, line, &parts[..at])?;
    let value = value_of(line, &parts[at + 1..])?;
    comparison(line, target, value)
}

/// An atom of one part.
#[tactic(auto, unfolding(litmus_model::specs::Condition::atom_of))]
fn truth(line: u32, part: &Part) -> Result<Chunk, TestRefusal>
    ensures { (threads : ℕ) → atom_of threads line (part.now ∷ []) ≡ result }
{
    if is_part_word("true", part) {
        Ok(Chunk::True)
    } else if is_part_word("false", part) {
        Ok(Chunk::False)
    } else {
        Err(in_line(line, Fault::BadCondition))
    }
}

/// The chunk of these parts, of which the first is in this line.
#[tactic(auto, using(crate::proofs::AtomParts::one_part, crate::proofs::AtomParts::more_parts, crate::proofs::AtomParts::no_parts))]
fn atom_of(threads: u32, line: u32, parts: &[Part]) -> Result<Chunk, TestRefusal>
    ensures { result ≡ atom_of threads line parts.now }
{
    if parts.is_empty() {
        Err(in_line(line, Fault::BadCondition))
    } else if parts.len() == 1 {
        truth(line, &parts[0])
    } else {
        compared_at(threads, line, equals_place(parts), parts)
    }
}

pub(crate) fn push_chunk(chunks: &mut Vec<Chunk>, chunk: &Chunk) -> Result<(), NoMemory>
    ensures { OnOk result (chunks.new.items ≡ chunks.old.items ++ chunk.now ∷ []) }
{
    chunks.extend_from_slice(&[*chunk])?;
    Ok(())
}

/// Adds the atom of these parts, of which the first is in this line.
#[tactic(auto, using(crate::proofs::AtomParts::one_atom, crate::proofs::AtomParts::no_atom))]
pub(crate) fn push_atom(
    chunks: &mut Vec<Chunk>,
    threads: u32,
    line: u32,
    parts: &[Part],
) -> Result<(), Unread>
    ensures { Adds (atom_chunks threads line parts.now) chunks.old.items chunks.new.items result }
{
    match atom_of(threads, line, parts) {
        Ok(chunk) => Ok(push_chunk(chunks, &chunk)?),
        Err(refusal) => Err(Unread::Refused(refusal)),
    }
}
