//! The initial state: what registers and locations begin with.

ghost use Rattle.std.specs.Prelude.{◌≡◌, ◌∷◌, [], ◌++◌, ◌≤◌, List, IfOk, Ok, OnOk, drop, length};
ghost use Rattle.litmus_model.specs.declared.parts.Part.{Part as PartValue};
ghost use Rattle.litmus_model.specs.Refusing.{and_then};
ghost use Rattle.litmus_model.specs.Init.{given_of, given_value, givens_from, init_of, is_known_type, is_name_part};
ghost use Rattle.litmus_model.specs.Init.{is_word, new_given, piece_givens, without_type};
ghost use Rattle.litmus_text.specs.Reads.{ReadsList};
ghost use Rattle.litmus_read.specs.Becomes.{Becomes};

use crate::parts::{equals_place, is_part_mark};
use elf_load::of_ddm_types::NoMemory;
use litmus_model::{Fault, Given, Part, Target, TestRefusal, Token, Value, is_given};
use litmus_text::{Piece, Unread, in_line, is, is_name, parts_of, pieces_at};
use litmus_words::{target_of, value_of};
use std::alloc::Global;

fn is_word(part: &Part) -> bool
    ensures { result ≡ is_word part.now }
{
    match part {
        Part::Word(_) => true,
        Part::Mark(_) => false,
    }
}

fn is_name_part(part: &Part) -> bool
    ensures { result ≡ is_name_part part.now }
{
    match part {
        Part::Word(word) => is_name(word.bytes()),
        Part::Mark(_) => false,
    }
}

fn is_known_type(part: &Part) -> bool
    ensures { result ≡ is_known_type part.now }
{
    match part {
        Part::Word(word) => {
            let word = word.bytes();
            is(word, "int") || is(word, "int32_t") || is(word, "uint32_t")
        }
        Part::Mark(_) => false,
    }
}

/// How many parts a type is, of which these are the first two parts.
#[tactic(auto, unfolding(litmus_model::specs::Init::without_type, litmus_model::specs::Refusing::and_then))]
fn type_before(line: u32, first: &Part, second: &Part) -> Result<usize, TestRefusal>
    ensures parts { (rest : List PartValue) →
        without_type line (first.now ∷ second.now ∷ rest)
        ≡ and_then result (λ n. Ok (drop n (first.now ∷ second.now ∷ rest))) }
    ensures short { IfOk result (λ n. n ≤ 1) }
{
    if !is_name_part(first) || !(is_word(second) || is_part_mark(b'*', second)) {
        return Ok(0);
    }
    if is_known_type(first) && is_word(second) {
        Ok(1)
    } else {
        Err(in_line(line, Fault::UnsupportedType))
    }
}

/// How many parts the type in front is.
#[tactic(auto, using(crate::proofs::Givens::short_typed, crate::proofs::Givens::long_typed))]
fn type_length(line: u32, parts: &[Part]) -> Result<usize, TestRefusal>
    ensures parts { without_type line parts.now ≡ and_then result (λ n. Ok (drop n parts.now)) }
    ensures inside { IfOk result (λ n. n ≤ length parts.now) }
{
    if parts.len() < 2 {
        Ok(0)
    } else {
        type_before(line, &parts[0], &parts[1])
    }
}

/// The value behind `=`, and 0 where there is none.
#[tactic(auto, using(crate::proofs::Givens::no_value, crate::proofs::Givens::some_value))]
fn given_value(line: u32, parts: &[Part]) -> Result<Option<Value>, TestRefusal>
    ensures { result ≡ given_value line parts.now }
{
    if parts.is_empty() {
        Ok(Some(Value::Number(0)))
    } else {
        value_of(line, &parts[1..])
    }
}

#[tactic(auto, unfolding(litmus_model::specs::Init::new_given))]
fn new_given(
    line: u32,
    before: &[Given],
    target: Option<Target>,
    value: Option<Value>,
) -> Result<Given, TestRefusal>
    ensures { result ≡ new_given line before.now target value }
{
    match (target, value) {
        (Some(target), Some(value)) => {
            if is_given(before, &target) {
                Err(in_line(line, Fault::Twice))
            } else {
                Ok(Given { target, value })
            }
        }
        _ => Err(in_line(line, Fault::BadInit)),
    }
}

/// What the parts of a piece say behind these others.
#[tactic(auto, unfolding(litmus_model::specs::Init::given_of, litmus_model::specs::Refusing::and_then))]
fn given_of(threads: u32, line: u32, before: &[Given], typed: &[Part]) -> Result<Given, TestRefusal>
    ensures { result ≡ given_of threads line before.now typed.now }
{
    let skipped = type_length(line, typed)?;
    let parts = &typed[skipped..];
    let at = equals_place(parts);
    let target = target_of(threads, line, &parts[..at])?;
    let value = given_value(line, &parts[at..])?;
    new_given(line, before, target, value)
}

fn push_given(givens: &mut Vec<Given>, given: &Given) -> Result<(), NoMemory>
    ensures { OnOk result (givens.new.items ≡ givens.old.items ++ given.now ∷ []) }
{
    givens.extend_from_slice(&[*given])?;
    Ok(())
}

/// Adds what a piece says; one without tokens says nothing.
#[tactic(auto, using(crate::proofs::Givens::no_piece, crate::proofs::Givens::some_piece, crate::proofs::Givens::bad_piece))]
fn take_piece(
    alloc: Global,
    threads: u32,
    givens: &mut Vec<Given>,
    piece: &Piece,
) -> Result<(), Unread>
    ensures { Becomes (piece_givens threads piece.now.line givens.old.items piece.now.tokens) givens.new.items result }
{
    if piece.tokens.is_empty() {
        return Ok(());
    }
    let parts = parts_of(alloc, &piece.tokens)?;
    let given = given_of(threads, piece.line, givens, &parts)?;
    push_given(givens, &given)?;
    Ok(())
}

/// What pieces say.
#[tactic(auto, using(crate::proofs::Givens::givens_next, crate::proofs::Givens::givens_done))]
fn givens_of(alloc: Global, threads: u32, pieces: &[Piece]) -> Result<Vec<Given>, Unread>
    ensures { ReadsList (givens_from threads [] pieces.now) result }
{
    let mut givens = Vec::new(alloc);
    for piece in pieces {
        take_piece(alloc, threads, &mut givens, piece)?;
    }
    Ok(givens)
}

/// The initial state of a test with so many threads, whose tokens end in the line `closing`.
pub fn read_init(
    alloc: Global,
    threads: u32,
    closing: u32,
    tokens: &[Token],
) -> Result<Vec<Given>, Unread>
    ensures { ReadsList (init_of threads closing tokens.now) result }
{
    let pieces = pieces_at(alloc, b';', closing, tokens)?;
    givens_of(alloc, threads, &pieces)
}
