//! What `locations` names.

ghost use Rattle.std.specs.Prelude.{◌≡◌, ◌≤◌, ◌++◌, ◌∷◌, [], IfOk, OnOk, length};
ghost use Rattle.litmus_model.specs.Condition.{behind_locations, named_targets, observed_of, pieces_targets};
ghost use Rattle.litmus_text.specs.Reads.{Adds, Reads, ReadsList};
ghost use Rattle.litmus_read.specs.Final.{listed_in, observed_from};

use crate::parts::is_part_word;
use elf_load::of_ddm_types::NoMemory;
use litmus_model::{Fault, Target, Token};
use litmus_text::{Piece, Unread, in_line, is_mark, parts_of, pieces_at, place_of};
use litmus_words::target_of;
use std::alloc::Global;

/// What is named, and how many tokens name it.
#[derive(Drop)]
pub(crate) struct Observed {
    pub(crate) named: Vec<Target>,
    pub(crate) tokens: usize,
}

fn push_target(named: &mut Vec<Target>, target: Target) -> Result<(), NoMemory>
    ensures { OnOk result (named.new.items ≡ named.old.items ++ target ∷ []) }
{
    named.extend_from_slice(&[target])?;
    Ok(())
}

/// Adds the target of these tokens, where there are any.
#[tactic(auto, using(crate::proofs::NamedTargets::piece_cases))]
fn push_named(
    alloc: Global,
    threads: u32,
    named: &mut Vec<Target>,
    tokens: &[Token],
) -> Result<(), Unread>
    ensures { Adds (named_targets threads tokens.now) named.old.items named.new.items result }
{
    if tokens.is_empty() {
        return Ok(());
    }
    let line = tokens[0].line;
    let parts = parts_of(alloc, tokens)?;
    match target_of(threads, line, &parts)? {
        Some(target) => Ok(push_target(named, target)?),
        None => Err(Unread::Refused(in_line(line, Fault::BadLocations))),
    }
}

fn push_piece(
    alloc: Global,
    threads: u32,
    named: &mut Vec<Target>,
    piece: &Piece,
) -> Result<(), Unread>
    ensures { Adds (named_targets threads piece.now.tokens) named.old.items named.new.items result }
{
    push_named(alloc, threads, named, &piece.tokens)
}

/// The targets of pieces.
#[tactic(auto, using(crate::proofs::NamedTargets::piece_steps))]
fn pieces_targets(alloc: Global, threads: u32, pieces: &[Piece]) -> Result<Vec<Target>, Unread>
    ensures { ReadsList (pieces_targets threads pieces.now) result }
{
    let mut named = Vec::new(alloc);
    for piece in pieces {
        push_piece(alloc, threads, &mut named, piece)?;
    }
    Ok(named)
}

/// What is named up to the first `]`; the word `locations` is in this line.
#[tactic(auto, using(crate::proofs::NamedTargets::open_list, crate::proofs::NamedTargets::closed_list))]
fn listed_in(alloc: Global, threads: u32, line: u32, tokens: &[Token]) -> Result<Observed, Unread>
    ensures targets { Reads (observed_from tokens.now) (listed_in threads line tokens.now) result }
    ensures inside { IfOk result (λ seen. seen.tokens ≤ length tokens.now) }
{
    let count = place_of(b']', tokens);
    if count == tokens.len() {
        return Err(Unread::Refused(in_line(line, Fault::BadLocations)));
    }
    let pieces = pieces_at(alloc, b';', line, &tokens[..count])?;
    let named = pieces_targets(alloc, threads, &pieces)?;
    Ok(Observed {
        named,
        tokens: count + 1,
    })
}

/// What follows the word `locations`, which is in this line.
#[tactic(auto, using(crate::proofs::NamedTargets::no_list, crate::proofs::NamedTargets::other_mark))]
fn behind_locations(
    alloc: Global,
    threads: u32,
    line: u32,
    tokens: &[Token],
) -> Result<Observed, Unread>
    ensures targets { Reads (observed_from tokens.now) (behind_locations threads line tokens.now) result }
    ensures inside { IfOk result (λ seen. seen.tokens ≤ length tokens.now) }
{
    if tokens.is_empty() {
        return Err(Unread::Refused(in_line(line, Fault::BadLocations)));
    }
    if !is_mark(b'[', &tokens[0]) {
        return Err(Unread::Refused(in_line(line, Fault::BadLocations)));
    }
    let seen = listed_in(alloc, threads, line, &tokens[1..])?;
    Ok(Observed {
        named: seen.named,
        tokens: seen.tokens + 1,
    })
}

/// What these tokens name.
#[tactic(auto, using(crate::proofs::NamedTargets::nothing_observed, crate::proofs::NamedTargets::other_observed))]
pub(crate) fn observed_of(alloc: Global, threads: u32, tokens: &[Token]) -> Result<Observed, Unread>
    ensures targets { Reads (observed_from tokens.now) (observed_of threads tokens.now) result }
    ensures inside { IfOk result (λ seen. seen.tokens ≤ length tokens.now) }
{
    let nothing = Observed {
        named: Vec::new(alloc),
        tokens: 0,
    };
    if tokens.is_empty() {
        return Ok(nothing);
    }
    if !is_part_word("locations", &tokens[0].part) {
        return Ok(nothing);
    }
    let seen = behind_locations(alloc, threads, tokens[0].line, &tokens[1..])?;
    Ok(Observed {
        named: seen.named,
        tokens: seen.tokens + 1,
    })
}
