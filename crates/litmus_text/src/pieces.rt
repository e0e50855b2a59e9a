//! The pieces between marks.

ghost use Rattle.std.specs.Prelude.{◌≡◌, ◌++◌, ◌∷◌, [], ℕ, List, IfOk, OnOk};
ghost use Rattle.litmus_model.specs.Tokens.{parts_of, pieces_at};
ghost use Rattle.litmus_model.specs.declared.parts.Token.{Token as TokenValue};
ghost use Rattle.litmus_text.specs.Pieces.{with_tokens};

use crate::tokens::{is_mark, push_token};
use elf_load::of_ddm_types::NoMemory;
use litmus_model::{Part, Token};
use std::alloc::Global;
use std::marker::Model;

/// Tokens up to a mark, and the line of that mark.
#[derive(Drop)]
pub struct Piece {
    pub tokens: Vec<Token>,
    pub line: u32,
}

impl Model for Piece {
    ghost use Rattle.litmus_model.specs.Tokens.{Piece};

    ghost Value = { Piece };

    ghost view = { λ p. record { tokens = p.tokens.items; line = p.line } };
}

/// Ends a piece, and begins the next one.
fn end_piece(
    alloc: Global,
    pieces: &mut Vec<Piece>,
    tokens: &mut Vec<Token>,
    line: u32,
) -> Result<(), NoMemory>
    ensures pieces { OnOk result (pieces.new.items ≡ pieces.old.items ++ record { tokens = tokens.old.items; line = line } ∷ []) }
    ensures begun { OnOk result (tokens.new.items ≡ []) }
{
    let tokens = std::mem::replace(tokens, Vec::new(alloc));
    pieces.push(Piece { tokens, line })?;
    Ok(())
}

/// One token more.
#[tactic(auto, using(crate::proofs::Cutting::piece_ends, crate::proofs::Cutting::piece_goes_on))]
fn take_token(
    alloc: Global,
    mark: u8,
    pieces: &mut Vec<Piece>,
    tokens: &mut Vec<Token>,
    token: &Token,
) -> Result<(), NoMemory>
    ensures { OnOk result
        ((ts : List TokenValue) (end : ℕ) →
        pieces.old.items ++ with_tokens tokens.old.items (pieces_at mark end (token.now ∷ ts))
        ≡ pieces.new.items ++ with_tokens tokens.new.items (pieces_at mark end ts)) }
{
    if is_mark(mark, token) {
        end_piece(alloc, pieces, tokens, token.line)
    } else {
        push_token(tokens, token)
    }
}

/// The pieces between these marks; the last one ends in the line `end`.
#[tactic(auto, using(crate::proofs::Cutting::pieces_begun, crate::proofs::Cutting::last_piece))]
pub fn pieces_at(
    alloc: Global,
    mark: u8,
    end: u32,
    tokens: &[Token],
) -> Result<Vec<Piece>, NoMemory>
    ensures { IfOk result (λ pieces. pieces.items ≡ pieces_at mark end tokens.now) }
{
    let mut pieces = Vec::new(alloc);
    let mut begun = Vec::new(alloc);
    for token in tokens {
        take_token(alloc, mark, &mut pieces, &mut begun, token)?;
    }
    end_piece(alloc, &mut pieces, &mut begun, end)?;
    Ok(pieces)
}

fn push_part(parts: &mut Vec<Part>, part: &Part) -> Result<(), NoMemory>
    ensures { OnOk result (parts.new.items ≡ parts.old.items ++ part.now ∷ []) }
{
    parts.extend_from_slice(&[*part])?;
    Ok(())
}

/// Tokens without their lines.
#[tactic(auto, using(crate::proofs::Cutting::parts_next, crate::proofs::Cutting::parts_done))]
pub fn parts_of(alloc: Global, tokens: &[Token]) -> Result<Vec<Part>, NoMemory>
    ensures { IfOk result (λ parts. parts.items ≡ parts_of tokens.now) }
{
    let mut parts = Vec::new(alloc);
    for token in tokens {
        push_part(&mut parts, &token.part)?;
    }
    Ok(parts)
}
