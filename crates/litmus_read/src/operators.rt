//! The operators of a condition: of one token or of two.

ghost use Rattle.std.specs.Prelude.{◌≡◌, ◌∷◌, ◌≤◌, ℕ, List, IfSome, length};
ghost use Rattle.litmus_model.specs.declared.parts.Token.{Token as TokenValue};
ghost use Rattle.litmus_model.specs.Condition.{operator_of, operator_of_two};
ghost use Rattle.litmus_read.specs.Reading.{two_in};

use crate::parts::{is_part_mark, is_part_word};
use litmus_model::{Chunk, Part, Token};

#[tactic(auto, unfolding(litmus_model::specs::Condition::operator_of))]
pub(crate) fn operator_of(part: &Part) -> Option<Chunk>
    ensures { result ≡ operator_of part.now }
{
    if is_part_mark(b'(', part) {
        Some(Chunk::Open)
    } else if is_part_mark(b')', part) {
        Some(Chunk::Close)
    } else if is_part_mark(b'~', part) || is_part_word("not", part) {
        Some(Chunk::Not)
    } else {
        None
    }
}

/// The operator of two parts.
#[tactic(auto, unfolding(litmus_model::specs::Condition::operator_of_two))]
fn operator_of_both(first: &Part, second: &Part) -> Option<Chunk>
    ensures { (line : ℕ) (rest : List TokenValue) → operator_of_two first.now (record { line = line; part = second.now } ∷ rest) ≡ result }
{
    match (first, second) {
        (Part::Mark(b'/'), Part::Mark(b'\\')) => Some(Chunk::And),
        (Part::Mark(b'\\'), Part::Mark(b'/')) => Some(Chunk::Or),
        _ => None,
    }
}

/// The operator of two tokens with which these begin.
#[tactic(auto, using(crate::proofs::AtomParts::short_two))]
pub(crate) fn operator_of_two(tokens: &[Token]) -> Option<Chunk>
    ensures operator { result ≡ two_in tokens.now }
    ensures inside { IfSome result (λ operator. 2 ≤ length tokens.now) }
{
    if tokens.len() < 2 {
        None
    } else {
        operator_of_both(&tokens[0].part, &tokens[1].part)
    }
}
