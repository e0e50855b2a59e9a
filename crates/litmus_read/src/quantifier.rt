//! The quantifier of a condition.

ghost use Rattle.std.specs.Prelude.{◌≤◌, IfOk, length};
ghost use Rattle.litmus_model.specs.Condition.{denied, quantifier_of};
ghost use Rattle.litmus_read.specs.Final.{Asks, asked_by};

use crate::parts::{is_part_mark, is_part_word};
use litmus_model::{Fault, Quantifier, TestRefusal, Token};
use litmus_text::in_line;

/// What a condition is asked for, and how many tokens say so.
#[derive(Clone, Copy)]
pub(crate) struct Asked {
    pub(crate) quantifier: Quantifier,
    pub(crate) tokens: usize,
}

/// `exists` behind `~`, which is in this line.
#[tactic(auto, using(crate::proofs::Quantifiers::denials))]
fn denied(line: u32, tokens: &[Token]) -> Result<Asked, TestRefusal>
    ensures asked { Asks tokens.now (denied line tokens.now) result }
    ensures inside { IfOk result (λ asked. asked.tokens ≤ length tokens.now) }
{
    if tokens.is_empty() {
        return Err(in_line(line, Fault::BadCondition));
    }
    if !is_part_word("exists", &tokens[0].part) {
        return Err(in_line(line, Fault::BadCondition));
    }
    Ok(Asked {
        quantifier: Quantifier::NotExists,
        tokens: 1,
    })
}

/// What a token asks for, before these others.
#[tactic(auto, unfolding(crate::specs::Final::asked_by))]
fn asked_by(token: &Token, behind: &[Token]) -> Result<Asked, TestRefusal>
    ensures asked { Asks behind.now (asked_by token.now behind.now) result }
    ensures inside { IfOk result (λ asked. asked.tokens ≤ length behind.now) }
{
    if is_part_word("filter", &token.part) {
        return Err(in_line(token.line, Fault::Filter));
    }
    if is_part_mark(b'~', &token.part) {
        return denied(token.line, behind);
    }
    let quantifier = if is_part_word("exists", &token.part) {
        Quantifier::Exists
    } else if is_part_word("forall", &token.part) {
        Quantifier::Forall
    } else {
        return Err(in_line(token.line, Fault::BadCondition));
    };
    Ok(Asked {
        quantifier,
        tokens: 0,
    })
}

/// What is asked for in a text that ends in the line `end`.
#[tactic(auto, using(crate::proofs::Quantifiers::nothing_asked))]
pub(crate) fn quantifier_of(end: u32, tokens: &[Token]) -> Result<Asked, TestRefusal>
    ensures asked { Asks tokens.now (quantifier_of end tokens.now) result }
    ensures inside { IfOk result (λ asked. asked.tokens ≤ length tokens.now) }
{
    if tokens.is_empty() {
        return Err(in_line(end, Fault::BadCondition));
    }
    let asked = asked_by(&tokens[0], &tokens[1..])?;
    Ok(Asked {
        quantifier: asked.quantifier,
        tokens: asked.tokens + 1,
    })
}
