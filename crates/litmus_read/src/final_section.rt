//! The final section.

ghost use Rattle.litmus_model.specs.Condition.{final_of};
ghost use Rattle.litmus_text.specs.Reads.{Reads};
ghost use Rattle.litmus_read.specs.Final.{final_from};

use crate::named::observed_of;
use crate::proposition::proposition_of;
use crate::quantifier::quantifier_of;
use litmus_model::{Chunk, Quantifier, Target, Token};
use litmus_text::Unread;
use std::alloc::Global;

/// What is observed, and the condition.
#[derive(Drop)]
pub struct Final {
    /// What `locations` names.
    pub named: Vec<Target>,
    pub quantifier: Quantifier,
    pub chunks: Vec<Chunk>,
}

/// The final section of a text that ends in the line `end`.
#[tactic(auto, unfolding(litmus_model::specs::Condition::final_of, litmus_model::specs::Refusing::and_then))]
pub fn read_final(alloc: Global, threads: u32, end: u32, tokens: &[Token]) -> Result<Final, Unread>
    ensures { Reads final_from (final_of threads end tokens.now) result }
{
    let seen = observed_of(alloc, threads, tokens)?;
    let condition = &tokens[seen.tokens..];
    let asked = quantifier_of(end, condition)?;
    let chunks = proposition_of(alloc, threads, end, &condition[asked.tokens..])?;
    Ok(Final {
        named: seen.named,
        quantifier: asked.quantifier,
        chunks,
    })
}
