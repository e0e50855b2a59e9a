//! A hart of RV32IA without its memory: it says what its next instruction needs, and carries it out on the
//! words of one item.
#![tactic(auto)]

ghost use Rattle.rv_hart.specs.FlatStep.{FinishesAsFlat, HaltsAsFlat};

mod bytes;
mod hart;
pub mod of_ddm_types;
pub mod of_rv_decode;
mod results;
mod steps;

pub use flat_model::Ask;
pub use hart::Hart;
pub use steps::{Access, Step};

/// What an instruction leaves on the words of its item is what the flat machine's step of its hart leaves
/// there, and a halt that is asked for is that step's halt.
#[tactic(auto, using(crate::proofs::FlatStep::finishes_as_flat, crate::proofs::FlatStep::halts_as_flat))]
pub fn steps_as_flat()
    ensures finishes { FinishesAsFlat }
    ensures halts { HaltsAsFlat }
{}
