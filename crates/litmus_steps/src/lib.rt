//! The steps of an instruction of a litmus test: what its mnemonic says, and what is made of its operands.
#![tactic(auto)]

mod forms;
mod made;
mod memory;
mod steps;

pub use forms::form_of;
pub use made::Made;
pub use steps::{Operand, form_steps};
