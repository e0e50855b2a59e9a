//! What is printed of the states to which the runs of a litmus test came, as litmus7 prints it.
#![tactic(auto)]

mod chunks;
mod condition;
mod lines;
mod runs;
mod text;
mod verdict;
mod words;

pub use runs::{RunStates, StateLine};
pub use text::push_states;
