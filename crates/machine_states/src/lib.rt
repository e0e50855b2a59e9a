//! A machine of any tree that is put into each of its states, as a search asks; what holds of the table of its search.
#![tactic(auto)]

mod answers;
mod copying;
mod groups;
mod keys;
pub mod laws;
mod listed;
mod machine_states;
mod making;
mod named;
mod parts;
mod turning;

pub use crate::machine_states::MachineStates;
