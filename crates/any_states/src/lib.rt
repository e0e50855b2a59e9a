//! The state of a machine of any tree as words: put at the end of a list, and read into a machine before its first turn.
#![tactic(auto)]

pub mod of_any_machine;
pub mod of_ddm_tree;
pub mod of_ddm_types;
pub mod of_operation_list;
pub mod of_state_reading;
pub mod of_state_words;
mod resuming;
mod writing;

pub use resuming::read_state;
pub use writing::{sizes, write_tree};
