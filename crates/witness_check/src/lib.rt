//! Judges a list of operations by the flat machine alone: whether a text has the lines of operations of which each, in turn,
//! is the next step of its hart.
#![tactic(auto)]

mod checking;
mod effects;
mod examples;
mod hex;
mod judge;
pub mod laws;
mod lines;
mod listed;
pub mod of_ddm_text;
pub mod of_ddm_types;
pub mod of_elf_load;
mod places;
mod reader;
mod refusal;
mod words;

pub use checking::check;
pub use examples::{eight_operations, lines_of_operations, six_operations};
pub use listed::ops_of;
pub use reader::WitnessReader;
pub use refusal::CheckRefusal;
