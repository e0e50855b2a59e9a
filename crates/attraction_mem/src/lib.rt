//! The memory of a leaf: items in the ways of their sets, each with a state and its words.
#![tactic(auto)]

mod copying;
mod marks;
mod memory;
pub mod of_ddm_types;
mod places;

pub use memory::{AttractionMem, SetFull};
