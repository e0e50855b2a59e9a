//! The turn of a bus that goes on where a leaf waits.
#![tactic(auto)]

pub mod of_any_machine;
pub mod of_ddm_types;
mod search;
mod unjamming;
mod waiting;

pub use unjamming::unjam;
