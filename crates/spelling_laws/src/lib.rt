//! The words of a checkpoint and a machine determine each other: what is read is what is spelled, and what is spelled is read.
//! Theorems alone: there is nothing to run.
#![tactic(auto)]

pub mod laws;
pub mod of_ddm_types;
pub mod of_state_reading;
pub mod of_state_words;
