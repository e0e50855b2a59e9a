//! Every number in a machine of a run is one that a word of a checkpoint can hold, and every list of words has its width. Theorems
//! alone: there is nothing to run.
#![tactic(auto)]

pub mod laws;
pub mod of_ddm_types;
