//! The rules of a bus hold at the start and are kept by every turn. Theorems alone: there is nothing to run.
#![tactic(auto)]

pub mod laws;
pub mod of_ddm_types;
pub mod of_tree_model;
