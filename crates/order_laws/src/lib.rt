//! What turns keep of the rules of order. Theorems alone: there is nothing to run.
#![tactic(auto)]

pub mod laws;
pub mod of_ddm_types;
pub mod of_tree_model;
