//! What the rules of order give: the operations in the order of their keys are one run of the flat machine, at the start, after
//! every turn and after every run. Theorems alone: there is nothing to run.
#![tactic(auto)]

pub mod laws;
pub mod of_ddm_types;
pub mod of_tree_model;
