//! The rules that every run keeps, as definitions: the rules of a bus, the rules of order, and what a run has in common with
//! the flat machine. Each clause here is a theorem that was computed or proved of them, and there is nothing to run.
#![tactic(auto)]

pub mod examples;
pub mod laws;
pub mod of_ddm_types;
pub mod of_tree_model;
