//! The machine of the tables before its first turn is a new machine of the code. Theorems alone: there is nothing to run.
#![tactic(auto)]

pub mod laws;
pub mod of_cluster;
pub mod of_ddm_tree;
pub mod of_ddm_types;
pub mod of_directory;
pub mod of_item_states;
pub mod of_leaf_protocol;
pub mod of_operation_list;
pub mod of_rv_hart;
pub mod of_state_reading;
pub mod of_state_words;
pub mod of_top_node;
pub mod of_tree_model;
