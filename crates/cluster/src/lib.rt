//! The leaves of one bus under their directory, as one type: a tree of any depth is then made of types that aren't nested deeper
//! than a check can follow.
#![tactic(auto)]

mod agent;
mod cluster;
mod copying;
pub mod of_bus_judging;
pub mod of_ddm_tree;
pub mod of_ddm_types;
pub mod of_directory;
pub mod of_item_states;
pub mod of_leaf_protocol;
pub mod of_operation_list;
pub mod of_rv_hart;
pub mod of_state_reading;
pub mod of_state_words;
pub mod of_top_node;
pub mod of_tree_model;
mod subtree;

pub use cluster::{Cluster, clusters};
