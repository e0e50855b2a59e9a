//! A machine of any tree as one type: one to four levels of buses, leaves of one, two or four ways, items of 16 or 64 bytes, and
//! what can be asked of it. What has to be said for each kind stands here, in `any_runs` and in `any_states`, and nowhere else.
#![tactic(auto)]

mod depths_reading;
mod machine;
pub mod of_cluster;
pub mod of_ddm_tree;
pub mod of_ddm_types;
pub mod of_leaf_protocol;
pub mod of_operation_list;
pub mod of_rv_hart;
pub mod of_state_reading;
pub mod of_state_words;
pub mod of_top_node;
pub mod of_tree_model;
mod reading;
mod releasing;

pub use machine::{AnyMachine, Depths, Machines};
pub use releasing::release;
