//! Makes the machine of a tree and an image.
#![tactic(auto)]

mod any;
mod contents;
mod depths;
mod harts;
mod leaves;
mod memory;
pub mod of_any_machine;
pub mod of_cluster;
pub mod of_ddm_tree;
pub mod of_ddm_types;
pub mod of_elf_load;
pub mod of_leaf_protocol;
pub mod of_made_image;
pub mod of_top_node;
pub mod of_tree_config;
mod refusal;
mod tree;
mod trees;

pub use crate::of_any_machine::{AnyMachine, Depths, Machines, release};
pub use any::build;
pub use any_runs::{RunCounts, forget_ops, run};
pub use made_image::make_image;
pub use refusal::BuildRefusal;
pub use trees::{start_leaves, start_machine};
