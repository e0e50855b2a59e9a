//! Runs of turns on a machine of any tree; a machine that forgets its operations, or becomes a copy of another one, as one is put back
//! to its start.
#![tactic(auto)]

mod copying;
mod counting;
mod forgetting;
pub mod of_any_machine;
pub mod of_cluster;
pub mod of_ddm_tree;
pub mod of_ddm_types;
pub mod of_leaf_protocol;
pub mod of_operation_list;
pub mod of_state_reading;
pub mod of_state_words;
pub mod of_text_model;
pub mod of_top_node;
mod running;
mod spared;

pub use copying::copy_from;
pub use forgetting::forget_ops;
pub use of_text_model::RunCounts;
pub use running::run;
pub use spared::{reserve, run_spared};
