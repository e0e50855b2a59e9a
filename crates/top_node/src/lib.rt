//! The top of the tree: the parent of bus 0, which holds every item Exclusive and has no bus above.
#![tactic(auto)]

mod judged;
pub mod of_bus_judging;
pub mod of_ddm_types;
pub mod of_directory;
pub mod of_item_states;
pub mod of_state_reading;
pub mod of_state_words;
pub mod of_tree_model;
pub mod of_tx_queue;
mod reading;
mod state;
mod writing;

pub use state::TopState;
