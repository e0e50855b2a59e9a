//! A leaf of the tree: its hart, its memory and its buffer, and what its bus tells it.
#![tactic(auto)]

mod agent;
mod asking;
mod copying;
mod entries;
mod faces;
mod leaf;
pub mod of_attraction_mem;
pub mod of_bus_judging;
pub mod of_ddm_types;
pub mod of_item_states;
pub mod of_replacement;
pub mod of_reservations;
pub mod of_rv_hart;
pub mod of_state_reading;
pub mod of_state_words;
pub mod of_tree_model;
pub mod of_tx_queue;
mod read_back;
mod read_entries;
mod replies;
mod turn;
mod writing;

pub use leaf::Leaf;
pub use of_tree_model::LeafSpot;
