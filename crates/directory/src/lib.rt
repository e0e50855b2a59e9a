//! A directory: what it keeps of each item, its lists and its parked copies, and its faces to the bus above and to the bus
//! below.
#![tactic(auto)]

mod copying;
mod gathered;
mod judged;
mod last_copy;
mod listed;
mod lower;
pub mod of_bus_judging;
pub mod of_ddm_types;
pub mod of_item_states;
pub mod of_state_reading;
pub mod of_state_words;
pub mod of_tree_model;
pub mod of_tx_queue;
mod packed;
mod places;
mod reading;
mod stamps;
mod state;
mod table;
mod upper;
mod writing;

pub use crate::of_state_reading::brings_copy;
pub use gathered::down_facts;
pub use judged::JudgedParent;
pub use state::DirState;
pub use table::ItemTable;
pub use upper::pending_by;
