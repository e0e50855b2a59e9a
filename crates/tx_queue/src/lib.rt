//! Lists of transactions with a capacity, which know how many of their entries name an item.
#![tactic(auto)]

mod copying;
pub mod of_ddm_types;
pub mod of_item_states;
pub mod of_state_words;
mod queue;
mod reading;
mod requests;
mod writing;

pub use of_item_states::Named;
pub use queue::Queue;
