//! What waits in a leaf to leave it, and what a directory has no child for: lists in order of arrival with a capacity.
//! Each takes its memory when it is made, and none later.
#![tactic(auto)]

mod arrivals;
mod buffer;
mod entries;
pub mod of_ddm_types;
pub mod of_item_states;
pub mod of_state_reading;
pub mod of_state_words;
mod parking;
mod reading;
mod writing;

pub use buffer::Buffer;
pub use parking::Parking;

/// There is no free place.
#[derive(Clone, Copy, Debug, PartialEq, Eq)]
pub struct Full;
