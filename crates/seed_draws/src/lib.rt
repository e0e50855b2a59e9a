//! The turns that a seed draws, one by one, and which of them are let by.
#![tactic(auto)]

mod drawing;
pub mod of_ddm_types;
pub mod of_tree_config;
mod places;
mod skewing;

pub use drawing::SeedDraws;
pub use recording_model::SeedKind;
