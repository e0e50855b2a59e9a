//! What this crate and those above it name of `state_reading`.

pub use ddm_tree::of_state_reading::StateRefusal;
