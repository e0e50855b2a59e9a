//! What this crate and those above it name of `state_reading`.

pub use cluster::of_state_reading::StateRefusal;
