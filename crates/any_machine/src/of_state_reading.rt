//! What this crate and those above it name of `state_reading`.

pub use inspector::of_state_reading::StateRefusal;
