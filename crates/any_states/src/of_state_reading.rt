//! What this crate and those above it name of `state_reading`.

pub use any_runs::of_state_reading::StateRefusal;
