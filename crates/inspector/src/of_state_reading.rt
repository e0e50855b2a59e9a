//! What this crate and those above it name of `state_reading`.

pub use start_parts::of_state_reading::StateRefusal;
