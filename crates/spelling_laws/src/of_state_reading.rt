//! What this crate and those above it name of `state_reading`.

pub use state_judging::of_state_reading::{MOST_COUNTED, StateRefusal};
