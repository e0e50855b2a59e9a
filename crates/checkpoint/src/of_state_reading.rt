//! What this crate and those above it name of `state_reading`.

pub use spelling_laws::of_state_reading::{MOST_COUNTED, StateRefusal};
