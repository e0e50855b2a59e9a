//! What this crate and those above it name of `item_states`.

pub use state_reading::of_item_states::{DownEntry, Named};
