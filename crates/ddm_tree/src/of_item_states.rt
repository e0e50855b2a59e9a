//! What this crate and those above it name of `item_states`.

pub use split_bus::of_item_states::{Agent, DownEntry, Parent};
