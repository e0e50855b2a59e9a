//! What this crate and those above it name of `item_states`.

pub use item_states::{Agent, DownEntry, Parent};
