//! What this crate and those above it name of `item_states`.

pub use directory::of_item_states::{DownEntry, Parent, ParentList};
