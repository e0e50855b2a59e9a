//! What this crate and those above it name of `item_states`.

pub use leaf_protocol::of_item_states::{Agent, DownEntry, Named, Parent, ParentList};
