//! What this crate and those above it name of `item_states`.

pub use cluster::of_item_states::DownEntry;
