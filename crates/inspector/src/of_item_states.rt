//! What this crate and those above it name of `item_states`.

pub use start_parts::of_item_states::DownEntry;
