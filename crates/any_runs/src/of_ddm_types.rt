//! What this crate and those above it name of `ddm_types`.

pub use text_model::of_ddm_types::{
    Code, ItemId, Items, LeafNo, MOST_ITEMS, NoMemory, Span, Start, TreeCounts, TreeSizes, Turn,
    TurnAnswer, Words, count_items,
};
