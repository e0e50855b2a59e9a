//! What this crate and those above it name of `ddm_types`.

pub use any_runs::of_ddm_types::{
    Code, ItemId, Items, LeafNo, MOST_ITEMS, NoMemory, Span, Start, TreeCounts, TreeSizes, Words,
    count_items,
};
