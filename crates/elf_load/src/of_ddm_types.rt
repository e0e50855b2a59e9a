//! What this crate and those above it name of `ddm_types`.

pub use tree_model::of_ddm_types::{
    Code, CodePart, ItemId, Items, MOST_ITEMS, NoMemory, Span, Start, count_items,
};
