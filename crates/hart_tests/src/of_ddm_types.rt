//! What this crate and those above it name of `ddm_types`.

pub use rv_flat::of_ddm_types::{
    Code, CodePart, Effect, HaltCause, HartNo, Items, MOST_ITEMS, NoMemory, Span, Start, Words,
    count_items,
};
