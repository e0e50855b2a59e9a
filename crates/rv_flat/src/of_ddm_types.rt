//! What this crate and those above it name of `ddm_types`.

pub use rv_hart::of_ddm_types::{
    Code, CodePart, Effect, HaltCause, HartNo, ItemId, Items, Key, MOST_ITEMS, NoMemory, Op, Span,
    Start, Words, count_items,
};
