//! What this crate and those above it name of `ddm_types`.

pub use rv_flat::of_ddm_types::{
    Code, Effect, HartNo, Items, Key, MOST_ITEMS, NoMemory, Op, Start, count_items,
};
