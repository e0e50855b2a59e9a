//! What this crate and those above it name of `ddm_types`.

pub use ddm_text::of_ddm_types::{
    Effect, HaltCause, Hold, ItemId, Key, LeafState, NoMemory, Op, Stamp, TxKind, Words,
};
