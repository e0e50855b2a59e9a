//! What this crate and those above it name of `ddm_types`.

pub use state_words::of_ddm_types::{
    HaltCause, Hold, ItemId, LeafState, NoMemory, Stamp, TxKind, Words,
};
