//! What this crate and those above it name of `ddm_types`.

pub use ddm_types::{
    BusNo, BusyCause, Code, HaltCause, HartNo, Hold, ItemId, Items, Key, LeafNo, LeafState,
    NoMemory, Op, PendingWhy, QueueName, Stamp, Start, TreeSizes, TurnAnswer, TxKind, Words,
};
