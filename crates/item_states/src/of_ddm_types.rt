//! What this crate and those above it name of `ddm_types`.

pub use tree_model::of_ddm_types::{
    BusNo, BusyCause, ChildNo, Hold, ItemId, LeafState, LogEntry, PendingWhy, Place, QueueName,
    Stamp, TurnAnswer, TxKind, Words,
};
