//! What this crate and those above it name of `ddm_types`.

pub use tree_rules::of_ddm_types::{
    BusNo, ChildNo, Hold, ItemId, NoMemory, PendingWhy, QueueName, Stamp, TreeSizes, TxKind, Words,
};
