//! What this crate and those above it name of `ddm_types`.

pub use ddm_tree::of_ddm_types::{
    BusNo, ChildNo, HartNo, Hold, ItemId, Items, LeafNo, LeafState, NoMemory, PendingWhy,
    QueueName, Stamp, TreeCounts, Turn, TurnAnswer, TxKind, Words,
};
