//! What this crate and those above it name of `ddm_types`.

pub use tree_model::of_ddm_types::{
    BusNo, ChildNo, HaltCause, HartNo, Hold, ItemId, LeafNo, LeafState, NoMemory, Op, PendingWhy,
    QueueName, Stamp, Start, TreeSizes, Turn, TurnAnswer, TxKind, Words,
};
