//! What this crate and those above it name of `ddm_types`.

pub use operation_list::of_ddm_types::{
    BusNo, BusyCause, ChildNo, Code, Effect, HaltCause, HartNo, Hold, ItemId, Items, Key, LeafNo,
    LeafState, LogEntry, NoMemory, Op, PendingWhy, Place, QueueName, Stamp, TreeCounts, TreeSizes,
    Turn, TurnAnswer, TxKind, Words,
};
