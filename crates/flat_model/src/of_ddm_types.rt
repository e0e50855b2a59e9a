//! What this crate and those above it name of `ddm_types`.

pub use ddm_types::{
    BusNo, BusyCause, ChildNo, Code, CodePart, Effect, HaltCause, HartNo, Hold, ItemId, Items, Key,
    LeafNo, LeafState, LogEntry, MOST_ITEMS, NoMemory, Op, PendingWhy, Place, QueueName, Span,
    Stamp, Start, TreeSizes, Turn, TurnAnswer, TxKind, Words, count_items,
};
