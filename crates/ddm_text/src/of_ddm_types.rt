//! What this crate and those above it name of `ddm_types`.

pub use ddm_types::{
    BusNo, BusyCause, ChildNo, Code, Divisor, Effect, HaltCause, HartNo, Hold, ItemId, Items, Key,
    LEVELS, LeafNo, LeafState, LogEntry, MOST_ITEMS, NoMemory, Op, PendingWhy, Place, QueueName,
    Span, Stamp, Start, TreeCounts, TreeSizes, Turn, TurnAnswer, TxKind, Words, count_items,
};
