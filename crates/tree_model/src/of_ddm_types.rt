//! What this crate and those above it name of `ddm_types`.

pub use flat_model::of_ddm_types::{
    BusNo, BusyCause, ChildNo, Code, CodePart, HaltCause, HartNo, Hold, ItemId, Items, LeafNo,
    LeafState, LogEntry, MOST_ITEMS, NoMemory, Op, PendingWhy, Place, QueueName, Span, Stamp,
    Start, TreeSizes, Turn, TurnAnswer, TxKind, Words, count_items,
};
