//! What this crate and those above it name of `ddm_types`.

pub use ddm_text::of_ddm_types::{
    BusNo, ChildNo, Code, Divisor, Effect, HaltCause, HartNo, ItemId, Items, Key, LeafNo,
    LeafState, LogEntry, MOST_ITEMS, NoMemory, Op, Place, Span, Start, TreeCounts, TreeSizes, Turn,
    TurnAnswer, TxKind, Words, count_items,
};
