//! What this crate and those above it name of `ddm_types`.

pub use operation_list::of_ddm_types::{
    BusNo, ChildNo, Code, CodePart, Effect, HartNo, ItemId, Items, Key, LeafNo, LeafState,
    MOST_ITEMS, NoMemory, Op, PendingWhy, Span, Stamp, Start, TreeSizes, TurnAnswer, TxKind, Words,
    count_items,
};
