//! What this crate and those above it name of `ddm_types`.

pub use item_states::of_ddm_types::{
    BusyCause, ChildNo, Hold, ItemId, LogEntry, PendingWhy, Place, QueueName, Stamp, TurnAnswer,
    TxKind, Words,
};
