//! What this crate and those above it name of `ddm_types`.

pub use ddm_text::of_ddm_types::{
    BusNo, BusyCause, ChildNo, Effect, HaltCause, HartNo, ItemId, Key, LEVELS, LeafNo, LeafState,
    LogEntry, NoMemory, Op, PendingWhy, Place, QueueName, Turn, TurnAnswer, TxKind,
};
