//! What this crate and those above it name of `ddm_types`.

pub use directory::of_ddm_types::{
    BusNo, ChildNo, Hold, ItemId, NoMemory, PendingWhy, QueueName, Stamp, TxKind, Words,
};
