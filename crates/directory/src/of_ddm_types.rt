//! What this crate and those above it name of `ddm_types`.

pub use bus_judging::of_ddm_types::{
    BusNo, ChildNo, Hold, ItemId, NoMemory, PendingWhy, QueueName, Stamp, TreeSizes, TxKind, Words,
};
