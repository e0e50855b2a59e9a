//! What this crate and those above it name of `ddm_types`.

pub use cluster::of_ddm_types::{
    BusNo, ChildNo, HartNo, ItemId, Items, LeafNo, LeafState, NoMemory, TreeCounts, Turn, TxKind,
    Words,
};
