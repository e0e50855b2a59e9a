//! What this crate and those above it name of `ddm_types`.

pub use tree_rules::of_ddm_types::{
    BusNo, ChildNo, HaltCause, HartNo, ItemId, LeafNo, LeafState, NoMemory, Op, Start, TreeSizes,
    Turn, TurnAnswer,
};
