//! What this crate and those above it name of `ddm_types`.

pub use text_model::of_ddm_types::{
    BusNo, HaltCause, HartNo, ItemId, Items, LeafNo, LeafState, NoMemory, Turn, TurnAnswer, TxKind,
    Words,
};
