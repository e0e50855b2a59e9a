//! What this crate and those above it name of `ddm_types`.

pub use film_parts::of_ddm_types::{
    BusNo, HartNo, ItemId, Items, LeafNo, LeafState, NoMemory, Turn, TurnAnswer, Words,
};
