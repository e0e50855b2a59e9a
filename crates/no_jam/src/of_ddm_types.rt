//! What this crate and those above it name of `ddm_types`.

pub use jam_laws::of_ddm_types::{BusNo, ChildNo, ItemId, LeafNo, LeafState, Turn};
