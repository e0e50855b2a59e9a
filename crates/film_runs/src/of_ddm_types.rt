//! What this crate and those above it name of `ddm_types`.

pub use film::of_ddm_types::{HartNo, ItemId, Items, NoMemory, Turn, TurnAnswer};
