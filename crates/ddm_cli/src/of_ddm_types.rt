//! What this crate and those above it name of `ddm_types`.

pub use outcomes::of_ddm_types::{BusNo, NoMemory, Start, TreeSizes, Turn, TurnAnswer};
