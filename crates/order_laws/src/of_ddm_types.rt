//! What this crate and those above it name of `ddm_types`.

pub use bus_laws::of_ddm_types::{
    BusNo, HaltCause, HartNo, NoMemory, Start, TreeSizes, Turn, TurnAnswer,
};
