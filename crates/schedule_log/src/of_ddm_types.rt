//! What this crate and those above it name of `ddm_types`.

pub use text_model::of_ddm_types::{BusNo, ChildNo, Divisor, HartNo, NoMemory, Turn};
