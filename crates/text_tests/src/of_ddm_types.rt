//! What this crate and those above it name of `ddm_types`.

pub use operation_list::of_ddm_types::{
    BusNo, ChildNo, Effect, HartNo, Key, NoMemory, Op, Stamp, Start, Turn,
};
