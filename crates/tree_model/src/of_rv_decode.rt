//! What this crate and those above it name of `rv_decode`.

pub use flat_model::of_rv_decode::{AmoOp, ImmOp, Instr, LoadOp, Reg, RegOp, StoreOp, encode};
