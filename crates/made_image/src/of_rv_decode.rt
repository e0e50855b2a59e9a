//! What this crate and those above it name of `rv_decode`.

pub use text_model::of_rv_decode::{AmoOp, ImmOp, Instr, LoadOp, Reg, RegOp, StoreOp, encode};
