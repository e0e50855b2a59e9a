//! What this crate and those above it name of `rv_decode`.

pub use rv_decode::{AmoOp, BranchOp, ImmOp, Instr, LoadOp, Reg, RegOp, StoreOp, decode, encode};
