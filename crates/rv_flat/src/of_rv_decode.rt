//! What this crate and those above it name of `rv_decode`.

pub use rv_hart::of_rv_decode::Reg;
