//! What this crate and those above it name of `rv_hart`.

pub use rv_hart::Hart;
