//! What this crate and those above it name of `rv_hart`.

pub use inspector::of_rv_hart::Hart;
