//! What this crate and those above it name of `rv_hart`.

pub use any_machine::of_rv_hart::Hart;
