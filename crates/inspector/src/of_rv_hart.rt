//! What this crate and those above it name of `rv_hart`.

pub use start_parts::of_rv_hart::Hart;
