//! What this crate and those above it name of `text_model`.

pub use text_model::RunCounts;
