//! What this crate and those above it name of `text_model`.

pub use report::of_text_model::RunCounts;
