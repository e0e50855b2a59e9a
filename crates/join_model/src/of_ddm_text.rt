//! What this crate and those above it name of `ddm_text`.

pub use outcome_model::of_ddm_text::{push_decimal, read_decimal};
