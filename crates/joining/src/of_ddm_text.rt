//! What this crate and those above it name of `ddm_text`.

pub use join_model::of_ddm_text::{push_decimal, read_decimal};
