//! What this crate and those above it name of `ddm_text`.

pub use text_model::of_ddm_text::{push_decimal, push_hex8};
