//! What this crate and those above it name of `ddm_text`.

pub use ddm_text::{MOST_DIGITS, write_digits};
