//! What this crate and those above it name of `ddm_text`.

pub use outcomes::of_ddm_text::Text;
