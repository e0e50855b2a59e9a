//! What this crate and those above it name of `ddm_text`.

pub use ddm_cli::of_ddm_text::Text;
