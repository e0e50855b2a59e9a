//! What crates above this one name of `ddm_text`.

pub use film_parts::of_ddm_text::{push_decimal, push_hex8};
