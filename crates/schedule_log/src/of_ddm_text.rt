//! What this crate and those above it name of `ddm_text`.

pub use text_model::of_ddm_text::{
    LineCut, NumberRefusal, Text, cut_line, push_decimal, push_hex2, push_hex8, read_decimal,
};
