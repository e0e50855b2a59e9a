//! Text as bytes: numbers written into it and read out of it, and its lines.
#![tactic(auto)]

mod lines;
mod numbers;
pub mod of_ddm_types;
mod reading;
mod text;

pub use lines::{LineCut, cut_line};
pub use numbers::{MOST_DIGITS, push_decimal, push_hex2, push_hex8, write_digits};
pub use reading::{NumberRefusal, read_decimal};
pub use text::Text;
