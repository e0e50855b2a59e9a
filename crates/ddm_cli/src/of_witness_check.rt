//! What this crate and those above it name of `witness_check`.

pub use witness_check::check;
