//! What this crate and those above it name of `witness_check`.

pub use asked_commands::of_witness_check::check;
