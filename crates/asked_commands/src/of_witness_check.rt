//! What this crate and those above it name of `witness_check`.

pub use ddm_cli::of_witness_check::check;
